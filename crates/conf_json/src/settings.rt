//! Settings of components, with their statements as planned.

use conf_draft::{Action, Draft, ErrorMode};
use item_list::ItemList;
use ottl_plan::{PlannedCondition, PlannedStatement};
use pdata_tree::Context;
use pdata_value::Text;

/// Statements of one context, and the conditions on them.
#[derive(Drop)]
pub struct Group {
    pub context: Context,
    pub conditions: ItemList<PlannedCondition>,
    pub statements: ItemList<PlannedStatement>,
}

#[derive(Drop)]
pub struct TransformSettings {
    pub error_mode: ErrorMode,
    pub log_statements: ItemList<Group>,
}

#[derive(Drop)]
pub struct FilterSettings {
    pub error_mode: ErrorMode,
    pub log_record: ItemList<PlannedCondition>,
}

#[derive(Drop)]
pub struct GroupSettings {
    pub keys: ItemList<Text>,
}

#[derive(Drop)]
pub enum ProcessorSettings {
    Transform(TransformSettings),
    Filter(FilterSettings),
    GroupByAttrs(GroupSettings),
}

/// A row of a routing table. Its context is `Resource` or `Log`.
#[derive(Drop)]
pub struct RouteRow {
    pub context: Context,
    pub condition: PlannedCondition,
    pub pipelines: ItemList<Text>,
    pub action: Action,
}

#[derive(Drop)]
pub struct RouteSettings {
    pub error_mode: ErrorMode,
    pub table: ItemList<RouteRow>,
    pub default_pipelines: ItemList<Text>,
}

/// What a configuration spells: with its statements as texts, and as planned.
#[derive(Drop)]
pub struct Meant {
    pub draft: Draft,
    pub planned: Planned,
}

/// What the statements of a configuration are planned as: connectors, then processors, each in the
/// byte order of their names.
#[derive(Drop)]
pub struct Planned {
    pub connectors: ItemList<RouteSettings>,
    pub processors: ItemList<ProcessorSettings>,
}
