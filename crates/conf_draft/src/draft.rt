//! What a configuration of a right shape spells.

use item_list::ItemList;
use pdata_tree::Context;
use pdata_value::Text;

/// What an error of a statement or a condition does.
#[derive(Clone, Copy, Debug, PartialEq, Eq)]
pub enum ErrorMode {
    /// It is counted and noted, and the work goes on.
    Ignore,
    /// The work goes on.
    Silent,
    /// The leg fails.
    Propagate,
}

/// What becomes of the data that a row matches.
#[derive(Clone, Copy, Debug, PartialEq, Eq)]
pub enum Action {
    /// Later rows don't see it.
    Move,
    Copy,
}

/// Statements of one context, and the conditions on them.
#[derive(Drop)]
pub struct GroupDraft {
    pub context: Context,
    pub conditions: ItemList<Text>,
    pub statements: ItemList<Text>,
}

#[derive(Drop)]
pub struct TransformDraft {
    pub mode: ErrorMode,
    pub groups: ItemList<GroupDraft>,
}

#[derive(Drop)]
pub struct FilterDraft {
    pub mode: ErrorMode,
    pub conditions: ItemList<Text>,
}

#[derive(Drop)]
pub enum ProcessorKind {
    Transform(TransformDraft),
    Filter(FilterDraft),
    /// The keys of `groupbyattrs`.
    GroupByAttrs(ItemList<Text>),
}

#[derive(Drop)]
pub struct Processor {
    pub name: Text,
    pub kind: ProcessorKind,
}

/// A row of a routing table. Its context is `Resource` or `Log`.
#[derive(Drop)]
pub struct RowDraft {
    pub context: Context,
    pub condition: Text,
    pub pipelines: ItemList<Text>,
    pub action: Action,
}

/// A routing connector. Without default pipelines it has no default.
#[derive(Drop)]
pub struct Connector {
    pub name: Text,
    pub mode: ErrorMode,
    pub rows: ItemList<RowDraft>,
    pub defaults: ItemList<Text>,
}

#[derive(Drop)]
pub struct Exporter {
    pub name: Text,
    pub path: Text,
}

/// A pipeline: names of components.
#[derive(Drop)]
pub struct Pipeline {
    pub name: Text,
    pub receivers: ItemList<Text>,
    pub processors: ItemList<Text>,
    pub exporters: ItemList<Text>,
}

/// All that a configuration spells. Components stand in the byte order of their names.
#[derive(Drop)]
pub struct Draft {
    pub receivers: ItemList<Text>,
    pub processors: ItemList<Processor>,
    pub connectors: ItemList<Connector>,
    pub exporters: ItemList<Exporter>,
    pub pipelines: ItemList<Pipeline>,
}
