//! Plans the statements and conditions of a configuration.

ghost use Rattle.std.specs.Prelude.{◌≡◌, IfOk};
ghost use Rattle.ottl_parse.specs.Parsing.{statement_of, condition_of};
ghost use Rattle.contract_words.specs.Gives.{Gives};
ghost use Rattle.conf_shape.specs.Path.{pointer_of};
ghost use Rattle.pdata_tree.specs.declared.place.Context.TheVariants.{Log};
ghost use Rattle.conf_json.specs.Planning as spec;
ghost use Rattle.conf_json.specs.Planning.{parsed_at, each_at, statement_at, condition_at};
ghost use Rattle.conf_json.specs.Planning.{group_at, group_with, row_at, connector_at};
ghost use Rattle.conf_json.specs.Planning.{connectors_at, kind_at, processors_at};
ghost use Rattle.conf_json.specs.Planning.{planned_at_place, planned_of, planned_with};
ghost use Rattle.conf_json.specs.Fault.{fault_of};
ghost use Rattle.conf_json.specs.Plans.{Plans};

use crate::fault::{ConfStop, Inner, bad_statement};
use crate::settings::{
    FilterSettings, Group, GroupSettings, Planned, ProcessorSettings, RouteRow, RouteSettings,
    TransformSettings,
};
use conf_draft::{Connector, Draft, GroupDraft, Processor, ProcessorKind, RowDraft};
use conf_shape::Path;
use func_text::PatternMaker;
use item_list::ItemList;
use ottl_lex::{MAX_TEXT, SyntaxStop};
use ottl_parse::{Condition, Statement, parse_condition, parse_statement};
use ottl_plan::{PlanStop, PlannedCondition, PlannedStatement, plan_condition, plan_statement};
use pdata_tree::Context;
use pdata_value::Text;
use std::alloc::{AllocError, Global};

// A text of a configuration is shorter than the configuration; a longer one wants more memory than
// there is.
fn parse_statement_at<'a>(
    alloc: Global,
    path: &'a Path<'a>,
    text: &str,
) -> Result<Statement, ConfStop>
    ensures { Gives (λ statement. statement) fault_of result
        (parsed_at (pointer_of path.now) (statement_of text.now)) }
{
    if MAX_TEXT < text.len() {
        return Err(ConfStop::NoMemory);
    }
    match parse_statement(alloc, text) {
        Ok(statement) => Ok(statement),
        Err(SyntaxStop::Fault(fault)) => Err(bad_statement(alloc, path, Inner::Syntax(fault))),
        Err(SyntaxStop::NoMemory) => Err(ConfStop::NoMemory),
    }
}

fn parse_condition_at<'a>(
    alloc: Global,
    path: &'a Path<'a>,
    text: &str,
) -> Result<Condition, ConfStop>
    ensures { Gives (λ condition. condition) fault_of result
        (parsed_at (pointer_of path.now) (condition_of text.now)) }
{
    if MAX_TEXT < text.len() {
        return Err(ConfStop::NoMemory);
    }
    match parse_condition(alloc, text) {
        Ok(condition) => Ok(condition),
        Err(SyntaxStop::Fault(fault)) => Err(bad_statement(alloc, path, Inner::Syntax(fault))),
        Err(SyntaxStop::NoMemory) => Err(ConfStop::NoMemory),
    }
}

fn plan_statement_at<'a, P: PatternMaker>(
    alloc: Global,
    maker: &mut P,
    context: Context,
    path: &'a Path<'a>,
    text: &str,
) -> Result<PlannedStatement, ConfStop>
    ensures { Plans (P.refusals maker.old) (P.refusals maker.new) result
        (statement_at context (pointer_of path.now) text.now) }
{
    let statement = parse_statement_at(alloc, path, text)?;
    match plan_statement(alloc, maker, &statement, context) {
        Ok(planned) => Ok(planned),
        Err(PlanStop::Fault(fault)) => Err(bad_statement(alloc, path, Inner::Plan(fault))),
        Err(PlanStop::NoMemory) => Err(ConfStop::NoMemory),
    }
}

fn plan_condition_at<'a, P: PatternMaker>(
    alloc: Global,
    maker: &mut P,
    context: Context,
    path: &'a Path<'a>,
    text: &str,
) -> Result<PlannedCondition, ConfStop>
    ensures { Plans (P.refusals maker.old) (P.refusals maker.new) result
        (condition_at context (pointer_of path.now) text.now) }
{
    let condition = parse_condition_at(alloc, path, text)?;
    match plan_condition(alloc, maker, &condition, context) {
        Ok(planned) => Ok(planned),
        Err(PlanStop::Fault(fault)) => Err(bad_statement(alloc, path, Inner::Plan(fault))),
        Err(PlanStop::NoMemory) => Err(ConfStop::NoMemory),
    }
}

#[tactic(auto, using(crate::proofs::Each::from_start))]
fn plan_statements<'a, P: PatternMaker>(
    alloc: Global,
    maker: &mut P,
    context: Context,
    path: &'a Path<'a>,
    texts: &'a [Text],
) -> Result<ItemList<PlannedStatement>, ConfStop>
    ensures { Plans (P.refusals maker.old) (P.refusals maker.new) result
        (each_at (statement_at context) (pointer_of path.now) 0 texts.now) }
{
    let mut list = ItemList::new(alloc);
    for (index, text) in texts.iter().enumerate() {
        let here = path.element(index);
        list.push(plan_statement_at(alloc, maker, context, &here, text.as_str())?)?;
    }
    Ok(list)
}

#[tactic(auto, using(crate::proofs::Each::from_start))]
fn plan_conditions<'a, P: PatternMaker>(
    alloc: Global,
    maker: &mut P,
    context: Context,
    path: &'a Path<'a>,
    texts: &'a [Text],
) -> Result<ItemList<PlannedCondition>, ConfStop>
    ensures { Plans (P.refusals maker.old) (P.refusals maker.new) result
        (each_at (condition_at context) (pointer_of path.now) 0 texts.now) }
{
    let mut list = ItemList::new(alloc);
    for (index, text) in texts.iter().enumerate() {
        let here = path.element(index);
        list.push(plan_condition_at(alloc, maker, context, &here, text.as_str())?)?;
    }
    Ok(list)
}

#[tactic(auto, using(crate::proofs::Each::plans_ok))]
fn plan_group<'a, P: PatternMaker>(
    alloc: Global,
    maker: &mut P,
    path: &'a Path<'a>,
    group: &'a GroupDraft,
) -> Result<Group, ConfStop>
    ensures { Plans (P.refusals maker.old) (P.refusals maker.new) result
        (group_at (pointer_of path.now) group.now) }
{
    let context = group.context;
    let here = path.member("conditions");
    let conditions = group.conditions.as_slice();
    let conditions = plan_conditions(alloc, maker, context, &here, conditions)?;
    plan_group_with(alloc, maker, path, group, conditions)
}

// A group with these conditions.
fn plan_group_with<'a, P: PatternMaker>(
    alloc: Global,
    maker: &mut P,
    path: &'a Path<'a>,
    group: &'a GroupDraft,
    conditions: ItemList<PlannedCondition>,
) -> Result<Group, ConfStop>
    ensures { Plans (P.refusals maker.old) (P.refusals maker.new) result
        (group_with (pointer_of path.now) group.now conditions) }
{
    let context = group.context;
    let here = path.member("statements");
    let statements = group.statements.as_slice();
    let statements = plan_statements(alloc, maker, context, &here, statements)?;
    Ok(Group {
        context,
        conditions,
        statements,
    })
}

#[tactic(auto, using(crate::proofs::Each::from_start))]
fn plan_groups<'a, P: PatternMaker>(
    alloc: Global,
    maker: &mut P,
    path: &'a Path<'a>,
    groups: &'a [GroupDraft],
) -> Result<ItemList<Group>, ConfStop>
    ensures { Plans (P.refusals maker.old) (P.refusals maker.new) result
        (each_at group_at (pointer_of path.now) 0 groups.now) }
{
    let mut list = ItemList::new(alloc);
    for (index, group) in groups.iter().enumerate() {
        list.push(plan_group(alloc, maker, &path.element(index), group)?)?;
    }
    Ok(list)
}

fn plan_row<'a, P: PatternMaker>(
    alloc: Global,
    maker: &mut P,
    path: &'a Path<'a>,
    row: &'a RowDraft,
) -> Result<RouteRow, ConfStop>
    ensures { Plans (P.refusals maker.old) (P.refusals maker.new) result
        (row_at (pointer_of path.now) row.now) }
{
    let here = path.member("condition");
    let text = row.condition.as_str();
    let condition = plan_condition_at(alloc, maker, row.context, &here, text)?;
    Ok(RouteRow {
        context: row.context,
        condition,
        pipelines: copy_texts(alloc, row.pipelines.as_slice())?,
        action: row.action,
    })
}

fn copy_texts(alloc: Global, texts: &[Text]) -> Result<ItemList<Text>, AllocError>
    ensures { IfOk result (λ copy. copy ≡ texts.now) }
{
    let mut copy = ItemList::new(alloc);
    for text in texts {
        copy.push(text.copy()?)?;
    }
    Ok(copy)
}

#[tactic(auto, using(crate::proofs::Each::from_start))]
fn plan_rows<'a, P: PatternMaker>(
    alloc: Global,
    maker: &mut P,
    path: &'a Path<'a>,
    rows: &'a [RowDraft],
) -> Result<ItemList<RouteRow>, ConfStop>
    ensures { Plans (P.refusals maker.old) (P.refusals maker.new) result
        (each_at row_at (pointer_of path.now) 0 rows.now) }
{
    let mut list = ItemList::new(alloc);
    for (index, row) in rows.iter().enumerate() {
        list.push(plan_row(alloc, maker, &path.element(index), row)?)?;
    }
    Ok(list)
}

fn plan_connector<'a, P: PatternMaker>(
    alloc: Global,
    maker: &mut P,
    path: &'a Path<'a>,
    connector: &'a Connector,
) -> Result<RouteSettings, ConfStop>
    ensures { Plans (P.refusals maker.old) (P.refusals maker.new) result
        (connector_at (pointer_of path.now) connector.now) }
{
    let here = path.member("table");
    let table = plan_rows(alloc, maker, &here, connector.rows.as_slice())?;
    Ok(RouteSettings {
        error_mode: connector.mode,
        table,
        default_pipelines: copy_texts(alloc, connector.defaults.as_slice())?,
    })
}

#[tactic(auto, using(crate::proofs::Each::from_start))]
fn plan_connectors<'a, P: PatternMaker>(
    alloc: Global,
    maker: &mut P,
    path: &'a Path<'a>,
    connectors: &'a [Connector],
) -> Result<ItemList<RouteSettings>, ConfStop>
    ensures { Plans (P.refusals maker.old) (P.refusals maker.new) result
        (connectors_at (pointer_of path.now) connectors.now) }
{
    let mut list = ItemList::new(alloc);
    for connector in connectors {
        let here = path.member(connector.name.as_str());
        list.push(plan_connector(alloc, maker, &here, connector)?)?;
    }
    Ok(list)
}

fn plan_filter<'a, P: PatternMaker>(
    alloc: Global,
    maker: &mut P,
    path: &'a Path<'a>,
    texts: &'a [Text],
) -> Result<ItemList<PlannedCondition>, ConfStop>
    ensures { Plans (P.refusals maker.old) (P.refusals maker.new) result
        (each_at (condition_at Log) (spec.filter_conditions (pointer_of path.now)) 0 texts.now) }
{
    let logs = path.member("logs");
    let here = logs.member("log_record");
    plan_conditions(alloc, maker, Context::Log, &here, texts)
}

fn plan_kind<'a, P: PatternMaker>(
    alloc: Global,
    maker: &mut P,
    path: &'a Path<'a>,
    kind: &'a ProcessorKind,
) -> Result<ProcessorSettings, ConfStop>
    ensures { Plans (P.refusals maker.old) (P.refusals maker.new) result
        (kind_at (pointer_of path.now) kind.now) }
{
    match kind {
        ProcessorKind::Transform(transform) => {
            let here = path.member("log_statements");
            let groups = plan_groups(alloc, maker, &here, transform.groups.as_slice())?;
            Ok(ProcessorSettings::Transform(TransformSettings {
                error_mode: transform.mode,
                log_statements: groups,
            }))
        }
        ProcessorKind::Filter(filter) => {
            let conditions = plan_filter(alloc, maker, path, filter.conditions.as_slice())?;
            Ok(ProcessorSettings::Filter(FilterSettings {
                error_mode: filter.mode,
                log_record: conditions,
            }))
        }
        ProcessorKind::GroupByAttrs(keys) => {
            let keys = copy_texts(alloc, keys.as_slice())?;
            Ok(ProcessorSettings::GroupByAttrs(GroupSettings { keys }))
        }
    }
}

#[tactic(auto, using(crate::proofs::Each::from_start))]
fn plan_processors<'a, P: PatternMaker>(
    alloc: Global,
    maker: &mut P,
    path: &'a Path<'a>,
    processors: &'a [Processor],
) -> Result<ItemList<ProcessorSettings>, ConfStop>
    ensures { Plans (P.refusals maker.old) (P.refusals maker.new) result
        (processors_at (pointer_of path.now) processors.now) }
{
    let mut list = ItemList::new(alloc);
    for processor in processors {
        let here = path.member(processor.name.as_str());
        list.push(plan_kind(alloc, maker, &here, &processor.kind)?)?;
    }
    Ok(list)
}

/// Plans all statements and conditions: of the connectors, then of the processors.
pub(crate) fn plan_all<P: PatternMaker>(
    alloc: Global,
    maker: &mut P,
    draft: &Draft,
) -> Result<Planned, ConfStop>
    ensures { Plans (P.refusals maker.old) (P.refusals maker.new) result (planned_of draft.now) }
{
    let top = Path::top();
    plan_at(alloc, maker, &top, draft)
}

// The same of a configuration that stands there.
#[tactic(auto, using(crate::proofs::Each::plans_ok))]
fn plan_at<'a, P: PatternMaker>(
    alloc: Global,
    maker: &mut P,
    path: &'a Path<'a>,
    draft: &'a Draft,
) -> Result<Planned, ConfStop>
    ensures { Plans (P.refusals maker.old) (P.refusals maker.new) result
        (planned_at_place (pointer_of path.now) draft.now) }
{
    let here = path.member("connectors");
    let connectors = plan_connectors(alloc, maker, &here, draft.connectors.as_slice())?;
    plan_with(alloc, maker, path, draft, connectors)
}

// The processors, behind these connectors.
fn plan_with<'a, P: PatternMaker>(
    alloc: Global,
    maker: &mut P,
    path: &'a Path<'a>,
    draft: &'a Draft,
    connectors: ItemList<RouteSettings>,
) -> Result<Planned, ConfStop>
    ensures { Plans (P.refusals maker.old) (P.refusals maker.new) result
        (planned_with (pointer_of path.now) draft.now connectors) }
{
    let here = path.member("processors");
    let processors = plan_processors(alloc, maker, &here, draft.processors.as_slice())?;
    Ok(Planned {
        connectors,
        processors,
    })
}
