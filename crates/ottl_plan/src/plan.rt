//! Plans statements and conditions, in a walk from left to right.

ghost use Rattle.std.specs.Prelude.{◌≡◌, IfOk, map};
ghost use Rattle.ottl_parse.specs.Checks.{is_upper};
ghost use Rattle.ottl_plan.specs.Answers as answers;
ghost use Rattle.ottl_plan.specs.Answers.{Plans, Counts, RefusesNothing};
ghost use Rattle.ottl_plan.specs.Planning as spec;
ghost use Rattle.ottl_plan.specs.Planning.{seen};
ghost use Rattle.ottl_plan.specs.Severities.{severity_of};

use crate::argument::{Argument, ArgumentKind};
use crate::fault::{PlanKind, PlanStop, stop};
use crate::function::{Converter, Editor};
use crate::literal::plan_literal;
use crate::paths::plan_path;
use crate::planned::{
    Arguments, Conversion, Edit, PlannedCompare, PlannedCondition, PlannedExpr, PlannedExprs,
    PlannedPart, PlannedParts, PlannedStatement, PlannedTerm, PlannedTerms,
};
use crate::severity::severity_of;
use func_text::PatternMaker;
use item_list::ItemList;
use ottl_parse::{Call, Compare, Condition, Expr, ExprKind, MapPart, Path, Statement, Term};
use pdata_tree::{Context, PathTo};
use pdata_value::Value;
use sqlite_items::Boxed;
use std::alloc::Global;

fn is_upper(name: &str) -> bool
    ensures { result ≡ is_upper name.now }
{
    matches!(name.as_bytes(), [b'A'..=b'Z', ..])
}

// The number that a severity's name stands for.
fn plan_name(name: &str, at: u32) -> Result<i64, PlanStop>
    ensures plan { Plans result (spec.numbered at (severity_of name.now)) }
    ensures count { RefusesNothing result }
{
    match severity_of(name) {
        Some(number) => Ok(number),
        None => Err(stop(PlanKind::UnknownEnum, at)),
    }
}

#[cycle(plan)]
#[tactic(auto, using(crate::proofs::Seen::whole))]
fn plan_value<P: PatternMaker>(
    alloc: Global,
    maker: &mut P,
    context: Context,
    expr: &Expr,
) -> Result<PlannedExpr, PlanStop>
    ensures plan { Plans result ((seen expr.now).value context) }
    ensures count { Counts (P.refusals maker.old) (P.refusals maker.new) result }
{
    plan_kind(alloc, maker, context, &expr.kind, expr.at)
}

// An expression of this kind at a place.
#[cycle(plan)]
#[tactic(auto, using(crate::proofs::Seen::values))]
fn plan_kind<P: PatternMaker>(
    alloc: Global,
    maker: &mut P,
    context: Context,
    kind: &ExprKind,
    at: u32,
) -> Result<PlannedExpr, PlanStop>
    ensures plan { Plans result ((spec.kind_seen kind.now at).value context) }
    ensures count { Counts (P.refusals maker.old) (P.refusals maker.new) result }
{
    match kind {
        ExprKind::Literal(value) => Ok(PlannedExpr::Literal(value.copy()?)),
        ExprKind::List(exprs) => Ok(PlannedExpr::List(plan_values(
            alloc,
            maker,
            context,
            exprs.as_slice(),
        )?)),
        ExprKind::Map(parts) => Ok(PlannedExpr::Map(plan_parts(
            alloc,
            maker,
            context,
            parts.as_slice(),
        )?)),
        ExprKind::Call(call) => Ok(PlannedExpr::Convert(plan_call(alloc, maker, context, call)?)),
        ExprKind::Path(path) => Ok(PlannedExpr::Path(plan_path(alloc, context, path, at)?)),
        ExprKind::Enum(name) => {
            let number = plan_name(name.as_str(), at)?;
            Ok(PlannedExpr::Literal(Value::Int(number)))
        }
        ExprKind::Sum(terms) => Ok(PlannedExpr::Sum(plan_terms(
            alloc,
            maker,
            context,
            terms.as_slice(),
        )?)),
        ExprKind::Product(terms) => Ok(PlannedExpr::Product(plan_terms(
            alloc,
            maker,
            context,
            terms.as_slice(),
        )?)),
        ExprKind::Compare(compare) => Ok(PlannedExpr::Compare(plan_sides(
            alloc, maker, context, compare,
        )?)),
        ExprKind::Not(operand) => {
            let operand = plan_value(alloc, maker, context, operand.get())?;
            Ok(PlannedExpr::Not(Boxed::new(alloc, operand)?))
        }
        ExprKind::And(exprs) => Ok(PlannedExpr::And(plan_values(
            alloc,
            maker,
            context,
            exprs.as_slice(),
        )?)),
        ExprKind::Or(exprs) => Ok(PlannedExpr::Or(plan_values(
            alloc,
            maker,
            context,
            exprs.as_slice(),
        )?)),
    }
}

#[cycle(plan)]
#[tactic(auto, using(crate::proofs::Lists::from_start))]
fn plan_values<P: PatternMaker>(
    alloc: Global,
    maker: &mut P,
    context: Context,
    exprs: &[Expr],
) -> Result<PlannedExprs, PlanStop>
    ensures plan { Plans result (spec.values_of context (map seen exprs.now)) }
    ensures count { Counts (P.refusals maker.old) (P.refusals maker.new) result }
{
    let mut planned = ItemList::new(alloc);
    for expr in exprs {
        planned.push(plan_value(alloc, maker, context, expr)?)?;
    }
    Ok(planned)
}

#[cycle(plan)]
#[tactic(auto, using(crate::proofs::Lists::from_start))]
fn plan_parts<P: PatternMaker>(
    alloc: Global,
    maker: &mut P,
    context: Context,
    parts: &[MapPart],
) -> Result<PlannedParts, PlanStop>
    ensures plan { Plans result (answers.all_of (map (spec.part_in context) parts.now)) }
    ensures count { Counts (P.refusals maker.old) (P.refusals maker.new) result }
{
    let mut planned = ItemList::new(alloc);
    for part in parts {
        let value = plan_value(alloc, maker, context, &part.value)?;
        let key = part.key.copy()?;
        planned.push(PlannedPart { key, value })?;
    }
    Ok(planned)
}

#[cycle(plan)]
#[tactic(auto, using(crate::proofs::Lists::from_start))]
fn plan_terms<P: PatternMaker>(
    alloc: Global,
    maker: &mut P,
    context: Context,
    terms: &[Term],
) -> Result<PlannedTerms, PlanStop>
    ensures plan { Plans result (answers.all_of (map (spec.term_in context) terms.now)) }
    ensures count { Counts (P.refusals maker.old) (P.refusals maker.new) result }
{
    let mut planned = ItemList::new(alloc);
    for term in terms {
        let expr = plan_value(alloc, maker, context, &term.expr)?;
        let sign = term.sign;
        planned.push(PlannedTerm { sign, expr })?;
    }
    Ok(planned)
}

#[cycle(plan)]
fn plan_sides<P: PatternMaker>(
    alloc: Global,
    maker: &mut P,
    context: Context,
    compare: &Compare,
) -> Result<PlannedCompare, PlanStop>
    ensures plan { Plans result (spec.compare_in context compare.now) }
    ensures count { Counts (P.refusals maker.old) (P.refusals maker.new) result }
{
    let left = plan_value(alloc, maker, context, compare.left.get())?;
    let right = plan_value(alloc, maker, context, compare.right.get())?;
    Ok(PlannedCompare {
        sign: compare.sign,
        left: Boxed::new(alloc, left)?,
        right: Boxed::new(alloc, right)?,
    })
}

// A call of a converter.
#[cycle(plan)]
fn plan_call<P: PatternMaker>(
    alloc: Global,
    maker: &mut P,
    context: Context,
    call: &Call,
) -> Result<Conversion, PlanStop>
    ensures plan { Plans result (spec.conversion_in context call.now) }
    ensures count { Counts (P.refusals maker.old) (P.refusals maker.new) result }
{
    if !is_upper(call.name.as_str()) {
        return Err(stop(PlanKind::ConverterWanted, call.at));
    }
    let Some(converter) = Converter::of_name(call.name.as_str()) else {
        return Err(stop(PlanKind::UnknownFunction, call.at));
    };
    let wanted = converter.arguments();
    if call.arguments.len() != wanted.len() {
        return Err(stop(PlanKind::WrongArity, call.at));
    }
    let arguments = plan_arguments(alloc, maker, context, wanted, call.arguments.as_slice())?;
    Ok(Conversion {
        converter,
        arguments,
    })
}

// An argument, by what is wanted.
#[cycle(plan)]
fn plan_argument<P: PatternMaker>(
    alloc: Global,
    maker: &mut P,
    context: Context,
    kind: ArgumentKind,
    expr: &Expr,
) -> Result<Argument, PlanStop>
    ensures plan { Plans result (spec.argument_of context kind (seen expr.now)) }
    ensures count { Counts (P.refusals maker.old) (P.refusals maker.new) result }
{
    if kind.is_value() {
        return Ok(Argument::Value(plan_value(alloc, maker, context, expr)?));
    }
    Ok(Argument::Literal(plan_literal(alloc, maker, kind, expr)?))
}

// Arguments, each by what is wanted in its place.
#[cycle(plan)]
#[tactic(auto, using(crate::proofs::Lists::arguments_start))]
fn plan_arguments<P: PatternMaker>(
    alloc: Global,
    maker: &mut P,
    context: Context,
    kinds: &[ArgumentKind],
    exprs: &[Expr],
) -> Result<Arguments, PlanStop>
    ensures plan { Plans result (spec.arguments_of context kinds.now (map seen exprs.now)) }
    ensures count { Counts (P.refusals maker.old) (P.refusals maker.new) result }
{
    let mut values = ItemList::new(alloc);
    let mut literals = ItemList::new(alloc);
    let mut rest = kinds;
    for expr in exprs {
        let [kind, behind @ ..] = rest else {
            break;
        };
        rest = behind;
        let argument = plan_argument(alloc, maker, context, *kind, expr)?;
        argument.push(&mut values, &mut literals)?;
    }
    Ok(Arguments { values, literals })
}

// A path of the context.
#[tactic(auto, using(crate::proofs::Seen::forms))]
fn plan_target_kind(
    alloc: Global,
    context: Context,
    kind: &ExprKind,
    at: u32,
) -> Result<PathTo, PlanStop>
    ensures plan { Plans result (spec.target_of context at (spec.form_of kind.now)) }
    ensures count { RefusesNothing result }
{
    match kind {
        ExprKind::Path(path) => plan_path(alloc, context, path, at),
        ExprKind::Literal(_)
        | ExprKind::List(_)
        | ExprKind::Map(_)
        | ExprKind::Call(_)
        | ExprKind::Enum(_)
        | ExprKind::Sum(_)
        | ExprKind::Product(_)
        | ExprKind::Compare(_)
        | ExprKind::Not(_)
        | ExprKind::And(_)
        | ExprKind::Or(_) => Err(stop(PlanKind::WrongKind, at)),
    }
}

#[tactic(auto, using(crate::proofs::Seen::whole_form))]
fn plan_target(alloc: Global, context: Context, expr: &Expr) -> Result<PathTo, PlanStop>
    ensures plan { Plans result (spec.target_of context expr.now.at (seen expr.now).form) }
    ensures count { RefusesNothing result }
{
    plan_target_kind(alloc, context, &expr.kind, expr.at)
}

// The call of a statement.
fn plan_edit<P: PatternMaker>(
    alloc: Global,
    maker: &mut P,
    context: Context,
    call: &Call,
) -> Result<Edit, PlanStop>
    ensures plan { Plans result (spec.edit_of context call.now) }
    ensures count { Counts (P.refusals maker.old) (P.refusals maker.new) result }
{
    if is_upper(call.name.as_str()) {
        return Err(stop(PlanKind::EditorWanted, call.at));
    }
    let Some(editor) = Editor::of_name(call.name.as_str()) else {
        return Err(stop(PlanKind::UnknownFunction, call.at));
    };
    let wanted = editor.arguments();
    let [target, rest @ ..] = call.arguments.as_slice() else {
        return Err(stop(PlanKind::WrongArity, call.at));
    };
    if rest.len() != wanted.len() {
        return Err(stop(PlanKind::WrongArity, call.at));
    }
    let target = plan_target(alloc, context, target)?;
    let arguments = plan_arguments(alloc, maker, context, wanted, rest)?;
    Ok(Edit {
        editor,
        target,
        arguments,
    })
}

/// The condition in a context. Its patterns are made by the maker.
pub fn plan_condition<P: PatternMaker>(
    alloc: Global,
    maker: &mut P,
    condition: &Condition,
    context: Context,
) -> Result<PlannedCondition, PlanStop>
    ensures plan { Plans result (spec.planned_condition context condition.now) }
    ensures context { IfOk result (λ planned. planned.context ≡ context) }
    ensures count { Counts (P.refusals maker.old) (P.refusals maker.new) result }
{
    let expr = plan_value(alloc, maker, context, &condition.expr)?;
    Ok(PlannedCondition { context, expr })
}

// The condition behind `where`, if there is one.
fn plan_where<P: PatternMaker>(
    alloc: Global,
    maker: &mut P,
    condition: &Option<Condition>,
    context: Context,
) -> Result<Option<PlannedCondition>, PlanStop>
    ensures plan { Plans result (spec.planned_where context condition.now) }
    ensures count { Counts (P.refusals maker.old) (P.refusals maker.new) result }
{
    match condition {
        Some(condition) => Ok(Some(plan_condition(alloc, maker, condition, context)?)),
        None => Ok(None),
    }
}

/// The statement in a context. Its patterns are made by the maker.
pub fn plan_statement<P: PatternMaker>(
    alloc: Global,
    maker: &mut P,
    statement: &Statement,
    context: Context,
) -> Result<PlannedStatement, PlanStop>
    ensures plan { Plans result (spec.planned_statement context statement.now) }
    ensures context { IfOk result (λ planned. planned.context ≡ context) }
    ensures count { Counts (P.refusals maker.old) (P.refusals maker.new) result }
{
    let edit = plan_edit(alloc, maker, context, &statement.call)?;
    let condition = plan_where(alloc, maker, &statement.condition, context)?;
    Ok(PlannedStatement {
        context,
        edit,
        condition,
    })
}
