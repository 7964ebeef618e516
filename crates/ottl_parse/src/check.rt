//! Whether conditions and values stand where they may.

ghost use Rattle.std.specs.Prelude.{◌≡◌, map};
ghost use Rattle.ottl_parse.specs.Checks as spec;
ghost use Rattle.ottl_parse.specs.Checks.{all_well, is_upper, check_arguments};
ghost use Rattle.ottl_parse.specs.Parsing.{check_statement, check_condition};

use crate::expr::{Call, Compare, Expr, ExprKind, MapPart, Term};
use crate::statement::{Condition, Statement};
use ottl_lex::{SyntaxFault, SyntaxKind};
use pdata_value::Value;

/// What may stand at a place.
#[derive(Clone, Copy)]
pub(crate) enum Wanted {
    Condition,
    Value,
}

pub(crate) fn check_statement(statement: &Statement) -> Result<(), SyntaxFault>
    ensures { result ≡ check_statement statement.now }
{
    check_arguments(&statement.call)?;
    match &statement.condition {
        Some(condition) => check_condition(condition),
        None => Ok(()),
    }
}

pub(crate) fn check_condition(condition: &Condition) -> Result<(), SyntaxFault>
    ensures { result ≡ check_condition condition.now }
{
    check(&condition.expr, Wanted::Condition)
}

fn value_at(at: u32, wanted: Wanted) -> Result<(), SyntaxFault>
    ensures { result ≡ spec.value_at at wanted }
{
    match wanted {
        Wanted::Value => Ok(()),
        Wanted::Condition => Err(SyntaxFault {
            kind: SyntaxKind::ConditionWanted,
            at,
        }),
    }
}

fn condition_at(at: u32, wanted: Wanted) -> Result<(), SyntaxFault>
    ensures { result ≡ spec.condition_at at wanted }
{
    match wanted {
        Wanted::Value => Err(SyntaxFault {
            kind: SyntaxKind::ValueWanted,
            at,
        }),
        Wanted::Condition => Ok(()),
    }
}

fn is_upper(name: &str) -> bool
    ensures { result ≡ is_upper name.now }
{
    matches!(name.as_bytes(), [b'A'..=b'Z', ..])
}

fn is_truth(value: &Value) -> bool
    ensures { result ≡ spec.is_truth value.now }
{
    match value {
        Value::Truth(_) => true,
        Value::Empty
        | Value::Text(_)
        | Value::Int(_)
        | Value::Double(_)
        | Value::Bytes(_)
        | Value::List(_)
        | Value::Map(_) => false,
    }
}

#[cycle(check)]
#[tactic(auto, using(crate::proofs::Checks::whole))]
fn check(expr: &Expr, wanted: Wanted) -> Result<(), SyntaxFault>
    ensures { result ≡ spec.check expr.now wanted }
{
    check_kind(&expr.kind, expr.at, wanted)
}

// Of an expression of this kind at a place.
#[cycle(check)]
#[tactic(auto, using(crate::proofs::Checks::checks))]
fn check_kind(kind: &ExprKind, at: u32, wanted: Wanted) -> Result<(), SyntaxFault>
    ensures { result ≡ spec.kind_check kind.now at wanted }
{
    match kind {
        ExprKind::Literal(value) => {
            if is_truth(value) {
                return Ok(());
            }
            value_at(at, wanted)
        }
        ExprKind::List(exprs) => {
            value_at(at, wanted)?;
            check_all(exprs.as_slice(), Wanted::Value)
        }
        ExprKind::Map(parts) => {
            value_at(at, wanted)?;
            check_parts(parts.as_slice())
        }
        ExprKind::Call(call) => {
            if !is_upper(call.name.as_str()) {
                value_at(at, wanted)?;
            }
            check_arguments(call)
        }
        ExprKind::Path(_) => value_at(at, wanted),
        ExprKind::Enum(_) => value_at(at, wanted),
        ExprKind::Sum(terms) => {
            value_at(at, wanted)?;
            check_terms(terms.as_slice())
        }
        ExprKind::Product(terms) => {
            value_at(at, wanted)?;
            check_terms(terms.as_slice())
        }
        ExprKind::Compare(compare) => {
            condition_at(at, wanted)?;
            check_sides(compare)
        }
        ExprKind::Not(operand) => {
            condition_at(at, wanted)?;
            check(operand.get(), Wanted::Condition)
        }
        ExprKind::And(exprs) => {
            condition_at(at, wanted)?;
            check_all(exprs.as_slice(), Wanted::Condition)
        }
        ExprKind::Or(exprs) => {
            condition_at(at, wanted)?;
            check_all(exprs.as_slice(), Wanted::Condition)
        }
    }
}

#[cycle(check)]
fn check_arguments(call: &Call) -> Result<(), SyntaxFault>
    ensures { result ≡ check_arguments call.now }
{
    check_all(call.arguments.as_slice(), Wanted::Value)
}

#[cycle(check)]
fn check_sides(compare: &Compare) -> Result<(), SyntaxFault>
    ensures { result ≡ spec.check_sides compare.now }
{
    check(compare.left.get(), Wanted::Value)?;
    check(compare.right.get(), Wanted::Value)
}

#[cycle(check)]
fn check_all(exprs: &[Expr], wanted: Wanted) -> Result<(), SyntaxFault>
    ensures { result ≡ all_well (map (λ e. spec.check e wanted) exprs.now) }
{
    for expr in exprs {
        check(expr, wanted)?;
    }
    Ok(())
}

#[cycle(check)]
fn check_parts(parts: &[MapPart]) -> Result<(), SyntaxFault>
    ensures { result ≡ all_well (map (λ p. spec.check p.value Wanted.Value) parts.now) }
{
    for part in parts {
        check(&part.value, Wanted::Value)?;
    }
    Ok(())
}

#[cycle(check)]
fn check_terms(terms: &[Term]) -> Result<(), SyntaxFault>
    ensures { result ≡ all_well (map (λ t. spec.check t.expr Wanted.Value) terms.now) }
{
    for term in terms {
        check(&term.expr, Wanted::Value)?;
    }
    Ok(())
}
