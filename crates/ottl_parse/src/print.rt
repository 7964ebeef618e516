//! Prints statements.

ghost use Rattle.std.specs.Prelude.{◌≡◌, ◌++◌, map, codes, string_bytes, IfOk, OnOk};
ghost use Rattle.ottl_parse.specs.Printing as spec;
ghost use Rattle.ottl_parse.specs.Printing.{statement_text, where_text, piece, call_text, expr_text, kind_printed, listed, exprs_text, path_text, key_text, keys_text, separated, sign_text};

use crate::expr::{Call, Compare, Expr, ExprKind, MapPart, Term};
use crate::path::{Path, PathKey};
use crate::print_literal::{push, push_literal, push_number, push_quoted};
use crate::sign::Sign;
use crate::statement::{Condition, Statement};
use pdata_value::Text;
use std::alloc::{AllocError, Global};

/// The one text of a statement.
pub fn print_statement(alloc: Global, statement: &Statement) -> Result<Text, AllocError>
    ensures { IfOk result (λ text. text ≡ statement_text statement.now) }
{
    let mut out = String::new(alloc);
    push_call(&mut out, &statement.call)?;
    push_where(&mut out, &statement.condition)?;
    Ok(Text::from_string(out))
}

fn push_where(out: &mut String, condition: &Option<Condition>) -> Result<(), AllocError>
    ensures { OnOk result (string_bytes out.new ≡ string_bytes out.old
        ++ where_text condition.now) }
{
    match condition {
        None => Ok(()),
        Some(condition) => {
            push(out, " where ")?;
            push_expr(out, &condition.expr, 0)
        }
    }
}

// An expression where the grammar wants one of that level.
#[cycle(print)]
#[tactic(auto, using(crate::proofs::Printed::wholes))]
fn push_expr(out: &mut String, expr: &Expr, level: u32) -> Result<(), AllocError>
    ensures { OnOk result (string_bytes out.new ≡ string_bytes out.old
        ++ expr_text level expr.now) }
{
    if level <= strength_of(&expr.kind) {
        return push_kind(out, &expr.kind);
    }
    push(out, "(")?;
    push_kind(out, &expr.kind)?;
    push(out, ")")
}

// How tightly an expression of this kind binds.
#[tactic(auto, using(crate::proofs::Printed::kinds_printed))]
fn strength_of(kind: &ExprKind) -> u32
    ensures { result ≡ (kind_printed kind.now).0 }
{
    match kind {
        ExprKind::Literal(_) => 6,
        ExprKind::List(_) => 6,
        ExprKind::Map(_) => 6,
        ExprKind::Call(_) => 6,
        ExprKind::Path(_) => 6,
        ExprKind::Enum(_) => 6,
        ExprKind::Product(_) => 5,
        ExprKind::Sum(_) => 4,
        ExprKind::Compare(_) => 3,
        ExprKind::Not(_) => 2,
        ExprKind::And(_) => 1,
        ExprKind::Or(_) => 0,
    }
}

#[cycle(print)]
#[tactic(auto, using(crate::proofs::Printed::kinds_printed))]
fn push_kind(out: &mut String, kind: &ExprKind) -> Result<(), AllocError>
    ensures { OnOk result (string_bytes out.new ≡ string_bytes out.old
        ++ (kind_printed kind.now).1) }
{
    match kind {
        ExprKind::Literal(value) => push_literal(out, value),
        ExprKind::List(exprs) => {
            push(out, "[")?;
            push_exprs(out, exprs.as_slice(), ", ", 0)?;
            push(out, "]")
        }
        ExprKind::Map(parts) => {
            push(out, "{")?;
            push_parts(out, parts.as_slice())?;
            push(out, "}")
        }
        ExprKind::Call(call) => push_call(out, call),
        ExprKind::Path(path) => push_path(out, path),
        ExprKind::Enum(name) => push(out, name.as_str()),
        ExprKind::Sum(terms) => push_terms(out, terms.as_slice(), 5),
        ExprKind::Product(terms) => push_terms(out, terms.as_slice(), 6),
        ExprKind::Compare(compare) => push_compare(out, compare),
        ExprKind::Not(operand) => {
            push(out, "not ")?;
            push_expr(out, operand.get(), 2)
        }
        ExprKind::And(exprs) => push_exprs(out, exprs.as_slice(), " and ", 2),
        ExprKind::Or(exprs) => push_exprs(out, exprs.as_slice(), " or ", 1),
    }
}

#[cycle(print)]
#[tactic(auto, using(crate::proofs::Printed::wholes))]
fn push_call(out: &mut String, call: &Call) -> Result<(), AllocError>
    ensures { OnOk result (string_bytes out.new ≡ string_bytes out.old ++ call_text call.now) }
{
    push(out, call.name.as_str())?;
    push(out, "(")?;
    push_exprs(out, call.arguments.as_slice(), ", ", 0)?;
    push(out, ")")
}

#[cycle(print)]
fn push_compare(out: &mut String, compare: &Compare) -> Result<(), AllocError>
    ensures { OnOk result (string_bytes out.new ≡ string_bytes out.old
        ++ spec.compare_text compare.now) }
{
    push_expr(out, compare.left.get(), 4)?;
    push(out, sign_text(compare.sign))?;
    push_expr(out, compare.right.get(), 4)
}

// Expressions of a level with a separator between them.
#[cycle(print)]
fn push_exprs(
    out: &mut String,
    exprs: &[Expr],
    separator: &str,
    level: u32,
) -> Result<(), AllocError>
    ensures { OnOk result (string_bytes out.new ≡ string_bytes out.old
        ++ listed (map (λ e. piece separator.now (expr_text level e)) exprs.now)) }
{
    let Some((first, rest)) = exprs.split_first() else {
        return Ok(());
    };
    push_expr(out, first, level)?;
    for expr in rest {
        push(out, separator)?;
        push_expr(out, expr, level)?;
    }
    Ok(())
}

// Terms of a level with their signs between them.
#[cycle(print)]
fn push_terms(out: &mut String, terms: &[Term], level: u32) -> Result<(), AllocError>
    ensures { OnOk result (string_bytes out.new ≡ string_bytes out.old
        ++ listed (map (λ t. piece (sign_text t.sign) (expr_text level t.expr)) terms.now)) }
{
    let Some((first, rest)) = terms.split_first() else {
        return Ok(());
    };
    push_expr(out, &first.expr, level)?;
    for term in rest {
        push(out, sign_text(term.sign))?;
        push_expr(out, &term.expr, level)?;
    }
    Ok(())
}

#[cycle(print)]
fn push_parts(out: &mut String, parts: &[MapPart]) -> Result<(), AllocError>
    ensures { OnOk result (string_bytes out.new ≡ string_bytes out.old
        ++ listed (map (λ p. piece (codes ", ") (spec.part_text p)) parts.now)) }
{
    let Some((first, rest)) = parts.split_first() else {
        return Ok(());
    };
    push_part(out, first)?;
    for part in rest {
        push(out, ", ")?;
        push_part(out, part)?;
    }
    Ok(())
}

// A key and its value.
#[cycle(print)]
fn push_part(out: &mut String, part: &MapPart) -> Result<(), AllocError>
    ensures { OnOk result (string_bytes out.new ≡ string_bytes out.old ++ spec.part_text part.now) }
{
    push_quoted(out, part.key.as_str())?;
    push(out, ": ")?;
    push_expr(out, &part.value, 0)
}

fn sign_text(sign: Sign) -> &'static str
    ensures { result.now ≡ sign_text sign }
{
    match sign {
        Sign::Plus => " + ",
        Sign::Minus => " - ",
        Sign::Times => " * ",
        Sign::Over => " / ",
        Sign::Equal => " == ",
        Sign::Unequal => " != ",
        Sign::Less => " < ",
        Sign::AtMost => " <= ",
        Sign::Greater => " > ",
        Sign::AtLeast => " >= ",
    }
}

fn push_path(out: &mut String, path: &Path) -> Result<(), AllocError>
    ensures { OnOk result (string_bytes out.new ≡ string_bytes out.old ++ path_text path.now) }
{
    push_names(out, path.names.as_slice())?;
    push_keys(out, path.keys.as_slice())
}

fn push_names(out: &mut String, names: &[Text]) -> Result<(), AllocError>
    ensures { OnOk result (string_bytes out.new ≡ string_bytes out.old
        ++ separated (codes ".") names.now) }
{
    let Some((first, rest)) = names.split_first() else {
        return Ok(());
    };
    push(out, first.as_str())?;
    for name in rest {
        push(out, ".")?;
        push(out, name.as_str())?;
    }
    Ok(())
}

fn push_keys(out: &mut String, keys: &[PathKey]) -> Result<(), AllocError>
    ensures { OnOk result (string_bytes out.new ≡ string_bytes out.old ++ keys_text keys.now) }
{
    for key in keys {
        push_key(out, key)?;
    }
    Ok(())
}

fn push_key(out: &mut String, key: &PathKey) -> Result<(), AllocError>
    ensures { OnOk result (string_bytes out.new ≡ string_bytes out.old ++ key_text key.now) }
{
    push(out, "[")?;
    match key {
        PathKey::Name(text) => push_quoted(out, text.as_str())?,
        PathKey::Index(index) => push_number(out, *index)?,
    }
    push(out, "]")
}
