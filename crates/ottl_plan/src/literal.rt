//! Arguments that are neither values nor targets.

ghost use Rattle.std.specs.Prelude.{◌≡◌, ◌≢◌, IfOk, map, option_map};
ghost use Rattle.pdata_value.specs.declared.value.Value.{out-Value};
ghost use Rattle.ottl_plan.specs.Answers.{Plans, Counts};
ghost use Rattle.ottl_plan.specs.Planning as spec;
ghost use Rattle.ottl_plan.specs.Planning.{seen};

use crate::argument::{ArgumentKind, ArgumentLiteral};
use crate::fault::{PlanKind, PlanStop, stop};
use func_text::{MakeStop, PatternMaker};
use func_time::is_time_format;
use item_list::ItemList;
use ottl_parse::{Expr, ExprKind};
use pdata_value::{Text, Value};
use std::alloc::{AllocError, Global};

// The most bytes of a pattern.
const MAX_PATTERN: usize = 1000;

fn is_strategy(word: &str) -> bool
    ensures { result ≡ spec.is_strategy word.now }
{
    word == "insert" || word == "update" || word == "upsert"
}

fn is_mode(word: &str) -> bool
    ensures { result ≡ spec.is_mode word.now }
{
    word == "key" || word == "value"
}

fn is_code(word: &str) -> bool
    ensures { result ≡ spec.is_code word.now }
{
    word == "base64"
}

fn is_word_of(kind: ArgumentKind, word: &str) -> bool
    ensures { result ≡ spec.is_word_of kind word.now }
{
    match kind {
        ArgumentKind::Strategy => is_strategy(word),
        ArgumentKind::Mode => is_mode(word),
        ArgumentKind::Code => is_code(word),
        ArgumentKind::Format => is_time_format(word),
        ArgumentKind::Value | ArgumentKind::Pattern | ArgumentKind::Text | ArgumentKind::Keys => {
            true
        }
    }
}

fn plan_pattern<P: PatternMaker>(
    alloc: Global,
    maker: &mut P,
    text: &str,
    at: u32,
) -> Result<ArgumentLiteral, PlanStop>
    ensures plan { Plans result (spec.pattern_argument at text.now) }
    ensures count { Counts (P.refusals maker.old) (P.refusals maker.new) result }
{
    if text.len() > MAX_PATTERN {
        return Err(stop(PlanKind::PatternLong, at));
    }
    match maker.make(alloc, text) {
        Ok(pattern) => Ok(ArgumentLiteral::Pattern(pattern)),
        Err(MakeStop::Syntax) => Err(stop(PlanKind::BadPattern, at)),
        Err(MakeStop::Size) => Err(stop(PlanKind::PatternSize, at)),
        Err(MakeStop::NoMemory) => Err(PlanStop::NoMemory),
    }
}

// A text, by what is wanted.
fn plan_text<P: PatternMaker>(
    alloc: Global,
    maker: &mut P,
    kind: ArgumentKind,
    text: &Text,
    at: u32,
) -> Result<ArgumentLiteral, PlanStop>
    ensures plan { Plans result (spec.text_argument kind at text.now) }
    ensures count { Counts (P.refusals maker.old) (P.refusals maker.new) result }
{
    match kind {
        ArgumentKind::Value | ArgumentKind::Keys => Err(stop(PlanKind::WrongKind, at)),
        ArgumentKind::Pattern => plan_pattern(alloc, maker, text.as_str(), at),
        ArgumentKind::Text
        | ArgumentKind::Strategy
        | ArgumentKind::Mode
        | ArgumentKind::Code
        | ArgumentKind::Format => {
            if !is_word_of(kind, text.as_str()) {
                return Err(stop(PlanKind::BadMode, at));
            }
            Ok(ArgumentLiteral::Text(text.copy()?))
        }
    }
}

// A text literal's text.
fn text_in_value(value: &Value) -> Option<&Text>
    ensures { option_map (λ text. text.now) result
        ≡ spec.text_in (spec.literal_form (out-Value value.now)) }
{
    match value {
        Value::Text(text) => Some(text),
        Value::Empty
        | Value::Truth(_)
        | Value::Int(_)
        | Value::Double(_)
        | Value::Bytes(_)
        | Value::List(_)
        | Value::Map(_) => None,
    }
}

#[tactic(auto, using(crate::proofs::Seen::forms))]
fn text_in_kind(kind: &ExprKind) -> Option<&Text>
    ensures { option_map (λ text. text.now) result ≡ spec.text_in (spec.form_of kind.now) }
{
    match kind {
        ExprKind::Literal(value) => text_in_value(value),
        ExprKind::List(_)
        | ExprKind::Map(_)
        | ExprKind::Call(_)
        | ExprKind::Path(_)
        | ExprKind::Enum(_)
        | ExprKind::Sum(_)
        | ExprKind::Product(_)
        | ExprKind::Compare(_)
        | ExprKind::Not(_)
        | ExprKind::And(_)
        | ExprKind::Or(_) => None,
    }
}

#[tactic(auto, using(crate::proofs::Seen::whole_form))]
fn text_in(expr: &Expr) -> Option<&Text>
    ensures { option_map (λ text. text.now) result ≡ spec.text_in (seen expr.now).form }
{
    text_in_kind(&expr.kind)
}

// The texts of a list of text literals; None where it has another item.
#[tactic(auto, using(crate::proofs::Lists::texts_start))]
fn texts_in(alloc: Global, exprs: &[Expr]) -> Result<Option<ItemList<Text>>, AllocError>
    ensures { IfOk result (λ texts. texts
        ≡ spec.texts_in (map (λ s. s.form) (map seen exprs.now))) }
{
    let mut texts = ItemList::new(alloc);
    for expr in exprs {
        let Some(text) = text_in(expr) else {
            return Ok(None);
        };
        texts.push(text.copy()?)?;
    }
    Ok(Some(texts))
}

fn plan_scalar<P: PatternMaker>(
    alloc: Global,
    maker: &mut P,
    kind: ArgumentKind,
    value: &Value,
    at: u32,
) -> Result<ArgumentLiteral, PlanStop>
    ensures plan { Plans result
        (spec.literal_argument kind at (spec.literal_form (out-Value value.now))) }
    ensures count { Counts (P.refusals maker.old) (P.refusals maker.new) result }
{
    match value {
        Value::Text(text) => plan_text(alloc, maker, kind, text, at),
        Value::Empty
        | Value::Truth(_)
        | Value::Int(_)
        | Value::Double(_)
        | Value::Bytes(_)
        | Value::List(_)
        | Value::Map(_) => Err(stop(PlanKind::WrongKind, at)),
    }
}

// Of an expression of this kind at a place.
#[tactic(auto, using(crate::proofs::Seen::forms))]
fn plan_literal_kind<P: PatternMaker>(
    alloc: Global,
    maker: &mut P,
    wanted: ArgumentKind,
    kind: &ExprKind,
    at: u32,
) -> Result<ArgumentLiteral, PlanStop>
    ensures plan { Plans result (spec.literal_argument wanted at (spec.form_of kind.now)) }
    ensures count { Counts (P.refusals maker.old) (P.refusals maker.new) result }
{
    match kind {
        ExprKind::Literal(value) => plan_scalar(alloc, maker, wanted, value, at),
        ExprKind::List(exprs) => {
            let Some(texts) = texts_in(alloc, exprs.as_slice())? else {
                return Err(stop(PlanKind::WrongKind, at));
            };
            if !wanted.is_keys() {
                return Err(stop(PlanKind::WrongKind, at));
            }
            Ok(ArgumentLiteral::Keys(texts))
        }
        ExprKind::Map(_)
        | ExprKind::Call(_)
        | ExprKind::Path(_)
        | ExprKind::Enum(_)
        | ExprKind::Sum(_)
        | ExprKind::Product(_)
        | ExprKind::Compare(_)
        | ExprKind::Not(_)
        | ExprKind::And(_)
        | ExprKind::Or(_) => Err(stop(PlanKind::WrongKind, at)),
    }
}

/// An argument that isn't a value, by what is wanted.
#[tactic(auto, using(crate::proofs::Seen::whole_form))]
pub(crate) fn plan_literal<P: PatternMaker>(
    alloc: Global,
    maker: &mut P,
    wanted: ArgumentKind,
    expr: &Expr,
) -> Result<ArgumentLiteral, PlanStop>
    ensures plan { Plans result
        (spec.literal_argument wanted (seen expr.now).at (seen expr.now).form) }
    ensures count { Counts (P.refusals maker.old) (P.refusals maker.new) result }
{
    plan_literal_kind(alloc, maker, wanted, &expr.kind, expr.at)
}
