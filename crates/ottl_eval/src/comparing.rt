//! Comparisons of two values.

ghost use Rattle.std.specs.Prelude.{◌≡◌, Ok};
ghost use Rattle.std.specs.Cmp.Lexicographic.{slice_cmp};
ghost use Rattle.std.specs.Ordering.{nat_cmp};
ghost use Rattle.pdata_value.specs.Answers.{Answers};
ghost use Rattle.pdata_value.specs.declared.value.Value.TheVariants as kind;
ghost use Rattle.pdata_tree.specs.Seen.{seen};
ghost use Rattle.ottl_eval.specs.Comparing.{by_same, compared, compared_whole, decides};

use ottl_parse::Sign;
use pdata_tree::Seen;
use pdata_value::{EvalErr, EvalStop, Text, Value};
use std::cmp::Ordering;

/// Whether two values, as they are seen, compare as a sign says. Nothing is copied.
pub(crate) fn compared_where_seen(
    sign: Sign,
    left: &Seen<'_>,
    right: &Seen<'_>,
) -> Result<bool, EvalStop>
    ensures { Answers result (compared sign (seen left.now) (seen right.now)) }
{
    match left {
        Seen::Lent(left) => compared_with_seen(sign, left, right),
        Seen::Made(left) => compared_with_seen(sign, left, right),
        Seen::Text(left) => text_compared(sign, left, right),
    }
}

fn compared_with_seen(sign: Sign, left: &Value, right: &Seen<'_>) -> Result<bool, EvalStop>
    ensures { Answers result (compared sign left.now (seen right.now)) }
{
    match right {
        Seen::Lent(right) => compared(sign, left, right),
        Seen::Made(right) => compared(sign, left, right),
        Seen::Text(right) => Ok(match left {
            Value::Text(left) => texts_compared(sign, left, right),
            _ => by_same(sign, false),
        }),
    }
}

// A text on the left.
fn text_compared(sign: Sign, left: &Text, right: &Seen<'_>) -> Result<bool, EvalStop>
    ensures { Answers result (compared sign (kind.Text left.now) (seen right.now)) }
{
    match right {
        Seen::Text(right) => Ok(texts_compared(sign, left, right)),
        Seen::Lent(right) => Ok(text_with_value(sign, left, right)),
        Seen::Made(right) => Ok(text_with_value(sign, left, right)),
    }
}

fn text_with_value(sign: Sign, left: &Text, right: &Value) -> bool
    ensures { compared sign (kind.Text left.now) right.now ≡ Ok result }
{
    match right {
        Value::Text(right) => texts_compared(sign, left, right),
        _ => by_same(sign, false),
    }
}

fn texts_compared(sign: Sign, left: &Text, right: &Text) -> bool
    ensures { result ≡ decides sign (slice_cmp nat_cmp left.now right.now) }
{
    decides(sign, left.as_str().cmp(right.as_str()))
}

/// Whether two values compare as a sign says.
pub(crate) fn compared(sign: Sign, left: &Value, right: &Value) -> Result<bool, EvalStop>
    ensures { Answers result (compared sign left.now right.now) }
{
    match (left, right) {
        (Value::Double(_), Value::Double(_))
        | (Value::Double(_), Value::Int(_))
        | (Value::Int(_), Value::Double(_)) => Err(EvalStop::Err(EvalErr::Double)),
        (Value::List(_), Value::List(_)) | (Value::Map(_), Value::Map(_)) => {
            compared_whole(sign, left, right)
        }
        (Value::Empty, Value::Empty) => Ok(decides(sign, Ordering::Equal)),
        (Value::Int(left), Value::Int(right)) => Ok(decides(sign, left.cmp(right))),
        (Value::Truth(left), Value::Truth(right)) => Ok(decides(sign, left.cmp(right))),
        (Value::Text(left), Value::Text(right)) => { Ok(texts_compared(sign, left, right)) }
        (Value::Bytes(left), Value::Bytes(right)) => {
            Ok(decides(sign, left.as_slice().cmp(right.as_slice())))
        }
        _ => Ok(by_same(sign, false)),
    }
}

// Two lists, or two maps.
fn compared_whole(sign: Sign, left: &Value, right: &Value) -> Result<bool, EvalStop>
    ensures { Answers result (compared_whole sign left.now right.now) }
{
    if left.has_double() || right.has_double() {
        return Err(EvalStop::Err(EvalErr::Double));
    }
    Ok(by_same(sign, left.same(right)))
}

fn by_same(sign: Sign, same: bool) -> bool
    ensures { result ≡ by_same sign same }
{
    match sign {
        Sign::Equal => same,
        Sign::Unequal => !same,
        _ => false,
    }
}

fn decides(sign: Sign, order: Ordering) -> bool
    ensures { result ≡ decides sign order }
{
    match sign {
        Sign::Equal => order.is_eq(),
        Sign::Unequal => order.is_ne(),
        Sign::Less => order.is_lt(),
        Sign::AtMost => order.is_le(),
        Sign::Greater => order.is_gt(),
        Sign::AtLeast => order.is_ge(),
        _ => false,
    }
}
