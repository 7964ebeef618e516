//! Arithmetic on integers.

ghost use Rattle.pdata_value.specs.Answers.{Answers};
ghost use Rattle.ottl_eval.specs.Arithmetic.{arithmetic, calculated, or_overflow};

use ottl_parse::Sign;
use pdata_value::{EvalErr, EvalStop, Value, int_in};

/// What a sign of arithmetic makes of two values.
pub(crate) fn arithmetic(sign: Sign, left: &Value, right: &Value) -> Result<Value, EvalStop>
    ensures { Answers result (arithmetic sign left.now right.now) }
{
    let left = int_in(left)?;
    let right = int_in(right)?;
    Ok(Value::Int(calculated(sign, left, right)?))
}

fn calculated(sign: Sign, left: i64, right: i64) -> Result<i64, EvalStop>
    ensures { Answers result (calculated sign left right) }
{
    match sign {
        Sign::Plus => or_overflow(left.checked_add(right)),
        Sign::Minus => or_overflow(left.checked_sub(right)),
        Sign::Times => or_overflow(left.checked_mul(right)),
        Sign::Over if right == 0 => Err(EvalStop::Err(EvalErr::DivideByZero)),
        Sign::Over => or_overflow(left.checked_div(right)),
        _ => Err(EvalStop::Err(EvalErr::KindOf)),
    }
}

fn or_overflow(number: Option<i64>) -> Result<i64, EvalStop>
    ensures { Answers result (or_overflow number) }
{
    match number {
        Some(number) => Ok(number),
        None => Err(EvalStop::Err(EvalErr::Overflow)),
    }
}
