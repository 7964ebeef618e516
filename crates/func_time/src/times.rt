//! Times from texts and numbers, and back.

ghost use Rattle.std.specs.Prelude.{◌≡◌, ◌+ℤ◌, ◌*ℤ◌, pos, true};
ghost use Rattle.pdata_value.specs.Answers.{Answers};
ghost use Rattle.func_time.specs.Formats.{is_format};
ghost use Rattle.func_time.specs.Times.{time_of, format_time_of, summed, unix_of, unix_seconds_of, unix_milli_of, unix_micro_of, unix_nano_of};

use crate::printing::time_text;
use crate::reading::moment_in;
use pdata_value::{EvalErr, EvalStop, Text, Value, int_in, made, text_in};
use std::alloc::Global;

/// The time that a text has under a format of `%Y %m %d %H %M %S %%`.
pub fn time(alloc: Global, value: &Value, format: &Text) -> Result<Value, EvalStop>
    ensures { Answers result (time_of value.now format.now) }
{
    let text = text_in(value)?;
    let moment = moment_in(alloc, text.as_str(), format.as_str())?;
    Ok(Value::Int(moment))
}

/// What a format shows of a time. `is_time_format` tells which texts are formats.
pub fn format_time(alloc: Global, value: &Value, format: &Text) -> Result<Value, EvalStop>
    requires { is_format format.now ≡ true }
    ensures { Answers result (format_time_of value.now format.now) }
{
    let moment = int_in(value)?;
    let text = time_text(alloc, moment, format.as_str())?;
    made(Value::Text(Text::from_string(text)))
}

/// The time of seconds and nanoseconds since 1970.
pub fn unix(seconds: &Value, nanoseconds: &Value) -> Result<Value, EvalStop>
    ensures { Answers result (unix_of seconds.now nanoseconds.now) }
{
    let seconds = int_in(seconds)?;
    let nanoseconds = int_in(nanoseconds)?;
    in_64_bits(nanoseconds_of(seconds, nanoseconds))
}

fn nanoseconds_of(seconds: i64, nanoseconds: i64) -> i128
    ensures { result ≡ seconds *ℤ pos 1000000000 +ℤ nanoseconds }
{
    seconds as i128 * 1_000_000_000 + nanoseconds as i128
}

fn in_64_bits(sum: i128) -> Result<Value, EvalStop>
    ensures { Answers result (summed sum) }
{
    if sum < i64::MIN as i128 || sum > i64::MAX as i128 {
        return Err(EvalStop::Err(EvalErr::Overflow));
    }
    Ok(Value::Int(sum as i64))
}

pub fn unix_seconds(value: &Value) -> Result<Value, EvalStop>
    ensures { Answers result (unix_seconds_of value.now) }
{
    let moment = int_in(value)?;
    Ok(Value::Int(moment.div_euclid(1_000_000_000)))
}

pub fn unix_milli(value: &Value) -> Result<Value, EvalStop>
    ensures { Answers result (unix_milli_of value.now) }
{
    let moment = int_in(value)?;
    Ok(Value::Int(moment.div_euclid(1_000_000)))
}

pub fn unix_micro(value: &Value) -> Result<Value, EvalStop>
    ensures { Answers result (unix_micro_of value.now) }
{
    let moment = int_in(value)?;
    Ok(Value::Int(moment.div_euclid(1_000)))
}

pub fn unix_nano(value: &Value) -> Result<Value, EvalStop>
    ensures { Answers result (unix_nano_of value.now) }
{
    let moment = int_in(value)?;
    Ok(Value::Int(moment))
}
