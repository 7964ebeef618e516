//! Lengths, and the numbers that values stand for.

ghost use Rattle.std.specs.Prelude.{◌≡◌};
ghost use Rattle.pdata_value.specs.Answers.{Answers};
ghost use Rattle.func_text.specs.Texts.{len_of, int_of, spelled_int};

use pdata_value::{EvalErr, EvalStop, Value};

/// The bytes of a text or of bytes, the elements of a list, or the pairs of a map.
pub fn len(value: &Value) -> Result<Value, EvalStop>
    ensures { Answers result (len_of value.now) }
{
    let len = match value {
        Value::Text(text) => text.as_str().len(),
        Value::Bytes(bytes) => bytes.as_slice().len(),
        Value::List(values) => values.as_slice().len(),
        Value::Map(pairs) => pairs.as_slice().len(),
        Value::Empty => return Err(EvalStop::Err(EvalErr::NilArgument)),
        Value::Double(_) => return Err(EvalStop::Err(EvalErr::Double)),
        _ => return Err(EvalStop::Err(EvalErr::KindOf)),
    };
    Ok(Value::Int(len as i64))
}

/// The integer that a value is or spells, or nil.
pub fn int(value: &Value) -> Result<Value, EvalStop>
    ensures { Answers result (int_of value.now) }
{
    match value {
        Value::Empty => Ok(Value::Empty),
        Value::Int(int) => Ok(Value::Int(*int)),
        Value::Truth(truth) => Ok(Value::Int(i64::from(*truth))),
        Value::Text(text) => match spelled_int(text.as_str()) {
            Some(int) => Ok(Value::Int(int)),
            None => Ok(Value::Empty),
        },
        Value::Double(_) => Err(EvalStop::Err(EvalErr::Double)),
        _ => Err(EvalStop::Err(EvalErr::KindOf)),
    }
}

/// The integer that an optional sign and decimal digits spell, within 64 bits signed.
pub fn spelled_int(text: &str) -> Option<i64>
    ensures { result ≡ spelled_int text.now }
{
    match text.parse::<i64>() {
        Ok(int) => Some(int),
        Err(_) => None,
    }
}
