//! Tests for a kind.

ghost use Rattle.pdata_value.specs.Answers.{Answers};
ghost use Rattle.func_text.specs.Kinds as spec;

use pdata_value::{EvalStop, Value};

pub fn is_string(value: &Value) -> Result<Value, EvalStop>
    ensures { Answers result (spec.is_string_of value.now) }
{
    Ok(Value::Truth(matches!(value, Value::Text(_))))
}

pub fn is_int(value: &Value) -> Result<Value, EvalStop>
    ensures { Answers result (spec.is_int_of value.now) }
{
    Ok(Value::Truth(matches!(value, Value::Int(_))))
}

pub fn is_bool(value: &Value) -> Result<Value, EvalStop>
    ensures { Answers result (spec.is_bool_of value.now) }
{
    Ok(Value::Truth(matches!(value, Value::Truth(_))))
}

pub fn is_double(value: &Value) -> Result<Value, EvalStop>
    ensures { Answers result (spec.is_double_of value.now) }
{
    Ok(Value::Truth(matches!(value, Value::Double(_))))
}

pub fn is_map(value: &Value) -> Result<Value, EvalStop>
    ensures { Answers result (spec.is_map_of value.now) }
{
    Ok(Value::Truth(matches!(value, Value::Map(_))))
}

pub fn is_list(value: &Value) -> Result<Value, EvalStop>
    ensures { Answers result (spec.is_list_of value.now) }
{
    Ok(Value::Truth(matches!(value, Value::List(_))))
}
