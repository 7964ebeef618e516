//! Parts of a time.

ghost use Rattle.pdata_value.specs.Answers.{Answers};
ghost use Rattle.func_time.specs.Times.{year_of, month_of, day_of, hour_of, minute_of, second_of, nanosecond_of, weekday_of};

use crate::civil::{civil, week_day};
use pdata_value::{EvalStop, Value, int_in};

pub fn year(value: &Value) -> Result<Value, EvalStop>
    ensures { Answers result (year_of value.now) }
{
    let moment = int_in(value)?;
    Ok(Value::Int(i64::from(civil(moment).date.year)))
}

/// From 1.
pub fn month(value: &Value) -> Result<Value, EvalStop>
    ensures { Answers result (month_of value.now) }
{
    let moment = int_in(value)?;
    Ok(Value::Int(i64::from(civil(moment).date.month)))
}

/// From 1.
pub fn day(value: &Value) -> Result<Value, EvalStop>
    ensures { Answers result (day_of value.now) }
{
    let moment = int_in(value)?;
    Ok(Value::Int(i64::from(civil(moment).date.day)))
}

pub fn hour(value: &Value) -> Result<Value, EvalStop>
    ensures { Answers result (hour_of value.now) }
{
    let moment = int_in(value)?;
    Ok(Value::Int(i64::from(civil(moment).time.hour)))
}

pub fn minute(value: &Value) -> Result<Value, EvalStop>
    ensures { Answers result (minute_of value.now) }
{
    let moment = int_in(value)?;
    Ok(Value::Int(i64::from(civil(moment).time.minute)))
}

pub fn second(value: &Value) -> Result<Value, EvalStop>
    ensures { Answers result (second_of value.now) }
{
    let moment = int_in(value)?;
    Ok(Value::Int(i64::from(civil(moment).time.second)))
}

/// Within its second.
pub fn nanosecond(value: &Value) -> Result<Value, EvalStop>
    ensures { Answers result (nanosecond_of value.now) }
{
    let moment = int_in(value)?;
    Ok(Value::Int(i64::from(civil(moment).time.subsec_nanosecond)))
}

/// 0 for Sunday to 6 for Saturday.
pub fn weekday(value: &Value) -> Result<Value, EvalStop>
    ensures { Answers result (weekday_of value.now) }
{
    let moment = int_in(value)?;
    Ok(Value::Int(i64::from(week_day(moment))))
}
