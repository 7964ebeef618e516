//! Writing at the fields of an object, and below them. After any refusal the object is as before.

ghost use Rattle.pdata_value.specs.declared.value.Value.{out-Value};
ghost use Rattle.pdata_value.specs.Answers.{Answers};
ghost use Rattle.pdata_tree.specs.Changes.{Changes};
ghost use Rattle.pdata_tree.specs.Fields as spec;

use crate::ids::id_of;
use crate::path::{Field, Key};
use crate::putting::put_below;
use crate::reading::alone;
use crate::record::LogRecord;
use crate::resource::ResourceNode;
use crate::scope::ScopeNode;
use pdata_value::{EvalErr, EvalStop, Pairs, Text, Value, made};
use std::alloc::Global;

/// Writes a value at a field of a resource, or below it.
pub fn write_resource(
    alloc: Global,
    node: &mut ResourceNode,
    field: Field,
    keys: &[Key],
    value: Value,
) -> Result<(), EvalStop>
    ensures { Changes (spec.resource_takes field keys.now value node.old) node.old node.new result }
{
    match field {
        Field::Attributes | Field::ResourceAttributes => {
            put_map(alloc, &mut node.attributes, keys, value)
        }
        Field::DroppedAttributesCount | Field::ResourceDroppedAttributesCount => {
            put_u32(&mut node.dropped, keys, &value)
        }
        _ => Err(EvalStop::Err(EvalErr::KindOf)),
    }
}

/// Writes a value at a field of a scope, or below it.
pub fn write_scope(
    alloc: Global,
    node: &mut ScopeNode,
    field: Field,
    keys: &[Key],
    value: Value,
) -> Result<(), EvalStop>
    ensures { Changes (spec.scope_takes field keys.now value node.old) node.old node.new result }
{
    match field {
        Field::Attributes | Field::InstrumentationScopeAttributes => {
            put_map(alloc, &mut node.attributes, keys, value)
        }
        Field::DroppedAttributesCount => put_u32(&mut node.dropped, keys, &value),
        Field::Name | Field::InstrumentationScopeName => put_text(&mut node.name, keys, value),
        Field::Version | Field::InstrumentationScopeVersion => {
            put_text(&mut node.version, keys, value)
        }
        _ => Err(EvalStop::Err(EvalErr::KindOf)),
    }
}

/// Writes a value at a field of a log record, or below it.
pub fn write_log(
    alloc: Global,
    log: &mut LogRecord,
    field: Field,
    keys: &[Key],
    value: Value,
) -> Result<(), EvalStop>
    ensures { Changes (spec.log_takes field keys.now value log.old) log.old log.new result }
{
    match field {
        Field::Attributes => put_map(alloc, &mut log.attributes, keys, value),
        Field::DroppedAttributesCount => put_u32(&mut log.dropped, keys, &value),
        Field::Body => put_value(alloc, &mut log.body, keys, value),
        Field::BodyString => put_body_string(&mut log.body, keys, value),
        Field::SeverityNumber => put_i32(&mut log.severity, keys, &value),
        Field::SeverityText => put_text(&mut log.severity_text, keys, value),
        Field::Time => put_time(&mut log.time, keys, &value),
        Field::ObservedTime => put_time(&mut log.observed, keys, &value),
        Field::Flags => put_u32(&mut log.flags, keys, &value),
        Field::TraceIdString => put_id::<16>(&mut log.trace_id, keys, &value),
        Field::SpanIdString => put_id::<8>(&mut log.span_id, keys, &value),
        _ => Err(EvalStop::Err(EvalErr::KindOf)),
    }
}

fn put_map(alloc: Global, map: &mut Pairs, keys: &[Key], value: Value) -> Result<(), EvalStop>
    ensures { Changes (spec.map_with keys.now value map.old) map.old map.new result }
{
    *map = map_with(alloc, map, keys, value)?;
    Ok(())
}

fn put_value(alloc: Global, body: &mut Value, keys: &[Key], value: Value) -> Result<(), EvalStop>
    ensures { Changes (spec.value_with keys.now value body.old) body.old body.new result }
{
    *body = value_with(alloc, body, keys, value)?;
    Ok(())
}

fn put_text(text: &mut Text, keys: &[Key], value: Value) -> Result<(), EvalStop>
    ensures { Changes (spec.plain keys.now (spec.text_that_fits value)) text.old text.new result }
{
    alone(keys)?;
    *text = text_of(value)?;
    Ok(())
}

fn put_body_string(body: &mut Value, keys: &[Key], value: Value) -> Result<(), EvalStop>
    ensures { Changes (spec.body_text keys.now value) body.old body.new result }
{
    alone(keys)?;
    *body = Value::Text(text_of(value)?);
    Ok(())
}

fn put_u32(number: &mut u32, keys: &[Key], value: &Value) -> Result<(), EvalStop>
    ensures { Changes
        (spec.plain keys.now (spec.u32_taken value.now)) number.old number.new result }
{
    alone(keys)?;
    *number = u32_of(value)?;
    Ok(())
}

fn put_i32(number: &mut i32, keys: &[Key], value: &Value) -> Result<(), EvalStop>
    ensures { Changes
        (spec.plain keys.now (spec.i32_taken value.now)) number.old number.new result }
{
    alone(keys)?;
    *number = i32_of(value)?;
    Ok(())
}

fn put_time(time: &mut u64, keys: &[Key], value: &Value) -> Result<(), EvalStop>
    ensures { Changes (spec.plain keys.now (spec.time_taken value.now)) time.old time.new result }
{
    alone(keys)?;
    *time = time_of(value)?;
    Ok(())
}

fn put_id<const N: usize>(id: &mut [u8; N], keys: &[Key], value: &Value) -> Result<(), EvalStop>
    ensures { Changes (spec.plain keys.now (spec.id_taken N value.now)) id.old id.new result }
{
    alone(keys)?;
    *id = id_taken::<N>(value)?;
    Ok(())
}

// The map that a field holds once a value is written.
fn map_with(alloc: Global, old: &Pairs, keys: &[Key], value: Value) -> Result<Pairs, EvalStop>
    ensures { Answers result (spec.map_with keys.now value old.now) }
{
    if keys.is_empty() {
        return match value {
            Value::Map(map) => map_of(made(Value::Map(map))?),
            _ => Err(EvalStop::Err(EvalErr::KindOf)),
        };
    }
    let changed = put_below(alloc, Value::Map(old.copy()?), keys, value)?;
    map_of(made(changed)?)
}

// The value that a field holds once a value is written.
fn value_with(alloc: Global, old: &Value, keys: &[Key], value: Value) -> Result<Value, EvalStop>
    ensures { Answers result (spec.value_with keys.now value old.now) }
{
    if keys.is_empty() {
        return made(value);
    }
    made(put_below(alloc, old.copy()?, keys, value)?)
}

fn map_of(value: Value) -> Result<Pairs, EvalStop>
    ensures { Answers result (spec.map_taken (out-Value value)) }
{
    match value {
        Value::Map(map) => Ok(map),
        _ => Err(EvalStop::Err(EvalErr::KindOf)),
    }
}

fn text_of(value: Value) -> Result<Text, EvalStop>
    ensures { Answers result (spec.text_that_fits value) }
{
    match value {
        Value::Text(text) => match made(Value::Text(text))? {
            Value::Text(text) => Ok(text),
            _ => Err(EvalStop::Err(EvalErr::KindOf)),
        },
        _ => Err(EvalStop::Err(EvalErr::KindOf)),
    }
}

fn int_of(value: &Value) -> Result<i64, EvalStop>
    ensures { Answers result (spec.int_taken (out-Value value.now)) }
{
    match value {
        Value::Int(int) => Ok(*int),
        _ => Err(EvalStop::Err(EvalErr::KindOf)),
    }
}

fn u32_of(value: &Value) -> Result<u32, EvalStop>
    ensures { Answers result (spec.u32_taken value.now) }
{
    match u32::try_from(int_of(value)?) {
        Ok(number) => Ok(number),
        Err(_) => Err(EvalStop::Err(EvalErr::Range)),
    }
}

fn i32_of(value: &Value) -> Result<i32, EvalStop>
    ensures { Answers result (spec.i32_taken value.now) }
{
    match i32::try_from(int_of(value)?) {
        Ok(number) => Ok(number),
        Err(_) => Err(EvalStop::Err(EvalErr::Range)),
    }
}

fn time_of(value: &Value) -> Result<u64, EvalStop>
    ensures { Answers result (spec.time_taken value.now) }
{
    match u64::try_from(int_of(value)?) {
        Ok(number) => Ok(number),
        Err(_) => Err(EvalStop::Err(EvalErr::Range)),
    }
}

fn id_taken<const N: usize>(value: &Value) -> Result<[u8; N], EvalStop>
    ensures { Answers result (spec.id_taken N value.now) }
{
    match value {
        Value::Text(text) => match id_of::<N>(text.as_str()) {
            Some(id) => Ok(id),
            None => Err(EvalStop::Err(EvalErr::BadText)),
        },
        _ => Err(EvalStop::Err(EvalErr::KindOf)),
    }
}
