//! Looking at the fields of an object, and below them.

ghost use Rattle.std.specs.Prelude.{[], Ok};
ghost use Rattle.pdata_value.specs.Answers.{Answers};
ghost use Rattle.pdata_value.specs.Shown.{string_of};
ghost use Rattle.pdata_tree.specs.Fields as spec;
ghost use Rattle.pdata_tree.specs.Seen.{Sees};

use crate::ids::id_text;
use crate::path::{Field, Key};
use crate::record::LogRecord;
use crate::resource::ResourceNode;
use crate::scope::ScopeNode;
use crate::seen::Seen;
use crate::walk::{look_below, look_map};
use pdata_value::{EvalErr, EvalStop, Value, string};
use std::alloc::Global;

/// The value at a field of a resource, and below it.
pub fn look_resource<'a>(
    node: &'a ResourceNode,
    field: Field,
    keys: &[Key],
) -> Result<Seen<'a>, EvalStop>
    ensures { Sees result (spec.resource_reads field keys.now node.now) }
{
    match field {
        Field::Attributes | Field::ResourceAttributes => look_map(&node.attributes, keys),
        Field::DroppedAttributesCount | Field::ResourceDroppedAttributesCount => {
            alone(keys)?;
            Ok(Seen::Made(Value::Int(node.dropped as i64)))
        }
        _ => Err(EvalStop::Err(EvalErr::KindOf)),
    }
}

/// The value at a field of a scope, and below it.
pub fn look_scope<'a>(node: &'a ScopeNode, field: Field, keys: &[Key]) -> Result<Seen<'a>, EvalStop>
    ensures { Sees result (spec.scope_reads field keys.now node.now) }
{
    match field {
        Field::Attributes | Field::InstrumentationScopeAttributes => {
            look_map(&node.attributes, keys)
        }
        Field::DroppedAttributesCount => {
            alone(keys)?;
            Ok(Seen::Made(Value::Int(node.dropped as i64)))
        }
        Field::Name | Field::InstrumentationScopeName => {
            alone(keys)?;
            Ok(Seen::Text(&node.name))
        }
        Field::Version | Field::InstrumentationScopeVersion => {
            alone(keys)?;
            Ok(Seen::Text(&node.version))
        }
        _ => Err(EvalStop::Err(EvalErr::KindOf)),
    }
}

/// The value at a field of a log record, and below it.
pub fn look_log<'a>(
    alloc: Global,
    log: &'a LogRecord,
    field: Field,
    keys: &[Key],
) -> Result<Seen<'a>, EvalStop>
    ensures { Sees result (spec.log_reads field keys.now log.now) }
{
    match field {
        Field::Attributes => look_map(&log.attributes, keys),
        Field::Body => look_below(&log.body, keys),
        _ => {
            alone(keys)?;
            look_plain(alloc, log, field)
        }
    }
}

// A field that isn't a map or the body.
fn look_plain(alloc: Global, log: &LogRecord, field: Field) -> Result<Seen<'_>, EvalStop>
    ensures { Sees result (spec.log_reads field [] log.now) }
{
    match field {
        Field::Attributes => Ok(Seen::Made(Value::Map(log.attributes.copy()?))),
        Field::Body => Ok(Seen::Lent(&log.body)),
        Field::DroppedAttributesCount => Ok(Seen::Made(Value::Int(log.dropped as i64))),
        Field::BodyString => look_text(alloc, &log.body),
        Field::SeverityNumber => Ok(Seen::Made(Value::Int(log.severity as i64))),
        Field::SeverityText => Ok(Seen::Text(&log.severity_text)),
        Field::Time => Ok(Seen::Made(time_value(log.time)?)),
        Field::ObservedTime => Ok(Seen::Made(time_value(log.observed)?)),
        Field::Flags => Ok(Seen::Made(Value::Int(log.flags as i64))),
        Field::TraceIdString => Ok(Seen::Made(Value::Text(id_text(alloc, &log.trace_id)?))),
        Field::SpanIdString => Ok(Seen::Made(Value::Text(id_text(alloc, &log.span_id)?))),
        _ => Err(EvalStop::Err(EvalErr::KindOf)),
    }
}

// The text of a value: a text is its own, where it fits.
fn look_text(alloc: Global, value: &Value) -> Result<Seen<'_>, EvalStop>
    ensures { Sees result (string_of value.now) }
{
    match value {
        Value::Text(_) if value.fits() => Ok(Seen::Lent(value)),
        _ => Ok(Seen::Made(string(alloc, value)?)),
    }
}

fn time_value(time: u64) -> Result<Value, EvalStop>
    ensures { Answers result (spec.time_value time) }
{
    if time < 1 << 63 {
        Ok(Value::Int(time as i64))
    } else {
        Err(EvalStop::Err(EvalErr::Range))
    }
}

// No key follows the field.
pub(crate) fn alone(keys: &[Key]) -> Result<(), EvalStop>
    ensures { Answers result (spec.plain keys.now (Ok tt)) }
{
    match keys {
        [] => Ok(()),
        _ => Err(EvalStop::Err(EvalErr::KindOf)),
    }
}
