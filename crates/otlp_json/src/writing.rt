//! Writes payloads in their one form.

ghost use Rattle.std.specs.Prelude.{◌≡◌, ◌++◌, false, true, codes, map, IfOk, OnOk};
ghost use Rattle.json_text.specs.Writing.{text_of};
ghost use Rattle.otlp_json.specs.Line as spec;
ghost use Rattle.otlp_json.specs.Line.{line, object_json};
ghost use Rattle.otlp_json.specs.Adding.{Adds};

mod lists;
mod members;
mod values;

use lists::{ToJson, push_list, push_list_member};
use members::{
    push_i32_member, push_id_member, push_key, push_text_member, push_u32_member, push_u64_member,
};
use pdata_tree::{Batch, LogRecord, ResourceNode, ResourceTree, ScopeNode, ScopeTree};
use pdata_value::{Pairs, Value};
use std::alloc::{AllocError, Global};
use values::{push_pairs, push_value};

/// The line of a payload, without a newline.
pub fn write_line(alloc: Global, batch: &Batch) -> Result<Vec<u8>, AllocError>
    ensures { IfOk result (λ bytes. bytes.items ≡ line batch.now) }
{
    let mut out = Vec::new(alloc);
    push_line(&mut out, batch)?;
    Ok(out)
}

/// Appends the line of a payload, without a newline. An Err leaves what stood there, and some of
/// the line behind it.
pub fn push_line(out: &mut Vec<u8>, batch: &Batch) -> Result<(), AllocError>
    ensures { OnOk result (out.new.items ≡ out.old.items ++ line batch.now) }
{
    out.push(b'{')?;
    push_key(out, false, "resourceLogs")?;
    push_list(out, batch.resources.as_slice())?;
    out.push(b'}')?;
    Ok(())
}

impl ToJson for ResourceTree {
    ghost json = { spec.resource_logs_json };

    fn push(&self, out: &mut Vec<u8>) -> Result<(), AllocError> {
        out.push(b'{')?;
        push_key(out, false, "resource")?;
        push_resource(out, &self.node)?;
        let scopes = push_list_member(out, true, "scopeLogs", self.scopes.as_slice())?;
        push_text_member(out, scopes, "schemaUrl", &self.node.schema_url)?;
        out.push(b'}')?;
        Ok(())
    }
}

fn push_resource(out: &mut Vec<u8>, resource: &ResourceNode) -> Result<(), AllocError>
    ensures { OnOk result (out.new.items ≡ out.old.items
        ++ text_of (object_json (spec.resource_members resource.now))) }
{
    out.push(b'{')?;
    let attributes = push_attributes(out, false, &resource.attributes)?;
    push_u32_member(out, attributes, "droppedAttributesCount", resource.dropped)?;
    out.push(b'}')?;
    Ok(())
}

impl ToJson for ScopeTree {
    ghost json = { spec.scope_logs_json };

    fn push(&self, out: &mut Vec<u8>) -> Result<(), AllocError> {
        out.push(b'{')?;
        push_key(out, false, "scope")?;
        push_scope(out, &self.node)?;
        let logs = push_list_member(out, true, "logRecords", self.logs.as_slice())?;
        push_text_member(out, logs, "schemaUrl", &self.node.schema_url)?;
        out.push(b'}')?;
        Ok(())
    }
}

fn push_scope(out: &mut Vec<u8>, scope: &ScopeNode) -> Result<(), AllocError>
    ensures { OnOk result (out.new.items ≡ out.old.items
        ++ text_of (object_json (spec.scope_members scope.now))) }
{
    out.push(b'{')?;
    let name = push_text_member(out, false, "name", &scope.name)?;
    let version = push_text_member(out, name, "version", &scope.version)?;
    let attributes = push_attributes(out, version, &scope.attributes)?;
    push_u32_member(out, attributes, "droppedAttributesCount", scope.dropped)?;
    out.push(b'}')?;
    Ok(())
}

impl ToJson for LogRecord {
    ghost json = { spec.record_json };

    fn push(&self, out: &mut Vec<u8>) -> Result<(), AllocError> {
        out.push(b'{')?;
        push_record_members(out, self)?;
        out.push(b'}')?;
        Ok(())
    }
}

fn push_record_members(out: &mut Vec<u8>, log: &LogRecord) -> Result<bool, AllocError>
    ensures { IfOk result
        (λ now. Adds (spec.record_members log.now) false out.old.items now out.new.items) }
{
    let time = push_u64_member(out, false, "timeUnixNano", log.time)?;
    let observed = push_u64_member(out, time, "observedTimeUnixNano", log.observed)?;
    let severity = push_i32_member(out, observed, "severityNumber", log.severity)?;
    let text = push_text_member(out, severity, "severityText", &log.severity_text)?;
    let body = push_body(out, text, &log.body)?;
    let attributes = push_attributes(out, body, &log.attributes)?;
    let dropped = push_u32_member(out, attributes, "droppedAttributesCount", log.dropped)?;
    let flags = push_u32_member(out, dropped, "flags", log.flags)?;
    let trace = push_id_member::<16>(out, flags, "traceId", &log.trace_id)?;
    let span = push_id_member::<8>(out, trace, "spanId", &log.span_id)?;
    Ok(span)
}

#[tactic(auto, using(crate::proofs::ValueJson::empty_values))]
fn is_empty_value(value: &Value) -> bool
    ensures { result ≡ spec.is_empty_value value.now }
{
    match value {
        Value::Empty => true,
        _ => false,
    }
}

fn push_body(out: &mut Vec<u8>, some: bool, body: &Value) -> Result<bool, AllocError>
    ensures { IfOk result
        (λ now. Adds (spec.body_member body.now) some out.old.items now out.new.items) }
{
    if is_empty_value(body) {
        return Ok(some);
    }
    push_key(out, some, "body")?;
    push_value(out, body)?;
    Ok(true)
}

fn push_attributes(out: &mut Vec<u8>, some: bool, attributes: &Pairs) -> Result<bool, AllocError>
    ensures { IfOk result
        (λ now. Adds (spec.attributes_member attributes.now) some out.old.items now out.new.items) }
{
    if attributes.len() == 0 {
        return Ok(some);
    }
    push_key(out, some, "attributes")?;
    out.push(b'[')?;
    push_pairs(out, attributes.as_slice())?;
    out.push(b']')?;
    Ok(true)
}
