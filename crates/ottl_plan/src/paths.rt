//! The paths of each context.

ghost use Rattle.std.specs.Prelude.{◌≡◌, IfOk, map, None};
ghost use Rattle.ottl_plan.specs.Answers.{Plans, RefusesNothing};
ghost use Rattle.ottl_plan.specs.Paths as spec;

use crate::fault::{PlanKind, PlanStop, stop};
use item_list::ItemList;
use ottl_parse::{Path, PathKey};
use pdata_tree::{Context, Field, Key, Keys, PathTo};
use pdata_value::Text;
use std::alloc::{AllocError, Global};

#[tactic(auto, unfolding(crate::specs::Paths::field_named))]
fn field_named(name: &str) -> Option<Field>
    ensures { result ≡ spec.field_named name.now }
{
    match name {
        "attributes" => Some(Field::Attributes),
        "dropped_attributes_count" => Some(Field::DroppedAttributesCount),
        "name" => Some(Field::Name),
        "version" => Some(Field::Version),
        "body" => Some(Field::Body),
        "severity_number" => Some(Field::SeverityNumber),
        "severity_text" => Some(Field::SeverityText),
        "time_unix_nano" => Some(Field::Time),
        "time" => Some(Field::Time),
        "observed_time_unix_nano" => Some(Field::ObservedTime),
        "observed_time" => Some(Field::ObservedTime),
        "flags" => Some(Field::Flags),
        "cache" => Some(Field::Cache),
        _ => None,
    }
}

#[tactic(auto, unfolding(crate::specs::Paths::resource_field))]
fn resource_field(name: &str) -> Option<Field>
    ensures { result ≡ spec.resource_field name.now }
{
    match name {
        "attributes" => Some(Field::ResourceAttributes),
        "dropped_attributes_count" => Some(Field::ResourceDroppedAttributesCount),
        _ => None,
    }
}

#[tactic(auto, unfolding(crate::specs::Paths::scope_field))]
fn scope_field(name: &str) -> Option<Field>
    ensures { result ≡ spec.scope_field name.now }
{
    match name {
        "attributes" => Some(Field::InstrumentationScopeAttributes),
        "name" => Some(Field::InstrumentationScopeName),
        "version" => Some(Field::InstrumentationScopeVersion),
        _ => None,
    }
}

fn as_string(field: Field, name: &str) -> Option<Field>
    ensures { result ≡ spec.as_string field name.now }
{
    if name == "string" { Some(field) } else { None }
}

#[tactic(auto, unfolding(crate::specs::Paths::field_below))]
fn field_below(first: &str, second: &str) -> Option<Field>
    ensures { result ≡ spec.field_below first.now second.now }
{
    match first {
        "resource" => resource_field(second),
        "instrumentation_scope" => scope_field(second),
        "body" => as_string(Field::BodyString, second),
        "trace_id" => as_string(Field::TraceIdString, second),
        "span_id" => as_string(Field::SpanIdString, second),
        _ => None,
    }
}

fn field_in_any(names: &[Text]) -> Option<Field>
    ensures { result ≡ spec.field_in_any names.now }
{
    match names {
        [name] => field_named(name.as_str()),
        [first, second] => field_below(first.as_str(), second.as_str()),
        _ => None,
    }
}

/// The field that names with points between them stand for in a context.
fn field_of(context: Context, names: &[Text]) -> Option<Field>
    ensures { result ≡ spec.field_of context names.now }
{
    let field = field_in_any(names)?;
    if field.is_of(context) {
        Some(field)
    } else {
        None
    }
}

fn key_of(key: &PathKey) -> Result<Key, AllocError>
    ensures { IfOk result (λ key_of. key_of ≡ spec.key_of key.now) }
{
    match key {
        PathKey::Name(name) => Ok(Key::Name(name.copy()?)),
        PathKey::Index(index) => Ok(Key::Index(*index)),
    }
}

fn keys_of(alloc: Global, keys: &[PathKey]) -> Result<Keys, AllocError>
    ensures { IfOk result (λ keys_of. keys_of ≡ map spec.key_of keys.now) }
{
    let mut planned = ItemList::new(alloc);
    for key in keys {
        planned.push(key_of(key)?)?;
    }
    Ok(planned)
}

/// A path that stands at a place of the text.
pub(crate) fn plan_path(
    alloc: Global,
    context: Context,
    path: &Path,
    at: u32,
) -> Result<PathTo, PlanStop>
    ensures plan { Plans result (spec.path_of context at path.now) }
    ensures count { RefusesNothing result }
{
    let Some(field) = field_of(context, path.names.as_slice()) else {
        return Err(stop(PlanKind::UnknownPath, at));
    };
    if !field.takes_keys() && !path.keys.is_empty() {
        return Err(stop(PlanKind::UnknownPath, at));
    }
    let keys = keys_of(alloc, path.keys.as_slice())?;
    Ok(PathTo { field, keys })
}
