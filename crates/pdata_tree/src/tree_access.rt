//! Looking and writing at a path of a tree.

ghost use Rattle.pdata_tree.specs.Access as spec;
ghost use Rattle.pdata_tree.specs.Changes.{Changes};
ghost use Rattle.pdata_tree.specs.Fields.{log_takes};
ghost use Rattle.pdata_tree.specs.Seen.{Sees};

use crate::batch::{Batch, Resources};
use crate::path::PathTo;
use crate::place::{Context, Place};
use crate::reading::{look_log, look_resource, look_scope};
use crate::resource::{ResourceTree, Scopes};
use crate::scope::Logs;
use crate::seen::Seen;
use crate::writing::{write_log, write_resource, write_scope};
use pdata_value::{EvalErr, EvalStop, Value};
use std::alloc::Global;

/// The value at a path, as it is seen there.
pub(crate) fn look_at<'a>(
    batch: &'a Batch,
    context: Context,
    place: Place,
    path: &PathTo,
) -> Result<Seen<'a>, EvalStop>
    ensures { Sees result (spec.at_path path.now batch.now context place) }
{
    if !path.field.is_of(context) {
        return Err(EvalStop::Err(EvalErr::KindOf));
    }
    let alloc = batch.resources.allocator();
    match batch.resources.at(place.resource as usize) {
        Some(resource) => {
            let level = path.field.level_of(context);
            look_in(alloc, resource, level, place, path)
        }
        None => Err(EvalStop::Err(EvalErr::KindOf)),
    }
}

fn look_in<'a>(
    alloc: Global,
    resource: &'a ResourceTree,
    level: Context,
    place: Place,
    path: &PathTo,
) -> Result<Seen<'a>, EvalStop>
    ensures { Sees result
        (spec.read_in level path.now.field path.now.keys place resource.now) }
{
    let keys = path.keys.as_slice();
    match level {
        Context::Resource => look_resource(&resource.node, path.field, keys),
        Context::Scope => match resource.scopes.at(place.scope as usize) {
            Some(scope) => look_scope(&scope.node, path.field, keys),
            None => Err(EvalStop::Err(EvalErr::KindOf)),
        },
        Context::Log => match resource.scopes.at(place.scope as usize) {
            Some(scope) => match scope.logs.at(place.log as usize) {
                Some(log) => look_log(alloc, log, path.field, keys),
                None => Err(EvalStop::Err(EvalErr::KindOf)),
            },
            None => Err(EvalStop::Err(EvalErr::KindOf)),
        },
    }
}

/// Writes a value at a path. After any refusal the tree is as before.
pub(crate) fn write_at(
    batch: &mut Batch,
    context: Context,
    place: Place,
    path: &PathTo,
    value: Value,
) -> Result<(), EvalStop>
    ensures { Changes
        (spec.with_path path.now value batch.old context place) batch.old batch.new result }
{
    if !path.field.is_of(context) {
        return Err(EvalStop::Err(EvalErr::KindOf));
    }
    let alloc = batch.resources.allocator();
    let level = path.field.level_of(context);
    write_resource_at(alloc, &mut batch.resources, level, place, path, value)
}

fn write_resource_at(
    alloc: Global,
    resources: &mut Resources,
    level: Context,
    place: Place,
    path: &PathTo,
    value: Value,
) -> Result<(), EvalStop>
    ensures { Changes
        (spec.change_at place.resource
        (spec.written_in level path.now.field path.now.keys value place) resources.old)
        resources.old resources.new result }
{
    let index = place.resource as usize;
    if index >= resources.len() {
        return Err(EvalStop::Err(EvalErr::KindOf));
    }
    let resource = resources.at_mut(index);
    write_in(alloc, resource, level, place, path, value)
}

fn write_in(
    alloc: Global,
    resource: &mut ResourceTree,
    level: Context,
    place: Place,
    path: &PathTo,
    value: Value,
) -> Result<(), EvalStop>
    ensures { Changes (spec.written_in level path.now.field path.now.keys value place resource.old)
        resource.old resource.new result }
{
    match level {
        Context::Resource => {
            let keys = path.keys.as_slice();
            write_resource(alloc, &mut resource.node, path.field, keys, value)
        }
        Context::Scope => write_scope_at(alloc, &mut resource.scopes, place, path, value),
        Context::Log => write_log_in(alloc, &mut resource.scopes, place, path, value),
    }
}

fn write_scope_at(
    alloc: Global,
    scopes: &mut Scopes,
    place: Place,
    path: &PathTo,
    value: Value,
) -> Result<(), EvalStop>
    ensures { Changes
        (spec.change_at place.scope
        (spec.scope_written path.now.field path.now.keys value) scopes.old)
        scopes.old scopes.new result }
{
    let index = place.scope as usize;
    if index >= scopes.len() {
        return Err(EvalStop::Err(EvalErr::KindOf));
    }
    let scope = scopes.at_mut(index);
    write_scope(
        alloc,
        &mut scope.node,
        path.field,
        path.keys.as_slice(),
        value,
    )
}

fn write_log_in(
    alloc: Global,
    scopes: &mut Scopes,
    place: Place,
    path: &PathTo,
    value: Value,
) -> Result<(), EvalStop>
    ensures { Changes
        (spec.change_at place.scope
        (spec.change_log place (log_takes path.now.field path.now.keys value)) scopes.old)
        scopes.old scopes.new result }
{
    let index = place.scope as usize;
    if index >= scopes.len() {
        return Err(EvalStop::Err(EvalErr::KindOf));
    }
    let scope = scopes.at_mut(index);
    write_log_at(alloc, &mut scope.logs, place, path, value)
}

fn write_log_at(
    alloc: Global,
    logs: &mut Logs,
    place: Place,
    path: &PathTo,
    value: Value,
) -> Result<(), EvalStop>
    ensures { Changes
        (spec.change_at place.log (log_takes path.now.field path.now.keys value) logs.old)
        logs.old logs.new result }
{
    let index = place.log as usize;
    if index >= logs.len() {
        return Err(EvalStop::Err(EvalErr::KindOf));
    }
    let log = logs.at_mut(index);
    write_log(alloc, log, path.field, path.keys.as_slice(), value)
}
