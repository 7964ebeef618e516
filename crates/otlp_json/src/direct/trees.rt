//! Log records, scopes, resources and payloads, straight from the text.

ghost use Rattle.std.specs.Prelude.{◌≡◌, ◌<◌, length, IfOk, OnOk};
ghost use Rattle.otlp_json.specs.Trees.{record_table, record_in, scope_table, scope_in, records_in};
ghost use Rattle.otlp_json.specs.Trees.{scope_logs_table, scope_logs_in, resource_table};
ghost use Rattle.otlp_json.specs.Trees.{resource_in, scopes_in, resource_logs_table};
ghost use Rattle.otlp_json.specs.Trees.{resource_logs_in, resources_in, batch_table, batch_in};
ghost use Rattle.otlp_json.specs.Direct.{row_of, Fills, Stands};

use crate::counts::{count_holder, count_record};
use crate::direct::fields::{i32_next, id, text, u32_next, u64_next};
use crate::direct::skip::pass;
use crate::direct::values::{pairs, value};
use crate::direct::{Bend, Direct, SLOTS, goes, key, opens, same, take};
use crate::record::empty_record;
use crate::resource::{empty_resource, empty_resource_logs, put_resource};
use crate::scope::{empty_scope, empty_scope_logs, put_scope};
use crate::value::LEVELS;
use item_list::ItemList;
use pdata_tree::{
    Batch, LogRecord, Logs, ResourceNode, ResourceTree, Resources, ScopeNode, ScopeTree, Scopes,
};

// Reads the member under this key, and tells its row.
#[tactic(auto, unfolding(crate::specs::Trees::record_table))]
fn record_member(
    direct: &mut Direct<'_>,
    depth: u32,
    key: &str,
    log: &mut LogRecord,
) -> Result<Option<usize>, Bend>
    ensures fills { IfOk result (λ row. Fills record_table (row_of record_table) key.now depth
        (direct.old, log.old) row (direct.new, log.new)) }
    ensures shorter { OnOk result (length direct.new.cursor.left < length direct.old.cursor.left) }
{
    if same(key, "timeUnixNano") {
        log.time = u64_next(direct, depth)?;
        return Ok(Some(0));
    }
    if same(key, "observedTimeUnixNano") {
        log.observed = u64_next(direct, depth)?;
        return Ok(Some(1));
    }
    if same(key, "severityNumber") {
        log.severity = i32_next(direct, depth)?;
        return Ok(Some(2));
    }
    if same(key, "severityText") {
        log.severity_text = text(direct, depth)?;
        return Ok(Some(3));
    }
    if same(key, "body") {
        log.body = value(direct, depth, LEVELS)?;
        return Ok(Some(4));
    }
    if same(key, "attributes") {
        log.attributes = pairs(direct, depth, LEVELS)?;
        return Ok(Some(5));
    }
    if same(key, "droppedAttributesCount") {
        log.dropped = u32_next(direct, depth)?;
        return Ok(Some(6));
    }
    if same(key, "flags") {
        log.flags = u32_next(direct, depth)?;
        return Ok(Some(7));
    }
    if same(key, "traceId") {
        log.trace_id = id::<16>(direct, depth)?;
        return Ok(Some(8));
    }
    if same(key, "spanId") {
        log.span_id = id::<8>(direct, depth)?;
        return Ok(Some(9));
    }
    pass(direct, depth)?;
    Ok(None)
}

#[tactic(auto, unfolding(crate::specs::Trees::record_in))]
fn record(direct: &mut Direct<'_>, depth: u32) -> Result<LogRecord, Bend>
    ensures stands { IfOk result (λ log. Stands record_in depth direct.old log direct.new) }
    ensures shorter { OnOk result (length direct.new.cursor.left < length direct.old.cursor.left) }
{
    let at = direct.cursor.at();
    count_record(&mut direct.counts, at)?;
    let mut log = empty_record(direct.alloc);
    let mut taken = [false; SLOTS];
    let mut more = opens(direct, b'{', b'}', depth)?;
    while more {
        let key = key(direct)?;
        let row = record_member(direct, depth - 1, key, &mut log)?;
        take(&mut taken, row)?;
        more = goes(direct, b'}')?;
    }
    Ok(log)
}

#[tactic(auto, unfolding(crate::specs::Trees::records_in))]
fn records(direct: &mut Direct<'_>, depth: u32) -> Result<Logs, Bend>
    ensures stands { IfOk result (λ logs. Stands records_in depth direct.old logs direct.new) }
    ensures shorter { OnOk result (length direct.new.cursor.left < length direct.old.cursor.left) }
{
    let mut logs = ItemList::new(direct.alloc);
    let mut more = opens(direct, b'[', b']', depth)?;
    while more {
        logs.push(record(direct, depth - 1)?)?;
        more = goes(direct, b']')?;
    }
    Ok(logs)
}

#[tactic(auto, unfolding(crate::specs::Trees::scope_table))]
fn scope_member(
    direct: &mut Direct<'_>,
    depth: u32,
    key: &str,
    scope: &mut ScopeNode,
) -> Result<Option<usize>, Bend>
    ensures fills { IfOk result (λ row. Fills scope_table (row_of scope_table) key.now depth
        (direct.old, scope.old) row (direct.new, scope.new)) }
    ensures shorter { OnOk result (length direct.new.cursor.left < length direct.old.cursor.left) }
{
    if same(key, "name") {
        scope.name = text(direct, depth)?;
        return Ok(Some(0));
    }
    if same(key, "version") {
        scope.version = text(direct, depth)?;
        return Ok(Some(1));
    }
    if same(key, "attributes") {
        scope.attributes = pairs(direct, depth, LEVELS)?;
        return Ok(Some(2));
    }
    if same(key, "droppedAttributesCount") {
        scope.dropped = u32_next(direct, depth)?;
        return Ok(Some(3));
    }
    pass(direct, depth)?;
    Ok(None)
}

#[tactic(auto, unfolding(crate::specs::Trees::scope_in))]
fn scope(direct: &mut Direct<'_>, depth: u32) -> Result<ScopeNode, Bend>
    ensures stands { IfOk result (λ scope. Stands scope_in depth direct.old scope direct.new) }
    ensures shorter { OnOk result (length direct.new.cursor.left < length direct.old.cursor.left) }
{
    let mut scope = empty_scope(direct.alloc);
    let mut taken = [false; SLOTS];
    let mut more = opens(direct, b'{', b'}', depth)?;
    while more {
        let key = key(direct)?;
        let row = scope_member(direct, depth - 1, key, &mut scope)?;
        take(&mut taken, row)?;
        more = goes(direct, b'}')?;
    }
    Ok(scope)
}

#[tactic(auto, unfolding(crate::specs::Trees::scope_logs_table))]
fn scope_logs_member(
    direct: &mut Direct<'_>,
    depth: u32,
    key: &str,
    element: &mut ScopeTree,
) -> Result<Option<usize>, Bend>
    ensures fills { IfOk result (λ row. Fills
        scope_logs_table (row_of scope_logs_table) key.now depth
        (direct.old, element.old) row (direct.new, element.new)) }
    ensures shorter { OnOk result (length direct.new.cursor.left < length direct.old.cursor.left) }
{
    if same(key, "scope") {
        put_scope(element, scope(direct, depth)?);
        return Ok(Some(0));
    }
    if same(key, "logRecords") {
        element.logs = records(direct, depth)?;
        return Ok(Some(1));
    }
    if same(key, "schemaUrl") {
        element.node.schema_url = text(direct, depth)?;
        return Ok(Some(2));
    }
    pass(direct, depth)?;
    Ok(None)
}

#[tactic(auto, unfolding(crate::specs::Trees::scope_logs_in))]
fn scope_logs(direct: &mut Direct<'_>, depth: u32) -> Result<ScopeTree, Bend>
    ensures stands { IfOk result
        (λ element. Stands scope_logs_in depth direct.old element direct.new) }
    ensures shorter { OnOk result (length direct.new.cursor.left < length direct.old.cursor.left) }
{
    let at = direct.cursor.at();
    count_holder(&mut direct.counts, at)?;
    let mut element = empty_scope_logs(direct.alloc);
    let mut taken = [false; SLOTS];
    let mut more = opens(direct, b'{', b'}', depth)?;
    while more {
        let key = key(direct)?;
        let row = scope_logs_member(direct, depth - 1, key, &mut element)?;
        take(&mut taken, row)?;
        more = goes(direct, b'}')?;
    }
    Ok(element)
}

#[tactic(auto, unfolding(crate::specs::Trees::scopes_in))]
fn scopes(direct: &mut Direct<'_>, depth: u32) -> Result<Scopes, Bend>
    ensures stands { IfOk result (λ scopes. Stands scopes_in depth direct.old scopes direct.new) }
    ensures shorter { OnOk result (length direct.new.cursor.left < length direct.old.cursor.left) }
{
    let mut scopes = ItemList::new(direct.alloc);
    let mut more = opens(direct, b'[', b']', depth)?;
    while more {
        scopes.push(scope_logs(direct, depth - 1)?)?;
        more = goes(direct, b']')?;
    }
    Ok(scopes)
}

#[tactic(auto, unfolding(crate::specs::Trees::resource_table))]
fn resource_member(
    direct: &mut Direct<'_>,
    depth: u32,
    key: &str,
    resource: &mut ResourceNode,
) -> Result<Option<usize>, Bend>
    ensures fills { IfOk result (λ row. Fills resource_table (row_of resource_table) key.now depth
        (direct.old, resource.old) row (direct.new, resource.new)) }
    ensures shorter { OnOk result (length direct.new.cursor.left < length direct.old.cursor.left) }
{
    if same(key, "attributes") {
        resource.attributes = pairs(direct, depth, LEVELS)?;
        return Ok(Some(0));
    }
    if same(key, "droppedAttributesCount") {
        resource.dropped = u32_next(direct, depth)?;
        return Ok(Some(1));
    }
    pass(direct, depth)?;
    Ok(None)
}

#[tactic(auto, unfolding(crate::specs::Trees::resource_in))]
fn resource(direct: &mut Direct<'_>, depth: u32) -> Result<ResourceNode, Bend>
    ensures stands { IfOk result
        (λ resource. Stands resource_in depth direct.old resource direct.new) }
    ensures shorter { OnOk result (length direct.new.cursor.left < length direct.old.cursor.left) }
{
    let mut resource = empty_resource(direct.alloc);
    let mut taken = [false; SLOTS];
    let mut more = opens(direct, b'{', b'}', depth)?;
    while more {
        let key = key(direct)?;
        let row = resource_member(direct, depth - 1, key, &mut resource)?;
        take(&mut taken, row)?;
        more = goes(direct, b'}')?;
    }
    Ok(resource)
}

#[tactic(auto, unfolding(crate::specs::Trees::resource_logs_table))]
fn resource_logs_member(
    direct: &mut Direct<'_>,
    depth: u32,
    key: &str,
    element: &mut ResourceTree,
) -> Result<Option<usize>, Bend>
    ensures fills { IfOk result (λ row. Fills
        resource_logs_table (row_of resource_logs_table) key.now depth
        (direct.old, element.old) row (direct.new, element.new)) }
    ensures shorter { OnOk result (length direct.new.cursor.left < length direct.old.cursor.left) }
{
    if same(key, "resource") {
        put_resource(element, resource(direct, depth)?);
        return Ok(Some(0));
    }
    if same(key, "scopeLogs") {
        element.scopes = scopes(direct, depth)?;
        return Ok(Some(1));
    }
    if same(key, "schemaUrl") {
        element.node.schema_url = text(direct, depth)?;
        return Ok(Some(2));
    }
    pass(direct, depth)?;
    Ok(None)
}

#[tactic(auto, unfolding(crate::specs::Trees::resource_logs_in))]
fn resource_logs(direct: &mut Direct<'_>, depth: u32) -> Result<ResourceTree, Bend>
    ensures stands { IfOk result
        (λ element. Stands resource_logs_in depth direct.old element direct.new) }
    ensures shorter { OnOk result (length direct.new.cursor.left < length direct.old.cursor.left) }
{
    let at = direct.cursor.at();
    count_holder(&mut direct.counts, at)?;
    let mut element = empty_resource_logs(direct.alloc);
    let mut taken = [false; SLOTS];
    let mut more = opens(direct, b'{', b'}', depth)?;
    while more {
        let key = key(direct)?;
        let row = resource_logs_member(direct, depth - 1, key, &mut element)?;
        take(&mut taken, row)?;
        more = goes(direct, b'}')?;
    }
    Ok(element)
}

#[tactic(auto, unfolding(crate::specs::Trees::resources_in))]
fn resources(direct: &mut Direct<'_>, depth: u32) -> Result<Resources, Bend>
    ensures stands { IfOk result
        (λ resources. Stands resources_in depth direct.old resources direct.new) }
    ensures shorter { OnOk result (length direct.new.cursor.left < length direct.old.cursor.left) }
{
    let mut resources = ItemList::new(direct.alloc);
    let mut more = opens(direct, b'[', b']', depth)?;
    while more {
        resources.push(resource_logs(direct, depth - 1)?)?;
        more = goes(direct, b']')?;
    }
    Ok(resources)
}

#[tactic(auto, unfolding(crate::specs::Trees::batch_table))]
fn batch_member(
    direct: &mut Direct<'_>,
    depth: u32,
    key: &str,
    batch: &mut Batch,
) -> Result<Option<usize>, Bend>
    ensures fills { IfOk result (λ row. Fills batch_table (row_of batch_table) key.now depth
        (direct.old, batch.old) row (direct.new, batch.new)) }
    ensures shorter { OnOk result (length direct.new.cursor.left < length direct.old.cursor.left) }
{
    if same(key, "resourceLogs") {
        batch.resources = resources(direct, depth)?;
        return Ok(Some(0));
    }
    pass(direct, depth)?;
    Ok(None)
}

#[tactic(auto, unfolding(crate::specs::Trees::batch_in))]
pub(super) fn batch(direct: &mut Direct<'_>, depth: u32) -> Result<Batch, Bend>
    ensures stands { IfOk result (λ batch. Stands batch_in depth direct.old batch direct.new) }
    ensures shorter { OnOk result (length direct.new.cursor.left < length direct.old.cursor.left) }
{
    let mut batch = Batch {
        resources: ItemList::new(direct.alloc),
    };
    let mut taken = [false; SLOTS];
    let mut more = opens(direct, b'{', b'}', depth)?;
    while more {
        let key = key(direct)?;
        let row = batch_member(direct, depth - 1, key, &mut batch)?;
        take(&mut taken, row)?;
        more = goes(direct, b'}')?;
    }
    Ok(batch)
}
