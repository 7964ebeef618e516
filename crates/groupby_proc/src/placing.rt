//! Log records on their way to the resources and scopes that they go to.

ghost use Rattle.std.specs.Prelude.{◌≡◌, ◌++◌, filter, not, IfOk};
ghost use Rattle.std.specs.Option.{option_copied};
ghost use Rattle.pdata_value.specs.Pairs.{is_listed};
ghost use Rattle.pdata_value.specs.Value.{pairs as pairs_of};
ghost use Rattle.pdata_tree.specs.Grouping as spec;
ghost use Rattle.groupby_proc.specs.Placing.{placed, placed_in, placed_logs, placed_scopes};

use item_list::ItemList;
use pdata_tree::{
    LogRecord, Logs, ResourceNode, ResourceTree, Resources, ScopeNode, ScopeTree, Scopes,
};
use pdata_value::{Pairs, Text, Value};
use std::alloc::{AllocError, Global};

/// A log record behind its scope.
pub(crate) type Scoped = (ScopeNode, LogRecord);

/// Log records behind their scopes, each behind the resource that it goes to.
pub(crate) type Placed = ItemList<(ResourceNode, Scoped)>;

/// The log records of a tree where they go.
pub(crate) fn place(
    alloc: Global,
    keys: &[Text],
    resources: Resources,
) -> Result<Placed, AllocError>
    ensures { IfOk result (λ records. records ≡ placed_in keys.now resources) }
{
    let mut records = ItemList::new(alloc);
    for ResourceTree { node, scopes } in resources.into_vec() {
        records = place_scopes(keys, records, &node, scopes)?;
    }
    Ok(records)
}

fn place_scopes(
    keys: &[Text],
    records: Placed,
    resource: &ResourceNode,
    scopes: Scopes,
) -> Result<Placed, AllocError>
    ensures { IfOk result (λ new. new ≡ records ++ placed_scopes keys.now resource.now scopes) }
{
    let mut records = records;
    for ScopeTree { node, logs } in scopes.into_vec() {
        records = place_logs(keys, records, resource, &node, logs)?;
    }
    Ok(records)
}

fn place_logs(
    keys: &[Text],
    records: Placed,
    resource: &ResourceNode,
    scope: &ScopeNode,
    logs: Logs,
) -> Result<Placed, AllocError>
    ensures { IfOk result (λ new. new
        ≡ records ++ placed_logs keys.now resource.now scope.now logs) }
{
    let mut records = records;
    for log in logs.into_vec() {
        records.push(place_log(keys, resource, scope, log)?)?;
    }
    Ok(records)
}

fn place_log(
    keys: &[Text],
    resource: &ResourceNode,
    scope: &ScopeNode,
    log: LogRecord,
) -> Result<(ResourceNode, Scoped), AllocError>
    ensures { IfOk result (λ one. one ≡ placed keys.now resource.now scope.now log) }
{
    let resource = resource_of(keys, resource, &log)?;
    Ok((resource, (scope.copy()?, without_listed(keys, log))))
}

// The resource that a log record goes to.
fn resource_of(
    keys: &[Text],
    resource: &ResourceNode,
    log: &LogRecord,
) -> Result<ResourceNode, AllocError>
    ensures { IfOk result (λ one. one ≡ spec.resource_of keys.now resource.now log.now) }
{
    let attributes = with_listed(keys, &log.attributes, resource.attributes.copy()?)?;
    Ok(ResourceNode {
        attributes,
        dropped: resource.dropped,
        schema_url: resource.schema_url.copy()?,
    })
}

fn with_listed(keys: &[Text], from: &Pairs, pairs: Pairs) -> Result<Pairs, AllocError>
    ensures { IfOk result (λ new. pairs_of new
        ≡ spec.with_listed keys.now (pairs_of from.now) (pairs_of pairs)) }
{
    let mut pairs = pairs;
    for key in keys {
        pairs = with_found(pairs, key, from.get(key.as_str()))?;
    }
    Ok(pairs)
}

fn with_found(pairs: Pairs, key: &Text, found: Option<&Value>) -> Result<Pairs, AllocError>
    ensures { IfOk result (λ new. pairs_of new
        ≡ spec.put_found key.now (pairs_of pairs) (option_copied found.entry)) }
{
    let mut pairs = pairs;
    if let Some(value) = found {
        pairs.put(key.as_str(), value.copy()?)?;
    }
    Ok(pairs)
}

// A log record without its listed attributes.
fn without_listed(keys: &[Text], log: LogRecord) -> LogRecord
    ensures { result ≡ spec.without_listed keys.now log }
{
    LogRecord {
        attributes: without(keys, log.attributes),
        ..log
    }
}

fn without(keys: &[Text], pairs: Pairs) -> Pairs
    ensures { pairs_of result ≡ filter (λ p. not (is_listed keys.now p.0)) (pairs_of pairs) }
{
    let mut pairs = pairs;
    for key in keys {
        pairs.remove(key.as_str());
    }
    pairs
}
