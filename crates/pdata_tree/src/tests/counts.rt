//! A payload is copied whole and counted.

ghost use Rattle.std.specs.Prelude.{◌≡◌, length, IfOk};
ghost use Rattle.pdata_tree.specs.Tree.{nodes, nodes_of_scopes};

use crate::{Batch, LogRecord, Logs, ResourceNode, ResourceTree, ScopeNode, ScopeTree, Scopes};
use item_list::ItemList;
use pdata_value::{Pairs, Text, Value};
use std::alloc::{AllocError, Global};
use std::test::Fail;

fn record(alloc: Global, body: i64) -> Result<LogRecord, AllocError> {
    let mut attributes = Pairs::new(alloc);
    attributes.put("k", Value::Truth(true))?;
    Ok(LogRecord {
        time: 1,
        observed: 2,
        severity: -3,
        severity_text: Text::from_str(alloc, "WARN")?,
        body: Value::Int(body),
        attributes,
        dropped: 4,
        flags: 5,
        trace_id: [6; 16],
        span_id: [7; 8],
    })
}

fn two_records(alloc: Global) -> Result<Logs, AllocError>
    ensures { IfOk result (λ logs. length logs ≡ 2) }
{
    let mut logs = ItemList::new(alloc);
    logs.push(record(alloc, 10)?)?;
    logs.push(record(alloc, 11)?)?;
    Ok(logs)
}

fn scope(alloc: Global, logs: Logs) -> Result<ScopeTree, AllocError>
    ensures { IfOk result (λ scope. scope.logs ≡ logs) }
{
    let node = ScopeNode {
        name: Text::from_str(alloc, "name")?,
        version: Text::from_str(alloc, "1.0")?,
        attributes: Pairs::new(alloc),
        dropped: 8,
        schema_url: Text::new(alloc),
    };
    Ok(ScopeTree { node, logs })
}

// A scope with two records, and one without records.
fn two_scopes(alloc: Global) -> Result<Scopes, AllocError>
    ensures { IfOk result (λ scopes. nodes_of_scopes scopes ≡ 4) }
{
    let mut scopes = ItemList::new(alloc);
    scopes.push(scope(alloc, two_records(alloc)?)?)?;
    scopes.push(scope(alloc, ItemList::new(alloc))?)?;
    Ok(scopes)
}

fn resource(alloc: Global, scopes: Scopes) -> Result<ResourceTree, AllocError>
    ensures { IfOk result (λ resource. resource.scopes ≡ scopes) }
{
    let node = ResourceNode {
        attributes: Pairs::new(alloc),
        dropped: 9,
        schema_url: Text::from_str(alloc, "url")?,
    };
    Ok(ResourceTree { node, scopes })
}

fn two_resources(alloc: Global) -> Result<Batch, AllocError>
    ensures { IfOk result (λ batch. nodes batch ≡ 7) }
{
    let mut resources = ItemList::new(alloc);
    resources.push(resource(alloc, two_scopes(alloc)?)?)?;
    resources.push(resource(alloc, ItemList::new(alloc))?)?;
    Ok(Batch { resources })
}

#[test]
fn a_payload_is_copied_and_counted(rt: HostRuntime) -> Result<(), Fail> {
    let batch = two_resources(rt.alloc())?.copy()?;
    assert_eq!(rt; batch.count_nodes(), 7);
    assert_eq!(rt; batch.count_records(), 2);
    assert_eq!(rt; batch.resources.len(), 2);
    Ok(())
}

#[test]
fn a_record_is_copied_with_all_fields(rt: HostRuntime) -> Result<(), Fail> {
    let copy = record(rt.alloc(), 12)?.copy()?;
    assert_eq!(rt; (copy.time, copy.observed, copy.severity), (1, 2, -3));
    assert_eq!(rt; copy.severity_text.as_str(), "WARN");
    assert!(rt; matches!(copy.body, Value::Int(12)));
    assert!(rt; copy.attributes.get("k").is_some());
    assert_eq!(rt; (copy.dropped, copy.flags), (4, 5));
    assert_eq!(rt; copy.trace_id, [6; 16]);
    assert_eq!(rt; copy.span_id, [7; 8]);
    Ok(())
}
