//! A tree of two resources with two scopes and five log records is kept, copied and parted.

use crate::{
    copy_records, copy_resources, keep_records, keep_resources, split_records, split_resources,
};
use item_list::ItemList;
use pdata_tree::{Batch, LogRecord, ResourceNode, ResourceTree, ScopeNode, ScopeTree};
use pdata_value::{Pairs, Text, Value};
use std::alloc::{AllocError, Global};
use std::test::Fail;

fn log(alloc: Global, time: u64) -> LogRecord {
    LogRecord {
        time,
        observed: 0,
        severity: 0,
        severity_text: Text::new(alloc),
        body: Value::Empty,
        attributes: Pairs::new(alloc),
        dropped: 0,
        flags: 0,
        trace_id: [0; 16],
        span_id: [0; 8],
    }
}

// A scope with log records of these times.
fn scope(alloc: Global, times: &[u64]) -> Result<ScopeTree, AllocError> {
    let node = ScopeNode {
        name: Text::new(alloc),
        version: Text::new(alloc),
        attributes: Pairs::new(alloc),
        dropped: 0,
        schema_url: Text::new(alloc),
    };
    let mut logs = ItemList::new(alloc);
    for time in times {
        logs.push(log(alloc, *time))?;
    }
    Ok(ScopeTree { node, logs })
}

fn resource(alloc: Global, first: &[u64], second: &[u64]) -> Result<ResourceTree, AllocError> {
    let node = ResourceNode {
        attributes: Pairs::new(alloc),
        dropped: 0,
        schema_url: Text::new(alloc),
    };
    let mut scopes = ItemList::new(alloc);
    scopes.push(scope(alloc, first)?)?;
    scopes.push(scope(alloc, second)?)?;
    Ok(ResourceTree { node, scopes })
}

fn tree(alloc: Global) -> Result<Batch, AllocError> {
    let mut resources = ItemList::new(alloc);
    resources.push(resource(alloc, &[1], &[2, 3])?)?;
    resources.push(resource(alloc, &[4], &[5])?)?;
    Ok(Batch { resources })
}

// The times of a tree: a resource in parentheses, a scope in brackets.
fn shown(alloc: Global, batch: &Batch) -> Result<String, AllocError> {
    let mut text = String::new(alloc);
    for resource in batch.resources.as_slice() {
        text.push('(')?;
        for scope in resource.scopes.as_slice() {
            text.push('[')?;
            for log in scope.logs.as_slice() {
                text.push(if log.time < 10 {
                    (b'0' + log.time as u8) as char
                } else {
                    '?'
                })?;
            }
            text.push(']')?;
        }
        text.push(')')?;
    }
    Ok(text)
}

const FLAGS: [bool; 5] = [true, false, true, false, false];

#[test]
fn flagged_records_are_kept(rt: HostRuntime) -> Result<(), Fail> {
    let alloc = rt.alloc();
    let kept = keep_records(alloc, tree(alloc)?, &FLAGS)?;
    assert_eq!(rt; shown(alloc, &kept)?.as_str(), "([1][3])");
    let copied = copy_records(alloc, &tree(alloc)?, &FLAGS)?;
    assert_eq!(rt; shown(alloc, &copied)?.as_str(), "([1][3])");
    Ok(())
}

#[test]
fn flagged_resources_are_kept(rt: HostRuntime) -> Result<(), Fail> {
    let alloc = rt.alloc();
    let kept = keep_resources(alloc, tree(alloc)?, &[false, true])?;
    assert_eq!(rt; shown(alloc, &kept)?.as_str(), "([4][5])");
    let copied = copy_resources(alloc, &tree(alloc)?, &[true])?;
    assert_eq!(rt; shown(alloc, &copied)?.as_str(), "([1][23])");
    Ok(())
}

#[test]
fn trees_are_parted(rt: HostRuntime) -> Result<(), Fail> {
    let alloc = rt.alloc();
    let (taken, left) = split_records(alloc, tree(alloc)?, &FLAGS)?;
    assert_eq!(rt; shown(alloc, &taken)?.as_str(), "([1][3])");
    assert_eq!(rt; shown(alloc, &left)?.as_str(), "([2])([4][5])");
    let (taken, left) = split_resources(alloc, tree(alloc)?, &[false, true])?;
    assert_eq!(rt; shown(alloc, &taken)?.as_str(), "([4][5])");
    assert_eq!(rt; shown(alloc, &left)?.as_str(), "([1][23])");
    Ok(())
}
