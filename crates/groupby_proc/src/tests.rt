//! Small trees are grouped, and shown as text.

use crate::apply_plain;
use conf_json::GroupSettings;
use item_list::ItemList;
use pdata_tree::{Batch, LogRecord, ResourceNode, ResourceTree, ScopeNode, ScopeTree};
use pdata_value::{Pairs, Text, Value};
use std::alloc::{AllocError, Global};
use std::test::Fail;

mod forest;

// An attribute with the empty text stands for one with the empty value.
fn attributes(alloc: Global, pairs: &[(&str, &str)]) -> Result<Pairs, AllocError> {
    let mut attributes = Pairs::new(alloc);
    for (key, text) in pairs {
        let value = if text.is_empty() {
            Value::Empty
        } else {
            Value::Text(Text::from_str(alloc, text)?)
        };
        attributes.push(Text::from_str(alloc, key)?, value)?;
    }
    Ok(attributes)
}

fn log(alloc: Global, time: u64, pairs: &[(&str, &str)]) -> Result<LogRecord, AllocError> {
    Ok(LogRecord {
        time,
        observed: 0,
        severity: 0,
        severity_text: Text::new(alloc),
        body: Value::Empty,
        attributes: attributes(alloc, pairs)?,
        dropped: 0,
        flags: 0,
        trace_id: [0; 16],
        span_id: [0; 8],
    })
}

fn scope(alloc: Global, name: &str, log: LogRecord) -> Result<ScopeTree, AllocError> {
    let node = ScopeNode {
        name: Text::from_str(alloc, name)?,
        version: Text::new(alloc),
        attributes: Pairs::new(alloc),
        dropped: 0,
        schema_url: Text::new(alloc),
    };
    let mut logs = ItemList::new(alloc);
    logs.push(log)?;
    Ok(ScopeTree { node, logs })
}

// A resource with one log record.
fn resource(
    alloc: Global,
    pairs: &[(&str, &str)],
    name: &str,
    log: LogRecord,
) -> Result<ResourceTree, AllocError> {
    let node = ResourceNode {
        attributes: attributes(alloc, pairs)?,
        dropped: 0,
        schema_url: Text::new(alloc),
    };
    let mut scopes = ItemList::new(alloc);
    scopes.push(scope(alloc, name, log)?)?;
    Ok(ResourceTree { node, scopes })
}

// A resource without log records, but with a scope.
fn bare(alloc: Global) -> Result<ResourceTree, AllocError> {
    let mut resource = resource(alloc, &[], "bare", log(alloc, 9, &[])?)?;
    if !resource.scopes.is_empty() {
        resource.scopes.at_mut(0).logs = ItemList::new(alloc);
    }
    Ok(resource)
}

fn show_pairs(text: &mut String, pairs: &Pairs) -> Result<(), AllocError> {
    text.push('{')?;
    for pair in pairs.as_slice() {
        text.push_str(pair.0.as_str())?;
        text.push('=')?;
        if let Value::Text(value) = &pair.1 {
            text.push_str(value.as_str())?;
        }
        text.push(' ')?;
    }
    text.push('}')
}

// A log record is shown by its time.
fn show_scope(text: &mut String, scope: &ScopeTree) -> Result<(), AllocError> {
    text.push_str(scope.node.name.as_str())?;
    text.push('[')?;
    for log in scope.logs.as_slice() {
        text.push(if log.time < 10 {
            (b'0' + log.time as u8) as char
        } else {
            '?'
        })?;
        show_pairs(text, &log.attributes)?;
    }
    text.push(']')
}

fn shown(alloc: Global, batch: &Batch) -> Result<String, AllocError> {
    let mut text = String::new(alloc);
    for resource in batch.resources.as_slice() {
        show_pairs(&mut text, &resource.node.attributes)?;
        for scope in resource.scopes.as_slice() {
            show_scope(&mut text, scope)?;
        }
    }
    Ok(text)
}

fn keys_of(alloc: Global, names: &[&str]) -> Result<ItemList<Text>, AllocError> {
    let mut keys = ItemList::new(alloc);
    for name in names {
        keys.push(Text::from_str(alloc, name)?)?;
    }
    Ok(keys)
}

// The tree grouped by these keys.
fn grouped(
    alloc: Global,
    names: &[&str],
    resources: ItemList<ResourceTree>,
) -> Result<String, AllocError> {
    let keys = keys_of(alloc, names)?;
    let batch = apply_plain(alloc, &GroupSettings { keys }, Batch { resources })?;
    shown(alloc, &batch)
}

#[test]
fn a_listed_attribute_moves_to_the_resource(rt: HostRuntime) -> Result<(), Fail> {
    let alloc = rt.alloc();
    let mut tree = ItemList::new(alloc);
    tree.push(resource(alloc, &[("host", "h1")], "s", log(alloc, 1, &[])?)?)?;
    let second = log(alloc, 2, &[("host", "h1"), ("k", "v")])?;
    tree.push(resource(alloc, &[], "s", second)?)?;
    let text = grouped(alloc, &["host"], tree)?;
    assert_eq!(rt; text.as_str(), "{host=h1 }s[1{}2{k=v }]");
    Ok(())
}

#[test]
fn without_keys_equal_resources_become_the_first(rt: HostRuntime) -> Result<(), Fail> {
    let alloc = rt.alloc();
    let mut tree = ItemList::new(alloc);
    tree.push(resource(alloc, &[("p", "1"), ("q", "2")], "s", log(alloc, 1, &[])?)?)?;
    tree.push(resource(alloc, &[("r", "3")], "s", log(alloc, 2, &[])?)?)?;
    tree.push(resource(alloc, &[("q", "2"), ("p", "1")], "t", log(alloc, 3, &[])?)?)?;
    tree.push(bare(alloc)?)?;
    let text = grouped(alloc, &[], tree)?;
    assert_eq!(rt; text.as_str(), "{p=1 q=2 }s[1{}]t[3{}]{r=3 }s[2{}]");
    Ok(())
}

#[test]
fn an_empty_value_is_put_in_and_an_absent_one_is_not(rt: HostRuntime) -> Result<(), Fail> {
    let alloc = rt.alloc();
    let mut tree = ItemList::new(alloc);
    let first = log(alloc, 1, &[("host", "")])?;
    tree.push(resource(alloc, &[("host", "h1")], "s", first)?)?;
    tree.push(resource(alloc, &[("host", "h1")], "s", log(alloc, 2, &[])?)?)?;
    let text = grouped(alloc, &["host"], tree)?;
    assert_eq!(rt; text.as_str(), "{host= }s[1{}]{host=h1 }s[2{}]");
    Ok(())
}

#[test]
fn keys_are_put_in_by_the_order_of_the_list(rt: HostRuntime) -> Result<(), Fail> {
    let alloc = rt.alloc();
    let mut tree = ItemList::new(alloc);
    let first = log(alloc, 1, &[("a", "1"), ("b", "2"), ("a", "3")])?;
    tree.push(resource(alloc, &[], "s", first)?)?;
    let text = grouped(alloc, &["b", "a"], tree)?;
    assert_eq!(rt; text.as_str(), "{b=2 a=1 }s[1{}]");
    Ok(())
}
