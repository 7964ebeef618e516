//! Writes through shared roots make each node on their way once.

use super::{one_record, record};
use crate::{Forest, Root};
use item_list::ItemList;
use pdata_tree::{Batch, Context, Field, PathTo, Place, Scene};
use pdata_value::{Text, Value};
use std::alloc::{AllocError, Global};
use std::test::Fail;

// How many nodes a write of a value makes; None where it is refused.
fn made_by(
    forest: &mut Forest,
    root: &Root,
    field: Field,
    log: u32,
    value: Value,
    alloc: Global,
) -> Option<u128> {
    let place = Place {
        resource: 0,
        scope: 0,
        log,
    };
    let before = forest.made();
    if !forest.holds(root) || !forest.view(root).has(Context::Log, place) {
        return None;
    }
    let path = PathTo {
        field,
        keys: ItemList::new(alloc),
    };
    match forest.scene(root, Context::Log, place).write(&path, value) {
        Ok(()) => Some(forest.made().saturating_sub(before)),
        Err(_) => None,
    }
}

fn text(alloc: Global) -> Result<Value, AllocError> {
    Ok(Value::Text(Text::from_str(alloc, "WARN")?))
}

pub(super) fn text_made(
    forest: &mut Forest,
    root: &Root,
    log: u32,
    alloc: Global,
) -> Result<Option<u128>, AllocError> {
    let value = text(alloc)?;
    Ok(made_by(forest, root, Field::SeverityText, log, value, alloc))
}

fn after_three_writes(alloc: Global) -> Result<[Option<u128>; 3], AllocError> {
    let mut forest = Forest::new(alloc, 2)?;
    let first = forest.plant(one_record(alloc)?)?;
    let second = forest.share(&first);
    let one = text_made(&mut forest, &first, 0, alloc)?;
    let again = text_made(&mut forest, &first, 0, alloc)?;
    let other = text_made(&mut forest, &second, 0, alloc)?;
    Ok([one, again, other])
}

#[test]
fn a_shared_way_is_made_once(rt: HostRuntime) -> Result<(), Fail> {
    assert_eq!(rt;
        after_three_writes(rt.alloc())?,
        [Some(4), Some(0), Some(0)]
    );
    Ok(())
}

pub(super) fn shares(forest: &mut Forest, root: &Root) -> Option<Root> {
    if forest.spare() == 0 || !forest.holds(root) {
        return None;
    }
    Some(forest.share(root))
}

fn after_three_roots(alloc: Global) -> Result<[Option<u128>; 3], AllocError> {
    let mut forest = Forest::new(alloc, 3)?;
    let first = forest.plant(one_record(alloc)?)?;
    let second = shares(&mut forest, &first).ok_or(AllocError)?;
    let third = shares(&mut forest, &first).ok_or(AllocError)?;
    let one = text_made(&mut forest, &first, 0, alloc)?;
    let two = text_made(&mut forest, &second, 0, alloc)?;
    let last = text_made(&mut forest, &third, 0, alloc)?;
    Ok([one, two, last])
}

#[test]
fn the_last_of_three_roots_writes_in_place(rt: HostRuntime) -> Result<(), Fail> {
    assert_eq!(rt; after_three_roots(rt.alloc())?, [Some(4), Some(4), Some(0)]);
    Ok(())
}

// A payload of one scope with two log records.
fn two_records(alloc: Global) -> Result<Batch, AllocError> {
    let mut batch = one_record(alloc)?;
    if batch.resources.len() > 0 && batch.resources.at_mut(0).scopes.len() > 0 {
        let resource = batch.resources.at_mut(0);
        resource.scopes.at_mut(0).logs.push(record(alloc)?)?;
    }
    Ok(batch)
}

fn after_a_scope(alloc: Global) -> Result<[Option<u128>; 2], AllocError> {
    let mut forest = Forest::new(alloc, 2)?;
    let first = forest.plant(two_records(alloc)?)?;
    let _second = forest.share(&first);
    let name = text(alloc)?;
    let scope = made_by(
        &mut forest,
        &first,
        Field::InstrumentationScopeName,
        1,
        name,
        alloc,
    );
    let log = text_made(&mut forest, &first, 1, alloc)?;
    Ok([scope, log])
}

#[test]
fn below_a_new_scope_the_record_alone_is_made(rt: HostRuntime) -> Result<(), Fail> {
    assert_eq!(rt; after_a_scope(rt.alloc())?, [Some(3), Some(1)]);
    Ok(())
}

fn after_a_refusal(alloc: Global) -> Result<(Option<u128>, u128), AllocError> {
    let mut forest = Forest::new(alloc, 2)?;
    let first = forest.plant(one_record(alloc)?)?;
    let _second = forest.share(&first);
    let refused = made_by(
        &mut forest,
        &first,
        Field::SeverityText,
        0,
        Value::Int(1),
        alloc,
    );
    Ok((refused, forest.made()))
}

#[test]
fn a_refused_write_makes_no_node(rt: HostRuntime) -> Result<(), Fail> {
    assert_eq!(rt; after_a_refusal(rt.alloc())?, (None, 4));
    Ok(())
}
