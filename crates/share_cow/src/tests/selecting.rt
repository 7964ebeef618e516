//! Parts of a tree as roots of their own.

use super::writing::{shares, text_made};
use super::{one_record, release};
use crate::{Flags, Forest, Root};
use item_list::ItemList;
use pdata_tree::Batch;
use std::alloc::{AllocError, Global};
use std::test::Fail;

// A payload of two resources with a log record each.
fn two_resources(alloc: Global) -> Result<Batch, AllocError> {
    let mut batch = one_record(alloc)?;
    let mut other = one_record(alloc)?;
    if let Some(resource) = other.resources.take() {
        batch.resources.push(resource)?;
    }
    Ok(batch)
}

fn the_second(alloc: Global) -> Result<Flags, AllocError> {
    let mut keep = ItemList::new(alloc);
    keep.push(false)?;
    keep.push(true)?;
    Ok(keep)
}

fn resources_of(forest: &Forest, root: &Root) -> Result<usize, AllocError> {
    if !forest.holds(root) {
        return Ok(0);
    }
    let copy = forest.view(root).copy()?;
    Ok(copy.resources.len())
}

fn after_selecting(alloc: Global) -> Result<(u128, usize, usize), AllocError> {
    let mut forest = Forest::new(alloc, 2)?;
    let root = forest.plant(two_resources(alloc)?)?;
    let keep = the_second(alloc)?;
    let part = forest.select_resources(&root, &keep)?;
    let kept = resources_of(&forest, &part)?;
    let all = resources_of(&forest, &root)?;
    Ok((forest.made(), kept, all))
}

#[test]
fn selecting_resources_makes_the_payload_alone(rt: HostRuntime) -> Result<(), Fail> {
    assert_eq!(rt; after_selecting(rt.alloc())?, (8, 1, 2));
    Ok(())
}

fn after_retaining(alloc: Global) -> Result<(u128, usize, u32), AllocError> {
    let mut forest = Forest::new(alloc, 1)?;
    let root = forest.plant(two_resources(alloc)?)?;
    let keep = the_second(alloc)?;
    forest.retain_resources(&root, &keep)?;
    let kept = resources_of(&forest, &root)?;
    Ok((forest.made(), kept, forest.spare()))
}

#[test]
fn retaining_resources_needs_no_further_root(rt: HostRuntime) -> Result<(), Fail> {
    assert_eq!(rt; after_retaining(rt.alloc())?, (8, 1, 0));
    Ok(())
}

// What is made where the second of two log records is selected, and then by a write to it: first
// with the other root, then without.
fn after_selecting_records(alloc: Global, shared: bool) -> Result<[Option<u128>; 3], AllocError> {
    let mut forest = Forest::new(alloc, 3)?;
    let root = forest.plant(two_resources(alloc)?)?;
    let sharer = if shared {
        shares(&mut forest, &root)
    } else {
        None
    };
    let before = forest.made();
    let part = part_of(&mut forest, &root, alloc)?;
    let selected = forest.made().saturating_sub(before);
    let written = text_made(&mut forest, &part, 0, alloc)?;
    release(&mut forest, root);
    if let Some(sharer) = sharer {
        release(&mut forest, sharer);
    }
    let again = text_made(&mut forest, &part, 0, alloc)?;
    Ok([Some(selected), written, again])
}

#[test]
fn selecting_records_makes_all_but_the_records(rt: HostRuntime) -> Result<(), Fail> {
    let alloc = rt.alloc();
    for shared in [false, true] {
        assert_eq!(rt;
            after_selecting_records(alloc, shared)?,
            [Some(3), Some(1), Some(0)]
        );
    }
    Ok(())
}

// What is made where the second of two log records is left, and how many resources the root and
// one that shared its tree have then.
fn after_retaining_records(alloc: Global) -> Result<(u128, usize, usize), AllocError> {
    let mut forest = Forest::new(alloc, 2)?;
    let root = forest.plant(two_resources(alloc)?)?;
    let sharer = shares(&mut forest, &root).ok_or(AllocError)?;
    let before = forest.made();
    let keep = the_second(alloc)?;
    if forest.holds(&root) {
        forest.retain(&root, &keep)?;
    }
    let made = forest.made().saturating_sub(before);
    let left = resources_of(&forest, &root)?;
    let other = resources_of(&forest, &sharer)?;
    Ok((made, left, other))
}

#[test]
fn retaining_records_leaves_other_roots(rt: HostRuntime) -> Result<(), Fail> {
    assert_eq!(rt; after_retaining_records(rt.alloc())?, (3, 1, 2));
    Ok(())
}

// A root for the second of two log records.
fn part_of(forest: &mut Forest, root: &Root, alloc: Global) -> Result<Root, AllocError> {
    let keep = the_second(alloc)?;
    if forest.spare() == 0 || !forest.holds(root) {
        return Err(AllocError);
    }
    forest.select(root, &keep)
}

// The nodes that were made and the free places, once three roots are released in an order.
fn after_releases(alloc: Global, order: u32) -> Result<(u128, u32), AllocError> {
    let mut forest = Forest::new(alloc, 3)?;
    let root = forest.plant(two_resources(alloc)?)?;
    let sharer = shares(&mut forest, &root).ok_or(AllocError)?;
    let part = part_of(&mut forest, &root, alloc)?;
    let (one, two, three) = match order {
        0 => (root, sharer, part),
        1 => (root, part, sharer),
        2 => (sharer, root, part),
        3 => (sharer, part, root),
        4 => (part, root, sharer),
        _ => (part, sharer, root),
    };
    release(&mut forest, one);
    release(&mut forest, two);
    release(&mut forest, three);
    Ok((forest.made(), forest.spare()))
}

#[test]
fn roots_are_released_in_every_order(rt: HostRuntime) -> Result<(), Fail> {
    let alloc = rt.alloc();
    for order in 0..6u32 {
        assert_eq!(rt; after_releases(alloc, order)?, (10, 3));
    }
    Ok(())
}

// What is made where a root gets another tree, and how many resources the root and one that shared
// its tree have then.
fn after_replacing(alloc: Global) -> Result<(u128, usize, usize), AllocError> {
    let mut forest = Forest::new(alloc, 2)?;
    let root = forest.plant(two_resources(alloc)?)?;
    let sharer = shares(&mut forest, &root).ok_or(AllocError)?;
    let before = forest.made();
    let tree = one_record(alloc)?;
    if forest.holds(&root) {
        forest.replace(&root, tree)?;
    }
    let made = forest.made().saturating_sub(before);
    let left = resources_of(&forest, &root)?;
    let other = resources_of(&forest, &sharer)?;
    Ok((made, left, other))
}

#[test]
fn replacing_a_tree_leaves_other_roots(rt: HostRuntime) -> Result<(), Fail> {
    assert_eq!(rt; after_replacing(rt.alloc())?, (4, 1, 2));
    Ok(())
}
