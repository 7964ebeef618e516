//! A tree without resources, which is one node, is handed on.

use crate::hand_on;
use item_list::ItemList;
use pdata_tree::Batch;
use share_cow::{Forest, Roots};
use std::alloc::{AllocError, Global};
use std::test::Fail;

// How many takers there are, how many roots are free then, and how many nodes were made.
fn handed_on(alloc: Global, takers: u32) -> Result<(usize, u32, u128), AllocError> {
    let mut forest = Forest::new(alloc, 4)?;
    let resources = ItemList::new(alloc);
    let root = forest.plant(Batch { resources })?;
    if !forest.holds(&root) || takers > forest.spare().saturating_add(1) {
        return Err(AllocError);
    }
    let takers: Roots = match hand_on(alloc, &mut forest, root, takers) {
        Ok(roots) => roots,
        Err(_) => return Err(AllocError),
    };
    Ok((takers.len(), forest.spare(), forest.made()))
}

#[test]
fn each_taker_gets_a_root_and_no_node_is_made(rt: HostRuntime) -> Result<(), Fail> {
    let alloc = rt.alloc();
    assert_eq!(rt; handed_on(alloc, 4)?, (4, 0, 1));
    assert_eq!(rt; handed_on(alloc, 2)?, (2, 2, 1));
    assert_eq!(rt; handed_on(alloc, 1)?, (1, 3, 1));
    Ok(())
}

#[test]
fn without_takers_the_root_goes(rt: HostRuntime) -> Result<(), Fail> {
    assert_eq!(rt; handed_on(rt.alloc(), 0)?, (0, 4, 1));
    Ok(())
}
