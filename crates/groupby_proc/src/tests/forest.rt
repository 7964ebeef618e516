//! The tree of a root is grouped in a forest; another root keeps its own.

use super::{keys_of, log, resource, shown};
use crate::apply;
use conf_json::GroupSettings;
use item_list::ItemList;
use pdata_tree::Batch;
use share_cow::{Forest, Root};
use std::alloc::{AllocError, Global};
use std::test::Fail;

// Two resources of one log record each, which are seven nodes.
fn two_resources(alloc: Global) -> Result<Batch, AllocError> {
    let mut resources = ItemList::new(alloc);
    let second = log(alloc, 2, &[("host", "h1")])?;
    resources.push(resource(alloc, &[("host", "h1")], "s", log(alloc, 1, &[])?)?)?;
    resources.push(resource(alloc, &[], "s", second)?)?;
    Ok(Batch { resources })
}

// Groups the tree of a live root by the host.
fn group_by_host(alloc: Global, forest: &mut Forest, root: &Root) -> Result<(), AllocError> {
    if !forest.holds(root) {
        return Err(AllocError);
    }
    let keys = keys_of(alloc, &["host"])?;
    apply(alloc, &GroupSettings { keys }, forest, root)
}

// The tree of a live root, shown as text.
fn tree_of(alloc: Global, forest: &Forest, root: &Root) -> Result<String, AllocError> {
    if !forest.holds(root) {
        return Err(AllocError);
    }
    shown(alloc, &forest.view(root).copy()?)
}

// The grouped tree, and how many nodes were made.
fn unshared(alloc: Global) -> Result<(String, u128), AllocError> {
    let mut forest = Forest::new(alloc, 1)?;
    let root = forest.plant(two_resources(alloc)?)?;
    group_by_host(alloc, &mut forest, &root)?;
    Ok((tree_of(alloc, &forest, &root)?, forest.made()))
}

// The grouped tree, that of the root that shared it, and how many nodes were made.
fn shared(alloc: Global) -> Result<(String, String, u128), AllocError> {
    let mut forest = Forest::new(alloc, 2)?;
    let root = forest.plant(two_resources(alloc)?)?;
    let other = forest.share(&root);
    group_by_host(alloc, &mut forest, &root)?;
    Ok((
        tree_of(alloc, &forest, &root)?,
        tree_of(alloc, &forest, &other)?,
        forest.made(),
    ))
}

#[test]
fn a_grouped_tree_is_made_anew(rt: HostRuntime) -> Result<(), Fail> {
    let (tree, made) = unshared(rt.alloc())?;
    assert_eq!(rt; tree.as_str(), "{host=h1 }s[1{}2{}]");
    assert_eq!(rt; made, 7 + 5);
    Ok(())
}

#[test]
fn another_root_keeps_the_tree_that_was_shared(rt: HostRuntime) -> Result<(), Fail> {
    let (tree, other, made) = shared(rt.alloc())?;
    assert_eq!(rt; tree.as_str(), "{host=h1 }s[1{}2{}]");
    assert_eq!(rt; other.as_str(), "{host=h1 }s[1{}]{}s[2{host=h1 }]");
    assert_eq!(rt; made, 7 + 5);
    Ok(())
}
