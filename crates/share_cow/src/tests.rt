//! Roots come, share their trees, and go.

ghost use Rattle.std.specs.Prelude.{◌≡◌, IfOk};
ghost use Rattle.pdata_tree.specs.Tree.{IsCountable, nodes, nodes_of_scopes};

use crate::{Forest, Root, RootView, Roots};
use item_list::ItemList;
use pdata_tree::{
    Batch, Context, Field, LogRecord, Logs, PathTo, Place, ResourceNode, ResourceTree, Resources,
    Scene, ScopeNode, ScopeTree, Scopes, Seen,
};
use pdata_value::{Pairs, Text, Value};
use std::alloc::{AllocError, Global};
use std::test::Fail;

mod selecting;
mod writing;

fn record(alloc: Global) -> Result<LogRecord, AllocError> {
    Ok(LogRecord {
        time: 1,
        observed: 2,
        severity: 9,
        severity_text: Text::from_str(alloc, "INFO")?,
        body: Value::Int(3),
        attributes: Pairs::new(alloc),
        dropped: 0,
        flags: 0,
        trace_id: [6; 16],
        span_id: [7; 8],
    })
}

fn scopes(alloc: Global) -> Result<Scopes, AllocError>
    ensures { IfOk result (λ scopes. nodes_of_scopes scopes ≡ 2) }
{
    let mut logs: Logs = ItemList::new(alloc);
    logs.push(record(alloc)?)?;
    let node = ScopeNode {
        name: Text::from_str(alloc, "name")?,
        version: Text::new(alloc),
        attributes: Pairs::new(alloc),
        dropped: 0,
        schema_url: Text::new(alloc),
    };
    let mut scopes = ItemList::new(alloc);
    scopes.push(ScopeTree { node, logs })?;
    Ok(scopes)
}

// A payload of one log record.
fn one_record(alloc: Global) -> Result<Batch, AllocError>
    ensures { IfOk result (λ batch. nodes batch ≡ 4) }
{
    let node = ResourceNode {
        attributes: Pairs::new(alloc),
        dropped: 0,
        schema_url: Text::new(alloc),
    };
    let scopes = scopes(alloc)?;
    let mut resources: Resources = ItemList::new(alloc);
    resources.push(ResourceTree { node, scopes })?;
    Ok(Batch { resources })
}

fn after_planting(alloc: Global) -> Result<(u128, u32), AllocError> {
    let mut forest = Forest::new(alloc, 2)?;
    forest.plant(one_record(alloc)?)?;
    Ok((forest.made(), forest.spare()))
}

#[test]
fn planting_one_record_makes_four_nodes(rt: HostRuntime) -> Result<(), Fail> {
    assert_eq!(rt; after_planting(rt.alloc())?, (4, 1));
    Ok(())
}

fn share_often(forest: &mut Forest, root: &Root) {
    for _ in 0..1000u32 {
        if forest.spare() > 0 && forest.holds(root) {
            forest.share(root);
        }
    }
}

fn after_sharing(alloc: Global) -> Result<(u128, u32), AllocError> {
    let mut forest = Forest::new(alloc, 1001)?;
    let root = forest.plant(one_record(alloc)?)?;
    share_often(&mut forest, &root);
    Ok((forest.made(), forest.spare()))
}

#[test]
fn a_thousand_shares_make_no_node(rt: HostRuntime) -> Result<(), Fail> {
    assert_eq!(rt; after_sharing(rt.alloc())?, (4, 0));
    Ok(())
}

fn release(forest: &mut Forest, root: Root) {
    if forest.holds(&root) {
        forest.release(root);
    }
}

fn counts_seen(view: &RootView<'_>) -> (u32, u32, u32, u64)
    requires { IsCountable view.now }
{
    let records = view.count_records();
    let resources = view.resources();
    if resources == 0 {
        return (0, 0, 0, records);
    }
    let scopes = view.scopes(0);
    if scopes == 0 {
        return (resources, 0, 0, records);
    }
    (resources, scopes, view.logs(0, 0), records)
}

fn seen_of_one_record(alloc: Global) -> Result<(u32, u32, u32, u64), AllocError> {
    let mut forest = Forest::new(alloc, 2)?;
    let root = forest.plant(one_record(alloc)?)?;
    let seen = counts_seen(&forest.view(&root));
    Ok(seen)
}

fn copy_of_one_record(alloc: Global) -> Result<usize, AllocError> {
    let mut forest = Forest::new(alloc, 2)?;
    let root = forest.plant(one_record(alloc)?)?;
    let copy = forest.view(&root).copy()?;
    Ok(copy.resources.len())
}

#[test]
fn a_tree_is_seen_where_it_stands(rt: HostRuntime) -> Result<(), Fail> {
    assert_eq!(rt; seen_of_one_record(rt.alloc())?, (1, 1, 1, 1));
    assert_eq!(rt; copy_of_one_record(rt.alloc())?, 1);
    Ok(())
}

// Whether the text of a record is lent where it stands.
fn text_is_lent(alloc: Global) -> Result<bool, AllocError> {
    let mut forest = Forest::new(alloc, 2)?;
    let root = forest.plant(one_record(alloc)?)?;
    let place = Place {
        resource: 0,
        scope: 0,
        log: 0,
    };
    if !forest.view(&root).has(Context::Log, place) {
        return Ok(false);
    }
    let path = PathTo {
        field: Field::SeverityText,
        keys: ItemList::new(alloc),
    };
    let scene = forest.scene(&root, Context::Log, place);
    match scene.look(&path) {
        Ok(Seen::Text(text)) => Ok(text.as_str() == "INFO"),
        _ => Ok(false),
    }
}

#[test]
fn a_text_is_lent_where_it_stands(rt: HostRuntime) -> Result<(), Fail> {
    assert!(rt; text_is_lent(rt.alloc())?);
    Ok(())
}

#[test]
fn roots_are_listed(rt: HostRuntime) -> Result<(), Fail> {
    let mut roots = Roots::with_room(rt.alloc(), 2)?;
    roots.push(Root::new(5));
    assert_eq!(rt; (roots.len(), roots.room()), (1, 1));
    assert_eq!(rt; roots.at(0).map(|root| root.place()), Some(5));
    assert!(rt; roots.take().is_some());
    assert_eq!(rt; (roots.len(), roots.room()), (0, 2));
    Ok(())
}
