//! Trees grouped by attributes.

ghost use Rattle.std.specs.Prelude.{◌≡◌, map, IfOk};
ghost use Rattle.pdata_tree.specs.Grouping.{grouped, same_resource, same_scope};
ghost use Rattle.groupby_proc.specs.Gathering.{gathered};
ghost use Rattle.groupby_proc.specs.Placing.{resource_tree, scope_tree};

use crate::gathering::gather;
use crate::placing::{Placed, Scoped, place};
use conf_json::GroupSettings;
use item_list::ItemList;
use pdata_tree::{Batch, ResourceTree, Resources, ScopeTree, Scopes};
use pdata_value::Text;
use std::alloc::{AllocError, Global};

/// The tree grouped by the attributes that the settings list.
pub fn apply_plain(
    alloc: Global,
    settings: &GroupSettings,
    tree: Batch,
) -> Result<Batch, AllocError>
    ensures { IfOk result (λ batch. batch ≡ grouped settings.now.keys tree) }
{
    regroup(alloc, settings.keys.as_slice(), tree)
}

/// The tree grouped by the attributes with these keys.
pub fn regroup(alloc: Global, keys: &[Text], tree: Batch) -> Result<Batch, AllocError>
    ensures { IfOk result (λ batch. batch ≡ grouped keys.now tree) }
{
    let records = place(alloc, keys, tree.resources)?;
    let resources = group_resources(alloc, records)?;
    Ok(Batch { resources })
}

// The resources of log records.
fn group_resources(alloc: Global, records: Placed) -> Result<Resources, AllocError>
    ensures { IfOk result (λ resources. resources
        ≡ map resource_tree (gathered same_resource records)) }
{
    let mut resources = ItemList::new(alloc);
    for (node, records) in gather(alloc, records)?.into_vec() {
        let scopes = group_scopes(alloc, records)?;
        resources.push(ResourceTree { node, scopes })?;
    }
    Ok(resources)
}

// The scopes of a resource.
fn group_scopes(alloc: Global, records: ItemList<Scoped>) -> Result<Scopes, AllocError>
    ensures { IfOk result (λ scopes. scopes ≡ map scope_tree (gathered same_scope records)) }
{
    let mut scopes = ItemList::new(alloc);
    for (node, logs) in gather(alloc, records)?.into_vec() {
        scopes.push(ScopeTree { node, logs })?;
    }
    Ok(scopes)
}
