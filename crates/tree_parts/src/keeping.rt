//! Parts of a tree that are kept, or copied.

ghost use Rattle.std.specs.Prelude.{◌≡◌, ◌++◌, drop, OnOk, IfOk};
ghost use Rattle.pdata_tree.specs.Selecting.{flagged, kept, kept_in, kept_resources, kept_scopes};
ghost use Rattle.pdata_tree.specs.Selecting.{resource_with, scope_with};
ghost use Rattle.pdata_tree.specs.Tree.{records_of_scopes};

use crate::flags::{behind, keep};
use item_list::ItemList;
use pdata_tree::{
    Batch, Logs, ResourceNode, ResourceTree, Resources, ScopeNode, ScopeTree, Scopes,
};
use std::alloc::{AllocError, Global};

/// The tree with the flagged log records, one flag for each in the order of the tree. Scopes and
/// resources without log records go.
pub fn keep_records(alloc: Global, batch: Batch, flags: &[bool]) -> Result<Batch, AllocError>
    ensures { IfOk result (λ part. part ≡ kept flags.now batch) }
{
    let resources = keep_in(alloc, batch.resources, flags)?;
    Ok(Batch { resources })
}

/// The tree with the flagged resources, whole.
pub fn keep_resources(alloc: Global, batch: Batch, flags: &[bool]) -> Result<Batch, AllocError>
    ensures { IfOk result (λ part. part ≡ kept_resources flags.now batch) }
{
    let resources = keep(alloc, batch.resources, flags)?;
    Ok(Batch { resources })
}

// What is kept of resources.
#[tactic(auto, using(crate::proofs::Parts::resource_on))]
fn keep_in(alloc: Global, resources: Resources, flags: &[bool]) -> Result<Resources, AllocError>
    ensures { IfOk result (λ part. part ≡ kept_in flags.now resources) }
{
    let mut part = ItemList::new(alloc);
    let mut rest = flags;
    for resource in resources.into_vec() {
        let (scopes, after) = keep_scopes(alloc, resource.scopes, rest)?;
        push_resource(&mut part, resource.node, scopes)?;
        rest = after;
    }
    Ok(part)
}

// What is kept of scopes, and the flags behind theirs.
#[tactic(auto, using(crate::proofs::Parts::scope_on))]
fn keep_scopes(
    alloc: Global,
    scopes: Scopes,
    flags: &[bool],
) -> Result<(Scopes, &[bool]), AllocError>
    ensures part { IfOk result (λ answer. answer.0 ≡ kept_scopes flags.now scopes) }
    ensures rest { IfOk result
        (λ answer. answer.1.now ≡ drop (records_of_scopes scopes) flags.now) }
{
    let mut part = ItemList::new(alloc);
    let mut rest = flags;
    for scope in scopes.into_vec() {
        let after = behind(rest, scope.logs.len());
        let logs = keep(alloc, scope.logs, rest)?;
        push_scope(&mut part, scope.node, logs)?;
        rest = after;
    }
    Ok((part, rest))
}

/// Adds a resource with these scopes, if there are any.
pub(crate) fn push_resource(
    resources: &mut Resources,
    node: ResourceNode,
    scopes: Scopes,
) -> Result<(), AllocError>
    ensures { OnOk result (resources.new
        ≡ resources.old ++ resource_with (record { node = node; scopes = scopes }) scopes) }
{
    if scopes.is_empty() {
        return Ok(());
    }
    resources.push(ResourceTree { node, scopes })
}

/// Adds a scope with these log records, if there are any.
pub(crate) fn push_scope(scopes: &mut Scopes, node: ScopeNode, logs: Logs) -> Result<(), AllocError>
    ensures { OnOk result (scopes.new
        ≡ scopes.old ++ scope_with (record { node = node; logs = logs }) logs) }
{
    if logs.is_empty() {
        return Ok(());
    }
    scopes.push(ScopeTree { node, logs })
}
