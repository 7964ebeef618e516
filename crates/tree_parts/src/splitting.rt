//! Trees that are parted in two.

ghost use Rattle.std.specs.Prelude.{◌≡◌, ◌++◌, drop, map, not, IfOk};
ghost use Rattle.pdata_tree.specs.Selecting.{kept, kept_in, kept_resources, kept_scopes};
ghost use Rattle.pdata_tree.specs.Selecting.{resource_with, scope_with};
ghost use Rattle.pdata_tree.specs.Tree.{records_of_scopes};

use crate::flags::{behind, split};
use crate::keeping::{push_resource, push_scope};
use item_list::ItemList;
use pdata_tree::{Batch, Logs, ResourceNode, Resources, ScopeNode, Scopes};
use std::alloc::{AllocError, Global};

/// The tree with the flagged log records, and the tree with the others. Scopes and resources
/// without log records go from both; those with log records in both stand in both.
pub fn split_records(
    alloc: Global,
    batch: Batch,
    flags: &[bool],
) -> Result<(Batch, Batch), AllocError>
    ensures taken { IfOk result (λ parts. parts.0 ≡ kept flags.now batch) }
    ensures left { IfOk result (λ parts. parts.1 ≡ kept (map not flags.now) batch) }
{
    let (taken, left) = split_in(alloc, batch.resources, flags)?;
    Ok((Batch { resources: taken }, Batch { resources: left }))
}

/// The tree with the flagged resources, and the tree with the others.
pub fn split_resources(
    alloc: Global,
    batch: Batch,
    flags: &[bool],
) -> Result<(Batch, Batch), AllocError>
    ensures taken { IfOk result (λ parts. parts.0 ≡ kept_resources flags.now batch) }
    ensures left { IfOk result (λ parts. parts.1 ≡ kept_resources (map not flags.now) batch) }
{
    let (taken, left) = split(alloc, batch.resources, flags)?;
    Ok((Batch { resources: taken }, Batch { resources: left }))
}

// The parts of resources.
fn split_in(
    alloc: Global,
    resources: Resources,
    flags: &[bool],
) -> Result<(Resources, Resources), AllocError>
    ensures taken { IfOk result (λ parts. parts.0 ≡ kept_in flags.now resources) }
    ensures left { IfOk result (λ parts. parts.1 ≡ kept_in (map not flags.now) resources) }
{
    let mut parts = (ItemList::new(alloc), ItemList::new(alloc));
    let mut rest = flags;
    for resource in resources.into_vec() {
        let (scopes, others, after) = split_scopes(alloc, resource.scopes, rest)?;
        parts = push_resources(parts, resource.node, scopes, others)?;
        rest = after;
    }
    Ok(parts)
}

// The parts of scopes, and the flags behind theirs.
fn split_scopes(
    alloc: Global,
    scopes: Scopes,
    flags: &[bool],
) -> Result<(Scopes, Scopes, &[bool]), AllocError>
    ensures taken { IfOk result (λ parts. parts.0 ≡ kept_scopes flags.now scopes) }
    ensures left { IfOk result (λ parts. parts.1 ≡ kept_scopes (map not flags.now) scopes) }
    ensures rest { IfOk result (λ parts. parts.2.now ≡ drop (records_of_scopes scopes) flags.now) }
{
    let mut parts = (ItemList::new(alloc), ItemList::new(alloc));
    let mut rest = flags;
    for scope in scopes.into_vec() {
        let after = behind(rest, scope.logs.len());
        let (logs, others) = split(alloc, scope.logs, rest)?;
        parts = push_scopes(parts, scope.node, logs, others)?;
        rest = after;
    }
    Ok((parts.0, parts.1, rest))
}

// A resource goes where it has scopes; where it has some in both, it is copied.
fn push_resources(
    parts: (Resources, Resources),
    node: ResourceNode,
    scopes: Scopes,
    others: Scopes,
) -> Result<(Resources, Resources), AllocError>
    ensures taken { IfOk result (λ new. new.0
        ≡ parts.0 ++ resource_with (record { node = node; scopes = scopes }) scopes) }
    ensures left { IfOk result (λ new. new.1
        ≡ parts.1 ++ resource_with (record { node = node; scopes = others }) others) }
{
    let (mut taken, mut left) = parts;
    if scopes.is_empty() {
        push_resource(&mut left, node, others)?;
        return Ok((taken, left));
    }
    if !others.is_empty() {
        push_resource(&mut left, node.copy()?, others)?;
    }
    push_resource(&mut taken, node, scopes)?;
    Ok((taken, left))
}

// A scope goes where it has log records; where it has some in both, it is copied.
fn push_scopes(
    parts: (Scopes, Scopes),
    node: ScopeNode,
    logs: Logs,
    others: Logs,
) -> Result<(Scopes, Scopes), AllocError>
    ensures taken { IfOk result (λ new. new.0
        ≡ parts.0 ++ scope_with (record { node = node; logs = logs }) logs) }
    ensures left { IfOk result (λ new. new.1
        ≡ parts.1 ++ scope_with (record { node = node; logs = others }) others) }
{
    let (mut taken, mut left) = parts;
    if logs.is_empty() {
        push_scope(&mut left, node, others)?;
        return Ok((taken, left));
    }
    if !others.is_empty() {
        push_scope(&mut left, node.copy()?, others)?;
    }
    push_scope(&mut taken, node, logs)?;
    Ok((taken, left))
}
