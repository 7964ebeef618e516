//! Copies of parts of a tree.

ghost use Rattle.std.specs.Prelude.{◌≡◌, drop, IfOk};
ghost use Rattle.pdata_tree.specs.Selecting.{flagged, kept, kept_in, kept_resources, kept_scopes};
ghost use Rattle.pdata_tree.specs.Tree.{records_of_scopes};

use crate::flags::behind;
use crate::keeping::{push_resource, push_scope};
use item_list::ItemList;
use pdata_tree::{Batch, LogRecord, Logs, ResourceTree, Resources, ScopeTree, Scopes};
use std::alloc::{AllocError, Global};

/// A copy of the tree with the flagged log records, one flag for each in the order of the tree.
/// Scopes and resources without log records aren't copied.
pub fn copy_records(alloc: Global, batch: &Batch, flags: &[bool]) -> Result<Batch, AllocError>
    ensures { IfOk result (λ part. part ≡ kept flags.now batch.now) }
{
    let resources = copy_in(alloc, batch.resources.as_slice(), flags)?;
    Ok(Batch { resources })
}

/// A copy of the tree with the flagged resources, whole.
pub fn copy_resources(alloc: Global, batch: &Batch, flags: &[bool]) -> Result<Batch, AllocError>
    ensures { IfOk result (λ part. part ≡ kept_resources flags.now batch.now) }
{
    let resources = copy_whole(alloc, batch.resources.as_slice(), flags)?;
    Ok(Batch { resources })
}

// The flagged resources.
#[tactic(auto, using(crate::proofs::Flagged::taken, crate::proofs::Flagged::left, crate::proofs::Flagged::ended))]
fn copy_whole(
    alloc: Global,
    resources: &[ResourceTree],
    flags: &[bool],
) -> Result<Resources, AllocError>
    ensures { IfOk result (λ copy. copy ≡ flagged flags.now resources.now) }
{
    let mut copy = ItemList::new(alloc);
    let mut left = resources;
    let mut rest = flags;
    while let [resource, others @ ..] = left {
        if let [flag, after @ ..] = rest {
            if *flag {
                copy.push(resource.copy()?)?;
            }
            rest = after;
        }
        left = others;
    }
    Ok(copy)
}

// The flagged log records.
#[tactic(auto, using(crate::proofs::Flagged::taken, crate::proofs::Flagged::left, crate::proofs::Flagged::ended))]
fn copy_logs(alloc: Global, logs: &[LogRecord], flags: &[bool]) -> Result<Logs, AllocError>
    ensures { IfOk result (λ copy. copy ≡ flagged flags.now logs.now) }
{
    let mut copy = ItemList::new(alloc);
    let mut left = logs;
    let mut rest = flags;
    while let [log, others @ ..] = left {
        if let [flag, after @ ..] = rest {
            if *flag {
                copy.push(log.copy()?)?;
            }
            rest = after;
        }
        left = others;
    }
    Ok(copy)
}

// What is kept of resources.
#[tactic(auto, using(crate::proofs::Parts::resource_on))]
fn copy_in(
    alloc: Global,
    resources: &[ResourceTree],
    flags: &[bool],
) -> Result<Resources, AllocError>
    ensures { IfOk result (λ copy. copy ≡ kept_in flags.now resources.now) }
{
    let mut copy = ItemList::new(alloc);
    let mut left = resources;
    let mut rest = flags;
    while let [resource, others @ ..] = left {
        let (scopes, after) = copy_scopes(alloc, resource.scopes.as_slice(), rest)?;
        push_resource(&mut copy, resource.node.copy()?, scopes)?;
        rest = after;
        left = others;
    }
    Ok(copy)
}

// What is kept of scopes, and the flags behind theirs.
#[tactic(auto, using(crate::proofs::Parts::scope_on))]
fn copy_scopes<'f>(
    alloc: Global,
    scopes: &[ScopeTree],
    flags: &'f [bool],
) -> Result<(Scopes, &'f [bool]), AllocError>
    ensures copy { IfOk result (λ answer. answer.0 ≡ kept_scopes flags.now scopes.now) }
    ensures rest { IfOk result (λ answer. answer.1.now
        ≡ drop (records_of_scopes scopes.now) flags.now) }
{
    let mut copy = ItemList::new(alloc);
    let mut left = scopes;
    let mut rest = flags;
    while let [scope, others @ ..] = left {
        let after = behind(rest, scope.logs.len());
        let logs = copy_logs(alloc, scope.logs.as_slice(), rest)?;
        push_scope(&mut copy, scope.node.copy()?, logs)?;
        rest = after;
        left = others;
    }
    Ok((copy, rest))
}
