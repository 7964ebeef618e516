//! Counts of log records.

ghost use Rattle.std.specs.Prelude.{◌≡◌, ◌+◌, ◌-◌, IfOk};
ghost use Rattle.pdata_tree.specs.Tree.{records, records_of_resources, records_of_scopes};

use pdata_tree::{Batch, ResourceTree, ScopeTree};
use std::alloc::AllocError;

/// The number of log records. One past 128 bits wants more memory than there is.
pub(crate) fn count_records(tree: &Batch) -> Result<u128, AllocError>
    ensures { IfOk result (λ count. count ≡ records tree.now) }
{
    count_in(tree.resources.as_slice())
}

fn count_in(resources: &[ResourceTree]) -> Result<u128, AllocError>
    ensures { IfOk result (λ count. count ≡ records_of_resources resources.now) }
{
    let mut count = 0;
    for resource in resources {
        count = add(count, count_of(resource.scopes.as_slice())?)?;
    }
    Ok(count)
}

fn count_of(scopes: &[ScopeTree]) -> Result<u128, AllocError>
    ensures { IfOk result (λ count. count ≡ records_of_scopes scopes.now) }
{
    let mut count = 0;
    for scope in scopes {
        count = add(count, scope.logs.len() as u128)?;
    }
    Ok(count)
}

/// The sum. One past 128 bits counts as want of memory.
pub(crate) fn add(count: u128, more: u128) -> Result<u128, AllocError>
    ensures { IfOk result (λ sum. sum ≡ count + more) }
{
    match count.checked_add(more) {
        Some(sum) => Ok(sum),
        None => Err(AllocError),
    }
}
