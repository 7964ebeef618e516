//! The targets of a context.

ghost use Rattle.std.specs.Prelude.{◌≡◌, ◌++◌, IfOk, OnOk};
ghost use Rattle.pdata_tree.specs.Places.{log_places, logs_of_scopes, scope_places, targets};
ghost use Rattle.proc_targets.specs.OneResource.{targets_in};

use crate::memory::narrow;
use item_list::ItemList;
use pdata_tree::{Batch, Context, LogRecord, Place, ResourceTree, ScopeTree};
use std::alloc::{AllocError, Global};

/// The places of the context's objects, in the order of the tree.
#[tactic(auto, using(crate::proofs::Turns::target_turns))]
pub fn list_targets(
    alloc: Global,
    tree: &Batch,
    context: Context,
) -> Result<ItemList<Place>, AllocError>
    ensures { IfOk result (λ places. places ≡ targets tree.now context) }
{
    let mut places = ItemList::new(alloc);
    for (number, resource) in tree.resources.as_slice().iter().enumerate() {
        push_targets(&mut places, context, narrow(number)?, resource)?;
    }
    Ok(places)
}

// Adds the targets in a resource.
fn push_targets(
    places: &mut ItemList<Place>,
    context: Context,
    number: u32,
    resource: &ResourceTree,
) -> Result<(), AllocError>
    ensures { OnOk result (places.new ≡ places.old ++ targets_in context number resource.now) }
{
    match context {
        Context::Resource => places.push(Place {
            resource: number,
            scope: 0,
            log: 0,
        }),
        Context::Scope => push_scopes(places, number, resource.scopes.as_slice()),
        Context::Log => push_logs_of(places, number, resource.scopes.as_slice()),
    }
}

// Adds the scopes of the resource with this number.
#[tactic(auto, using(crate::proofs::Turns::target_turns))]
fn push_scopes(
    places: &mut ItemList<Place>,
    resource: u32,
    scopes: &[ScopeTree],
) -> Result<(), AllocError>
    ensures { OnOk result (places.new ≡ places.old ++ scope_places resource 0 scopes.now) }
{
    for (number, _) in scopes.iter().enumerate() {
        places.push(Place {
            resource,
            scope: narrow(number)?,
            log: 0,
        })?;
    }
    Ok(())
}

// Adds the log records in the scopes of the resource with this number.
#[tactic(auto, using(crate::proofs::Turns::target_turns))]
fn push_logs_of(
    places: &mut ItemList<Place>,
    resource: u32,
    scopes: &[ScopeTree],
) -> Result<(), AllocError>
    ensures { OnOk result (places.new ≡ places.old ++ logs_of_scopes resource 0 scopes.now) }
{
    for (number, scope) in scopes.iter().enumerate() {
        push_logs(places, resource, narrow(number)?, scope.logs.as_slice())?;
    }
    Ok(())
}

// Adds the log records of the scope with these numbers.
#[tactic(auto, using(crate::proofs::Turns::target_turns))]
fn push_logs(
    places: &mut ItemList<Place>,
    resource: u32,
    scope: u32,
    logs: &[LogRecord],
) -> Result<(), AllocError>
    ensures { OnOk result (places.new ≡ places.old ++ log_places resource scope 0 logs.now) }
{
    for (number, _) in logs.iter().enumerate() {
        places.push(Place {
            resource,
            scope,
            log: narrow(number)?,
        })?;
    }
    Ok(())
}
