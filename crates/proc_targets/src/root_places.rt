//! The targets of a context in the tree of a root.

ghost use Rattle.std.specs.Prelude.{◌≡◌, ◌+◌, ◌++◌, ◌<◌, ◌↔◌, IfOk, IsTrue, OnOk, length};
ghost use Rattle.pdata_tree.specs.Places.{log_places, logs_of_scopes, scope_places, targets};
ghost use Rattle.proc_targets.specs.OneResource.{targets_at};
ghost use Rattle.share_cow.specs.Views.{logs_in, scopes_in};

use item_list::ItemList;
use pdata_tree::{Context, Place};
use share_cow::RootView;
use std::alloc::{AllocError, Global};

/// The places of the context's objects in a root's tree, in their order.
#[tactic(auto, using(crate::proofs::Turns::target_turns))]
pub fn list_targets_of(
    alloc: Global,
    view: &RootView<'_>,
    context: Context,
) -> Result<ItemList<Place>, AllocError>
    ensures { IfOk result (λ places. places ≡ targets view.now context) }
{
    let mut places = ItemList::new(alloc);
    let mut resource = 0;
    'resources: while has_resource(view, resource) {
        push_targets(&mut places, view, context, resource)?;
        resource = next(resource)?;
    }
    Ok(places)
}

// The number behind a number.
fn next(number: u32) -> Result<u32, AllocError>
    ensures { IfOk result (λ next. next ≡ number + 1) }
{
    number.checked_add(1).ok_or(AllocError)
}

fn has_resource(view: &RootView<'_>, resource: u32) -> bool
    ensures { IsTrue result ↔ (resource < length view.now.resources) }
{
    let place = Place {
        resource,
        scope: 0,
        log: 0,
    };
    view.has(Context::Resource, place)
}

fn has_scope(view: &RootView<'_>, resource: u32, scope: u32) -> bool
    ensures { IsTrue result ↔ (scope < length (scopes_in view.now resource)) }
{
    let place = Place {
        resource,
        scope,
        log: 0,
    };
    view.has(Context::Scope, place)
}

fn has_log(view: &RootView<'_>, resource: u32, scope: u32, log: u32) -> bool
    ensures { IsTrue result ↔ (log < length (logs_in view.now resource scope)) }
{
    let place = Place {
        resource,
        scope,
        log,
    };
    view.has(Context::Log, place)
}

// Adds the targets in a resource.
fn push_targets(
    places: &mut ItemList<Place>,
    view: &RootView<'_>,
    context: Context,
    resource: u32,
) -> Result<(), AllocError>
    ensures { OnOk result (places.new ≡ places.old ++ targets_at context view.now resource) }
{
    match context {
        Context::Resource => places.push(Place {
            resource,
            scope: 0,
            log: 0,
        }),
        Context::Scope => push_scopes(places, view, resource),
        Context::Log => push_logs_of(places, view, resource),
    }
}

// Adds the scopes of a resource.
#[tactic(auto, using(crate::proofs::Turns::target_turns))]
fn push_scopes(
    places: &mut ItemList<Place>,
    view: &RootView<'_>,
    resource: u32,
) -> Result<(), AllocError>
    ensures { OnOk result
        (places.new ≡ places.old ++ scope_places resource 0 (scopes_in view.now resource)) }
{
    let mut scope = 0;
    'scopes: while has_scope(view, resource, scope) {
        places.push(Place {
            resource,
            scope,
            log: 0,
        })?;
        scope = next(scope)?;
    }
    Ok(())
}

// Adds the log records in the scopes of a resource.
#[tactic(auto, using(crate::proofs::Turns::target_turns))]
fn push_logs_of(
    places: &mut ItemList<Place>,
    view: &RootView<'_>,
    resource: u32,
) -> Result<(), AllocError>
    ensures { OnOk result
        (places.new ≡ places.old ++ logs_of_scopes resource 0 (scopes_in view.now resource)) }
{
    let mut scope = 0;
    'scopes: while has_scope(view, resource, scope) {
        push_logs(places, view, resource, scope)?;
        scope = next(scope)?;
    }
    Ok(())
}

// Adds the log records of a scope.
#[tactic(auto, using(crate::proofs::Turns::target_turns))]
fn push_logs(
    places: &mut ItemList<Place>,
    view: &RootView<'_>,
    resource: u32,
    scope: u32,
) -> Result<(), AllocError>
    ensures { OnOk result (places.new
        ≡ places.old ++ log_places resource scope 0 (logs_in view.now resource scope)) }
{
    let mut log = 0;
    'logs: while has_log(view, resource, scope, log) {
        places.push(Place {
            resource,
            scope,
            log,
        })?;
        log = next(log)?;
    }
    Ok(())
}
