//! How nodes are seen where they stand, counted and copied.

ghost use Rattle.std.specs.Prelude.{◌≡◌, ◌<◌, ◌^◌, ℕ, [], ◌∷◌, IfOk, filter_map, map};
ghost use Rattle.shelf.specs.Places.{IsLive};
ghost use Rattle.share_cow.specs.Levels.{AllCounted, list_at, times, value};
ghost use Rattle.share_cow.specs.Lowering.{Holds};
ghost use Rattle.share_cow.specs.Store.{a_resource, a_scope, as_log, as_resource, as_scope, children_of, log_level, nothing, resource_level, resource_levels, scope_level, scope_levels};
ghost use Rattle.share_cow.specs.Views.{children_in, grandchildren_in};

use crate::node::Node;
use item_list::ItemList;
use pdata_tree::{
    LogRecord, Logs, ResourceNode, ResourceTree, Resources, ScopeNode, ScopeTree, Scopes,
};
use shelf::Shelf;
use std::alloc::{AllocError, Global};

/// The places that a node names.
pub(crate) fn children_at<D: Drop>(shelf: &Shelf<Node<D>>, place: u64) -> &[u64]
    requires { IsLive shelf.now place }
    ensures { result.now ≡ list_at (map children_of shelf.now.slots) place }
{
    shelf.get(place).children.as_slice()
}

// How many places scopes name, all taken together.
fn count_logs(scopes: &Shelf<Node<ScopeNode>>, places: &[u64]) -> u64
    requires live { Holds places.now (scope_level scopes.now) }
    requires few { children_in scopes.now places.now < 2 ^ 32 }
    ensures { result ≡ children_in scopes.now places.now }
{
    let mut count = 0;
    for place in places {
        let logs = children_at(scopes, *place);
        count += logs.len() as u64;
    }
    count
}

/// How many log records resources have, all taken together.
pub(crate) fn count_all_logs(
    resources: &Shelf<Node<ResourceNode>>,
    scopes: &Shelf<Node<ScopeNode>>,
    places: &[u64],
) -> u64
    requires live { Holds places.now (resource_level resources.now) }
    requires counts { AllCounted (resource_level resources.now ∷ scope_level scopes.now ∷ []) }
    requires few { grandchildren_in resources.now scopes.now places.now < 2 ^ 32 }
    ensures { result ≡ grandchildren_in resources.now scopes.now places.now }
{
    let mut count = 0;
    for place in places {
        let below = children_at(resources, *place);
        count += count_logs(scopes, below);
    }
    count
}

fn copy_logs(
    alloc: Global,
    logs: &Shelf<Node<LogRecord>>,
    places: &[u64],
) -> Result<Logs, AllocError>
    requires { Holds places.now (log_level logs.now) }
    ensures { IfOk result (λ copies. copies
        ≡ filter_map as_log (map (value nothing (log_level logs.now ∷ [])) places.now)) }
{
    let mut copies = ItemList::with_capacity(alloc, places.len())?;
    for place in places {
        let log = logs.get(*place);
        let copy = log.content.copy()?;
        copies.push(copy)?;
    }
    Ok(copies)
}

fn copy_scope(
    scopes: &Shelf<Node<ScopeNode>>,
    logs: &Shelf<Node<LogRecord>>,
    place: u64,
) -> Result<ScopeTree, AllocError>
    requires live { IsLive scopes.now place }
    requires counts { AllCounted (scope_levels scopes.now logs.now) }
    ensures { IfOk result (λ copy.
        value nothing (scope_levels scopes.now logs.now) place ≡ a_scope copy) }
{
    let scope = scopes.get(place);
    let below = scope.children.as_slice();
    let logs = copy_logs(scope.children.allocator(), logs, below)?;
    let node = scope.content.copy()?;
    Ok(ScopeTree { node, logs })
}

fn copy_scopes(
    alloc: Global,
    scopes: &Shelf<Node<ScopeNode>>,
    logs: &Shelf<Node<LogRecord>>,
    places: &[u64],
) -> Result<Scopes, AllocError>
    requires live { Holds places.now (scope_level scopes.now) }
    requires counts { AllCounted (scope_levels scopes.now logs.now) }
    ensures { IfOk result (λ copies. copies
        ≡ filter_map as_scope (map (value nothing (scope_levels scopes.now logs.now)) places.now)) }
{
    let mut copies = ItemList::with_capacity(alloc, places.len())?;
    for place in places {
        let copy = copy_scope(scopes, logs, *place)?;
        copies.push(copy)?;
    }
    Ok(copies)
}

fn copy_resource(
    resources: &Shelf<Node<ResourceNode>>,
    scopes: &Shelf<Node<ScopeNode>>,
    logs: &Shelf<Node<LogRecord>>,
    place: u64,
) -> Result<ResourceTree, AllocError>
    requires live { IsLive resources.now place }
    requires counts { AllCounted (resource_levels resources.now scopes.now logs.now) }
    ensures { IfOk result (λ copy.
        value nothing (resource_levels resources.now scopes.now logs.now) place ≡ a_resource copy) }
{
    let resource = resources.get(place);
    let below = resource.children.as_slice();
    let scopes = copy_scopes(resource.children.allocator(), scopes, logs, below)?;
    let node = resource.content.copy()?;
    Ok(ResourceTree { node, scopes })
}

/// Resources on their own.
pub(crate) fn copy_resources(
    resources: &Shelf<Node<ResourceNode>>,
    scopes: &Shelf<Node<ScopeNode>>,
    logs: &Shelf<Node<LogRecord>>,
    children: &ItemList<u64>,
) -> Result<Resources, AllocError>
    requires live { Holds children.now (resource_level resources.now) }
    requires counts { AllCounted (resource_levels resources.now scopes.now logs.now) }
    ensures { IfOk result (λ copies. copies ≡ filter_map as_resource
        (map (value nothing (resource_levels resources.now scopes.now logs.now)) children.now)) }
{
    let mut copies = ItemList::with_capacity(children.allocator(), children.len())?;
    let places = children.as_slice();
    for place in places {
        let copy = copy_resource(resources, scopes, logs, *place)?;
        copies.push(copy)?;
    }
    Ok(copies)
}
