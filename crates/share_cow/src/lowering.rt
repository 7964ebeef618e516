//! How nodes go that are named no longer, with what only they name.

ghost use Rattle.std.specs.Prelude.{◌≡◌, ◌<◌, [], ◌∷◌};
ghost use Rattle.shelf.specs.Places.{IsLive};
ghost use Rattle.share_cow.specs.Levels.{AllCounted};
ghost use Rattle.share_cow.specs.Lowering.{Holds, Lowers, Thins};
ghost use Rattle.share_cow.specs.Store.{IsKept, batch_level, log_level, resource_level, resource_levels, scope_level, scope_levels};

use crate::node::Node;
use pdata_tree::{LogRecord, ResourceNode, ScopeNode};
use shelf::Shelf;

pub(crate) fn lower_log(logs: &mut Shelf<Node<LogRecord>>, place: u64)
    requires live { IsLive logs.old place }
    requires kept { IsKept logs.old }
    ensures steps { Lowers (place ∷ []) (log_level logs.old) (log_level logs.new) [] [] }
    ensures logs { Thins logs.old logs.new }
{
    logs.lower(place);
}

/// Log records are named once less, each as often as it is listed.
pub(crate) fn lower_logs(logs: &mut Shelf<Node<LogRecord>>, places: &[u64])
    requires named { Holds places.now (log_level logs.old) }
    requires kept { IsKept logs.old }
    ensures steps { Lowers places.now (log_level logs.old) (log_level logs.new) [] [] }
    ensures logs { Thins logs.old logs.new }
{
    for place in places {
        lower_log(logs, *place);
    }
}

pub(crate) fn lower_scope(
    scopes: &mut Shelf<Node<ScopeNode>>,
    logs: &mut Shelf<Node<LogRecord>>,
    place: u64,
)
    requires live { IsLive scopes.old place }
    requires counts { AllCounted (scope_levels scopes.old logs.old) }
    requires scopes { IsKept scopes.old }
    requires logs { IsKept logs.old }
    ensures steps { Lowers (place ∷ []) (scope_level scopes.old) (scope_level scopes.new)
        (log_level logs.old ∷ []) (log_level logs.new ∷ []) }
    ensures scopes { Thins scopes.old scopes.new }
    ensures logs { Thins logs.old logs.new }
{
    if let Some(scope) = scopes.lower(place) {
        lower_logs(logs, scope.children.as_slice());
    }
}

/// Scopes are named once less, each as often as it is listed.
pub(crate) fn lower_scopes(
    scopes: &mut Shelf<Node<ScopeNode>>,
    logs: &mut Shelf<Node<LogRecord>>,
    places: &[u64],
)
    requires named { Holds places.now (scope_level scopes.old) }
    requires counts { AllCounted (scope_levels scopes.old logs.old) }
    requires scopes { IsKept scopes.old }
    requires logs { IsKept logs.old }
    ensures steps { Lowers places.now (scope_level scopes.old) (scope_level scopes.new)
        (log_level logs.old ∷ []) (log_level logs.new ∷ []) }
    ensures scopes { Thins scopes.old scopes.new }
    ensures logs { Thins logs.old logs.new }
{
    for place in places {
        lower_scope(scopes, logs, *place);
    }
}

pub(crate) fn lower_resource(
    resources: &mut Shelf<Node<ResourceNode>>,
    scopes: &mut Shelf<Node<ScopeNode>>,
    logs: &mut Shelf<Node<LogRecord>>,
    place: u64,
)
    requires live { IsLive resources.old place }
    requires counts { AllCounted (resource_levels resources.old scopes.old logs.old) }
    requires resources { IsKept resources.old }
    requires scopes { IsKept scopes.old }
    requires logs { IsKept logs.old }
    ensures steps { Lowers (place ∷ [])
        (resource_level resources.old) (resource_level resources.new)
        (scope_levels scopes.old logs.old) (scope_levels scopes.new logs.new) }
    ensures resources { Thins resources.old resources.new }
    ensures scopes { Thins scopes.old scopes.new }
    ensures logs { Thins logs.old logs.new }
{
    if let Some(resource) = resources.lower(place) {
        lower_scopes(scopes, logs, resource.children.as_slice());
    }
}

/// Resources are named once less, each as often as it is listed.
pub(crate) fn lower_resources(
    resources: &mut Shelf<Node<ResourceNode>>,
    scopes: &mut Shelf<Node<ScopeNode>>,
    logs: &mut Shelf<Node<LogRecord>>,
    places: &[u64],
)
    requires named { Holds places.now (resource_level resources.old) }
    requires counts { AllCounted (resource_levels resources.old scopes.old logs.old) }
    requires resources { IsKept resources.old }
    requires scopes { IsKept scopes.old }
    requires logs { IsKept logs.old }
    ensures steps { Lowers places.now (resource_level resources.old) (resource_level resources.new)
        (scope_levels scopes.old logs.old) (scope_levels scopes.new logs.new) }
    ensures resources { Thins resources.old resources.new }
    ensures scopes { Thins scopes.old scopes.new }
    ensures logs { Thins logs.old logs.new }
{
    for place in places {
        lower_resource(resources, scopes, logs, *place);
    }
}

/// A batch is named by one root less.
pub(crate) fn lower_batch(
    batches: &mut Shelf<Node<()>>,
    resources: &mut Shelf<Node<ResourceNode>>,
    scopes: &mut Shelf<Node<ScopeNode>>,
    logs: &mut Shelf<Node<LogRecord>>,
    place: u64,
)
    requires live { IsLive batches.old place }
    requires counts { AllCounted
        (batch_level batches.old ∷ resource_levels resources.old scopes.old logs.old) }
    requires batches { IsKept batches.old }
    requires resources { IsKept resources.old }
    requires scopes { IsKept scopes.old }
    requires logs { IsKept logs.old }
    ensures steps { Lowers (place ∷ []) (batch_level batches.old) (batch_level batches.new)
        (resource_levels resources.old scopes.old logs.old)
        (resource_levels resources.new scopes.new logs.new) }
    ensures batches { Thins batches.old batches.new }
    ensures resources { Thins resources.old resources.new }
    ensures scopes { Thins scopes.old scopes.new }
    ensures logs { Thins logs.old logs.new }
{
    if let Some(batch) = batches.lower(place) {
        lower_resources(resources, scopes, logs, batch.children.as_slice());
    }
}
