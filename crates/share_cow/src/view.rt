//! What a root's tree holds, seen where it stands.

ghost use Rattle.std.specs.Prelude.{◌≡◌, ◌<◌, ◌↔◌, ◌∷◌, IsTrue, IfOk, Some, length, option_map};
ghost use Rattle.pdata_tree.specs.Places.{IsPlaceIn, log_at, resource_at, scope_at};
ghost use Rattle.pdata_tree.specs.Tree.{IsCountable, records};
ghost use Rattle.shelf.specs.Places.{IsLive};
ghost use Rattle.share_cow.specs.Levels.{AllCounted};
ghost use Rattle.share_cow.specs.Store.{batch_level, resource_levels};
ghost use Rattle.share_cow.specs.Views.{logs_in, scopes_in, tree_at};

use crate::looking::{children_at, copy_resources, count_all_logs};
use crate::node::Node;
use crate::owning::child_at;
use pdata_tree::{Batch, Context, LogRecord, Place, ResourceNode, ScopeNode};
use shelf::Shelf;
use std::alloc::AllocError;
use std::marker::Model;

/// The tree of a root. Only a copy of it takes memory.
#[derive(Drop)]
pub struct RootView<'a> {
    batches: &'a Shelf<Node<()>>,
    resources: &'a Shelf<Node<ResourceNode>>,
    scopes: &'a Shelf<Node<ScopeNode>>,
    logs: &'a Shelf<Node<LogRecord>>,
    batch: u64,
}

impl<'a> Model for RootView<'a> {
    ghost use Rattle.std.specs.Prelude.{◌∷◌};
    ghost use Rattle.std.specs.Coded.{codes};
    ghost use Rattle.pdata_tree.specs.declared.batch.Batch.{Batch};
    ghost use Rattle.pdata_value.specs.contracts.value.Value as e;
    ghost use Rattle.shelf.specs.Places.{IsLive};
    ghost use Rattle.share_cow.specs.Levels.{AllCounted};
    ghost use Rattle.share_cow.specs.Store.{batch_level, resource_levels};
    ghost use Rattle.share_cow.specs.Views.{tree_at};

    ghost Value = { Batch };

    ghost coded = { Prim.hlevel (codes, e.the_row.coded) };

    ghost view = { λ v. tree_at
        (batch_level v.batches.now ∷ resource_levels v.resources.now v.scopes.now v.logs.now)
        v.batch };

    ghost invariant = { λ v. IsLive v.batches.now v.batch × AllCounted
        (batch_level v.batches.now ∷ resource_levels v.resources.now v.scopes.now v.logs.now) };
}

impl<'a> RootView<'a> {
    pub(crate) fn new(
        batches: &'a Shelf<Node<()>>,
        resources: &'a Shelf<Node<ResourceNode>>,
        scopes: &'a Shelf<Node<ScopeNode>>,
        logs: &'a Shelf<Node<LogRecord>>,
        batch: u64,
    ) -> RootView<'a>
        requires live { IsLive batches.now batch }
        requires counts { AllCounted
            (batch_level batches.now ∷ resource_levels resources.now scopes.now logs.now) }
        ensures { result ≡ tree_at
            (batch_level batches.now ∷ resource_levels resources.now scopes.now logs.now) batch }
    {
        RootView {
            batches,
            resources,
            scopes,
            logs,
            batch,
        }
    }

    /// How many resources the tree has.
    pub fn resources(&self) -> u32
        requires { IsCountable self.now }
        ensures { result ≡ length self.now.resources }
    {
        let resources = children_at(self.batches, self.batch);
        resources.len() as u32
    }

    /// How many scopes a resource has.
    pub fn scopes(&self, resource: u32) -> u32
        requires few { IsCountable self.now }
        requires there { resource < length self.now.resources }
        ensures { result ≡ length (scopes_in self.now resource) }
    {
        let resources = children_at(self.batches, self.batch);
        let scopes = children_at(self.resources, resources[resource as usize]);
        scopes.len() as u32
    }

    /// How many log records a scope has.
    pub fn logs(&self, resource: u32, scope: u32) -> u32
        requires few { IsCountable self.now }
        requires there { scope < length (scopes_in self.now resource) }
        ensures { result ≡ length (logs_in self.now resource scope) }
    {
        let resources = children_at(self.batches, self.batch);
        let scopes = children_at(self.resources, resources[resource as usize]);
        let logs = children_at(self.scopes, scopes[scope as usize]);
        logs.len() as u32
    }

    /// Whether a place is in the tree.
    pub fn has(&self, context: Context, place: Place) -> bool
        ensures { IsTrue result ↔ IsPlaceIn self.now context place }
    {
        match context {
            Context::Resource => self.has_resource(place),
            Context::Scope => self.has_scope(place),
            Context::Log => self.has_log(place),
        }
    }

    fn has_resource(&self, place: Place) -> bool
        ensures { IsTrue result ↔ IsPlaceIn self.now Context.Resource place }
    {
        let resources = children_at(self.batches, self.batch);
        (place.resource as usize) < resources.len()
    }

    fn has_scope(&self, place: Place) -> bool
        ensures { IsTrue result ↔ IsPlaceIn self.now Context.Scope place }
    {
        if !self.has_resource(place) {
            return false;
        }
        let resource = child_at(self.batches, self.batch, place.resource);
        let scopes = children_at(self.resources, resource);
        (place.scope as usize) < scopes.len()
    }

    fn has_log(&self, place: Place) -> bool
        ensures { IsTrue result ↔ IsPlaceIn self.now Context.Log place }
    {
        if !self.has_scope(place) {
            return false;
        }
        let resource = child_at(self.batches, self.batch, place.resource);
        let scope = child_at(self.resources, resource, place.scope);
        let logs = children_at(self.scopes, scope);
        (place.log as usize) < logs.len()
    }

    /// What a resource holds itself.
    pub fn resource(&self, place: Place) -> &'a ResourceNode
        requires { IsPlaceIn self.now Context.Resource place }
        ensures { option_map (λ r. r.node) (resource_at self.now place) ≡ Some result.now }
    {
        let resource = child_at(self.batches, self.batch, place.resource);
        &self.resources.get(resource).content
    }

    /// What a scope holds itself.
    pub fn scope(&self, place: Place) -> &'a ScopeNode
        requires { IsPlaceIn self.now Context.Scope place }
        ensures { option_map (λ s. s.node) (scope_at self.now place) ≡ Some result.now }
    {
        let resource = child_at(self.batches, self.batch, place.resource);
        let scope = child_at(self.resources, resource, place.scope);
        &self.scopes.get(scope).content
    }

    pub fn log(&self, place: Place) -> &'a LogRecord
        requires { IsPlaceIn self.now Context.Log place }
        ensures { log_at self.now place ≡ Some result.now }
    {
        let resource = child_at(self.batches, self.batch, place.resource);
        let scope = child_at(self.resources, resource, place.scope);
        let log = child_at(self.scopes, scope, place.log);
        &self.logs.get(log).content
    }

    pub fn count_records(&self) -> u64
        requires { IsCountable self.now }
        ensures { result ≡ records self.now }
    {
        let resources = children_at(self.batches, self.batch);
        count_all_logs(self.resources, self.scopes, resources)
    }

    /// The tree on its own.
    pub fn copy(&self) -> Result<Batch, AllocError>
        ensures { IfOk result (λ copy. copy ≡ self.now) }
    {
        let batch = self.batches.get(self.batch);
        let resources = copy_resources(self.resources, self.scopes, self.logs, &batch.children)?;
        Ok(Batch { resources })
    }
}
