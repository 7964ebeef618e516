//! How the nodes on a path of a root become its own: those that are shared are made anew.

ghost use Rattle.std.specs.Prelude.{◌≡◌, [], ◌∷◌, IfOk, OnErr};
ghost use Rattle.share_cow.specs.Copies.{InTree, Owns};
ghost use Rattle.share_cow.specs.Kept.{KeepsOthers};
ghost use Rattle.share_cow.specs.Scene.{way_to};
ghost use Rattle.share_cow.specs.Store.{IsLiveRoot, IsSound, den, levels};

use super::Forest;
use crate::looking::children_at;
use crate::owning::{child_at, copy_node, raise_all, set_child};
use crate::root::Root;
use pdata_tree::{Context, Place};
use std::alloc::AllocError;

impl Forest {
    // The batch of a root, its own.
    fn own_batch(&mut self, root: &Root) -> Result<u64, AllocError>
        requires { IsLiveRoot self.old root.now }
        ensures owns { IfOk result (Owns (levels self.old) (levels self.new) root.now (0 ∷ [])) }
        ensures tree { den self.new root.now ≡ den self.old root.now }
        ensures keeps { KeepsOthers root.now self.old self.new }
        ensures sound { IsSound self.new }
    {
        let batch = self.batch_at(root);
        if self.batches.count(batch) <= 1 {
            return Ok(batch);
        }
        let copy = copy_node(&mut self.batches, batch, ())?;
        raise_all(&mut self.resources, children_at(&self.batches, copy));
        self.roots[root.place()] = copy;
        Ok(copy)
    }

    /// The resource at the end of a path, its root's own like all nodes on the path.
    pub(crate) fn own_resource(&mut self, root: &Root, place: Place) -> Result<u64, AllocError>
        requires { InTree (levels self.old) root.now (way_to Context.Resource place) }
        ensures owns { IfOk result
            (Owns (levels self.old) (levels self.new) root.now (way_to Context.Resource place)) }
        ensures tree { den self.new root.now ≡ den self.old root.now }
        ensures keeps { KeepsOthers root.now self.old self.new }
        ensures sound { IsSound self.new }
    {
        let parent = self.own_batch(root)?;
        let resource = child_at(&self.batches, parent, place.resource);
        if self.resources.count(resource) <= 1 {
            return Ok(resource);
        }
        let content = self.resources.get(resource).content.copy()?;
        let copy = copy_node(&mut self.resources, resource, content)?;
        raise_all(&mut self.scopes, children_at(&self.resources, copy));
        set_child(&mut self.batches, parent, place.resource, copy);
        Ok(copy)
    }

    /// The scope at the end of a path, likewise.
    pub(crate) fn own_scope(&mut self, root: &Root, place: Place) -> Result<u64, AllocError>
        requires { InTree (levels self.old) root.now (way_to Context.Scope place) }
        ensures owns { IfOk result
            (Owns (levels self.old) (levels self.new) root.now (way_to Context.Scope place)) }
        ensures tree { den self.new root.now ≡ den self.old root.now }
        ensures keeps { KeepsOthers root.now self.old self.new }
        ensures sound { IsSound self.new }
    {
        let parent = self.own_resource(root, place)?;
        let scope = child_at(&self.resources, parent, place.scope);
        if self.scopes.count(scope) <= 1 {
            return Ok(scope);
        }
        let content = self.scopes.get(scope).content.copy()?;
        let copy = copy_node(&mut self.scopes, scope, content)?;
        raise_all(&mut self.logs, children_at(&self.scopes, copy));
        set_child(&mut self.resources, parent, place.scope, copy);
        Ok(copy)
    }

    /// The log record at the end of a path, likewise.
    pub(crate) fn own_log(&mut self, root: &Root, place: Place) -> Result<u64, AllocError>
        requires { InTree (levels self.old) root.now (way_to Context.Log place) }
        ensures owns { IfOk result
            (Owns (levels self.old) (levels self.new) root.now (way_to Context.Log place)) }
        ensures tree { den self.new root.now ≡ den self.old root.now }
        ensures keeps { KeepsOthers root.now self.old self.new }
        ensures sound { IsSound self.new }
    {
        let parent = self.own_scope(root, place)?;
        let log = child_at(&self.scopes, parent, place.log);
        if self.logs.count(log) <= 1 {
            return Ok(log);
        }
        let content = self.logs.get(log).content.copy()?;
        let copy = copy_node(&mut self.logs, log, content)?;
        set_child(&mut self.scopes, parent, place.log, copy);
        Ok(copy)
    }
}
