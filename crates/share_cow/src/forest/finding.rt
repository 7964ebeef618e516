//! Where the objects at a place of a root's tree lie, and whether the way to them is the root's
//! own.

ghost use Rattle.std.specs.Prelude.{◌≡◌, ◌↔◌, [], ◌∷◌, IsTrue};
ghost use Rattle.share_cow.specs.Copies.{InTree, end_of, owed};
ghost use Rattle.share_cow.specs.Scene.{way_to};
ghost use Rattle.share_cow.specs.Store.{levels};

use super::Forest;
use crate::owning::child_at;
use crate::root::Root;
use pdata_tree::{Context, Place};

impl Forest {
    // Where the payload of a root lies, and whether no other root names it.
    fn find_batch(&self, root: &Root) -> (u64, bool)
        requires { InTree (levels self.now) root.now (0 ∷ []) }
        ensures ends { end_of (levels self.now) root.now (0 ∷ []) ≡ result.0 }
        ensures own { IsTrue result.1 ↔ (owed (levels self.now) root.now (0 ∷ []) ≡ 0) }
    {
        let batch = self.batch_at(root);
        let own = self.batches.count(batch) <= 1;
        (batch, own)
    }

    /// Where a resource lies, and whether nothing on the way to it is shared.
    pub(crate) fn find_resource(&self, root: &Root, place: Place) -> (u64, bool)
        requires { InTree (levels self.now) root.now (way_to Context.Resource place) }
        ensures ends { end_of (levels self.now) root.now (way_to Context.Resource place)
            ≡ result.0 }
        ensures own { IsTrue result.1
            ↔ (owed (levels self.now) root.now (way_to Context.Resource place) ≡ 0) }
    {
        let (batch, own_batch) = self.find_batch(root);
        let resource = child_at(&self.batches, batch, place.resource);
        let own = own_batch && self.resources.count(resource) <= 1;
        (resource, own)
    }

    /// Where a scope lies, likewise.
    pub(crate) fn find_scope(&self, root: &Root, place: Place) -> (u64, bool)
        requires { InTree (levels self.now) root.now (way_to Context.Scope place) }
        ensures ends { end_of (levels self.now) root.now (way_to Context.Scope place) ≡ result.0 }
        ensures own { IsTrue result.1
            ↔ (owed (levels self.now) root.now (way_to Context.Scope place) ≡ 0) }
    {
        let (resource, own_resource) = self.find_resource(root, place);
        let scope = child_at(&self.resources, resource, place.scope);
        let own = own_resource && self.scopes.count(scope) <= 1;
        (scope, own)
    }

    /// Where a log record lies, likewise.
    pub(crate) fn find_log(&self, root: &Root, place: Place) -> (u64, bool)
        requires { InTree (levels self.now) root.now (way_to Context.Log place) }
        ensures ends { end_of (levels self.now) root.now (way_to Context.Log place) ≡ result.0 }
        ensures own { IsTrue result.1
            ↔ (owed (levels self.now) root.now (way_to Context.Log place) ≡ 0) }
    {
        let (scope, own_scope) = self.find_scope(root, place);
        let log = child_at(&self.scopes, scope, place.log);
        let own = own_scope && self.logs.count(log) <= 1;
        (log, own)
    }
}
