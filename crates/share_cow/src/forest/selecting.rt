//! Parts of a root's tree as roots of their own, which share what they keep.

ghost use Rattle.std.specs.Prelude.{◌≡◌, ◌<◌, ◌≤◌, ◌+◌, ◌-◌, ◌^◌, min, None, IfOk, OnOk, OnErr, option_map};
ghost use Rattle.pdata_tree.specs.Selecting.{kept, kept_resources};
ghost use Rattle.pdata_tree.specs.Tree.{nodes, spine};
ghost use Rattle.share_cow.specs.Kept.{AllStay, OthersStay, SharesWith};
ghost use Rattle.share_cow.specs.Scene.{tree_of};
ghost use Rattle.share_cow.specs.Store.{IsLiveRoot, IsSound, den, made, root_at, shared, spare};

use super::Forest;
use crate::looking::children_at;
use crate::lowering::lower_batch;
use crate::parting::{add_above, flagged_places, part_batch};
use crate::root::Root;
use item_list::ItemList;
use std::alloc::AllocError;

/// Truths, one for each item that is kept or left out.
pub type Flags = ItemList<bool>;

impl Forest {
    /// A root for the flagged resources of a root's tree, whole; one without a flag is left out. It
    /// makes the payload's node alone.
    pub fn select_resources(&mut self, root: &Root, keep: &Flags) -> Result<Root, AllocError>
        requires live { IsLiveRoot self.old root.now }
        requires spare { 0 < spare self.old }
        ensures tree { IfOk result (λ part. den self.new part
            ≡ option_map (kept_resources keep.now) (den self.old root.now)) }
        ensures live { IfOk result (λ part. IsLiveRoot self.new part) }
        ensures fresh { IfOk result (λ part. root_at self.old part ≡ None) }
        ensures bound { IfOk result
            (λ part. shared self.new part + 1 ≤ nodes (tree_of self.new part)) }
        ensures others { IfOk result (λ part. SharesWith root.now part self.old self.new) }
        ensures spare { OnOk result (spare self.new + 1 ≡ spare self.old) }
        ensures made { OnOk result (made self.new ≡ min (made self.old + 1) (2 ^ 128 - 1)) }
        ensures records { self.new.logs.added ≡ self.old.logs.added }
        ensures err { OnErr result (self.new ≡ self.old) }
        ensures sound { IsSound self.new }
    {
        let batch = self.batch_at(root);
        let named = children_at(&self.batches, batch);
        let children = flagged_places(keep.allocator(), named, keep.as_slice())?;
        let part = add_above(&mut self.batches, &mut self.resources, (), children)?;
        Ok(Root::new(self.roots.insert_reserved(part)))
    }

    /// Leaves the flagged resources of a root's tree, whole; one without a flag goes. It makes the
    /// payload's node alone.
    pub fn retain_resources(&mut self, root: &Root, keep: &Flags) -> Result<(), AllocError>
        requires { IsLiveRoot self.old root.now }
        ensures tree { OnOk result (den self.new root.now
            ≡ option_map (kept_resources keep.now) (den self.old root.now)) }
        ensures live { IsLiveRoot self.new root.now }
        ensures bound { OnOk result
            (shared self.new root.now + 1 ≤ nodes (tree_of self.new root.now)) }
        ensures others { OnOk result (OthersStay root.now self.old self.new) }
        ensures spare { spare self.new ≡ spare self.old }
        ensures made { OnOk result (made self.new ≡ min (made self.old + 1) (2 ^ 128 - 1)) }
        ensures records { self.new.logs.added ≡ self.old.logs.added }
        ensures err { OnErr result (self.new ≡ self.old) }
        ensures sound { IsSound self.new }
    {
        let batch = self.batch_at(root);
        let named = children_at(&self.batches, batch);
        let children = flagged_places(keep.allocator(), named, keep.as_slice())?;
        let part = add_above(&mut self.batches, &mut self.resources, (), children)?;
        self.roots[root.place()] = part;
        lower_batch(
            &mut self.batches,
            &mut self.resources,
            &mut self.scopes,
            &mut self.logs,
            batch,
        );
        Ok(())
    }

    /// A root for the flagged log records of a root's tree, one flag for each in the order of the
    /// tree. Scopes and resources without any are left out. It makes no log record.
    pub fn select(&mut self, root: &Root, keep: &Flags) -> Result<Root, AllocError>
        requires live { IsLiveRoot self.old root.now }
        requires spare { 0 < spare self.old }
        ensures tree { IfOk result (λ part. den self.new part
            ≡ option_map (kept keep.now) (den self.old root.now)) }
        ensures live { IfOk result (λ part. IsLiveRoot self.new part) }
        ensures fresh { IfOk result (λ part. root_at self.old part ≡ None) }
        ensures bound { IfOk result (λ part. shared self.new part + spine (tree_of self.new part)
            ≤ nodes (tree_of self.new part)) }
        ensures others { IfOk result (λ part. SharesWith root.now part self.old self.new) }
        ensures spare { OnOk result (spare self.new + 1 ≡ spare self.old) }
        ensures made { IfOk result (λ part. made self.new
            ≡ min (made self.old + spine (tree_of self.new part)) (2 ^ 128 - 1)) }
        ensures records { OnOk result (self.new.logs.added ≡ self.old.logs.added) }
        ensures err { OnErr result (AllStay self.old self.new) }
        ensures sound { IsSound self.new }
    {
        let batch = self.batch_at(root);
        match part_batch(
            &mut self.batches,
            &mut self.resources,
            &mut self.scopes,
            &mut self.logs,
            batch,
            keep.as_slice(),
        ) {
            Ok(part) => Ok(Root::new(self.roots.insert_reserved(part))),
            Err(error) => Err(error),
        }
    }

    /// Leaves the flagged log records of a root's tree, one flag for each in the order of the tree.
    /// Scopes and resources without any go. It makes no log record.
    pub fn retain(&mut self, root: &Root, keep: &Flags) -> Result<(), AllocError>
        requires { IsLiveRoot self.old root.now }
        ensures tree { OnOk result (den self.new root.now
            ≡ option_map (kept keep.now) (den self.old root.now)) }
        ensures live { IsLiveRoot self.new root.now }
        ensures bound { OnOk result (shared self.new root.now + spine (tree_of self.new root.now)
            ≤ nodes (tree_of self.new root.now)) }
        ensures others { OnOk result (OthersStay root.now self.old self.new) }
        ensures spare { spare self.new ≡ spare self.old }
        ensures made { OnOk result (made self.new
            ≡ min (made self.old + spine (tree_of self.new root.now)) (2 ^ 128 - 1)) }
        ensures records { OnOk result (self.new.logs.added ≡ self.old.logs.added) }
        ensures err { OnErr result (AllStay self.old self.new) }
        ensures sound { IsSound self.new }
    {
        let batch = self.batch_at(root);
        match part_batch(
            &mut self.batches,
            &mut self.resources,
            &mut self.scopes,
            &mut self.logs,
            batch,
            keep.as_slice(),
        ) {
            Ok(part) => {
                self.roots[root.place()] = part;
                lower_batch(
                    &mut self.batches,
                    &mut self.resources,
                    &mut self.scopes,
                    &mut self.logs,
                    batch,
                );
                Ok(())
            }
            Err(error) => Err(error),
        }
    }
}
