//! The forest and its roots.

ghost use Rattle.std.specs.Prelude.{◌≡◌, ◌<◌, ◌+◌, ◌-◌, ◌^◌, ◌↔◌, [], min, None, Some, IfOk, OnOk, OnErr, IsTrue};
ghost use Rattle.pdata_tree.specs.Places.{IsPlaceIn};
ghost use Rattle.pdata_tree.specs.Tree.{nodes};
ghost use Rattle.share_cow.specs.Kept.{AllStay, OthersStay, SharesWith};
ghost use Rattle.share_cow.specs.Scene.{Stands, tree_of};
ghost use Rattle.share_cow.specs.Store.{IsLiveRoot, IsSound, den, made, root_at, shared, spare};

mod finding;
mod own_path;
mod reading;
mod selecting;
mod writing;

use crate::lowering::lower_batch;
use crate::node::Node;
use crate::planting::plant_batch;
use crate::root::Root;
use crate::scene::ForestScene;
use crate::view::RootView;
use pdata_tree::{Batch, Context, LogRecord, Place, ResourceNode, ScopeNode};
pub use selecting::Flags;
use shelf::Shelf;
use slab::Slab;
use std::alloc::{AllocError, Global};
use std::marker::Model;

/// Trees that share their nodes. Each live root stands for one plain tree.
#[derive(Drop)]
pub struct Forest {
    // The batch that each live root names.
    roots: Slab<u64>,
    most: u32,
    batches: Shelf<Node<()>>,
    resources: Shelf<Node<ResourceNode>>,
    scopes: Shelf<Node<ScopeNode>>,
    logs: Shelf<Node<LogRecord>>,
}

impl Model for Forest {
    ghost use Rattle.std.specs.Prelude.{◌≤◌};
    ghost use Rattle.std.specs.Coded.{codes};
    ghost use Rattle.share_cow.specs.Store.{IsSound, Store};
    ghost use Rattle.pdata_value.specs.contracts.value.Value as e;

    ghost Value = { Store };

    ghost coded = { Prim.hlevel (codes, e.the_row.coded) };

    ghost view = { λ f. record {
      roots = f.roots.slots;
      most = f.most;
      batches = f.batches;
      resources = f.resources;
      scopes = f.scopes;
      logs = f.logs;
    } };

    ghost invariant = { λ f. (f.most ≤ f.roots.capacity) × IsSound (record {
      roots = f.roots.slots;
      most = f.most;
      batches = f.batches;
      resources = f.resources;
      scopes = f.scopes;
      logs = f.logs;
    }) };
}

impl Forest {
    /// A forest without live roots, for at most so many. It takes the whole table of roots at once.
    pub fn new(alloc: Global, roots: u32) -> Result<Forest, AllocError>
        ensures roots { IfOk result (λ forest. forest.roots ≡ []) }
        ensures spare { IfOk result (λ forest. spare forest ≡ roots) }
        ensures made { IfOk result (λ forest. made forest ≡ 0) }
        ensures sound { IfOk result IsSound }
    {
        Ok(Forest {
            roots: Slab::with_capacity(alloc, roots as usize)?,
            most: roots,
            batches: Shelf::new(alloc),
            resources: Shelf::new(alloc),
            scopes: Shelf::new(alloc),
            logs: Shelf::new(alloc),
        })
    }

    /// How many more roots there can be.
    pub fn spare(&self) -> u32
        ensures { result ≡ spare self.now }
    {
        self.most - self.roots.len() as u32
    }

    /// How many nodes were made so far. The number stops at its largest.
    pub fn made(&self) -> u128
        ensures { result ≡ made self.now }
    {
        self.batches
            .added()
            .saturating_add(self.resources.added())
            .saturating_add(self.scopes.added())
            .saturating_add(self.logs.added())
    }

    /// Whether a root is live in this forest.
    pub fn holds(&self, root: &Root) -> bool
        ensures { IsTrue result ↔ IsLiveRoot self.now root.now }
    {
        self.roots.contains(root.place())
    }

    /// A root for a tree, whose nodes are made. Where memory runs out, all roots are as before.
    pub fn plant(&mut self, batch: Batch) -> Result<Root, AllocError>
        requires { 0 < spare self.old }
        ensures tree { IfOk result (λ root. den self.new root ≡ Some batch) }
        ensures live { IfOk result (λ root. IsLiveRoot self.new root) }
        ensures fresh { IfOk result (λ root. root_at self.old root ≡ None) }
        ensures unshared { IfOk result (λ root. shared self.new root ≡ 0) }
        ensures others { IfOk result (λ root. OthersStay root self.old self.new) }
        ensures spare { OnOk result (spare self.new + 1 ≡ spare self.old) }
        ensures made { OnOk result
            (made self.new ≡ min (made self.old + nodes batch) (2 ^ 128 - 1)) }
        ensures err { OnErr result (AllStay self.old self.new) }
        ensures sound { IsSound self.new }
    {
        match plant_batch(
            &mut self.batches,
            &mut self.resources,
            &mut self.scopes,
            &mut self.logs,
            batch,
        ) {
            Ok(place) => Ok(Root::new(self.roots.insert_reserved(place))),
            Err(error) => Err(error),
        }
    }

    /// Another tree for a root in place of its own. Its nodes are made, and what only the old one
    /// held goes.
    pub fn replace(&mut self, root: &Root, tree: Batch) -> Result<(), AllocError>
        requires { IsLiveRoot self.old root.now }
        ensures tree { OnOk result (den self.new root.now ≡ Some tree) }
        ensures live { IsLiveRoot self.new root.now }
        ensures unshared { OnOk result (shared self.new root.now ≡ 0) }
        ensures others { OnOk result (OthersStay root.now self.old self.new) }
        ensures spare { spare self.new ≡ spare self.old }
        ensures made { OnOk result
            (made self.new ≡ min (made self.old + nodes tree) (2 ^ 128 - 1)) }
        ensures err { OnErr result (AllStay self.old self.new) }
        ensures sound { IsSound self.new }
    {
        let old = self.batch_at(root);
        match plant_batch(
            &mut self.batches,
            &mut self.resources,
            &mut self.scopes,
            &mut self.logs,
            tree,
        ) {
            Ok(place) => {
                self.roots[root.place()] = place;
                lower_batch(
                    &mut self.batches,
                    &mut self.resources,
                    &mut self.scopes,
                    &mut self.logs,
                    old,
                );
                Ok(())
            }
            Err(error) => Err(error),
        }
    }

    /// Another root that stands for the same tree. It makes no node and takes no memory.
    pub fn share(&mut self, root: &Root) -> Root
        requires live { IsLiveRoot self.old root.now }
        requires spare { 0 < spare self.old }
        ensures tree { den self.new result ≡ den self.old root.now }
        ensures live { IsLiveRoot self.new result }
        ensures fresh { root_at self.old result ≡ None }
        ensures others { SharesWith root.now result self.old self.new }
        ensures spare { spare self.new + 1 ≡ spare self.old }
        ensures made { made self.new ≡ made self.old }
        ensures sound { IsSound self.new }
    {
        let batch = self.batch_at(root);
        self.batches.raise(batch);
        Root::new(self.roots.insert_reserved(batch))
    }

    /// Gives up a root. What only its tree holds goes; it takes no memory.
    pub fn release(&mut self, root: Root)
        requires { IsLiveRoot self.old root }
        ensures gone { root_at self.new root ≡ None }
        ensures others { OthersStay root self.old self.new }
        ensures spare { spare self.new ≡ spare self.old + 1 }
        ensures made { made self.new ≡ made self.old }
        ensures sound { IsSound self.new }
    {
        let batch = self.roots.remove(root.place());
        lower_batch(
            &mut self.batches,
            &mut self.resources,
            &mut self.scopes,
            &mut self.logs,
            batch,
        );
    }

    /// The tree of a root, seen where it stands.
    pub fn view(&self, root: &Root) -> RootView<'_>
        requires { IsLiveRoot self.now root.now }
        ensures { den self.now root.now ≡ Some result }
    {
        let batch = self.batch_at(root);
        RootView::new(
            &self.batches,
            &self.resources,
            &self.scopes,
            &self.logs,
            batch,
        )
    }

    /// A scene over a root's tree, at a place that is in it.
    pub fn scene(&mut self, root: &Root, context: Context, place: Place) -> ForestScene<'_>
        requires live { IsLiveRoot self.old root.now }
        requires inside { IsPlaceIn (tree_of self.old root.now) context place }
        ensures lends { result.forest.ghost_name ≡ self.entry.ghost_name }
        ensures forest { result.forest.now ≡ self.old }
        ensures root { result.root ≡ root.now }
        ensures context { result.context ≡ context }
        ensures place { result.place ≡ place }
        ensures stands { Stands self.old root.now context place }
    {
        // A look at a field tells that the forest is sound.
        let _ = &self.roots;
        ForestScene::new(self, Root::new(root.place()), context, place)
    }

    // The batch of a live root.
    fn batch_at(&self, root: &Root) -> u64
        requires { IsLiveRoot self.now root.now }
        ensures { root_at self.now root.now ≡ Some result }
    {
        match self.roots.get(root.place()) {
            Some(batch) => *batch,
            None => unreachable!(),
        }
    }
}
