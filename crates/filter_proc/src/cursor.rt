//! Where the filter processor stands between two steps.

ghost use Rattle.std.specs.Prelude.{◌≡◌, ℕ, [], None, Some, IfOk, IfSome, OnErr, OnOk};
ghost use Rattle.pdata_tree.specs.Places.{targets};
ghost use Rattle.pdata_tree.specs.declared.place.Context.TheVariants.{Log};
ghost use Rattle.share_cow.specs.Scene.{tree_of};
ghost use Rattle.share_cow.specs.Store.{IsLiveRoot};
ghost use Rattle.filter_proc.specs.Progress.{Fits, left_in, no_progress};

use item_list::ItemList;
use pdata_tree::{Context, Place};
use proc_targets::list_targets_of;
use share_cow::{Forest, Root};
use std::alloc::{AllocError, Global};
use std::marker::Model;

/// The log records of a tree, and whether each of those that are judged stays.
#[derive(Drop)]
pub(crate) struct Judged {
    pub(crate) places: ItemList<Place>,
    pub(crate) flags: ItemList<bool>,
}

impl Judged {
    // The log records of a root's tree, with none judged.
    fn begin(alloc: Global, forest: &Forest, root: &Root) -> Result<Judged, AllocError>
        requires { IsLiveRoot forest.now root.now }
        ensures { IfOk result (λ judged. judged
            ≡ record { places = targets (tree_of forest.now root.now) Log; flags = [] }) }
    {
        let places = list_targets_of(alloc, &forest.view(root), Context::Log)?;
        let flags = ItemList::with_capacity(alloc, places.len())?;
        Ok(Judged { places, flags })
    }
}

/// Where a run of the processor on a root of a forest stands between two steps.
#[derive(Drop)]
pub struct FilterCursor {
    pub(crate) judged: Option<Judged>,
    pub(crate) steps: u64,
    pub(crate) over: bool,
}

impl Model for FilterCursor {
    ghost use Rattle.std.specs.Coded.{codes};
    ghost use Rattle.filter_proc.specs.Progress.{Progress};

    ghost Value = { Progress };

    ghost coded = { Prim.hlevel (codes) };

    ghost view = { λ c. record { judged = c.judged; steps = c.steps; over = c.over } };
}

impl FilterCursor {
    /// A cursor that has done no step.
    pub fn begin() -> FilterCursor
        ensures { result ≡ no_progress }
    {
        FilterCursor {
            judged: None,
            steps: 0,
            over: false,
        }
    }

    /// How many steps were done.
    pub fn steps(&self) -> u64
        ensures { result ≡ self.now.steps }
    {
        self.steps
    }

    /// Whether the processor is at its end: it finished or failed.
    pub fn ended(&self) -> bool
        ensures { result ≡ self.now.over }
    {
        self.over
    }

    // Takes the log records that are judged out of the cursor, which are listed if they aren't.
    pub(crate) fn take_judged(
        &mut self,
        alloc: Global,
        forest: &Forest,
        root: &Root,
    ) -> Result<Judged, AllocError>
        requires live { IsLiveRoot forest.now root.now }
        requires fits { Fits (tree_of forest.now root.now) self.old }
        ensures same { IfOk result (λ judged. (steps : ℕ)
            → left_in (tree_of forest.now root.now) (Some judged) steps
            ≡ left_in (tree_of forest.now root.now) self.old.judged steps) }
        ensures places { IfOk result
            (λ judged. judged.places ≡ targets (tree_of forest.now root.now) Log) }
        ensures rest { OnOk result (self.new ≡ record self.old { judged = None }) }
        ensures err { OnErr result (self.new ≡ self.old) }
    {
        if let Some(judged) = self.judged.take() {
            return Ok(judged);
        }
        Judged::begin(alloc, forest, root)
    }
}
