//! The condition of a row on each object of its context.

ghost use Rattle.std.specs.Prelude.{◌≡◌};
ghost use Rattle.pdata_tree.specs.Operations.{log_trees};
ghost use Rattle.pdata_tree.specs.Places.{IsPlaceIn, targets};
ghost use Rattle.proc_targets.specs.Ends.{Ends, FailsUnder, Stays};
ghost use Rattle.share_cow.specs.Scene.{tree_of};
ghost use Rattle.share_cow.specs.Store.{IsLiveRoot};
ghost use Rattle.routing_conn.specs.Answers.{judge_of};
ghost use Rattle.routing_conn.specs.Meaning as spec;

use conf_json::{ErrorMode, NoteBook, Part, PlainStop, RouteRow};
use item_list::ItemList;
use ottl_eval::KeptMatchers;
use pdata_tree::{Batch, Place, PlainScene};
use proc_targets::{Spot, judge, list_targets_of, or_stop};
use share_cow::{Forest, Root};
use std::alloc::Global;

/// A row of a table, with its number and what an error does.
#[derive(Clone, Copy)]
pub(crate) struct RowJudge<'p> {
    pub(crate) mode: ErrorMode,
    pub(crate) index: usize,
    pub(crate) row: &'p RouteRow,
}

impl<'p> RowJudge<'p> {
    // Where the row's condition stands on an object.
    fn spot(&self, place: Place) -> Spot
        ensures { result ≡ spec.spot_of (judge_of self.now) place }
    {
        Spot {
            mode: self.mode,
            part: Part::RouteRow,
            group: 0,
            context: self.row.context,
            place,
        }
    }

    // Whether the row matches the object at a place.
    fn matches(
        &self,
        alloc: Global,
        tree: &mut Batch,
        place: Place,
        matchers: &mut KeptMatchers<'p>,
        book: &mut NoteBook,
    ) -> Result<bool, PlainStop>
        ensures value { Ends book.new result
            (spec.matches log_trees (judge_of self.now) tree.old place book.old) }
        ensures tree { tree.new ≡ tree.old }
        ensures stays { Stays self.now.mode book.old book.new }
        ensures failed { FailsUnder self.now.mode result }
    {
        let spot = self.spot(place);
        let scene = PlainScene::new(tree, self.row.context, place);
        judge(
            alloc,
            &scene,
            matchers,
            &self.row.condition,
            &spot,
            self.index,
            book,
        )
    }

    /// Whether the row matches each of these objects.
    #[tactic(auto, using(proc_targets::proofs::Flags::flags_turn, proc_targets::proofs::Stops::stops))]
    pub(crate) fn hits(
        &self,
        alloc: Global,
        tree: &mut Batch,
        places: &[Place],
        matchers: &mut KeptMatchers<'p>,
        book: &mut NoteBook,
    ) -> Result<ItemList<bool>, PlainStop>
        ensures value { Ends book.new result
            (spec.hits log_trees (judge_of self.now) tree.old places.now book.old) }
        ensures tree { tree.new ≡ tree.old }
        ensures stays { Stays self.now.mode book.old book.new }
        ensures failed { FailsUnder self.now.mode result }
    {
        let mut flags = or_stop(ItemList::with_capacity(alloc, places.len()))?;
        for place in places {
            let hit = self.matches(alloc, tree, *place, matchers, book)?;
            or_stop(flags.push(hit))?;
        }
        Ok(flags)
    }

    // Whether the row matches the object at a place of a root's tree.
    fn matches_in(
        &self,
        alloc: Global,
        forest: &mut Forest,
        root: &Root,
        place: Place,
        matchers: &mut KeptMatchers<'p>,
        book: &mut NoteBook,
    ) -> Result<bool, PlainStop>
        requires live { IsLiveRoot forest.old root.now }
        requires inside { IsPlaceIn (tree_of forest.old root.now) self.now.row.now.context place }
        ensures value { Ends book.new result (spec.matches log_trees (judge_of self.now)
            (tree_of forest.old root.now) place book.old) }
        ensures forest { forest.new ≡ forest.old }
        ensures stays { Stays self.now.mode book.old book.new }
        ensures failed { FailsUnder self.now.mode result }
    {
        let spot = self.spot(place);
        let scene = forest.scene(root, self.row.context, place);
        judge(
            alloc,
            &scene,
            matchers,
            &self.row.condition,
            &spot,
            self.index,
            book,
        )
    }

    /// Whether the row matches each object of its context in a root's tree.
    #[tactic(auto, using(proc_targets::proofs::Flags::flags_turn, proc_targets::proofs::Inside::inside_tree, proc_targets::proofs::Stops::stops))]
    pub(crate) fn hits_in(
        &self,
        alloc: Global,
        forest: &mut Forest,
        root: &Root,
        matchers: &mut KeptMatchers<'p>,
        book: &mut NoteBook,
    ) -> Result<ItemList<bool>, PlainStop>
        requires { IsLiveRoot forest.old root.now }
        ensures value { Ends book.new result (spec.hits log_trees (judge_of self.now)
            (tree_of forest.old root.now)
            (targets (tree_of forest.old root.now) self.now.row.now.context) book.old) }
        ensures forest { forest.new ≡ forest.old }
        ensures stays { Stays self.now.mode book.old book.new }
        ensures failed { FailsUnder self.now.mode result }
    {
        let places = or_stop(list_targets_of(alloc, &forest.view(root), self.row.context))?;
        let mut flags = or_stop(ItemList::with_capacity(alloc, places.len()))?;
        for place in places.as_slice() {
            let hit = self.matches_in(alloc, forest, root, *place, matchers, book)?;
            or_stop(flags.push(hit))?;
        }
        Ok(flags)
    }
}
