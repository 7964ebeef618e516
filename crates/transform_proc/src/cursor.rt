//! Where the transform processor stands between two steps.

ghost use Rattle.std.specs.Prelude.{◌≡◌, ◌<◌, suc, drop, length, None, Some, IfSome, OnOk, OnErr, slice_get};
ghost use Rattle.conf_json.specs.Account.{Account};
ghost use Rattle.pdata_tree.specs.Operations.{log_trees};
ghost use Rattle.pdata_tree.specs.Places.{targets};
ghost use Rattle.pdata_tree.specs.declared.batch.Batch.{Batch};
ghost use Rattle.proc_targets.specs.Stepping.{Moved, came};
ghost use Rattle.share_cow.specs.Scene.{tree_of};
ghost use Rattle.share_cow.specs.Store.{IsLiveRoot};
ghost use Rattle.transform_proc.specs.Progress.{Beside, Fits, first_running, here, no_progress, run_of};
ghost use Rattle.transform_proc.specs.Steps as steps;

use conf_json::{Group, StepEnd, TransformSettings};
use item_list::ItemList;
use ottl_eval::Cache;
use pdata_tree::{Context, Place};
use proc_targets::list_targets_of;
use share_cow::{Forest, Root};
use std::alloc::{AllocError, Global};
use std::marker::Model;

/// The statements that run on a target: the one that is next, and the cache that those before it
/// left.
#[derive(Drop)]
pub(crate) struct Running {
    pub(crate) index: usize,
    pub(crate) cache: Cache,
}

impl Running {
    /// From the first statement on, with the empty cache.
    pub(crate) fn begin(alloc: Global) -> Running
        ensures { result ≡ first_running }
    {
        Running {
            index: 0,
            cache: Cache::new(alloc),
        }
    }
}

/// Where a run of the processor on a root of a forest stands between two steps.
#[derive(Drop)]
pub struct TransformCursor {
    pub(crate) group: usize,
    pub(crate) target: usize,
    pub(crate) running: Option<Running>,
    pub(crate) listed: Option<ItemList<Place>>,
    pub(crate) steps: u64,
    pub(crate) ended: u64,
    pub(crate) over: bool,
}

impl Model for TransformCursor {
    ghost use Rattle.std.specs.Prelude.{◌≤◌};
    ghost use Rattle.std.specs.Coded.{codes};
    ghost use Rattle.pdata_value.specs.contracts.value.Value as e;
    ghost use Rattle.transform_proc.specs.Progress.{Progress};

    ghost Value = { Progress };

    ghost coded = { Prim.hlevel (codes, e.the_row.coded) };

    ghost view = { λ c. record {
      group = c.group;
      target = c.target;
      running = c.running;
      listed = c.listed;
      steps = c.steps;
      ended = c.ended;
      over = c.over;
    } };

    ghost invariant = { λ c. c.ended ≤ c.steps };
}

impl TransformCursor {
    /// A cursor that has done no step.
    pub fn begin() -> TransformCursor
        ensures { result ≡ no_progress }
    {
        TransformCursor {
            group: 0,
            target: 0,
            running: None,
            listed: None,
            steps: 0,
            ended: 0,
            over: false,
        }
    }

    /// How many steps were done.
    pub fn steps(&self) -> u64
        ensures { result ≡ self.now.steps }
    {
        self.steps
    }

    /// Whether the processor is at its end: it finished or failed.
    pub fn ended(&self) -> bool
        ensures { result ≡ self.now.over }
    {
        self.over
    }

    // Lists the targets of the group at hand, if they aren't.
    pub(crate) fn list(
        &mut self,
        alloc: Global,
        forest: &Forest,
        root: &Root,
        context: Context,
    ) -> Result<(), AllocError>
        requires live { IsLiveRoot forest.now root.now }
        requires fits { IfSome self.old.listed
            (λ places. places ≡ targets (tree_of forest.now root.now) context) }
        ensures listed { OnOk result (self.new ≡ record self.old {
          listed = Some (targets (tree_of forest.now root.now) context);
        }) }
        ensures err { OnErr result (self.new ≡ self.old) }
    {
        if self.listed.is_none() {
            let places = list_targets_of(alloc, &forest.view(root), context)?;
            self.listed = Some(places);
        }
        Ok(())
    }

    // How many targets the group at hand has.
    fn count(&self) -> usize
        ensures { IfSome self.now.listed (λ places. result ≡ length places) }
    {
        match &self.listed {
            Some(places) => places.len(),
            None => 0,
        }
    }

    // The target at hand; None behind the last.
    pub(crate) fn place(&self) -> Option<Place>
        ensures { IfSome self.now.listed (λ places. result ≡ slice_get places self.now.target) }
    {
        match &self.listed {
            Some(places) => places.as_slice().get(self.target).copied(),
            None => None,
        }
    }

    /// Ends the group at hand.
    pub(crate) fn next_group(&mut self, settings: &TransformSettings) -> StepEnd
        requires { self.old.group < length settings.now.log_statements }
        ensures value { (tree : Batch) (account : Account) → steps.next_group log_trees
            (run_of settings.now tree self.old account)
            (drop (suc self.old.group) settings.now.log_statements)
            ≡ came result (run_of settings.now tree self.new account) }
        ensures beside { Beside self.old self.new }
        ensures moved { Moved result }
        ensures listed { self.new.listed ≡ None }
    {
        let count = settings.log_statements.len();
        self.group += 1;
        self.target = 0;
        self.running = None;
        self.listed = None;
        if self.group < count {
            return StepEnd::More;
        }
        StepEnd::Finished
    }

    /// Ends the target at hand, one of the group at hand.
    pub(crate) fn next_target(&mut self, settings: &TransformSettings, group: &Group) -> StepEnd
        requires at { slice_get settings.now.log_statements self.old.group ≡ Some group.now }
        requires counts { self.old.ended < self.old.steps }
        ensures value { (tree : Batch) (account : Account)
            → self.old.listed ≡ Some (targets tree group.now.context)
            → steps.next_target log_trees (run_of settings.now tree self.old account) group.now
            (drop (suc self.old.group) settings.now.log_statements)
            (drop (suc self.old.target) (targets tree group.now.context))
            ≡ came result (run_of settings.now tree self.new account) }
        ensures beside { Beside self.old self.new }
        ensures moved { Moved result }
        ensures fits { (tree : Batch) → Fits settings.now tree self.old
            → Fits settings.now tree self.new }
    {
        self.ended += 1;
        let next = self.target.saturating_add(1);
        if next < self.count() {
            self.target = next;
            self.running = None;
            return StepEnd::More;
        }
        self.next_group(settings)
    }

    /// Leaves these statements to run on the target at hand, or ends it where there are none.
    pub(crate) fn go_on(
        &mut self,
        settings: &TransformSettings,
        group: &Group,
        running: Running,
    ) -> StepEnd
        requires at { slice_get settings.now.log_statements self.old.group ≡ Some group.now }
        requires counts { self.old.ended < self.old.steps }
        ensures value { (tree : Batch) (account : Account) (place : Place)
            → self.old.listed ≡ Some (targets tree group.now.context)
            → slice_get (targets tree group.now.context) self.old.target ≡ Some place
            → steps.left_on log_trees (run_of settings.now tree self.old account)
            (here settings.now tree self.old group.now place)
            (steps.running running.index (drop running.index group.now.statements) running.cache)
            ≡ came result (run_of settings.now tree self.new account) }
        ensures beside { Beside self.old self.new }
        ensures moved { Moved result }
        ensures fits { (tree : Batch) → Fits settings.now tree self.old
            → Fits settings.now tree self.new }
    {
        if running.index < group.statements.len() {
            self.running = Some(running);
            return StepEnd::More;
        }
        self.next_target(settings, group)
    }
}
