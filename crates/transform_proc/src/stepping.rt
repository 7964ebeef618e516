//! Groups of statements on a root of a forest, step by step.

ghost use Rattle.std.specs.Prelude.{◌≡◌, ◌≢◌, ◌-◌, ◌<◌, ◌≤◌, [], false, drop, OnErr, Some, length};
ghost use Rattle.ottl_eval.specs.Stages.{stage};
ghost use Rattle.pdata_tree.specs.Operations.{log_trees};
ghost use Rattle.pdata_tree.specs.Places.{IsPlaceIn};
ghost use Rattle.proc_targets.specs.Stepping.{came, is_end, steps_after};
ghost use Rattle.proc_targets.specs.Ends.{Ends, EndsAs, EndsUnder, FailsUnder};
ghost use Rattle.proc_targets.specs.Judging.{no_pairs};
ghost use Rattle.share_cow.specs.Kept.{KeepsOthers};
ghost use Rattle.share_cow.specs.Scene.{tree_of};
ghost use Rattle.share_cow.specs.Store.{IsLiveRoot};
ghost use Rattle.transform_proc.specs.Meaning.{spot_of, statement_run, taken};
ghost use Rattle.transform_proc.specs.Progress.{AtTarget, Fits, Leaves, begins_with, here, run_of, run_steps, work_at};
ghost use Rattle.transform_proc.specs.Steps as steps;
ghost use Rattle.transform_proc.specs.Turns.{turn_of};

use crate::cursor::{Running, TransformCursor};
use crate::target::{Turn, run_one, takes_whole};
use conf_json::{Group, NoteBook, Part, PlainStop, StepEnd, TransformSettings};
use ottl_eval::KeptMatchers;
use ottl_plan::PlannedStatement;
use pdata_tree::Place;
use proc_targets::{end_of, narrow, one_more};
use share_cow::{Forest, Root};
use std::alloc::Global;

// What a call on a run is lent and doesn't change.
#[derive(Clone, Copy)]
struct Site<'a, 'p> {
    alloc: Global,
    settings: &'p TransformSettings,
    root: &'a Root,
}

// A group, and one of its targets.
#[derive(Clone, Copy)]
struct Target<'p> {
    turn: Turn<'p>,
    place: Place,
}

/// Does the steps of the processor that the cursor has left on a root's tree, with the matchers
/// that are kept, until it is at its end. A run that fails is at its end, with the tree as it
/// stands.
pub fn advance<'p>(
    alloc: Global,
    settings: &'p TransformSettings,
    forest: &mut Forest,
    root: &Root,
    cursor: &mut TransformCursor,
    matchers: &mut KeptMatchers<'p>,
    book: &mut NoteBook,
) -> StepEnd
    requires live { IsLiveRoot forest.old root.now }
    requires goes { cursor.old.over ≡ false }
    requires fits { Fits settings.now (tree_of forest.old root.now) cursor.old }
    ensures steps { run_steps settings.now.error_mode (cursor.new.steps - cursor.old.steps)
        (run_of settings.now (tree_of forest.old root.now) cursor.old book.old)
        ≡ came result (run_of settings.now (tree_of forest.new root.now) cursor.new book.new) }
    ensures counted { cursor.old.steps ≤ cursor.new.steps }
    ensures fits { Fits settings.now (tree_of forest.new root.now) cursor.new }
    ensures over { cursor.new.over ≡ is_end result }
    ensures keeps { KeepsOthers root.now forest.old forest.new }
    ensures failed { EndsUnder settings.now.error_mode result }
    ensures whole { result ≢ StepEnd.More }
{
    let site = Site {
        alloc,
        settings,
        root,
    };
    let end = advance_on(&site, forest, cursor, matchers, book);
    if !matches!(end, StepEnd::NoMemory) {
        cursor.over = true;
    }
    end
}

// Does the steps that are left.
fn advance_on<'p>(
    site: &Site<'_, 'p>,
    forest: &mut Forest,
    cursor: &mut TransformCursor,
    matchers: &mut KeptMatchers<'p>,
    book: &mut NoteBook,
) -> StepEnd
    requires live { IsLiveRoot forest.old site.now.root.now }
    requires fits { Fits site.now.settings.now (tree_of forest.old site.now.root.now) cursor.old }
    ensures steps { run_steps site.now.settings.now.error_mode (cursor.new.steps - cursor.old.steps)
        (run_of site.now.settings.now (tree_of forest.old site.now.root.now) cursor.old book.old)
        ≡ came result (run_of site.now.settings.now (tree_of forest.new site.now.root.now)
        cursor.new book.new) }
    ensures counted { cursor.old.steps ≤ cursor.new.steps }
    ensures fits { Fits site.now.settings.now (tree_of forest.new site.now.root.now) cursor.new }
    ensures over { cursor.new.over ≡ cursor.old.over }
    ensures keeps { KeepsOthers site.now.root.now forest.old forest.new }
    ensures failed { EndsUnder site.now.settings.now.error_mode result }
    ensures whole { result ≢ StepEnd.More }
{
    while cursor.group < site.settings.log_statements.len() {
        let end = step(site, forest, cursor, matchers, book);
        if !matches!(end, StepEnd::More) {
            return end;
        }
    }
    StepEnd::Finished
}

// Does a step, which is counted where there was memory for it.
fn step<'p>(
    site: &Site<'_, 'p>,
    forest: &mut Forest,
    cursor: &mut TransformCursor,
    matchers: &mut KeptMatchers<'p>,
    book: &mut NoteBook,
) -> StepEnd
    requires live { IsLiveRoot forest.old site.now.root.now }
    requires fits { Fits site.now.settings.now (tree_of forest.old site.now.root.now) cursor.old }
    requires some { cursor.old.group < length site.now.settings.now.log_statements }
    ensures { Leaves site.now.settings.now site.now.root.now
        (steps.transform_step log_trees site.now.settings.now.error_mode
        (run_of site.now.settings.now (tree_of forest.old site.now.root.now) cursor.old book.old))
        (run_of site.now.settings.now (tree_of forest.old site.now.root.now) cursor.old book.old)
        (steps_after result cursor.old.steps) cursor.old cursor.new forest.old forest.new
        book.new result }
{
    let before = cursor.steps;
    let Ok(counted) = one_more(before) else {
        return StepEnd::NoMemory;
    };
    cursor.steps = counted;
    let end = step_in_group(site, forest, cursor, matchers, book);
    if matches!(end, StepEnd::NoMemory) {
        cursor.steps = before;
    }
    end
}

// Does a step in the group at hand.
fn step_in_group<'p>(
    site: &Site<'_, 'p>,
    forest: &mut Forest,
    cursor: &mut TransformCursor,
    matchers: &mut KeptMatchers<'p>,
    book: &mut NoteBook,
) -> StepEnd
    requires live { IsLiveRoot forest.old site.now.root.now }
    requires fits { Fits site.now.settings.now (tree_of forest.old site.now.root.now) cursor.old }
    requires some { cursor.old.group < length site.now.settings.now.log_statements }
    requires counts { cursor.old.ended < cursor.old.steps }
    ensures { Leaves site.now.settings.now site.now.root.now
        (steps.groups_step log_trees site.now.settings.now.error_mode
        (run_of site.now.settings.now (tree_of forest.old site.now.root.now) cursor.old book.old)
        (drop cursor.old.group site.now.settings.now.log_statements))
        (run_of site.now.settings.now (tree_of forest.old site.now.root.now) cursor.old book.old)
        cursor.old.steps cursor.old cursor.new forest.old forest.new book.new result }
{
    let groups = site.settings.log_statements.as_slice();
    let Some(group) = groups.get(cursor.group) else {
        return StepEnd::Finished;
    };
    let Ok(number) = narrow(cursor.group) else {
        return StepEnd::NoMemory;
    };
    let Ok(()) = cursor.list(site.alloc, forest, site.root, group.context) else {
        return StepEnd::NoMemory;
    };
    let Some(place) = cursor.place() else {
        return cursor.next_group(site.settings);
    };
    let turn = Turn {
        mode: site.settings.error_mode,
        number,
        group,
    };
    step_on_target(
        site,
        forest,
        cursor,
        &Target { turn, place },
        matchers,
        book,
    )
}

// Does a step on the target at hand.
fn step_on_target<'p>(
    site: &Site<'_, 'p>,
    forest: &mut Forest,
    cursor: &mut TransformCursor,
    target: &Target<'p>,
    matchers: &mut KeptMatchers<'p>,
    book: &mut NoteBook,
) -> StepEnd
    requires live { IsLiveRoot forest.old site.now.root.now }
    requires at { AtTarget site.now.settings.now (tree_of forest.old site.now.root.now) cursor.old
        target.now }
    requires counts { cursor.old.ended < cursor.old.steps }
    ensures { Leaves site.now.settings.now site.now.root.now
        (steps.target_step log_trees site.now.settings.now.error_mode
        (run_of site.now.settings.now (tree_of forest.old site.now.root.now) cursor.old book.old)
        (here site.now.settings.now (tree_of forest.old site.now.root.now) cursor.old
        target.now.turn.group.now target.now.place)
        (work_at target.now.turn.group.now cursor.old.running))
        (run_of site.now.settings.now (tree_of forest.old site.now.root.now) cursor.old book.old)
        cursor.old.steps cursor.old cursor.new forest.old forest.new book.new result }
{
    if let Some(running) = cursor.running.take() {
        return run_next(site, forest, cursor, target, running, matchers, book);
    }
    if runs_at_once(target.turn.group) {
        let running = Running::begin(site.alloc);
        return run_next(site, forest, cursor, target, running, matchers, book);
    }
    judge_target(site, forest, cursor, target, matchers, book)
}

// Whether a group's statements run on a target with nothing to judge before.
fn runs_at_once(group: &Group) -> bool
    ensures { steps.first_work group.now ≡ begins_with result group.now }
{
    match group.conditions.as_slice() {
        [] => has_statements(group),
        [_, ..] => false,
    }
}

fn has_statements(group: &Group) -> bool
    ensures { steps.work_of [] group.now.statements ≡ begins_with result group.now }
{
    match group.statements.as_slice() {
        [] => false,
        [_, ..] => true,
    }
}

// Whether the target is taken.
fn is_taken<'p>(
    site: &Site<'_, 'p>,
    forest: &mut Forest,
    target: &Target<'p>,
    matchers: &mut KeptMatchers<'p>,
    book: &mut NoteBook,
) -> Result<bool, PlainStop>
    requires live { IsLiveRoot forest.old site.now.root.now }
    requires inside { IsPlaceIn (tree_of forest.old site.now.root.now)
        target.now.turn.group.now.context target.now.place }
    ensures value { Ends book.new result (taken log_trees
        (spot_of (turn_of target.now.turn) Part.GroupCondition target.now.place)
        target.now.turn.group.now.conditions
        (stage (tree_of forest.old site.now.root.now) target.now.turn.group.now.context
        target.now.place no_pairs) book.old) }
    ensures forest { forest.new ≡ forest.old }
    ensures failed { FailsUnder target.now.turn.mode result }
    ensures back { OnErr result (book.new ≡ book.old) }
{
    let Target { turn, place } = *target;
    let spot = turn.spot(Part::GroupCondition, place);
    let scene = forest.scene(site.root, turn.group.context, place);
    let conditions = turn.group.conditions.as_slice();
    takes_whole(site.alloc, &scene, matchers, conditions, &spot, book)
}

// Runs the statement that is next on the target.
fn run_here<'p>(
    site: &Site<'_, 'p>,
    forest: &mut Forest,
    target: &Target<'p>,
    statement: &'p PlannedStatement,
    running: &mut Running,
    matchers: &mut KeptMatchers<'p>,
    book: &mut NoteBook,
) -> Result<(), PlainStop>
    requires live { IsLiveRoot forest.old site.now.root.now }
    requires inside { IsPlaceIn (tree_of forest.old site.now.root.now)
        target.now.turn.group.now.context target.now.place }
    ensures value { EndsAs (
      stage (tree_of forest.new site.now.root.now)
          target.now.turn.group.now.context target.now.place running.new.cache,
      book.new,
    ) result
        (statement_run log_trees (spot_of (turn_of target.now.turn) Part.Statement target.now.place)
        running.old.index statement.now (stage (tree_of forest.old site.now.root.now)
        target.now.turn.group.now.context target.now.place running.old.cache) book.old) }
    ensures index { running.new.index ≡ running.old.index }
    ensures keeps { KeepsOthers site.now.root.now forest.old forest.new }
    ensures failed { FailsUnder target.now.turn.mode result }
    ensures back { OnErr result (stage (tree_of forest.new site.now.root.now)
        target.now.turn.group.now.context target.now.place running.new.cache
        ≡ stage (tree_of forest.old site.now.root.now)
        target.now.turn.group.now.context target.now.place running.old.cache) }
    ensures book { OnErr result (book.new ≡ book.old) }
{
    let Target { turn, place } = *target;
    let spot = turn.spot(Part::Statement, place);
    let index = running.index;
    let cache = &mut running.cache;
    let mut scene = forest.scene(site.root, turn.group.context, place);
    run_one(
        site.alloc, &mut scene, cache, matchers, statement, &spot, index, book,
    )
}

// Judges the conditions of a group on the target at hand.
fn judge_target<'p>(
    site: &Site<'_, 'p>,
    forest: &mut Forest,
    cursor: &mut TransformCursor,
    target: &Target<'p>,
    matchers: &mut KeptMatchers<'p>,
    book: &mut NoteBook,
) -> StepEnd
    requires live { IsLiveRoot forest.old site.now.root.now }
    requires at { AtTarget site.now.settings.now (tree_of forest.old site.now.root.now) cursor.old
        target.now }
    requires counts { cursor.old.ended < cursor.old.steps }
    ensures { Leaves site.now.settings.now site.now.root.now
        (steps.target_step log_trees site.now.settings.now.error_mode
        (run_of site.now.settings.now (tree_of forest.old site.now.root.now) cursor.old book.old)
        (here site.now.settings.now (tree_of forest.old site.now.root.now) cursor.old
        target.now.turn.group.now target.now.place) steps.judging)
        (run_of site.now.settings.now (tree_of forest.old site.now.root.now) cursor.old book.old)
        cursor.old.steps cursor.old cursor.new forest.old forest.new book.new result }
{
    let group = target.turn.group;
    match is_taken(site, forest, target, matchers, book) {
        Ok(true) => {
            let running = Running::begin(site.alloc);
            cursor.go_on(site.settings, group, running)
        }
        Ok(false) => cursor.next_target(site.settings, group),
        Err(stop) => end_of(stop),
    }
}

// Runs the next statement on the target at hand.
fn run_next<'p>(
    site: &Site<'_, 'p>,
    forest: &mut Forest,
    cursor: &mut TransformCursor,
    target: &Target<'p>,
    running: Running,
    matchers: &mut KeptMatchers<'p>,
    book: &mut NoteBook,
) -> StepEnd
    requires live { IsLiveRoot forest.old site.now.root.now }
    requires at { AtTarget site.now.settings.now (tree_of forest.old site.now.root.now) cursor.old
        target.now }
    requires counts { cursor.old.ended < cursor.old.steps }
    ensures { Leaves site.now.settings.now site.now.root.now
        (steps.target_step log_trees site.now.settings.now.error_mode
        (run_of site.now.settings.now (tree_of forest.old site.now.root.now)
        (record cursor.old { running = Some running }) book.old)
        (here site.now.settings.now (tree_of forest.old site.now.root.now) cursor.old
        target.now.turn.group.now target.now.place)
        (steps.running running.index
        (drop running.index target.now.turn.group.now.statements) running.cache))
        (run_of site.now.settings.now (tree_of forest.old site.now.root.now)
        (record cursor.old { running = Some running }) book.old)
        cursor.old.steps cursor.old cursor.new forest.old forest.new book.new result }
{
    let group = target.turn.group;
    let mut running = running;
    let Some(statement) = group.statements.as_slice().get(running.index) else {
        return cursor.next_target(site.settings, group);
    };
    match run_here(
        site,
        forest,
        target,
        statement,
        &mut running,
        matchers,
        book,
    ) {
        Ok(()) => {
            running.index += 1;
            cursor.go_on(site.settings, group, running)
        }
        Err(stop) => {
            cursor.running = Some(running);
            end_of(stop)
        }
    }
}
