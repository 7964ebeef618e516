//! Conditions on each log record of a root of a forest, step by step.

ghost use Rattle.std.specs.Prelude.{◌≡◌, ◌≢◌, ◌-◌, ◌≤◌, ◌<◌, ◌^◌, false, length, OnErr, Some, slice_get};
ghost use Rattle.conf_json.specs.Account.{Account};
ghost use Rattle.pdata_tree.specs.Operations.{log_trees};
ghost use Rattle.pdata_tree.specs.Places.{IsPlaceIn, targets};
ghost use Rattle.pdata_tree.specs.declared.place.Context.TheVariants.{Log};
ghost use Rattle.proc_targets.specs.Ends.{Ends, EndsUnder, FailsUnder};
ghost use Rattle.proc_targets.specs.Stepping.{came, is_end};
ghost use Rattle.share_cow.specs.Scene.{tree_of};
ghost use Rattle.share_cow.specs.Store.{IsLiveRoot};
ghost use Rattle.filter_proc.specs.Meaning.{dropped};
ghost use Rattle.filter_proc.specs.Progress.{Fits, FitsBehind, KeepsBehind, Leaves, LeavesJudged, run_of, run_steps};

use crate::apply::spot_of;
use crate::cursor::{FilterCursor, Judged};
use conf_json::{FilterSettings, NoteBook, PlainStop, StepEnd};
use ottl_eval::KeptMatchers;
use pdata_tree::{Context, Place};
use proc_targets::{any_holds_whole, end_of, one_more};
use share_cow::{Forest, Root};
use std::alloc::Global;

// What a call on a run is lent and doesn't change.
#[derive(Clone, Copy)]
struct Site<'a, 'p> {
    alloc: Global,
    settings: &'p FilterSettings,
    root: &'a Root,
}

/// Does the steps of the processor that the cursor has left on a root's tree, with the matchers
/// that are kept, until it is at its end: each log record is judged, and the last step drops those
/// on which a condition holds, and then scopes and resources without log records. A run that fails
/// is at its end, with the tree as it was.
pub fn advance<'p>(
    alloc: Global,
    settings: &'p FilterSettings,
    forest: &mut Forest,
    root: &Root,
    cursor: &mut FilterCursor,
    matchers: &mut KeptMatchers<'p>,
    book: &mut NoteBook,
) -> StepEnd
    requires live { IsLiveRoot forest.old root.now }
    requires goes { cursor.old.over ≡ false }
    requires fits { Fits (tree_of forest.old root.now) cursor.old }
    ensures steps { run_steps settings.now (cursor.new.steps - cursor.old.steps)
        (run_of (tree_of forest.old root.now) cursor.old book.old)
        ≡ came result (run_of (tree_of forest.new root.now) cursor.new book.new) }
    ensures counted { cursor.old.steps ≤ cursor.new.steps }
    ensures fits { FitsBehind result (tree_of forest.new root.now) cursor.new }
    ensures over { cursor.new.over ≡ is_end result }
    ensures keeps { KeepsBehind result root.now forest.old forest.new }
    ensures failed { EndsUnder settings.now.error_mode result }
    ensures whole { result ≢ StepEnd.More }
{
    let site = Site {
        alloc,
        settings,
        root,
    };
    let end = advance_on(&site, forest, cursor, matchers, book);
    if !matches!(end, StepEnd::NoMemory) {
        cursor.over = true;
    }
    end
}

// Does the steps that are left.
fn advance_on<'p>(
    site: &Site<'_, 'p>,
    forest: &mut Forest,
    cursor: &mut FilterCursor,
    matchers: &mut KeptMatchers<'p>,
    book: &mut NoteBook,
) -> StepEnd
    requires live { IsLiveRoot forest.old site.now.root.now }
    requires fits { Fits (tree_of forest.old site.now.root.now) cursor.old }
    ensures steps { run_steps site.now.settings.now (cursor.new.steps - cursor.old.steps)
        (run_of (tree_of forest.old site.now.root.now) cursor.old book.old)
        ≡ came result (run_of (tree_of forest.new site.now.root.now) cursor.new book.new) }
    ensures counted { cursor.old.steps ≤ cursor.new.steps }
    ensures fits { FitsBehind result (tree_of forest.new site.now.root.now) cursor.new }
    ensures over { cursor.new.over ≡ cursor.old.over }
    ensures keeps { KeepsBehind result site.now.root.now forest.old forest.new }
    ensures failed { EndsUnder site.now.settings.now.error_mode result }
    ensures whole { result ≢ StepEnd.More }
{
    'steps: loop {
        let end = step(site, forest, cursor, matchers, book);
        if !matches!(end, StepEnd::More) {
            return end;
        }
    }
}

// Does a step, which is counted where there was memory for it.
fn step<'p>(
    site: &Site<'_, 'p>,
    forest: &mut Forest,
    cursor: &mut FilterCursor,
    matchers: &mut KeptMatchers<'p>,
    book: &mut NoteBook,
) -> StepEnd
    requires live { IsLiveRoot forest.old site.now.root.now }
    requires fits { Fits (tree_of forest.old site.now.root.now) cursor.old }
    ensures leaves { Leaves site.now.settings.now site.now.root.now cursor.old cursor.new
        forest.old forest.new book.old book.new result }
    ensures few { cursor.new.steps < 2 ^ 64 }
{
    let Ok(counted) = one_more(cursor.steps) else {
        return StepEnd::NoMemory;
    };
    let Ok(mut judged) = cursor.take_judged(site.alloc, forest, site.root) else {
        return StepEnd::NoMemory;
    };
    let end = step_on_records(site, forest, &mut judged, matchers, book);
    cursor.judged = Some(judged);
    if !matches!(end, StepEnd::NoMemory) {
        cursor.steps = counted;
    }
    end
}

// Judges the log record that is next, or removes those that don't stay.
fn step_on_records<'p>(
    site: &Site<'_, 'p>,
    forest: &mut Forest,
    judged: &mut Judged,
    matchers: &mut KeptMatchers<'p>,
    book: &mut NoteBook,
) -> StepEnd
    requires live { IsLiveRoot forest.old site.now.root.now }
    requires places { judged.old.places ≡ targets (tree_of forest.old site.now.root.now) Log }
    ensures { LeavesJudged site.now.settings.now site.now.root.now judged.old judged.new
        forest.old forest.new book.old book.new result }
{
    let Some(place) = judged.places.as_slice().get(judged.flags.len()) else {
        return remove(site, forest, judged);
    };
    let place = *place;
    judge_record(site, forest, judged, place, matchers, book)
}

// Judges the log record that is next, and adds whether it stays.
fn judge_record<'p>(
    site: &Site<'_, 'p>,
    forest: &mut Forest,
    judged: &mut Judged,
    place: Place,
    matchers: &mut KeptMatchers<'p>,
    book: &mut NoteBook,
) -> StepEnd
    requires live { IsLiveRoot forest.old site.now.root.now }
    requires inside { IsPlaceIn (tree_of forest.old site.now.root.now) Log place }
    requires at { slice_get judged.old.places (length judged.old.flags) ≡ Some place }
    ensures { LeavesJudged site.now.settings.now site.now.root.now judged.old judged.new
        forest.old forest.new book.old book.new result }
{
    // The flag has its room before the log record is judged.
    let last = judged.flags.len();
    if judged.flags.push(true).is_err() {
        return StepEnd::NoMemory;
    }
    match is_dropped(site, forest, place, matchers, book) {
        Ok(goes) => {
            judged.flags.set(last, !goes);
            StepEnd::More
        }
        Err(stop) => {
            judged.flags.truncate(last);
            end_of(stop)
        }
    }
}

// Whether one of the conditions holds on a log record.
fn is_dropped<'p>(
    site: &Site<'_, 'p>,
    forest: &mut Forest,
    place: Place,
    matchers: &mut KeptMatchers<'p>,
    book: &mut NoteBook,
) -> Result<bool, PlainStop>
    requires live { IsLiveRoot forest.old site.now.root.now }
    requires inside { IsPlaceIn (tree_of forest.old site.now.root.now) Log place }
    ensures value { Ends book.new result (dropped log_trees site.now.settings.now
        (tree_of forest.old site.now.root.now) place book.old) }
    ensures forest { forest.new ≡ forest.old }
    ensures failed { FailsUnder site.now.settings.now.error_mode result }
    ensures back { OnErr result (book.new ≡ book.old) }
{
    let spot = spot_of(site.settings, place);
    let conditions = site.settings.log_record.as_slice();
    let scene = forest.scene(site.root, Context::Log, place);
    any_holds_whole(site.alloc, &scene, matchers, conditions, &spot, book)
}

// Removes the log records that don't stay.
fn remove(site: &Site<'_, '_>, forest: &mut Forest, judged: &Judged) -> StepEnd
    requires live { IsLiveRoot forest.old site.now.root.now }
    requires past { length judged.now.places ≤ length judged.now.flags }
    ensures { (account : Account) → LeavesJudged site.now.settings.now site.now.root.now
        judged.now judged.now forest.old forest.new account account result }
{
    match forest.retain(site.root, &judged.flags) {
        Ok(()) => StepEnd::Finished,
        Err(_) => StepEnd::NoMemory,
    }
}
