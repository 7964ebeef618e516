//! Groups of statements on a tree.

ghost use Rattle.std.specs.Prelude.{◌≡◌};
ghost use Rattle.pdata_tree.specs.Operations.{log_trees};
ghost use Rattle.proc_targets.specs.Ends.{Ends, FailsUnder, Stays};
ghost use Rattle.transform_proc.specs.Meaning.{group_run, targets_run, transformed};
ghost use Rattle.transform_proc.specs.Turns.{turn_of};

use crate::target::{Turn, run_target};
use conf_json::{NoteBook, PlainStop, TransformSettings};
use ottl_eval::KeptMatchers;
use pdata_tree::{Batch, Place};
use proc_targets::{list_targets, narrow, or_stop};
use std::alloc::Global;

/// Runs the groups in order on a tree, with the matchers that are kept. The tree of a run that
/// fails is given up.
#[tactic(auto, using(proc_targets::proofs::Stops::stops))]
pub fn apply_plain<'p>(
    alloc: Global,
    settings: &'p TransformSettings,
    tree: Batch,
    matchers: &mut KeptMatchers<'p>,
    book: &mut NoteBook,
) -> Result<Batch, PlainStop>
    ensures value { Ends book.new result (transformed log_trees settings.now tree book.old) }
    ensures stays { Stays settings.now.error_mode book.old book.new }
    ensures failed { FailsUnder settings.now.error_mode result }
{
    let mut tree = tree;
    for (number, group) in settings.log_statements.as_slice().iter().enumerate() {
        let turn = Turn {
            mode: settings.error_mode,
            number: or_stop(narrow(number))?,
            group,
        };
        tree = run_group(alloc, tree, &turn, matchers, book)?;
    }
    Ok(tree)
}

// Runs a group on the targets that the tree has.
fn run_group<'p>(
    alloc: Global,
    tree: Batch,
    turn: &Turn<'p>,
    matchers: &mut KeptMatchers<'p>,
    book: &mut NoteBook,
) -> Result<Batch, PlainStop>
    ensures value { Ends book.new result (group_run log_trees (turn_of turn.now) tree book.old) }
    ensures stays { Stays turn.now.mode book.old book.new }
    ensures failed { FailsUnder turn.now.mode result }
{
    let places = or_stop(list_targets(alloc, &tree, turn.group.context))?;
    run_targets(alloc, tree, turn, places.as_slice(), matchers, book)
}

// Runs a group on targets.
#[tactic(auto, using(proc_targets::proofs::Stops::stops))]
fn run_targets<'p>(
    alloc: Global,
    tree: Batch,
    turn: &Turn<'p>,
    places: &[Place],
    matchers: &mut KeptMatchers<'p>,
    book: &mut NoteBook,
) -> Result<Batch, PlainStop>
    ensures value { Ends book.new result
        (targets_run log_trees (turn_of turn.now) places.now tree book.old) }
    ensures stays { Stays turn.now.mode book.old book.new }
    ensures failed { FailsUnder turn.now.mode result }
{
    let mut tree = tree;
    for place in places {
        tree = run_target(alloc, tree, turn, *place, matchers, book)?;
    }
    Ok(tree)
}
