//! A group of statements on one target.

ghost use Rattle.std.specs.Prelude.{◌≡◌, ◌≢◌, OnErr, OnOk};
ghost use Rattle.ottl_eval.specs.Stages.{stage};
ghost use Rattle.pdata_tree.specs.Operations.{log_trees};
ghost use Rattle.proc_targets.specs.Ends.{Ends, EndsAs, FailsUnder, Stays};
ghost use Rattle.proc_targets.specs.Judging.{no_pairs};
ghost use Rattle.transform_proc.specs.Meaning as spec;
ghost use Rattle.transform_proc.specs.Meaning.{account_after, scene_run, statement_run};
ghost use Rattle.transform_proc.specs.Meaning.{statements_run, taken};
ghost use Rattle.transform_proc.specs.Turns.{StopsWork, turn_of};

use conf_json::{ErrorMode, Group, NoteBook, Part, PlainStop};
use ottl_eval::{Cache, KeptMatchers, Outcome, run_statement_with};
use ottl_plan::{PlannedCondition, PlannedStatement};
use pdata_tree::{Batch, Place, PlainScene, Scene};
use proc_targets::{Spot, any_holds, any_holds_whole, meet};
use std::alloc::Global;

/// A group, with its number and the error mode.
#[derive(Clone, Copy)]
pub(crate) struct Turn<'p> {
    pub(crate) mode: ErrorMode,
    pub(crate) number: u32,
    pub(crate) group: &'p Group,
}

impl Turn<'_> {
    /// Where the group's conditions or statements stand on a target.
    pub(crate) fn spot(&self, part: Part, place: Place) -> Spot
        ensures { result ≡ spec.spot_of (turn_of self.now) part place }
    {
        Spot {
            mode: self.mode,
            part,
            group: self.number,
            context: self.group.context,
            place,
        }
    }
}

/// Runs a group on a target.
#[tactic(auto, using(proc_targets::proofs::Stops::stops))]
pub(crate) fn run_target<'p>(
    alloc: Global,
    tree: Batch,
    turn: &Turn<'p>,
    place: Place,
    matchers: &mut KeptMatchers<'p>,
    book: &mut NoteBook,
) -> Result<Batch, PlainStop>
    ensures value { Ends book.new result
        (spec.target_run log_trees (turn_of turn.now) place tree book.old) }
    ensures stays { Stays turn.now.mode book.old book.new }
    ensures failed { FailsUnder turn.now.mode result }
{
    let mut tree = tree;
    let mut scene = PlainScene::new(&mut tree, turn.group.context, place);
    run_scene(alloc, &mut scene, turn, place, matchers, book)?;
    Ok(tree)
}

// Runs a group on the target of a scene, where it is taken.
#[tactic(auto, using(proc_targets::proofs::Stops::stops))]
fn run_scene<'p, S: Scene>(
    alloc: Global,
    scene: &mut S,
    turn: &Turn<'p>,
    place: Place,
    matchers: &mut KeptMatchers<'p>,
    book: &mut NoteBook,
) -> Result<(), PlainStop>
    requires { S.stands scene.old }
    ensures value { EndsAs (S.tree scene.new, book.new) result
        (scene_run log_trees (turn_of turn.now) place
        (stage (S.tree scene.old) (S.kind scene.old) (S.place scene.old) no_pairs) book.old) }
    ensures keeps { S.keeps scene.old scene.new }
    ensures stays { Stays turn.now.mode book.old book.new }
    ensures failed { FailsUnder turn.now.mode result }
{
    let spot = turn.spot(Part::GroupCondition, place);
    let conditions = turn.group.conditions.as_slice();
    if !takes(alloc, scene, matchers, conditions, &spot, book)? {
        return Ok(());
    }
    let spot = turn.spot(Part::Statement, place);
    let statements = turn.group.statements.as_slice();
    run_statements(alloc, scene, matchers, statements, &spot, book)
}

// Whether a target is taken: one of the group's conditions holds there, or it has none.
fn takes<'p, S: Scene>(
    alloc: Global,
    scene: &S,
    matchers: &mut KeptMatchers<'p>,
    conditions: &'p [PlannedCondition],
    spot: &Spot,
    book: &mut NoteBook,
) -> Result<bool, PlainStop>
    requires { S.stands scene.now }
    ensures value { Ends book.new result (taken log_trees spot.now conditions.now
        (stage (S.tree scene.now) (S.kind scene.now) (S.place scene.now) no_pairs) book.old) }
    ensures stays { Stays spot.now.mode book.old book.new }
    ensures failed { FailsUnder spot.now.mode result }
{
    match conditions {
        [] => Ok(true),
        [_, ..] => any_holds(alloc, scene, matchers, conditions, spot, book),
    }
}

/// Whether a target is taken, as `takes` says; where it is stopped, the account is as before.
pub(crate) fn takes_whole<'p, S: Scene>(
    alloc: Global,
    scene: &S,
    matchers: &mut KeptMatchers<'p>,
    conditions: &'p [PlannedCondition],
    spot: &Spot,
    book: &mut NoteBook,
) -> Result<bool, PlainStop>
    requires { S.stands scene.now }
    ensures value { Ends book.new result (taken log_trees spot.now conditions.now
        (stage (S.tree scene.now) (S.kind scene.now) (S.place scene.now) no_pairs) book.old) }
    ensures failed { FailsUnder spot.now.mode result }
    ensures back { OnErr result (book.new ≡ book.old) }
{
    match conditions {
        [] => Ok(true),
        [_, ..] => any_holds_whole(alloc, scene, matchers, conditions, spot, book),
    }
}

// Runs statements in order, from the empty cache.
#[tactic(auto, using(proc_targets::proofs::Stops::stops))]
fn run_statements<'p, S: Scene>(
    alloc: Global,
    scene: &mut S,
    matchers: &mut KeptMatchers<'p>,
    statements: &'p [PlannedStatement],
    spot: &Spot,
    book: &mut NoteBook,
) -> Result<(), PlainStop>
    requires { S.stands scene.old }
    ensures value { EndsAs (S.tree scene.new, book.new) result
        (statements_run log_trees spot.now 0 statements.now
        (stage (S.tree scene.old) (S.kind scene.old) (S.place scene.old) no_pairs) book.old) }
    ensures keeps { S.keeps scene.old scene.new }
    ensures stays { Stays spot.now.mode book.old book.new }
    ensures failed { FailsUnder spot.now.mode result }
{
    let mut cache = Cache::new(alloc);
    for (index, statement) in statements.iter().enumerate() {
        run_one(
            alloc, scene, &mut cache, matchers, statement, spot, index, book,
        )?;
    }
    Ok(())
}

/// Runs the statement with this number. Where it is stopped all is as before.
pub(crate) fn run_one<'p, S: Scene>(
    alloc: Global,
    scene: &mut S,
    cache: &mut Cache,
    matchers: &mut KeptMatchers<'p>,
    statement: &'p PlannedStatement,
    spot: &Spot,
    index: usize,
    book: &mut NoteBook,
) -> Result<(), PlainStop>
    requires { S.stands scene.old }
    ensures value { EndsAs
        (stage (S.tree scene.new) (S.kind scene.new) (S.place scene.new) cache.new, book.new) result
        (statement_run log_trees spot.now index statement.now
        (stage (S.tree scene.old) (S.kind scene.old) (S.place scene.old) cache.old) book.old) }
    ensures keeps { S.keeps scene.old scene.new }
    ensures stays { Stays spot.now.mode book.old book.new }
    ensures failed { FailsUnder spot.now.mode result }
    ensures back { OnErr result
        (stage (S.tree scene.new) (S.kind scene.new) (S.place scene.new) cache.new
        ≡ stage (S.tree scene.old) (S.kind scene.old) (S.place scene.old) cache.old) }
    ensures book { OnErr result (book.new ≡ book.old) }
{
    let outcome = run_statement_with(alloc, scene, cache, matchers, statement);
    meet_outcome(book, spot, index, outcome)
}

// Meets the outcome of the statement with this number.
fn meet_outcome(
    book: &mut NoteBook,
    spot: &Spot,
    index: usize,
    outcome: Outcome,
) -> Result<(), PlainStop>
    ensures value { EndsAs book.new result (account_after spot.now index outcome book.old) }
    ensures stays { Stays spot.now.mode book.old book.new }
    ensures failed { FailsUnder spot.now.mode result }
    ensures memory { OnOk result (outcome ≢ Outcome.NoMemory) }
    ensures errs { OnErr result (StopsWork outcome) }
    ensures book { OnErr result (book.new ≡ book.old) }
{
    match outcome {
        Outcome::Done | Outcome::Skipped => Ok(()),
        Outcome::Err(err) => meet(book, spot, index, err),
        Outcome::NoMemory => Err(PlainStop::NoMemory),
    }
}
