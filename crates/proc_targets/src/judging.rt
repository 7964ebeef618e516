//! Conditions on a target.

ghost use Rattle.std.specs.Prelude.{◌≡◌, OnErr};
ghost use Rattle.ottl_eval.specs.Stages.{stage};
ghost use Rattle.ottl_eval.specs.Values.{holds};
ghost use Rattle.pdata_tree.specs.Operations.{log_trees};
ghost use Rattle.proc_targets.specs.Ends.{Ends, FailsUnder, Stays};
ghost use Rattle.proc_targets.specs.Judging as spec;
ghost use Rattle.proc_targets.specs.Judging.{no_pairs, truth_after};

use crate::spot::{Spot, meet};
use conf_json::{NoteBook, PlainStop};
use ottl_eval::{Cache, KeptMatchers, holds_with};
use ottl_plan::PlannedCondition;
use pdata_tree::Scene;
use pdata_value::{EvalErr, EvalStop};
use std::alloc::Global;

/// Whether one of the conditions holds, judged in order until one does, with the empty cache. One
/// that errs doesn't hold where the work goes on.
#[tactic(auto, using(crate::proofs::Stops::stops))]
pub fn any_holds<'p, S: Scene>(
    alloc: Global,
    scene: &S,
    matchers: &mut KeptMatchers<'p>,
    conditions: &'p [PlannedCondition],
    spot: &Spot,
    book: &mut NoteBook,
) -> Result<bool, PlainStop>
    requires { S.stands scene.now }
    ensures value { Ends book.new result (spec.any_holds log_trees spot.now 0 conditions.now
        (stage (S.tree scene.now) (S.kind scene.now) (S.place scene.now) no_pairs) book.old) }
    ensures stays { Stays spot.now.mode book.old book.new }
    ensures failed { FailsUnder spot.now.mode result }
{
    for (index, condition) in conditions.iter().enumerate() {
        if judge(alloc, scene, matchers, condition, spot, index, book)? {
            return Ok(true);
        }
    }
    Ok(false)
}

/// As `any_holds`; where it is stopped, the account is as it was before.
pub fn any_holds_whole<'p, S: Scene>(
    alloc: Global,
    scene: &S,
    matchers: &mut KeptMatchers<'p>,
    conditions: &'p [PlannedCondition],
    spot: &Spot,
    book: &mut NoteBook,
) -> Result<bool, PlainStop>
    requires { S.stands scene.now }
    ensures value { Ends book.new result (spec.any_holds log_trees spot.now 0 conditions.now
        (stage (S.tree scene.now) (S.kind scene.now) (S.place scene.now) no_pairs) book.old) }
    ensures stays { Stays spot.now.mode book.old book.new }
    ensures failed { FailsUnder spot.now.mode result }
    ensures back { OnErr result (book.new ≡ book.old) }
{
    let before = book.copy();
    let answer = any_holds(alloc, scene, matchers, conditions, spot, book);
    if answer.is_err() {
        *book = before;
    }
    answer
}

/// Whether the condition with this number holds, with the empty cache. One that errs doesn't hold
/// where the work goes on.
pub fn judge<'p, S: Scene>(
    alloc: Global,
    scene: &S,
    matchers: &mut KeptMatchers<'p>,
    condition: &'p PlannedCondition,
    spot: &Spot,
    index: usize,
    book: &mut NoteBook,
) -> Result<bool, PlainStop>
    requires { S.stands scene.now }
    ensures value { Ends book.new result (truth_after spot.now index
        (holds log_trees condition.now.expr
        (stage (S.tree scene.now) (S.kind scene.now) (S.place scene.now) no_pairs)) book.old) }
    ensures stays { Stays spot.now.mode book.old book.new }
    ensures failed { FailsUnder spot.now.mode result }
{
    let cache = Cache::new(alloc);
    match holds_with(alloc, scene, &cache, matchers, condition) {
        Ok(truth) => Ok(truth),
        Err(EvalStop::Err(err)) => meet_as_false(book, spot, index, err),
        Err(EvalStop::NoMemory) => Err(PlainStop::NoMemory),
    }
}

// Meets an error of the condition with this number, which then doesn't hold.
#[tactic(auto, using(crate::proofs::Stops::stops_on))]
fn meet_as_false(
    book: &mut NoteBook,
    spot: &Spot,
    index: usize,
    err: EvalErr,
) -> Result<bool, PlainStop>
    ensures value { Ends book.new result (truth_after spot.now index (Err err) book.old) }
    ensures stays { Stays spot.now.mode book.old book.new }
    ensures failed { FailsUnder spot.now.mode result }
{
    meet(book, spot, index, err)?;
    Ok(false)
}
