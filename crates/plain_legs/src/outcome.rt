//! What a leg leaves of the tree that it gets.

ghost use Rattle.std.specs.Prelude.{◌≡◌, Ok, Err, IfOk};
ghost use Rattle.leg_model.specs.Course.{ended, no_counts, outcome};
ghost use Rattle.leg_model.specs.Course as spec;
ghost use Rattle.pdata_tree.specs.Grouping.{grouped};
ghost use Rattle.pdata_tree.specs.Operations.{log_trees};
ghost use Rattle.plain_legs.specs.Views.{course_of, failure_of, outcome_of, parts_in};

use crate::counting::count_records;
use crate::course::{CourseStop, LegCourse, LegFailure, by_parts};
use crate::parts::PipelineParts;
use item_list::ItemList;
use leg_model::{LegCounts, LegNote};
use ottl_eval::KeptMatchers;
use pdata_tree::Batch;
use routing_conn::PlainRouted;
use std::alloc::{AllocError, Global};

/// What a leg left.
#[derive(Drop)]
pub struct LegOutcome {
    /// Its final tree; None where it failed.
    pub tree: Option<Batch>,
    /// The trees of its connectors, in their order.
    pub routed: ItemList<PlainRouted>,
    pub counts: LegCounts,
    pub notes: ItemList<LegNote>,
    /// The error with which it failed.
    pub fault: Option<LegNote>,
}

/// Nothing is counted.
pub const NO_COUNTS: LegCounts = LegCounts {
    taken: 0,
    out: 0,
    filtered: 0,
    unrouted: 0,
    failed: 0,
    errors: 0,
};

/// What a leg with those parts leaves of the tree that it gets, with the matchers that are kept.
#[tactic(auto, using(crate::proofs::Ends::ends_so))]
pub fn run_leg<'p>(
    alloc: Global,
    parts: &PipelineParts<'p>,
    tree: Batch,
    matchers: &mut KeptMatchers<'p>,
) -> Result<LegOutcome, AllocError>
    ensures { IfOk result (λ left. outcome_of left
        ≡ outcome log_trees grouped (parts_in parts.now) tree) }
{
    if tree.resources.is_empty() {
        return Ok(untouched(alloc, tree));
    }
    let taken = count_records(&tree)?;
    match by_parts(alloc, parts, tree, matchers) {
        Ok(course) => arrived(taken, course),
        Err(CourseStop::Failed(failure)) => Ok(failed(alloc, taken, failure)),
        Err(CourseStop::NoMemory) => Err(AllocError),
    }
}

fn untouched(alloc: Global, tree: Batch) -> LegOutcome
    ensures { outcome_of result ≡ spec.untouched tree }
{
    LegOutcome {
        tree: Some(tree),
        routed: ItemList::new(alloc),
        counts: NO_COUNTS,
        notes: ItemList::new(alloc),
        fault: None,
    }
}

fn arrived(taken: u128, course: LegCourse) -> Result<LegOutcome, AllocError>
    ensures { IfOk result
        (λ left. outcome_of left ≡ ended log_trees taken (Ok (course_of course))) }
{
    let counts = LegCounts {
        taken,
        out: count_records(&course.tree)?,
        filtered: course.filtered,
        unrouted: course.unrouted,
        failed: 0,
        errors: course.book.count() as u128,
    };
    Ok(LegOutcome {
        tree: Some(course.tree),
        routed: course.routed,
        counts,
        notes: course.notes,
        fault: None,
    })
}

fn failed(alloc: Global, taken: u128, failure: LegFailure) -> LegOutcome
    ensures { outcome_of result ≡ ended log_trees taken (Err (failure_of failure)) }
{
    let counts = LegCounts {
        taken,
        out: 0,
        filtered: 0,
        unrouted: 0,
        failed: taken,
        errors: failure.book.count() as u128,
    };
    LegOutcome {
        tree: None,
        routed: ItemList::new(alloc),
        counts,
        notes: failure.notes,
        fault: Some(failure.fault),
    }
}
