//! Finds the legs of a configuration.

ghost use Rattle.std.specs.Prelude.{◌≡◌, ◌+◌, ◌-◌, ◌^◌, min};
ghost use Rattle.contract_words.specs.Gives.{Gives};
ghost use Rattle.conf_shape.specs.Fault.{Finds, fault_in};
ghost use Rattle.conf_shape.specs.Path.{pointer_of};
ghost use Rattle.graph_build.specs.Legs.{all_legs};
ghost use Rattle.graph_build.specs.Built.{few_legs, legs_at, legs_of, root_count, roots_fault};

use crate::cycle::check_cycles;
use crate::leg::Leg;
use crate::legs::{LegStop, add_roots, is_root};
use conf_draft::Draft;
use conf_shape::{FaultKind, Path, PointedStop, told};
use item_list::ItemList;
use std::alloc::Global;

/// How many root legs there may be.
pub const MAX_ROOTS: usize = 8;

/// How many legs there may be.
pub const MAX_LEGS: usize = 16;

fn count_roots(draft: &Draft) -> usize
    ensures { result ≡ min (root_count draft.now draft.now.pipelines) (2 ^ 64 - 1) }
{
    let mut count: usize = 0;
    for pipeline in draft.pipelines.as_slice() {
        if is_root(draft, pipeline) {
            count = count.saturating_add(1);
        }
    }
    count
}

fn check_roots<'a>(alloc: Global, draft: &Draft, path: &'a Path<'a>) -> Result<(), PointedStop>
    ensures { Finds result (roots_fault draft.now (pointer_of path.now)) }
{
    if MAX_ROOTS < count_roots(draft) {
        return Err(told(alloc, FaultKind::TooManyRoots, path));
    }
    Ok(())
}

fn list_legs<'a>(
    alloc: Global,
    draft: &Draft,
    path: &'a Path<'a>,
) -> Result<ItemList<Leg>, PointedStop>
    ensures { Gives (λ legs. legs) fault_in result
        (few_legs (pointer_of path.now) (all_legs draft.now)) }
{
    let mut legs = ItemList::new(alloc);
    match add_roots(alloc, draft, draft.pipelines.as_slice(), &mut legs) {
        Ok(()) => Ok(legs),
        Err(LegStop::TooMany) => Err(told(alloc, FaultKind::TooManyLegs, path)),
        Err(LegStop::NoMemory) => Err(PointedStop::NoMemory),
    }
}

fn find_at<'a>(
    alloc: Global,
    draft: &Draft,
    path: &'a Path<'a>,
) -> Result<ItemList<Leg>, PointedStop>
    ensures { Gives (λ legs. legs) fault_in result (legs_at draft.now (pointer_of path.now)) }
{
    check_cycles(alloc, draft, path)?;
    check_roots(alloc, draft, path)?;
    list_legs(alloc, draft, path)
}

/// The legs of a configuration in their order, or their first fault. No leg behind the first that
/// is too many is looked at.
pub fn find_legs(alloc: Global, draft: &Draft) -> Result<ItemList<Leg>, PointedStop>
    ensures { Gives (λ legs. legs) fault_in result (legs_of draft.now) }
{
    let top = Path::top();
    let service = top.member("service");
    find_at(alloc, draft, &service.member("pipelines"))
}
