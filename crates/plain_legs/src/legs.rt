//! All legs of a configuration on one payload.

ghost use Rattle.std.specs.Prelude.{◌≡◌, map, slice_get, option_map, true, IfOk};
ghost use Rattle.leg_model.specs.Exports.{logs};
ghost use Rattle.leg_model.specs.Legs.{handed, leg_outcome, routed_to};
ghost use Rattle.plain_legs.specs.Plans.{conf_in, Fits};
ghost use Rattle.plain_legs.specs.Views as spec;
ghost use Rattle.plain_legs.specs.Views.{entry_by, has_root, outcome_of};
ghost use Rattle.pdata_tree.specs.Places.{within};

use crate::outcome::{LegOutcome, run_leg};
use crate::plan::LegPlan;
use graph_build::Leg;
use item_list::ItemList;
use ottl_eval::KeptMatchers;
use pdata_tree::Batch;
use std::alloc::{AllocError, Global};
use std::mem;

/// What each leg leaves of a payload's tree, each on a tree of its own, with the matchers that are
/// kept. The last leg that gets the payload itself takes the tree, each other one a copy.
#[tactic(auto, using(crate::proofs::Going::legs_go_on))]
pub fn run_legs<'p>(
    alloc: Global,
    plan: &LegPlan<'p>,
    tree: Batch,
    matchers: &mut KeptMatchers<'p>,
) -> Result<ItemList<LegOutcome>, AllocError>
    requires { Fits plan.now }
    ensures { IfOk result (λ left. map outcome_of left
        ≡ map (leg_outcome logs (conf_in plan.now) tree) plan.now.legs.now) }
{
    let mut tree = tree;
    let mut left = ItemList::with_capacity(alloc, plan.legs.len())?;
    let mut legs = plan.legs;
    let mut parts = plan.parts.as_slice();
    while let [own, other_parts @ ..] = parts {
        if let [leg, other_legs @ ..] = legs {
            let entry = entry_of(alloc, leg, other_legs, left.as_slice(), &mut tree)?;
            left.push(run_leg(alloc, own, entry, matchers)?)?;
            legs = other_legs;
        }
        parts = other_parts;
    }
    Ok(left)
}

// The tree that a leg gets, by what the legs before it left, where these legs are behind it.
fn entry_of(
    alloc: Global,
    leg: &Leg,
    behind: &[Leg],
    before: &[LegOutcome],
    tree: &mut Batch,
) -> Result<Batch, AllocError>
    ensures entry { IfOk result
        (λ entry. entry ≡ entry_by leg.now (map outcome_of before.now) tree.old) }
    ensures stays { has_root behind.now ≡ true → tree.new ≡ tree.old }
{
    match leg.parent {
        None => root_entry(alloc, behind, tree),
        Some(parent) => match before.get(parent as usize) {
            Some(outcome) => copy_handed(alloc, leg, outcome),
            None => tree.copy(),
        },
    }
}

// The payload's own tree, or a copy where a leg behind gets it too.
fn root_entry(alloc: Global, behind: &[Leg], tree: &mut Batch) -> Result<Batch, AllocError>
    ensures entry { IfOk result (λ entry. entry ≡ tree.old) }
    ensures stays { has_root behind.now ≡ true → tree.new ≡ tree.old }
{
    if has_root(behind) {
        return tree.copy();
    }
    let empty = Batch {
        resources: ItemList::new(alloc),
    };
    Ok(mem::replace(tree, empty))
}

fn has_root(legs: &[Leg]) -> bool
    ensures { result ≡ spec.has_root legs.now }
{
    for leg in legs {
        if leg.parent.is_none() {
            return true;
        }
    }
    false
}

// A copy of what the leg above, which ended so, hands to a leg.
fn copy_handed(alloc: Global, leg: &Leg, outcome: &LegOutcome) -> Result<Batch, AllocError>
    ensures { IfOk result (λ entry. entry ≡ handed logs leg.now (outcome_of outcome.now)) }
{
    match find_handed(leg, outcome) {
        Some(tree) => tree.copy(),
        None => Ok(Batch {
            resources: ItemList::new(alloc),
        }),
    }
}

fn find_handed<'a>(leg: &Leg, outcome: &'a LegOutcome) -> Option<&'a Batch>
    ensures { option_map (λ tree. tree.now) result
        ≡ within (routed_to leg.now.row)
        (within (slice_get (outcome_of outcome.now).routed) leg.now.connector) }
{
    let connector = leg.connector?;
    let routed = outcome.routed.at(connector as usize)?;
    match leg.row {
        None => Some(&routed.rest),
        Some(row) => routed.rows.at(row as usize),
    }
}
