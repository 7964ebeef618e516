//! Finds the parts of each leg's pipeline.

ghost use Rattle.std.specs.Prelude.{IfOk};
ghost use Rattle.graph_build.specs.Conf.{conf_of};
ghost use Rattle.plain_legs.specs.Plans.{IsPlanOf};
ghost use Rattle.plain_legs.specs.Views.{meant_by, HaveParts};

use crate::parts::{PipelineParts, find_parts};
use crate::plan::LegPlan;
use conf_draft::Draft;
use conf_json::Planned;
use graph_build::{Leg, Plan};
use item_list::ItemList;
use std::alloc::{AllocError, Global};

/// The legs of a plan, with the parts of their pipelines.
#[tactic(auto, using(crate::proofs::Order::legs_in_order))]
pub fn plan_legs<'p>(alloc: Global, plan: &'p Plan) -> Result<LegPlan<'p>, AllocError>
    ensures { IfOk result (IsPlanOf (conf_of plan.now)) }
{
    let draft = plan.draft();
    let planned = plan.planned();
    let legs = plan.legs();
    let parts = parts_of(alloc, draft, planned, legs)?;
    Ok(LegPlan {
        draft,
        planned,
        legs,
        parts,
    })
}

fn parts_of<'p>(
    alloc: Global,
    draft: &Draft,
    planned: &'p Planned,
    legs: &[Leg],
) -> Result<ItemList<PipelineParts<'p>>, AllocError>
    ensures { IfOk result (HaveParts (meant_by draft.now planned.now) legs.now) }
{
    let mut parts = ItemList::with_capacity(alloc, legs.len())?;
    for leg in legs {
        parts.push(find_parts(alloc, draft, planned, leg.pipeline.as_str())?)?;
    }
    Ok(parts)
}
