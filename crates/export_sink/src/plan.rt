//! What a run knows of a configuration.

ghost use Rattle.std.specs.Prelude.{◌≡◌, map, IfOk};
ghost use Rattle.export_sink.specs.Planning.{IsRunOf};
ghost use Rattle.export_sink.specs.Plans.{goes_in, ways_in};
ghost use Rattle.graph_build.specs.Conf.{conf_of};
ghost use Rattle.leg_model.specs.Exports as spec;

use crate::run_plan::RunPlan;
use conf_draft::{Draft, Exporter};
use graph_build::{Leg, Plan, find_pipeline, is_among};
use item_list::ItemList;
use plain_legs::plan_legs;
use std::alloc::{AllocError, Global};

/// What a run needs of a plan.
pub fn plan_run<'p>(alloc: Global, plan: &'p Plan) -> Result<RunPlan<'p>, AllocError>
    ensures { IfOk result (IsRunOf (conf_of plan.now)) }
{
    let legs = plan_legs(alloc, plan)?;
    let ways = ways_of(alloc, legs.draft, legs.legs)?;
    Ok(RunPlan { legs, ways })
}

fn ways_of(
    alloc: Global,
    draft: &Draft,
    legs: &[Leg],
) -> Result<ItemList<ItemList<bool>>, AllocError>
    ensures { IfOk result (λ ways. ways ≡ ways_in draft.now legs.now) }
{
    ways_to(alloc, draft, legs, draft.exporters.as_slice())
}

fn ways_to(
    alloc: Global,
    draft: &Draft,
    legs: &[Leg],
    exporters: &[Exporter],
) -> Result<ItemList<ItemList<bool>>, AllocError>
    ensures { IfOk result (λ ways. ways ≡ map (goes_in draft.now legs.now) exporters.now) }
{
    let mut ways = ItemList::new(alloc);
    for exporter in exporters {
        ways.push(goes_of(alloc, draft, legs, exporter)?)?;
    }
    Ok(ways)
}

// For each leg, whether it goes to the exporter.
fn goes_of(
    alloc: Global,
    draft: &Draft,
    legs: &[Leg],
    exporter: &Exporter,
) -> Result<ItemList<bool>, AllocError>
    ensures { IfOk result (λ goes. goes ≡ goes_in draft.now legs.now exporter.now) }
{
    let mut goes = ItemList::with_capacity(alloc, legs.len())?;
    for leg in legs {
        goes.push(goes_to(draft, exporter.name.as_str(), leg))?;
    }
    Ok(goes)
}

fn goes_to(draft: &Draft, exporter: &str, leg: &Leg) -> bool
    ensures { result ≡ spec.goes_to draft.now exporter.now leg.now }
{
    match find_pipeline(draft.pipelines.as_slice(), leg.pipeline.as_str()) {
        Some(pipeline) => is_among(exporter, pipeline.exporters.as_slice()),
        None => false,
    }
}
