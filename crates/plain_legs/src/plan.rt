//! The legs of a plan, with the parts of their pipelines.

use crate::parts::PipelineParts;
use conf_draft::Draft;
use conf_json::Planned;
use graph_build::Leg;
use item_list::ItemList;

/// The legs of a plan, with the parts of each leg's pipeline in the order of the legs.
#[derive(Drop)]
pub struct LegPlan<'p> {
    pub draft: &'p Draft,
    pub planned: &'p Planned,
    pub legs: &'p [Leg],
    pub(crate) parts: ItemList<PipelineParts<'p>>,
}
