//! What a run needs of a plan.

use item_list::ItemList;
use plain_legs::LegPlan;

/// The legs of a plan and, for each exporter in the byte order of names, which of them go to it.
#[derive(Drop)]
pub struct RunPlan<'p> {
    pub legs: LegPlan<'p>,
    pub(crate) ways: ItemList<ItemList<bool>>,
}
