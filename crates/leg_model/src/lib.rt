//! What a leg gets, leaves and counts, and what its exporters get.
#![tactic(auto)]

mod export_laws;
mod history_laws;
mod laws;
mod leg_laws;
mod step_laws;
mod turn_laws;

use conf_json::Note;
pub use export_laws::{
    exporters_get_by_their_pipelines, lines_are_of_trees_with_resources,
    payloads_are_accepted_or_refused,
};
pub use history_laws::{
    events_count_for_their_leg, events_may_change_places, histories_begin_empty,
    histories_grow_by_legal_events, legs_end_with_what_is_meant, legs_may_have_their_turn,
    legs_wait_for_the_leg_above,
};
use item_list::ItemList;
pub use laws::{exports_grow, notes_grow, totals_add_up};
pub use leg_laws::{
    counts_of_a_leg_add_up, defaults_take_the_rest, failed_legs_hand_on_nothing,
    first_errors_are_noted, legs_get_what_is_handed, nothing_leaves_nothing,
};
pub use step_laws::steps_come_to_what_is_meant;
pub use turn_laws::{
    bursts_end_with_their_part, bursts_fit_into_a_leg, bursts_within_a_part_end_all_their_targets,
    filters_take_a_step_for_each_record, legs_below_failed_ones_have_one_step, legs_have_a_length,
    statements_take_a_step_for_each_target, steps_follow_steps,
};

#[cfg(test)]
mod tests;

/// An error on a leg.
#[derive(Clone, Copy, Debug, PartialEq, Eq)]
pub struct LegNote {
    /// Which component erred: the pipeline's processors come first, then its connectors, from 0.
    pub component: usize,
    pub note: Note,
}

/// What a turn did.
#[derive(Clone, Copy, Debug, PartialEq, Eq)]
pub struct Event {
    /// The number of the leg that it was on.
    pub leg: u32,
    /// How many of the leg's steps it did.
    pub steps: u64,
}

/// What is counted on a leg. The number taken is that of those out, filtered and failed together.
#[derive(Clone, Copy, Debug, PartialEq, Eq)]
pub struct LegCounts {
    /// The log records of the tree that the leg got.
    pub taken: u128,
    /// Those of the tree that it left.
    pub out: u128,
    /// Those that its filters dropped.
    pub filtered: u128,
    /// Those that its connectors left without a pipeline.
    pub unrouted: u128,
    /// All that it got, where it failed.
    pub failed: u128,
    /// The errors that were counted.
    pub errors: u128,
}

/// What an exporter got.
#[derive(Clone, Copy, Debug, PartialEq, Eq)]
pub struct FileTotal {
    pub lines: u128,
    /// With the newlines.
    pub bytes: u128,
}

/// What is counted: the payloads, on each leg, and for each exporter in the byte order of names.
#[derive(Drop)]
pub struct Totals {
    pub accepted: u128,
    pub refused: u128,
    pub legs: ItemList<LegCounts>,
    pub files: ItemList<FileTotal>,
}
