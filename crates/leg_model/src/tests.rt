//! The laws can be called.

ghost use Rattle.std.specs.Prelude.{◌≡◌, ◌∷◌, []};
ghost use Rattle.leg_model.specs.Histories.{replay};

use crate::{
    bursts_end_with_their_part, bursts_fit_into_a_leg, bursts_within_a_part_end_all_their_targets,
    counts_of_a_leg_add_up, defaults_take_the_rest, events_count_for_their_leg,
    events_may_change_places, exporters_get_by_their_pipelines, exports_grow,
    failed_legs_hand_on_nothing, filters_take_a_step_for_each_record, first_errors_are_noted,
    histories_begin_empty, histories_grow_by_legal_events, legs_below_failed_ones_have_one_step,
    legs_end_with_what_is_meant, legs_get_what_is_handed, legs_have_a_length,
    legs_may_have_their_turn, legs_wait_for_the_leg_above, lines_are_of_trees_with_resources,
    notes_grow, nothing_leaves_nothing, payloads_are_accepted_or_refused,
    statements_take_a_step_for_each_target, steps_come_to_what_is_meant, steps_follow_steps,
    totals_add_up,
};

#[test]
fn laws_hold_of_all_configurations() {
    exports_grow();
    notes_grow();
    totals_add_up();
    legs_get_what_is_handed();
    failed_legs_hand_on_nothing();
    nothing_leaves_nothing();
    counts_of_a_leg_add_up();
    defaults_take_the_rest();
    first_errors_are_noted();
    lines_are_of_trees_with_resources();
    exporters_get_by_their_pipelines();
    payloads_are_accepted_or_refused();
    steps_come_to_what_is_meant();
}

#[test]
fn laws_hold_of_all_turns() {
    legs_have_a_length();
    legs_below_failed_ones_have_one_step();
    steps_follow_steps();
    bursts_fit_into_a_leg();
    bursts_end_with_their_part();
    bursts_within_a_part_end_all_their_targets();
    filters_take_a_step_for_each_record();
    statements_take_a_step_for_each_target();
    histories_begin_empty();
    events_count_for_their_leg();
    histories_grow_by_legal_events();
    events_may_change_places();
    legs_wait_for_the_leg_above();
    legs_may_have_their_turn();
    legs_end_with_what_is_meant();
}

// Two legs in turn: three steps of the one, two of the other, and none of a third.
fn five_turns()
    ensures first { replay (record { leg = 0; steps = 1 } ∷ record { leg = 1; steps = 1 }
        ∷ record { leg = 0; steps = 1 } ∷ record { leg = 1; steps = 1 }
        ∷ record { leg = 0; steps = 1 } ∷ []) 0 ≡ 3 }
    ensures second { replay (record { leg = 0; steps = 1 } ∷ record { leg = 1; steps = 1 }
        ∷ record { leg = 0; steps = 1 } ∷ record { leg = 1; steps = 1 }
        ∷ record { leg = 0; steps = 1 } ∷ []) 1 ≡ 2 }
    ensures third { replay (record { leg = 0; steps = 1 } ∷ record { leg = 1; steps = 1 }
        ∷ record { leg = 0; steps = 1 } ∷ record { leg = 1; steps = 1 }
        ∷ record { leg = 0; steps = 1 } ∷ []) 2 ≡ 0 }
{}

#[test]
fn turns_are_counted_by_their_legs() {
    five_turns();
}
