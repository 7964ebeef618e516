//! What the definitions say of histories, apart from any code.

ghost use Rattle.std.specs.Prelude.{◌≡◌, ◌≢◌, ◌+◌, ◌<◌, ◌≤◌, ◌∷◌, ◌++◌, ℕ, List, [], slice_get};
ghost use Rattle.std.specs.Prelude.{Option, Some, true, false};
ghost use Rattle.graph_build.specs.Conf.{Conf};
ghost use Rattle.graph_build.specs.declared.leg.Leg.{Leg};
ghost use Rattle.leg_model.specs.Bursts.{IsBurst};
ghost use Rattle.leg_model.specs.Exports.{logs};
ghost use Rattle.leg_model.specs.Histories.{HasLeft, IsAtEnd, Legal, MayFollow, replay};
ghost use Rattle.leg_model.specs.Legs.{leg_outcome};
ghost use Rattle.leg_model.specs.Steps.{is_over, over, state_alone};
ghost use Rattle.leg_model.specs.declared.Event.{Event};
ghost use Rattle.pdata_tree.specs.declared.batch.Batch.{Batch};

/// At the beginning nothing is done, and that is legal.
pub fn histories_begin_empty()
    ensures legal { (conf : Conf) (tree : Batch) → Legal conf tree [] }
    ensures replay { (number : ℕ) → replay [] number ≡ 0 }
{}

/// An event adds its steps to its leg, and to no other.
pub fn events_count_for_their_leg()
    ensures own { (history : List Event) (event : Event)
        → replay (history ++ event ∷ []) event.leg ≡ replay history event.leg + event.steps }
    ensures others { (history : List Event) (event : Event) (number : ℕ) → event.leg ≢ number
        → replay (history ++ event ∷ []) number ≡ replay history number }
{}

/// A legal history stays legal with one more event that may follow it, where the event's leg has as
/// many steps left, as it has for a burst or the first steps of one. What was before it was legal.
pub fn histories_grow_by_legal_events()
    ensures event { (conf : Conf) (tree : Batch) (history : List Event) (event : Event)
        → Legal conf tree history → MayFollow conf tree history event
        → HasLeft conf tree history event → Legal conf tree (history ++ event ∷ []) }
    ensures burst { (most : Option ℕ) (conf : Conf) (tree : Batch) (history : List Event)
        → (event : Event) (leg : Leg) (steps : ℕ) → slice_get conf.legs event.leg ≡ Some leg
        → IsBurst most (state_alone conf tree leg) (replay history event.leg) steps
        → event.steps ≤ steps → HasLeft conf tree history event }
    ensures front { (conf : Conf) (tree : Batch) (history more : List Event)
        → Legal conf tree (history ++ more) → Legal conf tree history }
{}

/// The order of events doesn't count: of two that follow each other either may be the first, unless
/// the second is on a leg right below that of the first.
pub fn events_may_change_places()
    ensures replay { (before after : List Event) (a b : Event) (number : ℕ)
        → replay (before ++ b ∷ a ∷ after) number ≡ replay (before ++ a ∷ b ∷ after) number }
    ensures legal { (conf : Conf) (tree : Batch) (before after : List Event) (a b : Event)
        → Legal conf tree (before ++ a ∷ b ∷ after)
        → ((leg : Leg) → slice_get conf.legs b.leg ≡ Some leg → leg.parent ≢ Some a.leg)
        → Legal conf tree (before ++ b ∷ a ∷ after) }
{}

/// A leg has done no step while the leg above it isn't at its end.
pub fn legs_wait_for_the_leg_above()
    ensures { (conf : Conf) (tree : Batch) (history : List Event) → Legal conf tree history
        → (number above : ℕ) (leg : Leg) → slice_get conf.legs number ≡ Some leg
        → leg.parent ≡ Some above → (IsAtEnd conf tree history above → ⊥)
        → replay history number ≡ 0 }
{}

/// Behind a legal history a leg is at its end where it holds a result after the steps that were
/// done on it. This is what it is meant to leave, in whatever order the legs had their turns.
pub fn legs_end_with_what_is_meant()
    ensures end { (conf : Conf) (tree : Batch) (history : List Event) (number : ℕ) (leg : Leg)
        → Legal conf tree history → slice_get conf.legs number ≡ Some leg
        → is_over (state_alone conf tree leg (replay history number)) ≡ true
        → IsAtEnd conf tree history number }
    ensures result { (conf : Conf) (tree : Batch) (history : List Event) (number : ℕ) (leg : Leg)
        → slice_get conf.legs number ≡ Some leg → IsAtEnd conf tree history number
        → state_alone conf tree leg (replay history number)
        ≡ over (leg_outcome logs conf tree leg) }
{}

/// A leg that isn't at its end has a turn where the leg above it is at its end, whatever the others
/// have done, and the history with this turn is legal.
pub fn legs_may_have_their_turn()
    ensures { (most : Option ℕ) (conf : Conf) (tree : Batch) (history : List Event)
        → (number : ℕ) (leg : Leg) → Legal conf tree history
        → slice_get conf.legs number ≡ Some leg
        → ((above : ℕ) → leg.parent ≡ Some above → IsAtEnd conf tree history above)
        → is_over (state_alone conf tree leg (replay history number)) ≡ false
        → (steps : ℕ) × IsBurst most (state_alone conf tree leg) (replay history number) steps
        × Legal conf tree (history ++ record { leg = number; steps = steps } ∷ []) }
{}
