//! What the definitions say of the steps of a turn, apart from any code.

ghost use Rattle.std.specs.Prelude.{◌≡◌, ◌≢◌, ◌+◌, ◌<◌, ◌≤◌, ◌∷◌, ℕ, [], length, slice_get};
ghost use Rattle.std.specs.Prelude.{Option, Some, None, Result, true, false};
ghost use Rattle.conf_draft.specs.declared.draft.ErrorMode.TheVariants.{Propagate};
ghost use Rattle.conf_json.specs.Account.{Account};
ghost use Rattle.conf_json.specs.declared.settings.FilterSettings.{FilterSettings};
ghost use Rattle.conf_json.specs.declared.settings.Group.{Group};
ghost use Rattle.conf_json.specs.declared.settings.TransformSettings.{TransformSettings};
ghost use Rattle.filter_proc.specs.Steps as filter;
ghost use Rattle.graph_build.specs.Conf.{Conf};
ghost use Rattle.graph_build.specs.declared.leg.Leg.{Leg};
ghost use Rattle.leg_model.specs.Bursts.{IsBurst, are_few, goes_on, has_one_step, max_targets};
ghost use Rattle.leg_model.specs.Course.{Course, Failure};
ghost use Rattle.leg_model.specs.Exports.{logs};
ghost use Rattle.leg_model.specs.Facts.{ParentsFirst, entry};
ghost use Rattle.leg_model.specs.Legs.{leg_outcome, parent_of};
ghost use Rattle.leg_model.specs.Steps.{IsLength, Standing, behind, filtering, is_over, leg_steps};
ghost use Rattle.leg_model.specs.Steps.{parts_on, state_alone, transforming};
ghost use Rattle.ottl_plan.specs.declared.planned.PlannedStatement.{PlannedStatement};
ghost use Rattle.pdata_tree.specs.declared.batch.Batch.{Batch};
ghost use Rattle.transform_proc.specs.Steps as transform;

/// A leg has one length, of one step at least, and is at its end from there on and not before. One
/// that gets a tree without resources has its first step alone; one without processors and
/// connectors has its first step and its last.
pub fn legs_have_a_length()
    ensures one { (conf : Conf) (tree : Batch) (leg : Leg) (a b : ℕ)
        → IsLength conf tree leg a → IsLength conf tree leg b → a ≡ b }
    ensures some { (conf : Conf) (tree : Batch) (leg : Leg) (total : ℕ)
        → IsLength conf tree leg total → 0 < total }
    ensures nothing { (conf : Conf) (tree : Batch) (leg : Leg)
        → (entry conf tree leg).resources ≡ [] → IsLength conf tree leg 1 }
    ensures bare { (conf : Conf) (tree : Batch) (leg : Leg)
        → parts_on conf leg ≡ record { processors = []; connectors = [] }
        → (entry conf tree leg).resources ≢ [] → IsLength conf tree leg 2 }
    ensures over { (conf : Conf) (tree : Batch) (leg : Leg) (total steps : ℕ)
        → IsLength conf tree leg total → total ≤ steps
        → is_over (state_alone conf tree leg steps) ≡ true }
    ensures before { (conf : Conf) (tree : Batch) (leg : Leg) (total steps : ℕ)
        → IsLength conf tree leg total → is_over (state_alone conf tree leg steps) ≡ true
        → total ≤ steps }
{}

/// What a leg alone holds after some steps and more is what those more make of what it held.
pub fn steps_follow_steps()
    ensures { (conf : Conf) (tree : Batch) (leg : Leg) (done more : ℕ)
        → state_alone conf tree leg (done + more)
        ≡ leg_steps logs.ops logs.group (parts_on conf leg) more (state_alone conf tree leg done) }
{}

/// A leg that isn't at its end has one burst: at least one step, and none past the leg's length.
/// With short turns it is no longer than with turns of whole parts.
pub fn bursts_fit_into_a_leg()
    ensures some { (most : Option ℕ) (conf : Conf) (tree : Batch) (leg : Leg) (done total : ℕ)
        → IsLength conf tree leg total → done < total
        → (steps : ℕ) × IsBurst most (state_alone conf tree leg) done steps }
    ensures one { (most : Option ℕ) (conf : Conf) (tree : Batch) (leg : Leg) (done a b : ℕ)
        → IsBurst most (state_alone conf tree leg) done a
        → IsBurst most (state_alone conf tree leg) done b → a ≡ b }
    ensures fits { (most : Option ℕ) (conf : Conf) (tree : Batch) (leg : Leg)
        → (done steps total : ℕ) → IsLength conf tree leg total
        → IsBurst most (state_alone conf tree leg) done steps
        → (0 < steps) × (done + steps ≤ total) }
    ensures short { (most : ℕ) (conf : Conf) (tree : Batch) (leg : Leg) (done a b : ℕ)
        → IsBurst (Some most) (state_alone conf tree leg) done a
        → IsBurst None (state_alone conf tree leg) done b → a ≤ b }
{}

/// A burst ends with its part, however few targets were ended. A part that has one step is a burst.
pub fn bursts_end_with_their_part()
    ensures one_step { (most : Option ℕ) (conf : Conf) (tree : Batch) (leg : Leg) (done : ℕ)
        → has_one_step (state_alone conf tree leg done) ≡ true
        → IsBurst most (state_alone conf tree leg) done 1 }
    ensures transform { (most : Option ℕ) (s : TransformSettings) (run : transform.State Batch)
        → (c : Course Batch) (at : Standing) (r : Result (Course Batch) Failure)
        → goes_on most (transforming s run c at) (behind logs.ops logs.group at r) ≡ false }
    ensures filter { (most : Option ℕ) (s : FilterSettings) (run : filter.State Batch)
        → (c : Course Batch) (at : Standing) (r : Result (Course Batch) Failure)
        → goes_on most (filtering s run c at) (behind logs.ops logs.group at r) ≡ false }
{}

/// A burst that stops within its part has ended just as many targets as a turn may.
pub fn bursts_within_a_part_end_all_their_targets()
    ensures transform { (most : ℕ) (conf : Conf) (tree : Batch) (leg : Leg) (done steps : ℕ)
        → (s t : TransformSettings) (run now : transform.State Batch) (c d : Course Batch)
        → (at there : Standing) → 0 < most
        → IsBurst (Some most) (state_alone conf tree leg) done steps
        → state_alone conf tree leg done ≡ transforming s run c at
        → state_alone conf tree leg (done + steps) ≡ transforming t now d there
        → there.part ≡ at.part → now.cursor.ended ≡ run.cursor.ended + most }
    ensures filter { (most : ℕ) (conf : Conf) (tree : Batch) (leg : Leg) (done steps : ℕ)
        → (s t : FilterSettings) (run now : filter.State Batch) (c d : Course Batch)
        → (at there : Standing) → 0 < most
        → IsBurst (Some most) (state_alone conf tree leg) done steps
        → state_alone conf tree leg done ≡ filtering s run c at
        → state_alone conf tree leg (done + steps) ≡ filtering t now d there
        → there.part ≡ at.part → now.cursor.ended ≡ run.cursor.ended + most }
{}

/// A filter whose errors end no leg takes one step for each log record and one more: with short
/// turns, 300 log records are a burst of 256 steps and one of 45.
pub fn filters_take_a_step_for_each_record()
    ensures many { (conf : Conf) (tree : Batch) (leg : Leg) (done most : ℕ) (s : FilterSettings)
        → (run : filter.State Batch) (c : Course Batch) (at : Standing)
        → state_alone conf tree leg done ≡ filtering s run c at → s.error_mode ≢ Propagate
        → 0 < most → most ≤ length run.cursor.targets
        → IsBurst (Some most) (state_alone conf tree leg) done most }
    ensures rest { (conf : Conf) (tree : Batch) (leg : Leg) (done : ℕ) (most : Option ℕ)
        → (s : FilterSettings) (run : filter.State Batch) (c : Course Batch) (at : Standing)
        → state_alone conf tree leg done ≡ filtering s run c at → s.error_mode ≢ Propagate
        → are_few most 0 (length run.cursor.targets) ≡ true
        → IsBurst most (state_alone conf tree leg) done (length run.cursor.targets + 1) }
    ensures short { (conf : Conf) (tree : Batch) (leg : Leg) (done : ℕ) (s : FilterSettings)
        → (run : filter.State Batch) (c : Course Batch) (at : Standing)
        → state_alone conf tree leg done ≡ filtering s run c at → s.error_mode ≢ Propagate
        → length run.cursor.targets ≡ 300
        → IsBurst (Some max_targets) (state_alone conf tree leg) done 256
        × IsBurst (Some max_targets) (state_alone conf tree leg) (done + 256) 45 }
{}

/// A transform processor with one statement, whose errors end no leg, takes one step for each
/// target: with short turns, 600 targets are bursts of 256, 256 and 88 steps, and 512 are two.
pub fn statements_take_a_step_for_each_target()
    ensures long { (conf : Conf) (tree : Batch) (leg : Leg) (done : ℕ) (s : TransformSettings)
        → (g : Group) (x : PlannedStatement) (t : Batch) (account : Account) (c : Course Batch)
        → (at : Standing) → state_alone conf tree leg done
        ≡ transforming s (transform.state_of logs.ops (g ∷ []) t account) c at
        → s.error_mode ≢ Propagate → g.conditions ≡ [] → g.statements ≡ x ∷ []
        → length (logs.ops.targets t g.context) ≡ 600
        → IsBurst (Some max_targets) (state_alone conf tree leg) done 256
        × IsBurst (Some max_targets) (state_alone conf tree leg) (done + 256) 256
        × IsBurst (Some max_targets) (state_alone conf tree leg) (done + 256 + 256) 88 }
    ensures even { (conf : Conf) (tree : Batch) (leg : Leg) (done : ℕ) (s : TransformSettings)
        → (g : Group) (x : PlannedStatement) (t : Batch) (account : Account) (c : Course Batch)
        → (at : Standing) → state_alone conf tree leg done
        ≡ transforming s (transform.state_of logs.ops (g ∷ []) t account) c at
        → s.error_mode ≢ Propagate → g.conditions ≡ [] → g.statements ≡ x ∷ []
        → length (logs.ops.targets t g.context) ≡ 512
        → IsBurst (Some max_targets) (state_alone conf tree leg) done 256
        × IsBurst (Some max_targets) (state_alone conf tree leg) (done + 256) 256 }
{}

/// A leg below one that failed has its first step alone.
pub fn legs_below_failed_ones_have_one_step()
    ensures { (conf : Conf) (tree : Batch) (number : ℕ) (leg parent : Leg)
        → ParentsFirst conf.legs → slice_get conf.legs number ≡ Some leg
        → parent_of conf.legs leg ≡ Some parent → (leg_outcome logs conf tree parent).tree ≡ None
        → IsLength conf tree leg 1 }
{}
