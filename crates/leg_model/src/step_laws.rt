//! What the definitions say of the steps of a leg, apart from any code.

ghost use Rattle.std.specs.Prelude.{◌≡◌, ◌+◌, ℕ};
ghost use Rattle.graph_build.specs.Conf.{Conf};
ghost use Rattle.graph_build.specs.declared.leg.Leg.{Leg};
ghost use Rattle.leg_model.specs.Exports.{logs};
ghost use Rattle.leg_model.specs.Legs.{leg_outcome};
ghost use Rattle.leg_model.specs.Steps.{IsLength, LegState, leg_step, over, parts_on};
ghost use Rattle.leg_model.specs.Steps.{rest_of, state_alone};
ghost use Rattle.pdata_tree.specs.declared.batch.Batch.{Batch};

/// The steps of a leg come to an end, and there it holds what it is meant to leave. Until then each
/// step leaves to do what was left before it.
pub fn steps_come_to_what_is_meant()
    ensures ends { (conf : Conf) (tree : Batch) (leg : Leg)
        → (steps : ℕ) × IsLength conf tree leg steps }
    ensures end { (conf : Conf) (tree : Batch) (leg : Leg) (steps more : ℕ)
        → IsLength conf tree leg steps
        → state_alone conf tree leg (steps + more) ≡ over (leg_outcome logs conf tree leg) }
    ensures step { (conf : Conf) (leg : Leg) (s : LegState Batch)
        → rest_of logs.ops logs.group (parts_on conf leg)
        (leg_step logs.ops logs.group (parts_on conf leg) s)
        ≡ rest_of logs.ops logs.group (parts_on conf leg) s }
{}
