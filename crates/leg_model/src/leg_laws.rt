//! What the definitions say of legs, apart from any code.

ghost use Rattle.std.specs.Prelude.{◌≡◌, ℕ, List, [], length, min, slice_get, Some, None};
ghost use Rattle.conf_json.specs.Account.{max_notes};
ghost use Rattle.graph_build.specs.Conf.{Conf};
ghost use Rattle.graph_build.specs.declared.leg.Leg.{Leg};
ghost use Rattle.leg_model.specs.Exports.{logs};
ghost use Rattle.leg_model.specs.Facts.{AddUp, FailsWhole, HaveDefaults, LeavesNothing};
ghost use Rattle.leg_model.specs.Facts.{ParentsFirst, entry, records_left};
ghost use Rattle.leg_model.specs.Legs.{handed, leg_outcome, parent_of};
ghost use Rattle.leg_model.specs.Parts.{parts_of};
ghost use Rattle.leg_model.specs.Totals.{leg_total};
ghost use Rattle.pdata_tree.specs.Tree.{records};
ghost use Rattle.pdata_tree.specs.declared.batch.Batch.{Batch};

/// A root gets the payload's tree, and each other leg what the leg above it hands to it.
pub fn legs_get_what_is_handed()
    ensures root { (conf : Conf) (tree : Batch) (leg : Leg)
        → leg.parent ≡ None → entry conf tree leg ≡ tree }
    ensures below { (conf : Conf) → ParentsFirst conf.legs
        → (tree : Batch) (number : ℕ) (leg parent : Leg)
        → slice_get conf.legs number ≡ Some leg → parent_of conf.legs leg ≡ Some parent
        → entry conf tree leg ≡ handed logs leg (leg_outcome logs conf tree parent) }
{}

/// A leg that fails does so with all that it got, and hands on the empty tree: a leg below it
/// leaves nothing.
pub fn failed_legs_hand_on_nothing()
    ensures whole { (conf : Conf) (tree : Batch) (leg : Leg)
        → (leg_outcome logs conf tree leg).tree ≡ None
        → FailsWhole (leg_outcome logs conf tree leg) }
    ensures hands { (conf : Conf) (tree : Batch) (parent leg : Leg)
        → (leg_outcome logs conf tree parent).tree ≡ None
        → handed logs leg (leg_outcome logs conf tree parent) ≡ logs.empty }
    ensures below { (conf : Conf) (tree : Batch) (number : ℕ) (leg parent : Leg)
        → ParentsFirst conf.legs → slice_get conf.legs number ≡ Some leg
        → parent_of conf.legs leg ≡ Some parent → (leg_outcome logs conf tree parent).tree ≡ None
        → LeavesNothing (leg_outcome logs conf tree leg) }
{}

/// A leg that gets a tree without resources leaves nothing, and so do the legs below it.
pub fn nothing_leaves_nothing()
    ensures own { (conf : Conf) (tree : Batch) (leg : Leg)
        → (entry conf tree leg).resources ≡ [] → LeavesNothing (leg_outcome logs conf tree leg) }
    ensures below { (conf : Conf) (tree : Batch) (number : ℕ) (leg parent : Leg)
        → ParentsFirst conf.legs → slice_get conf.legs number ≡ Some leg
        → parent_of conf.legs leg ≡ Some parent → (entry conf tree parent).resources ≡ []
        → LeavesNothing (leg_outcome logs conf tree leg) }
{}

/// No log record is lost from the counts of a leg: those that it got went out, were dropped by a
/// filter, or failed.
#[tactic(auto, using(crate::proofs::Balances::counts_law))]
pub fn counts_of_a_leg_add_up()
    ensures taken { (conf : Conf) (tree : Batch) (leg : Leg)
        → (leg_outcome logs conf tree leg).counts.taken ≡ records (entry conf tree leg) }
    ensures out { (conf : Conf) (tree : Batch) (leg : Leg)
        → (leg_outcome logs conf tree leg).counts.out
        ≡ records_left (leg_outcome logs conf tree leg).tree }
    ensures sum { (conf : Conf) (tree : Batch) (leg : Leg)
        → AddUp (leg_outcome logs conf tree leg).counts }
    ensures total { (conf : Conf) (leg : Leg) (lines : List (List ℕ))
        → AddUp (leg_total conf leg lines) }
{}

/// Where each connector of a leg has a default, no log record goes without a pipeline.
pub fn defaults_take_the_rest()
    ensures { (conf : Conf) (tree : Batch) (leg : Leg)
        → HaveDefaults (parts_of conf.meant leg.pipeline).connectors
        → (leg_outcome logs conf tree leg).counts.unrouted ≡ 0 }
{}

/// A leg notes its first errors, also where it fails.
pub fn first_errors_are_noted()
    ensures { (conf : Conf) (tree : Batch) (leg : Leg)
        → length (leg_outcome logs conf tree leg).notes
        ≡ min (leg_outcome logs conf tree leg).counts.errors max_notes }
{}
