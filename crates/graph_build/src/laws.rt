//! Laws of the definitions.

ghost use Rattle.std.specs.Prelude.{◌≡◌, ◌≤◌, ℕ, suc, true, length, slice_get, Some};
ghost use Rattle.conf_draft.specs.declared.draft.Draft.{Draft};
ghost use Rattle.conf_draft.specs.declared.draft.Pipeline.{Pipeline};
ghost use Rattle.graph_build.specs.declared.leg.Leg.{Leg};
ghost use Rattle.graph_build.specs.Cycles.{is_on_cycle, reaches};
ghost use Rattle.graph_build.specs.Legs.{legs_below};

/// A pipeline that reaches itself in any number of steps does so in at most as many as there are
/// pipelines.
pub fn cycles_are_short()
    ensures { (draft : Draft) (steps index : ℕ) (p : Pipeline)
        → slice_get draft.pipelines index ≡ Some p
        → reaches draft steps p.name p.name ≡ true → is_on_cycle draft p.name ≡ true }
{}

/// Where there are fewer legs than levels were looked at, one more level finds the same legs.
pub fn deeper_looks_find_the_same()
    ensures { (draft : Draft) (levels number : ℕ) (leg : Leg)
        → length (legs_below draft (suc levels) number leg) ≤ levels
        → legs_below draft (suc (suc levels)) number leg
        ≡ legs_below draft (suc levels) number leg }
{}
