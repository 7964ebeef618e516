//! Laws of the definitions.

ghost use Rattle.std.specs.Prelude.{◌≡◌, ◌↔◌, ℕ, List, None};
ghost use Rattle.serde_json.specs.Data.{Data};
ghost use Rattle.conf_shape.specs.declared.table.Rule.{Rule};
ghost use Rattle.conf_shape.specs.Shape.{shape_fault};
ghost use Rattle.conf_shape.specs.HasShape.{HasShape};

/// A value has no fault in its shape exactly where it has a right shape, whatever the order of the
/// walk.
pub fn shape_is_right_where_no_fault_stands()
    ensures { (rule : Rule) (at : List ℕ) (d : Data)
        → (shape_fault rule at d ≡ None) ↔ HasShape rule d }
{}
