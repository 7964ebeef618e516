//! What the definitions say, apart from the code.

ghost use Rattle.std.specs.Prelude.{◌≡◌, Ok};
ghost use Rattle.ottl_eval.specs.OneValue.{read_after};
ghost use Rattle.ottl_eval.specs.Stages.{Stage};
ghost use Rattle.pdata_value.specs.declared.value.Value.{Value};

/// The meaning is stated over any kind of tree: on a tree of one value, what is written at the path
/// to the value is read there.
#[tactic(auto, using(crate::proofs::ReadBack::read_back))]
pub fn what_is_written_is_read_on_a_tree_of_one_value()
    ensures { (v : Value) (s : Stage Value) → read_after v s ≡ Ok v }
{}
