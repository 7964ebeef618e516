//! What the definitions say, apart from the code.

ghost use Rattle.conf_json.specs.Account.{Account};
ghost use Rattle.conf_json.specs.declared.settings.FilterSettings.{FilterSettings};
ghost use Rattle.pdata_tree.specs.Operations.{log_trees};
ghost use Rattle.pdata_tree.specs.declared.batch.Batch.{Batch};
ghost use Rattle.filter_proc.specs.Steps.{AddsUp, BeginsWhole, State};

/// Steps add up: at the beginning all that is left makes of the tree what the processor does, and
/// each step leaves that, up to the step that ends or fails.
#[tactic(auto, using(crate::proofs::Steps::steps_law))]
pub fn steps_add_up()
    ensures whole { (settings : FilterSettings) (tree : Batch) (account : Account) →
        BeginsWhole log_trees settings tree account }
    ensures step { (settings : FilterSettings) (s : State Batch) → AddsUp log_trees settings s }
{}
