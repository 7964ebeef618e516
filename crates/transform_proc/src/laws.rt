//! What the definitions say, apart from the code.

ghost use Rattle.conf_draft.specs.declared.draft.ErrorMode.{ErrorMode};
ghost use Rattle.conf_json.specs.Account.{Account};
ghost use Rattle.conf_json.specs.declared.settings.TransformSettings.{TransformSettings};
ghost use Rattle.ottl_eval.specs.Stages.{Stage};
ghost use Rattle.ottl_plan.specs.declared.planned.PlannedStatement.{PlannedStatement};
ghost use Rattle.pdata_tree.specs.Operations.{log_trees};
ghost use Rattle.pdata_tree.specs.declared.batch.Batch.{Batch};
ghost use Rattle.transform_proc.specs.Steps.{AddsUp, BeginsWhole, State};
ghost use Rattle.transform_proc.specs.Targets.{KeepsTargets};

/// Steps add up: at the beginning all that is left makes of the tree what the processor does, and
/// each step leaves that, up to the step that ends or fails.
#[tactic(auto, using(crate::proofs::Steps::steps_law))]
pub fn steps_add_up()
    ensures whole { (settings : TransformSettings) (tree : Batch) (account : Account) →
        BeginsWhole log_trees settings tree account }
    ensures step { (mode : ErrorMode) (s : State Batch) → AddsUp log_trees mode s }
{}

/// A statement leaves the targets of each context where they are, so those that are left of a group
/// are those of the tree as it stands.
#[tactic(auto, using(crate::proofs::Targets::keeps_targets))]
pub fn statements_keep_targets()
    ensures { (x : PlannedStatement) (s : Stage Batch) → KeepsTargets x s }
{}
