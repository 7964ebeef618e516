//! What the definitions say of exporters and payloads, apart from any code.

ghost use Rattle.std.specs.Prelude.{◌≡◌, ◌≢◌, ◌+◌, ◌∷◌, ◌++◌, ℕ, List, [], length};
ghost use Rattle.std.specs.Prelude.{Some, None, Ok, Err};
ghost use Rattle.conf_draft.specs.References.{is_among};
ghost use Rattle.conf_draft.specs.declared.draft.Draft.{Draft};
ghost use Rattle.conf_draft.specs.declared.draft.Pipeline.{Pipeline};
ghost use Rattle.graph_build.specs.Conf.{Conf};
ghost use Rattle.graph_build.specs.Exits.{pipeline_named};
ghost use Rattle.graph_build.specs.declared.leg.Leg.{Leg};
ghost use Rattle.leg_model.specs.Exports.{exported, goes_to, lines_left};
ghost use Rattle.leg_model.specs.Facts.{StandTogether, StandsInNone};
ghost use Rattle.leg_model.specs.Totals.{accepted, refused};
ghost use Rattle.otlp_json.specs.Line.{line};
ghost use Rattle.otlp_json.specs.Payload.{payload};
ghost use Rattle.otlp_json.specs.declared.error.PayloadFault.{PayloadFault};
ghost use Rattle.pdata_tree.specs.declared.batch.Batch.{Batch};

/// A leg leaves a line exactly where its final tree has a resource.
#[tactic(auto, using(crate::proofs::Exporting::lines_law))]
pub fn lines_are_of_trees_with_resources()
    ensures line { (tree : Batch) → tree.resources ≢ []
        → lines_left (Some tree) ≡ (line tree ++ 10 ∷ []) ∷ [] }
    ensures empty { (tree : Batch) → tree.resources ≡ [] → lines_left (Some tree) ≡ [] }
    ensures failed { lines_left None ≡ [] }
{}

/// A line goes to the exporters of its leg's pipeline: those that stand in the same pipelines get
/// the same, and one that stands in none gets nothing.
#[tactic(auto, using(crate::proofs::Exporting::exporters_law))]
pub fn exporters_get_by_their_pipelines()
    ensures pipeline { (draft : Draft) (exporter : List ℕ) (leg : Leg) (p : Pipeline)
        → pipeline_named leg.pipeline draft.pipelines ≡ Some p
        → goes_to draft exporter leg ≡ is_among exporter p.exporters }
    ensures same { (conf : Conf) (a b : List ℕ) → StandTogether a b conf.meant.draft.pipelines
        → (lines : List (List ℕ)) → exported conf a lines ≡ exported conf b lines }
    ensures none { (conf : Conf) (exporter : List ℕ)
        → StandsInNone exporter conf.meant.draft.pipelines
        → (lines : List (List ℕ)) → exported conf exporter lines ≡ [] }
{}

/// Each payload is accepted or refused, and no exporter gets anything of one that is refused.
#[tactic(auto, using(crate::proofs::Exporting::payloads_law))]
pub fn payloads_are_accepted_or_refused()
    ensures all { (lines : List (List ℕ)) → accepted lines + refused lines ≡ length lines }
    ensures accepted { (line : List ℕ) (tree : Batch)
        → payload line ≡ Ok tree → accepted (line ∷ []) ≡ 1 }
    ensures refused { (line : List ℕ) (fault : PayloadFault)
        → payload line ≡ Err fault → refused (line ∷ []) ≡ 1 }
    ensures nothing { (conf : Conf) (exporter line : List ℕ) (fault : PayloadFault)
        → payload line ≡ Err fault → exported conf exporter (line ∷ []) ≡ [] }
{}
