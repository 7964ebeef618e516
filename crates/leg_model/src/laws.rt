//! What is written, noted and counted grows by lines.

ghost use Rattle.std.specs.Prelude.{◌≡◌, ◌+◌, ◌++◌, ℕ, List, length};
ghost use Rattle.conf_draft.specs.declared.draft.Exporter.{Exporter};
ghost use Rattle.graph_build.specs.Conf.{Conf};
ghost use Rattle.graph_build.specs.declared.leg.Leg.{Leg};
ghost use Rattle.leg_model.specs.Exports.{alone, exported};
ghost use Rattle.leg_model.specs.Notes.{notes_from};
ghost use Rattle.leg_model.specs.Sums.{plus_file, plus_totals};
ghost use Rattle.leg_model.specs.Totals.{accepted, file_total, leg_total, plus, refused, totals_of};

/// What an exporter gets of lines followed by others is what it gets of the first, then what it
/// gets of the others.
#[tactic(auto, using(crate::proofs::Growing::exports_law))]
pub fn exports_grow()
    ensures lines { (conf : Conf) (exporter : List ℕ) (ls ms : List (List ℕ))
        → exported conf exporter (ls ++ ms)
        ≡ exported conf exporter ls ++ exported conf exporter ms }
    ensures bytes { (conf : Conf) (exporter : List ℕ) (ls ms : List (List ℕ))
        → alone conf exporter (ls ++ ms) ≡ alone conf exporter ls ++ alone conf exporter ms }
{}

/// So are the notes; the payload numbers of the others follow those of the first.
#[tactic(auto, using(crate::proofs::Growing::notes_law))]
pub fn notes_grow()
    ensures { (conf : Conf) (number : ℕ) (ls ms : List (List ℕ))
        → notes_from conf number (ls ++ ms)
        ≡ notes_from conf number ls ++ notes_from conf (number + length ls) ms }
{}

/// What is counted of lines followed by others is the sum.
#[tactic(auto, using(crate::proofs::Growing::totals_law))]
pub fn totals_add_up()
    ensures accepted { (ls ms : List (List ℕ)) → accepted (ls ++ ms) ≡ accepted ls + accepted ms }
    ensures refused { (ls ms : List (List ℕ)) → refused (ls ++ ms) ≡ refused ls + refused ms }
    ensures leg { (conf : Conf) (leg : Leg) (ls ms : List (List ℕ))
        → leg_total conf leg (ls ++ ms) ≡ plus (leg_total conf leg ls) (leg_total conf leg ms) }
    ensures file { (conf : Conf) (ls ms : List (List ℕ)) (e : Exporter)
        → file_total conf (ls ++ ms) e
        ≡ plus_file (file_total conf ls e) (file_total conf ms e) }
    ensures all { (conf : Conf) (ls ms : List (List ℕ))
        → totals_of conf (ls ++ ms) ≡ plus_totals (totals_of conf ls) (totals_of conf ms) }
{}
