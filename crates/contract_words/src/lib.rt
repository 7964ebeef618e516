//! The words that contracts of all crates share, and laws on grammars.
#![tactic(auto)]

ghost use Rattle.std.specs.Prelude.{◌≡◌, ◌↔◌, ◌++◌, List, ℕ, true};
ghost use Rattle.contract_words.specs.Grammar.{Rule, alt, seq, spells, viable};
ghost use Rattle.contract_words.specs.Rows.{fits_row, stop, viable_row, spells_row, run};
ghost use Rattle.contract_words.specs.Fronts.{IsLongest};

/// A text that a rule spells is a viable prefix of it.
#[tactic(auto, using(crate::proofs::Viable::spelled_viable))]
pub fn whole_texts_are_viable()
    ensures { (rule : Rule) (text : List ℕ) → spells rule text → viable rule text }
{}

/// A front of a viable prefix is a viable prefix.
#[tactic(auto, using(crate::proofs::Fronts::front_viable))]
pub fn fronts_are_viable()
    ensures { (rule : Rule) (front rest : List ℕ) → viable rule (front ++ rest)
        → viable rule front }
{}

/// Where one byte always tells how rules in a row go on, the longest viable prefix ends where the
/// row stops.
#[tactic(auto, using(crate::proofs::Longest::longest))]
pub fn longest_prefixes_end_where_the_row_stops()
    ensures { (rules : List Rule) (text : List ℕ) → fits_row rules
        → IsLongest (viable_row rules) text (stop rules text) }
{}

/// Where one byte always tells how rules in a row go on, a run of the row ends well exactly on the
/// texts that it spells.
#[tactic(auto, using(crate::proofs::Whole::runs))]
pub fn runs_end_well_on_whole_texts()
    ensures { (rules : List Rule) (text : List ℕ) → fits_row rules → spells_row rules text
        ↔ ((run rules text).1 ≡ true) }
{}

/// A choice with a common first part has the texts, and the viable prefixes, of that part followed
/// by the choice.
#[tactic(auto, using(crate::proofs::Factoring::factored))]
pub fn a_common_first_part_may_be_factored()
    ensures texts { (a b c : Rule) (text : List ℕ) → spells (alt (seq a b) (seq a c)) text
        ↔ spells (seq a (alt b c)) text }
    ensures prefixes { (a b c : Rule) (text : List ℕ) → viable (alt (seq a b) (seq a c)) text
        ↔ viable (seq a (alt b c)) text }
{}
