//! What tokens have to do with the token table.

ghost use Rattle.ottl_lex.specs.Faults.{FaultsStand};
ghost use Rattle.ottl_lex.specs.Table.{ContentsAreMeant, TokensAreLongest};

/// Tokens are slices in order with blanks alone between them, and no longer token begins where one
/// does.
#[tactic(auto, using(crate::proofs::Longest::tokens_are_longest))]
pub fn tokens_are_longest()
    ensures { TokensAreLongest }
{}

/// Before a fault stand tokens and blanks, and where it stands the text has no token or is no
/// number.
#[tactic(auto, using(crate::proofs::Longest::faults_stand))]
pub fn faults_stand()
    ensures { FaultsStand }
{}

/// A text of the table has contents, and they are what its pieces stand for.
#[tactic(auto, using(crate::proofs::Texts::contents_are_meant))]
pub fn contents_are_meant()
    ensures { ContentsAreMeant }
{}
