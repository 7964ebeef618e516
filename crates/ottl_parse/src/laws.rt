//! What parsing has to do with the grammar.

ghost use Rattle.std.specs.Prelude.{◌≡◌, List, ℕ, Ok};
ghost use Rattle.contract_words.specs.Grammar.{spells};
ghost use Rattle.ottl_lex.specs.Tokens.{tokens_of};
ghost use Rattle.ottl_lex.specs.declared.token.Token.{Token};
ghost use Rattle.ottl_parse.specs.Grammar.{codes_of, statement_rule, condition_rule, FaultsAreBehindPrefixes};
ghost use Rattle.ottl_parse.specs.Parsing as parsing;
ghost use Rattle.ottl_parse.specs.Parsing.{statement_of, condition_of};
ghost use Rattle.ottl_parse.specs.declared.statement.Condition.{Condition};
ghost use Rattle.ottl_parse.specs.declared.statement.Statement.{Statement};

/// The tokens of a text that is parsed are spelled by the grammar, in which 64 constructs may be
/// open at once.
#[tactic(auto, using(crate::proofs::Spelled::parsed_are_spelled))]
pub fn what_is_parsed_is_spelled()
    ensures statements { (text : List ℕ) (tokens : List Token) (statement : Statement)
        → tokens_of text ≡ Ok tokens → statement_of text ≡ Ok statement
        → spells (statement_rule 63) (codes_of text tokens) }
    ensures conditions { (text : List ℕ) (tokens : List Token) (condition : Condition)
        → tokens_of text ≡ Ok tokens → condition_of text ≡ Ok condition
        → spells (condition_rule 64) (codes_of text tokens) }
{}

/// Before `Unexpected`, `Wide` and `TooDeep` stand tokens with which some text of the grammar
/// begins.
pub fn faults_stand_behind_viable_prefixes()
    ensures statements { FaultsAreBehindPrefixes parsing.statement statement_of
        (statement_rule 63) }
    ensures conditions { FaultsAreBehindPrefixes parsing.condition condition_of
        (condition_rule 64) }
{}
