//! What parsing has to do with the grammar, from the grammar's side.

ghost use Rattle.ottl_parse.specs.Grammar.{statement_rule, condition_rule};
ghost use Rattle.ottl_parse.specs.Parsing.{statement_of, condition_of};
ghost use Rattle.statement_laws.specs.Whole.{SpelledIsParsed, UnexpectedIsBehindLongest, BeginsStatement, BeginsCondition};

/// A text whose tokens the grammar spells, with at most 64 constructs open at once, is parsed, or a
/// number in it is too wide, or a condition or a value stands in the other's place.
pub fn what_is_spelled_is_parsed()
    ensures statements { SpelledIsParsed statement_of (statement_rule 63) }
    ensures conditions { SpelledIsParsed condition_of (condition_rule 64) }
{}

/// `Unexpected` stands behind the longest front of the tokens with which some text of the grammar
/// begins, however deep that nests.
pub fn unexpected_stands_behind_the_longest_prefix()
    ensures statements { UnexpectedIsBehindLongest statement_of BeginsStatement }
    ensures conditions { UnexpectedIsBehindLongest condition_of BeginsCondition }
{}
