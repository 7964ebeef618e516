//! Laws beside the parser's answers.

use crate::{unexpected_stands_behind_the_longest_prefix, what_is_spelled_is_parsed};
use ottl_lex::{MAX_TEXT, SyntaxStop};
use ottl_parse::{parse_condition, parse_statement};
use std::alloc::{AllocError, Global};
use std::test::Fail;

// The fault of a statement's text, or an empty text.
fn statement_fault(alloc: Global, text: &str) -> Result<String, Fail> {
    if MAX_TEXT < text.len() {
        return Err(AllocError.into());
    }
    match parse_statement(alloc, text) {
        Ok(_) => Ok(String::from_str(alloc, "")?),
        Err(SyntaxStop::Fault(fault)) => Ok(format!(in alloc; "{fault}")?),
        Err(SyntaxStop::NoMemory) => Err(AllocError.into()),
    }
}

// The fault of a condition's text, or an empty text.
fn condition_fault(alloc: Global, text: &str) -> Result<String, Fail> {
    if MAX_TEXT < text.len() {
        return Err(AllocError.into());
    }
    match parse_condition(alloc, text) {
        Ok(_) => Ok(String::from_str(alloc, "")?),
        Err(SyntaxStop::Fault(fault)) => Ok(format!(in alloc; "{fault}")?),
        Err(SyntaxStop::NoMemory) => Err(AllocError.into()),
    }
}

#[test]
fn what_the_grammar_spells_is_no_fault_of_it(rt: HostRuntime) -> Result<(), Fail> {
    what_is_spelled_is_parsed();
    for (text, want) in [
        ("set(body, -1 + +2 * a.b[\"c\"][0])", ""),
        (
            "set(body, {\"a\": [F(), E]}) where not (x < 1) and f()",
            "ConditionWanted at 49",
        ),
        ("set(body, [0x0a, (1 - 2) / 3])", ""),
        ("set(a == b)", "ValueWanted at 4"),
        ("set(a[9223372036854775808])", "Wide at 6"),
    ] {
        assert_eq!(rt;
            statement_fault(rt.alloc(), text)?.as_str(),
            want,
            "at {text}"
        );
    }
    assert_eq!(rt;
        condition_fault(rt.alloc(), "a >= -7 or not not b != \"c\"")?.as_str(),
        ""
    );
    Ok(())
}

#[test]
fn a_front_before_a_fault_may_be_completed(rt: HostRuntime) -> Result<(), Fail> {
    unexpected_stands_behind_the_longest_prefix();
    for (text, want) in [
        ("set(body", "Unexpected at 8"),
        ("set(body)", ""),
        ("set(a.b ]", "Unexpected at 8"),
        ("set(a.b )", ""),
        ("set(A.", "Unexpected at 5"),
        ("set(A(", "Unexpected at 6"),
        ("set(A())", ""),
        ("set(a) where b == c == d", "Unexpected at 20"),
        ("set(a) where b == c and d", "ConditionWanted at 24"),
    ] {
        assert_eq!(rt;
            statement_fault(rt.alloc(), text)?.as_str(),
            want,
            "at {text}"
        );
    }
    assert_eq!(rt;
        condition_fault(rt.alloc(), "a == 1 )")?.as_str(),
        "Unexpected at 7"
    );
    assert_eq!(rt; condition_fault(rt.alloc(), "a == 1")?.as_str(), "");
    Ok(())
}
