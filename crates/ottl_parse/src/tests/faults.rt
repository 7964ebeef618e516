//! Faults, their places and their order.

use super::{condition_of, statement_of};
use std::test::Fail;

#[test]
fn each_statement_has_its_first_fault(rt: HostRuntime) -> Result<(), Fail> {
    for (text, want) in [
        ("set(body, 1.5)", "Fraction at 10"),
        ("set(body, \"a", "OpenText at 10"),
        (r#"set(body, "\q")"#, "BadEscape at 11"),
        ("set(body, 0x0)", "BadNumber at 10"),
        ("set(body, 9223372036854775808)", "Wide at 10"),
        ("set(body, -9223372036854775809)", "Wide at 11"),
        ("set(body[9223372036854775808], 1)", "Wide at 9"),
        ("set(body", "Unexpected at 8"),
        ("", "Unexpected at 0"),
        ("set", "Unexpected at 3"),
        ("body", "Unexpected at 4"),
        ("set(body,)", "Unexpected at 9"),
        ("set(body) 1", "Unexpected at 10"),
        ("set(a.B)", "Unexpected at 6"),
        ("set(a[-1])", "Unexpected at 6"),
        ("set(+ a)", "Unexpected at 6"),
        ("set({\"a\" 1})", "Unexpected at 9"),
        ("set(body) where", "Unexpected at 15"),
        ("set(a) where a == b == c", "Unexpected at 20"),
        ("set(a) where a == not b", "Unexpected at 18"),
        ("set(body, a == b)", "ValueWanted at 10"),
        ("set(a, [1, not b])", "ValueWanted at 11"),
        ("set(a, f((a or b)))", "ValueWanted at 10"),
        ("set(body, 1) where 1", "ConditionWanted at 19"),
        ("set(a) where (b)", "ConditionWanted at 14"),
        ("set(a) where (1 + 2) * 3", "ConditionWanted at 13"),
        ("set(a) where f() or F()", "ConditionWanted at 13"),
        ("set(a == b) where 1", "ValueWanted at 4"),
        // A fault of the tokens first, then one of the grammar, then one of the places.
        ("set(a == b, 1.5", "Fraction at 12"),
        ("set(a == b", "Unexpected at 10"),
        ("set(a == b, 9223372036854775808)", "Wide at 12"),
        ("9223372036854775808", "Unexpected at 0"),
    ] {
        assert_eq!(rt; statement_of(rt.alloc(), text)?.as_str(), want, "at {text}");
    }
    Ok(())
}

#[test]
fn each_condition_has_its_first_fault(rt: HostRuntime) -> Result<(), Fail> {
    for (text, want) in [
        ("true", "condition"),
        ("F(1) and false", "condition"),
        ("not not (a == b)", "condition"),
        ("not IsMatch(a, \"b\") or a[0] < 1", "condition"),
        ("nil", "ConditionWanted at 0"),
        ("f(1)", "ConditionWanted at 0"),
        ("NAME", "ConditionWanted at 0"),
        ("not a", "ConditionWanted at 4"),
        ("a == b where c", "Unexpected at 7"),
        ("(a == b) == c", "ValueWanted at 1"),
        ("", "Unexpected at 0"),
    ] {
        assert_eq!(rt; condition_of(rt.alloc(), text)?.as_str(), want, "at {text}");
    }
    Ok(())
}
