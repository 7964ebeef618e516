//! Tokens, faults and contents, by tables.

use crate::{MAX_TEXT, SyntaxStop, lex, read_digits, read_literal, read_text};
use std::alloc::{AllocError, Global};
use std::fmt::Write;
use std::test::Fail;

// The tokens of a text, each with its kind, or the fault.
fn printed(alloc: Global, text: &str) -> Result<String, Fail> {
    if MAX_TEXT < text.len() {
        return Err(AllocError.into());
    }
    let tokens = match lex(alloc, text) {
        Ok(tokens) => tokens,
        Err(SyntaxStop::Fault(fault)) => return Ok(format!(in alloc; "{fault}")?),
        Err(SyntaxStop::NoMemory) => return Err(AllocError.into()),
    };
    let mut out = String::new(alloc);
    for token in tokens.as_slice() {
        let kind = token.kind;
        let slice = std::str::from_utf8(token.slice(text))?;
        if !out.is_empty() {
            out.push(' ')?;
        }
        write!(out, "{kind:?}:{slice}")?;
    }
    Ok(out)
}

#[test]
fn each_text_has_its_tokens(rt: HostRuntime) -> Result<(), Fail> {
    for (text, want) in [
        ("", ""),
        (" \t\r\n ", ""),
        (
            " set(body, 1)",
            "Lower:set Sign:( Lower:body Sign:, Digits:1 Sign:)",
        ),
        (
            "where wheres nil_ nil",
            "Word:where Lower:wheres Lower:nil_ Word:nil",
        ),
        (
            "and or not true false",
            "Word:and Word:or Word:not Word:true Word:false",
        ),
        ("Is_MatcH0 aB", "Upper:Is_MatcH0 Lower:a Upper:B"),
        (
            "<= >= == !=<>",
            "Sign:<= Sign:>= Sign:== Sign:!= Sign:< Sign:>",
        ),
        (
            "()[]{},.:+-*/",
            "Sign:( Sign:) Sign:[ Sign:] Sign:{ Sign:} Sign:, Sign:. Sign:: Sign:+ Sign:- Sign:* Sign:/",
        ),
        ("12.", "Digits:12 Sign:."),
        ("12.a", "Digits:12 Sign:. Lower:a"),
        ("0123 0", "Digits:0123 Digits:0"),
        ("0xAB 0x0aff", "Hex:0xAB Hex:0x0aff"),
        ("0xABg", "Hex:0xAB Lower:g"),
        (r#""" "a\"b"c"#, r#"Quoted:"" Quoted:"a\"b" Lower:c"#),
        (r#""é""#, r#"Quoted:"é""#),
    ] {
        assert_eq!(rt; printed(rt.alloc(), text)?.as_str(), want, "at {text}");
    }
    Ok(())
}

#[test]
fn each_text_has_its_first_fault(rt: HostRuntime) -> Result<(), Fail> {
    for (text, want) in [
        ("set(body, 1.5)", "Fraction at 10"),
        ("set(body, \"a", "OpenText at 10"),
        (r#"set(body, "\q")"#, "BadEscape at 11"),
        ("set(body, 0x0)", "BadNumber at 10"),
        ("1a", "BadNumber at 0"),
        ("1_", "BadNumber at 0"),
        ("0x", "BadNumber at 0"),
        ("0xA", "BadNumber at 0"),
        ("0xABC", "BadNumber at 0"),
        ("\"a\nb\"", "OpenText at 0"),
        ("\"\\\n\"", "OpenText at 0"),
        ("a \"\\", "OpenText at 2"),
        (r#""\q"#, "OpenText at 0"),
        (r#""\ud800""#, "BadEscape at 1"),
        (r#""\U00110000""#, "BadEscape at 1"),
        (r#""\400""#, "BadEscape at 1"),
        (r#""\47""#, "BadEscape at 1"),
        (r#""\xff\q""#, "BadEscape at 5"),
        (r#"a "\xff""#, "NotUtf8 at 2"),
        ("=", "BadChar at 0"),
        ("< =", "BadChar at 2"),
        ("a ! b", "BadChar at 2"),
        ("_", "BadChar at 0"),
        ("1é", "BadChar at 1"),
    ] {
        assert_eq!(rt; printed(rt.alloc(), text)?.as_str(), want, "at {text}");
    }
    Ok(())
}

#[test]
fn escapes_stand_for_their_bytes(rt: HostRuntime) -> Result<(), Fail> {
    for (text, want) in [
        (r#""""#, ""),
        (r#""aé b""#, "aé b"),
        (r#""\a\b\f\n\r\t\v\\\"""#, "\x07\x08\x0c\n\r\t\x0b\\\""),
        (r#""\x41\101\u00e9\U0001F600.""#, "AAé😀."),
        (r#""\xc3\xA9\303\251""#, "éé"),
    ] {
        if MAX_TEXT < text.len() {
            return Err(AllocError.into());
        }
        assert_eq!(rt;
            read_text(rt.alloc(), text.as_bytes(), 0)?.as_str(),
            want,
            "at {text}"
        );
    }
    Ok(())
}

#[test]
fn numbers_and_literals_are_read(rt: HostRuntime) -> Result<(), Fail> {
    for (text, want) in [
        ("0", Some(0)),
        ("007", Some(7)),
        ("9223372036854775808", Some(9_223_372_036_854_775_808)),
        ("18446744073709551615", Some(u64::MAX)),
        ("18446744073709551616", None),
    ] {
        assert_eq!(rt; read_digits(text.as_bytes()), want, "at {text}");
    }
    let bytes = read_literal(rt.alloc(), b"0x00aF")?;
    assert_eq!(rt; bytes.as_slice(), [0, 0xaf].as_slice());
    Ok(())
}
