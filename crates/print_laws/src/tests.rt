//! The law beside literals that are printed and read.

use crate::printed_literals_are_read;
use ottl_lex::{MAX_TEXT, SyntaxStop};
use ottl_parse::{parse_statement, print_statement};
use std::alloc::{AllocError, Global};
use std::test::Fail;

// What the statement of a text is printed as.
fn printed(alloc: Global, text: &str) -> Result<String, Fail> {
    if MAX_TEXT < text.len() {
        return Err(AllocError.into());
    }
    match parse_statement(alloc, text) {
        Ok(statement) => {
            let text = print_statement(alloc, &statement)?;
            Ok(String::from_str(alloc, text.as_str())?)
        }
        Err(SyntaxStop::Fault(fault)) => Ok(format!(in alloc; "{fault}")?),
        Err(SyntaxStop::NoMemory) => Err(AllocError.into()),
    }
}

#[test]
fn a_printed_literal_is_printed_again_as_it_stands(rt: HostRuntime) -> Result<(), Fail> {
    printed_literals_are_read();
    for (text, want) in [
        (r#"f("\x61\n\x01é")"#, r#"f("a\n\x01é")"#),
        (r#"f("\"\\\r\t")"#, r#"f("\"\\\r\t")"#),
        ("f(007, 9223372036854775807)", "f(7, 9223372036854775807)"),
        ("f(0xAB, 0x00ff)", "f(0xab, 0x00ff)"),
        (r#"f(a["k"][012])"#, r#"f(a["k"][12])"#),
    ] {
        let first = printed(rt.alloc(), text)?;
        assert_eq!(rt; first.as_str(), want, "at {text}");
        let second = printed(rt.alloc(), first.as_str())?;
        assert_eq!(rt; second.as_str(), want, "at {text}");
    }
    Ok(())
}
