//! Parsed statements and faults, by tables; printed texts are those that are parsed.

mod faults;
mod limits;
mod printed;

use crate::{parse_condition, parse_statement, print_statement};
use ottl_lex::{MAX_TEXT, SyntaxStop};
use std::alloc::{AllocError, Global};
use std::test::Fail;

// The statement of a text as it is printed, or the fault.
fn statement_of(alloc: Global, text: &str) -> Result<String, Fail> {
    if MAX_TEXT < text.len() {
        return Err(AllocError.into());
    }
    match parse_statement(alloc, text) {
        Ok(statement) => {
            let text = print_statement(alloc, &statement)?;
            Ok(String::from_str(alloc, text.as_str())?)
        }
        Err(SyntaxStop::Fault(fault)) => Ok(format!(in alloc; "{fault}")?),
        Err(SyntaxStop::NoMemory) => Err(AllocError.into()),
    }
}

// Whether a text is a condition, or the fault.
fn condition_of(alloc: Global, text: &str) -> Result<String, Fail> {
    if MAX_TEXT < text.len() {
        return Err(AllocError.into());
    }
    match parse_condition(alloc, text) {
        Ok(_) => Ok(String::from_str(alloc, "condition")?),
        Err(SyntaxStop::Fault(fault)) => Ok(format!(in alloc; "{fault}")?),
        Err(SyntaxStop::NoMemory) => Err(AllocError.into()),
    }
}
