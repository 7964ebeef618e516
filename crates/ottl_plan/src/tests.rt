//! Planned statements and faults, by tables of statements' texts.

mod calls;
mod paths;

use crate::{PlanStop, plan_condition, plan_statement};
use func_text::RegexMaker;
use ottl_lex::MAX_TEXT;
use ottl_parse::{Condition, Statement, parse_condition, parse_statement};
use pdata_tree::Context;
use std::alloc::{AllocError, Global};
use std::test::Fail;

fn parsed(alloc: Global, text: &str) -> Result<Statement, Fail> {
    if MAX_TEXT < text.len() {
        return Err(AllocError.into());
    }
    match parse_statement(alloc, text) {
        Ok(statement) => Ok(statement),
        Err(_) => Err(Fail::from("no statement")),
    }
}

fn parsed_condition(alloc: Global, text: &str) -> Result<Condition, Fail> {
    if MAX_TEXT < text.len() {
        return Err(AllocError.into());
    }
    match parse_condition(alloc, text) {
        Ok(condition) => Ok(condition),
        Err(_) => Err(Fail::from("no condition")),
    }
}

fn note(alloc: Global, stop: Option<PlanStop>) -> Result<String, Fail> {
    match stop {
        None => Ok(String::from_str(alloc, "planned")?),
        Some(PlanStop::Fault(fault)) => Ok(format!(in alloc; "{fault}")?),
        Some(PlanStop::NoMemory) => Err(AllocError.into()),
    }
}

// Whether a statement is planned in a context, or its fault.
fn planned(alloc: Global, text: &str, context: Context) -> Result<String, Fail> {
    let statement = parsed(alloc, text)?;
    let plan = plan_statement(alloc, &mut RegexMaker::new(), &statement, context);
    note(alloc, plan.err())
}

// Whether a condition is planned in a context, or its fault.
fn condition(alloc: Global, text: &str, context: Context) -> Result<String, Fail> {
    let condition = parsed_condition(alloc, text)?;
    let plan = plan_condition(alloc, &mut RegexMaker::new(), &condition, context);
    note(alloc, plan.err())
}
