//! Conditions, from their texts, on log records with a text as their body.

mod rooted;

use crate::apply_plain;
use conf_json::{ErrorMode, FilterSettings, Note, NoteBook, PlainStop};
use func_text::RegexMaker;
use item_list::ItemList;
use ottl_eval::KeptMatchers;
use ottl_lex::MAX_TEXT;
use ottl_parse::{Condition, parse_condition};
use ottl_plan::{PlannedCondition, plan_condition};
use pdata_tree::{Batch, Context, LogRecord, ResourceNode, ResourceTree, ScopeNode, ScopeTree};
use pdata_value::{Pairs, Text, Value};
use std::alloc::{AllocError, Global};
use std::test::Fail;

fn log(alloc: Global, body: &str) -> Result<LogRecord, AllocError> {
    Ok(LogRecord {
        time: 0,
        observed: 0,
        severity: 0,
        severity_text: Text::new(alloc),
        body: Value::Text(Text::from_str(alloc, body)?),
        attributes: Pairs::new(alloc),
        dropped: 0,
        flags: 0,
        trace_id: [0; 16],
        span_id: [0; 8],
    })
}

fn scope(alloc: Global, bodies: &[&str]) -> Result<ScopeTree, AllocError> {
    let node = ScopeNode {
        name: Text::new(alloc),
        version: Text::new(alloc),
        attributes: Pairs::new(alloc),
        dropped: 0,
        schema_url: Text::new(alloc),
    };
    let mut logs = ItemList::new(alloc);
    for body in bodies {
        logs.push(log(alloc, body)?)?;
    }
    Ok(ScopeTree { node, logs })
}

// A resource of two scopes with log records of these bodies.
fn resource(alloc: Global, first: &[&str], second: &[&str]) -> Result<ResourceTree, AllocError> {
    let node = ResourceNode {
        attributes: Pairs::new(alloc),
        dropped: 0,
        schema_url: Text::new(alloc),
    };
    let mut scopes = ItemList::new(alloc);
    scopes.push(scope(alloc, first)?)?;
    scopes.push(scope(alloc, second)?)?;
    Ok(ResourceTree { node, scopes })
}

fn tree(alloc: Global, first: &[&str], second: &[&str]) -> Result<Batch, AllocError> {
    let mut resources = ItemList::new(alloc);
    resources.push(resource(alloc, &[], &[])?)?;
    resources.push(resource(alloc, first, second)?)?;
    Ok(Batch { resources })
}

fn parsed(alloc: Global, text: &str) -> Result<Condition, Fail> {
    if MAX_TEXT < text.len() {
        return Err(Fail::from("too long"));
    }
    match parse_condition(alloc, text) {
        Ok(condition) => Ok(condition),
        Err(_) => Err(Fail::from("not parsed")),
    }
}

fn planned(alloc: Global, text: &str) -> Result<PlannedCondition, Fail> {
    let condition = parsed(alloc, text)?;
    match plan_condition(alloc, &mut RegexMaker::new(), &condition, Context::Log) {
        Ok(planned) => Ok(planned),
        Err(_) => Err(Fail::from("not planned")),
    }
}

fn settings(
    alloc: Global,
    error_mode: ErrorMode,
    conditions: &[&str],
) -> Result<FilterSettings, Fail> {
    let mut log_record = ItemList::new(alloc);
    for text in conditions {
        log_record.push(planned(alloc, text)?)?;
    }
    Ok(FilterSettings {
        error_mode,
        log_record,
    })
}

// The bodies of a tree: a resource in parentheses, a scope in brackets.
fn tree_text(alloc: Global, tree: &Batch) -> Result<String, AllocError> {
    let mut text = String::new(alloc);
    for resource in tree.resources.as_slice() {
        text.push_str("(")?;
        for scope in resource.scopes.as_slice() {
            text.push_str("[")?;
            for log in scope.logs.as_slice() {
                text.push_str(" ")?;
                if let Value::Text(body) = &log.body {
                    text.push_str(body.as_str())?;
                }
            }
            text.push_str(" ]")?;
        }
        text.push_str(")")?;
    }
    Ok(text)
}

fn note_text(alloc: Global, note: &Note) -> Result<String, AllocError> {
    Ok(format!(in alloc;
        "{:?} {} at {}/{}/{} {}",
        note.part, note.index, note.place.resource, note.place.scope, note.place.log, note.err
    )?)
}

fn end_text(alloc: Global, end: Result<Batch, PlainStop>) -> Result<String, Fail> {
    match end {
        Ok(tree) => Ok(tree_text(alloc, &tree)?),
        Err(PlainStop::Failed(note)) => {
            let mut text = String::from_str(alloc, "failed ")?;
            text.push_str(note_text(alloc, &note)?.as_str())?;
            Ok(text)
        }
        Err(PlainStop::NoMemory) => Err(AllocError.into()),
    }
}

// How many errors were counted, and the last note.
fn book_text(alloc: Global, book: &NoteBook) -> Result<String, AllocError> {
    let mut text = format!(in alloc; "errors {}", book.count())?;
    if let [.., last] = book.notes() {
        text.push_str(": ")?;
        text.push_str(note_text(alloc, last)?.as_str())?;
    }
    Ok(text)
}

// Filters a tree of an empty resource and one with two scopes: what is kept, or the note of the
// failure; then the account of errors.
fn run(
    alloc: Global,
    error_mode: ErrorMode,
    conditions: &[&str],
    first: &[&str],
    second: &[&str],
) -> Result<String, Fail> {
    let settings = settings(alloc, error_mode, conditions)?;
    let mut book = NoteBook::new();
    let mut matchers = KeptMatchers::new(alloc);
    let tree = tree(alloc, first, second)?;
    let end = apply_plain(alloc, &settings, tree, &mut matchers, &mut book);
    let mut text = end_text(alloc, end)?;
    text.push_str("; ")?;
    text.push_str(book_text(alloc, &book)?.as_str())?;
    Ok(text)
}

const PROPAGATE: ErrorMode = ErrorMode::Propagate;

#[test]
fn log_records_on_which_a_condition_holds_go(rt: HostRuntime) -> Result<(), Fail> {
    let alloc = rt.alloc();
    let no = [r#"body == "no""#];
    let text = run(alloc, PROPAGATE, &no, &["no"], &["hi", "no"])?;
    assert_eq!(rt; text.as_str(), "([ hi ]); errors 0");
    let text = run(alloc, PROPAGATE, &no, &["no"], &[])?;
    assert_eq!(rt; text.as_str(), "; errors 0");
    Ok(())
}

#[test]
fn one_condition_of_several_is_enough(rt: HostRuntime) -> Result<(), Fail> {
    let alloc = rt.alloc();
    let several = [r#"body == "no""#, r#"body == "hi""#];
    let text = run(alloc, PROPAGATE, &several, &["no", "a"], &["hi", "b"])?;
    assert_eq!(rt; text.as_str(), "([ a ][ b ]); errors 0");
    Ok(())
}

#[test]
fn without_conditions_empty_scopes_and_resources_go(rt: HostRuntime) -> Result<(), Fail> {
    let text = run(rt.alloc(), PROPAGATE, &[], &[], &["hi"])?;
    assert_eq!(rt; text.as_str(), "([ hi ]); errors 0");
    Ok(())
}

// A condition that errs, before one that holds on `no`.
fn run_erring(alloc: Global, error_mode: ErrorMode) -> Result<String, Fail> {
    let conditions = ["1 / 0 == 1", r#"body == "no""#];
    run(alloc, error_mode, &conditions, &["hi"], &["no"])
}

#[test]
fn a_condition_that_errs_is_false_where_the_work_goes_on(rt: HostRuntime) -> Result<(), Fail> {
    let alloc = rt.alloc();
    let text = run_erring(alloc, ErrorMode::Ignore)?;
    assert_eq!(rt;
        text.as_str(),
        "([ hi ]); errors 2: FilterCondition 0 at 1/1/0 DivideByZero"
    );
    let text = run_erring(alloc, ErrorMode::Silent)?;
    assert_eq!(rt; text.as_str(), "([ hi ]); errors 0");
    let text = run_erring(alloc, PROPAGATE)?;
    assert_eq!(rt;
        text.as_str(),
        "failed FilterCondition 0 at 1/0/0 DivideByZero; errors 0"
    );
    Ok(())
}
