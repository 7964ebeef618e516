//! Settings from texts, a tree, and what came of them as a text.

use crate::apply_plain;
use conf_json::{ErrorMode, Group, Note, NoteBook, PlainStop, TransformSettings};
use func_text::RegexMaker;
use item_list::ItemList;
use ottl_eval::KeptMatchers;
use ottl_lex::MAX_TEXT;
use ottl_parse::{Condition, Statement, parse_condition, parse_statement};
use ottl_plan::{PlannedCondition, PlannedStatement, plan_condition, plan_statement};
use pdata_tree::{Batch, Context, LogRecord, ResourceNode, ResourceTree, ScopeNode, ScopeTree};
use pdata_value::{Pairs, Spelling, Text, Value};
use std::alloc::{AllocError, Global};
use std::test::Fail;

fn log(alloc: Global) -> Result<LogRecord, Fail> {
    let mut attributes = Pairs::new(alloc);
    attributes.put("d", Value::Double(Spelling::read(alloc, "2.50")?))?;
    Ok(LogRecord {
        time: 0,
        observed: 0,
        severity: 0,
        severity_text: Text::new(alloc),
        body: Value::Text(Text::from_str(alloc, "hi")?),
        attributes,
        dropped: 0,
        flags: 0,
        trace_id: [0; 16],
        span_id: [0; 8],
    })
}

fn scope(alloc: Global, count: usize) -> Result<ScopeTree, Fail> {
    let node = ScopeNode {
        name: Text::new(alloc),
        version: Text::new(alloc),
        attributes: Pairs::new(alloc),
        dropped: 0,
        schema_url: Text::new(alloc),
    };
    let mut logs = ItemList::new(alloc);
    for _ in 0..count {
        logs.push(log(alloc)?)?;
    }
    Ok(ScopeTree { node, logs })
}

/// A tree with one scope of so many log records.
pub(crate) fn tree(alloc: Global, count: usize) -> Result<Batch, Fail> {
    let node = ResourceNode {
        attributes: Pairs::new(alloc),
        dropped: 0,
        schema_url: Text::new(alloc),
    };
    let mut scopes = ItemList::new(alloc);
    scopes.push(scope(alloc, count)?)?;
    let mut resources = ItemList::new(alloc);
    resources.push(ResourceTree { node, scopes })?;
    Ok(Batch { resources })
}

fn parsed_statement(alloc: Global, text: &str) -> Result<Statement, Fail> {
    if MAX_TEXT < text.len() {
        return Err(Fail::from("too long"));
    }
    match parse_statement(alloc, text) {
        Ok(statement) => Ok(statement),
        Err(_) => Err(Fail::from("not parsed")),
    }
}

fn parsed_condition(alloc: Global, text: &str) -> Result<Condition, Fail> {
    if MAX_TEXT < text.len() {
        return Err(Fail::from("too long"));
    }
    match parse_condition(alloc, text) {
        Ok(condition) => Ok(condition),
        Err(_) => Err(Fail::from("not parsed")),
    }
}

fn statement(alloc: Global, text: &str, context: Context) -> Result<PlannedStatement, Fail> {
    let statement = parsed_statement(alloc, text)?;
    match plan_statement(alloc, &mut RegexMaker::new(), &statement, context) {
        Ok(planned) => Ok(planned),
        Err(_) => Err(Fail::from("not planned")),
    }
}

fn condition(alloc: Global, text: &str, context: Context) -> Result<PlannedCondition, Fail> {
    let condition = parsed_condition(alloc, text)?;
    match plan_condition(alloc, &mut RegexMaker::new(), &condition, context) {
        Ok(planned) => Ok(planned),
        Err(_) => Err(Fail::from("not planned")),
    }
}

/// A group of the texts of conditions and statements.
pub(crate) fn group(
    alloc: Global,
    context: Context,
    conditions: &[&str],
    statements: &[&str],
) -> Result<Group, Fail> {
    let mut judged = ItemList::new(alloc);
    for text in conditions {
        judged.push(condition(alloc, text, context)?)?;
    }
    let mut run = ItemList::new(alloc);
    for text in statements {
        run.push(statement(alloc, text, context)?)?;
    }
    Ok(Group {
        context,
        conditions: judged,
        statements: run,
    })
}

fn value_text(alloc: Global, value: &Value) -> Result<String, AllocError> {
    match value {
        Value::Text(text) => String::from_str(alloc, text.as_str()),
        Value::Int(int) => Ok(format!(in alloc; "{}", *int)?),
        _ => String::from_str(alloc, "?"),
    }
}

// The attributes behind the first, each key before its value.
fn log_text(alloc: Global, log: &LogRecord) -> Result<String, AllocError> {
    let mut text = String::from_str(alloc, "[")?;
    for pair in log.attributes.as_slice() {
        if pair.0.as_str() != "d" {
            text.push_str(" ")?;
            text.push_str(pair.0.as_str())?;
            text.push_str("=")?;
            text.push_str(value_text(alloc, &pair.1)?.as_str())?;
        }
    }
    text.push_str(" ]")?;
    Ok(text)
}

/// The attributes of all log records, but for `d`.
pub(crate) fn tree_text(alloc: Global, tree: &Batch) -> Result<String, AllocError> {
    let mut text = String::new(alloc);
    for resource in tree.resources.as_slice() {
        for scope in resource.scopes.as_slice() {
            for log in scope.logs.as_slice() {
                text.push_str(log_text(alloc, log)?.as_str())?;
            }
        }
    }
    Ok(text)
}

fn note_text(alloc: Global, note: &Note) -> Result<String, AllocError> {
    Ok(format!(in alloc;
        "{:?} {}.{} at {}/{}/{} {}",
        note.part,
        note.group,
        note.index,
        note.place.resource,
        note.place.scope,
        note.place.log,
        note.err
    )?)
}

// How many errors were counted and noted, and the last note.
fn book_text(alloc: Global, book: &NoteBook) -> Result<String, AllocError> {
    let mut text = format!(in alloc; "errors {} notes {}", book.count(), book.notes().len())?;
    if let [.., last] = book.notes() {
        text.push_str(": ")?;
        text.push_str(note_text(alloc, last)?.as_str())?;
    }
    Ok(text)
}

fn end_text(alloc: Global, end: Result<Batch, PlainStop>) -> Result<String, Fail> {
    match end {
        Ok(tree) => Ok(tree_text(alloc, &tree)?),
        Err(PlainStop::Failed(note)) => {
            let mut text = String::from_str(alloc, "failed ")?;
            text.push_str(note_text(alloc, &note)?.as_str())?;
            Ok(text)
        }
        Err(PlainStop::NoMemory) => Err(AllocError.into()),
    }
}

/// Runs groups on so many log records: their attributes but for `d`, or the note of the failure;
/// then the account of errors.
pub(crate) fn run(
    alloc: Global,
    error_mode: ErrorMode,
    log_statements: ItemList<Group>,
    count: usize,
) -> Result<String, Fail> {
    let settings = TransformSettings {
        error_mode,
        log_statements,
    };
    let mut book = NoteBook::new();
    let mut matchers = KeptMatchers::new(alloc);
    let tree = tree(alloc, count)?;
    let end = apply_plain(alloc, &settings, tree, &mut matchers, &mut book);
    let mut text = end_text(alloc, end)?;
    text.push_str("; ")?;
    text.push_str(book_text(alloc, &book)?.as_str())?;
    Ok(text)
}

/// Runs one group of context `log`.
pub(crate) fn run_group(
    alloc: Global,
    error_mode: ErrorMode,
    conditions: &[&str],
    statements: &[&str],
    count: usize,
) -> Result<String, Fail> {
    let mut groups = ItemList::new(alloc);
    groups.push(group(alloc, Context::Log, conditions, statements)?)?;
    run(alloc, error_mode, groups, count)
}
