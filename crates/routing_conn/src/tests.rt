//! Small trees are routed, and shown as text.

mod rooted;

use crate::{PlainRouted, apply_plain};
use conf_json::{Action, ErrorMode, NoteBook, PlainStop, RouteRow, RouteSettings};
use item_list::ItemList;
use ottl_eval::KeptMatchers;
use ottl_plan::{PlannedCondition, PlannedExpr};
use pdata_tree::{
    Batch, Context, Field, Key, LogRecord, PathTo, ResourceNode, ResourceTree, ScopeNode, ScopeTree,
};
use pdata_value::{Pairs, Text, Value};
use std::alloc::{AllocError, Global};
use std::test::Fail;

// The condition that the attribute with this key is true; where it isn't there, the condition errs.
fn is_true(alloc: Global, context: Context, key: &str) -> Result<PlannedCondition, AllocError> {
    let mut keys = ItemList::new(alloc);
    keys.push(Key::Name(Text::from_str(alloc, key)?))?;
    let expr = PlannedExpr::Path(PathTo {
        field: Field::Attributes,
        keys,
    });
    Ok(PlannedCondition { context, expr })
}

fn row(alloc: Global, action: Action, context: Context, key: &str) -> Result<RouteRow, AllocError> {
    Ok(RouteRow {
        context,
        condition: is_true(alloc, context, key)?,
        pipelines: ItemList::new(alloc),
        action,
    })
}

// Whether the name has the letters a and b, as attributes. The record named `none` has none.
fn letters(alloc: Global, name: &str) -> Result<Pairs, AllocError> {
    let mut attributes = Pairs::new(alloc);
    if name != "none" {
        attributes.put("a", Value::Truth(name == "a" || name == "ab"))?;
        attributes.put("b", Value::Truth(name == "b" || name == "ab"))?;
    }
    Ok(attributes)
}

fn log(alloc: Global, name: &str) -> Result<LogRecord, AllocError> {
    Ok(LogRecord {
        time: 0,
        observed: 0,
        severity: 0,
        severity_text: Text::from_str(alloc, name)?,
        body: Value::Empty,
        attributes: letters(alloc, name)?,
        dropped: 0,
        flags: 0,
        trace_id: [0; 16],
        span_id: [0; 8],
    })
}

fn scope(alloc: Global, names: &[&str]) -> Result<ScopeTree, AllocError> {
    let node = ScopeNode {
        name: Text::new(alloc),
        version: Text::new(alloc),
        attributes: Pairs::new(alloc),
        dropped: 0,
        schema_url: Text::new(alloc),
    };
    let mut logs = ItemList::new(alloc);
    for name in names {
        logs.push(log(alloc, name)?)?;
    }
    Ok(ScopeTree { node, logs })
}

// A resource without scopes.
fn bare(alloc: Global, name: &str) -> Result<ResourceTree, AllocError> {
    let node = ResourceNode {
        attributes: letters(alloc, name)?,
        dropped: 0,
        schema_url: Text::from_str(alloc, name)?,
    };
    let scopes = ItemList::new(alloc);
    Ok(ResourceTree { node, scopes })
}

// A resource with one scope.
fn resource(alloc: Global, name: &str, names: &[&str]) -> Result<ResourceTree, AllocError> {
    let mut resource = bare(alloc, name)?;
    resource.scopes.push(scope(alloc, names)?)?;
    Ok(resource)
}

// A resource is shown by its name, a scope in brackets, with the names of its log records.
fn show(text: &mut String, batch: &Batch) -> Result<(), AllocError> {
    for resource in batch.resources.as_slice() {
        text.push_str(resource.node.schema_url.as_str())?;
        for scope in resource.scopes.as_slice() {
            text.push('[')?;
            for log in scope.logs.as_slice() {
                text.push_str(log.severity_text.as_str())?;
                text.push(' ')?;
            }
            text.push(']')?;
        }
        text.push(' ')?;
    }
    Ok(())
}

fn shown(alloc: Global, routed: &PlainRouted) -> Result<String, AllocError> {
    let mut text = String::new(alloc);
    for tree in routed.rows.as_slice() {
        show(&mut text, tree)?;
        text.push('|')?;
    }
    show(&mut text, &routed.rest)?;
    Ok(text)
}

// The trees of the rows and the rest, each behind a bar, and the number of errors; or the note.
fn route(
    alloc: Global,
    error_mode: ErrorMode,
    table: ItemList<RouteRow>,
    resources: ItemList<ResourceTree>,
) -> Result<String, Fail> {
    let settings = RouteSettings {
        error_mode,
        table,
        default_pipelines: ItemList::new(alloc),
    };
    let mut book = NoteBook::new();
    let mut matchers = KeptMatchers::new(alloc);
    let tree = Batch { resources };
    let text = match apply_plain(alloc, &settings, tree, &mut matchers, &mut book) {
        Ok(routed) => shown(alloc, &routed)?,
        Err(PlainStop::Failed(note)) => {
            format!(in alloc; "row {} log {} ", note.index, note.place.log)?
        }
        Err(PlainStop::NoMemory) => return Err(AllocError.into()),
    };
    Ok(format!(in alloc; "{}errors {}", text, book.count())?)
}

#[test]
fn a_row_that_copies_leaves_what_it_matched_and_one_that_moves_does_not(
    rt: HostRuntime,
) -> Result<(), Fail> {
    let alloc = rt.alloc();
    let mut table = ItemList::new(alloc);
    table.push(row(alloc, Action::Copy, Context::Log, "a")?)?;
    table.push(row(alloc, Action::Move, Context::Log, "b")?)?;
    let mut tree = ItemList::new(alloc);
    tree.push(resource(alloc, "r", &["ab", "a", "b", "c"])?)?;
    let text = route(alloc, ErrorMode::Propagate, table, tree)?;
    assert_eq!(rt; text.as_str(), "r[ab a ] |r[ab b ] |r[a c ] errors 0");
    Ok(())
}

#[test]
fn a_row_that_copies_resources_gives_them_whole(rt: HostRuntime) -> Result<(), Fail> {
    let alloc = rt.alloc();
    let mut table = ItemList::new(alloc);
    table.push(row(alloc, Action::Copy, Context::Resource, "a")?)?;
    let mut tree = ItemList::new(alloc);
    tree.push(bare(alloc, "a")?)?;
    tree.push(resource(alloc, "b", &["c"])?)?;
    let text = route(alloc, ErrorMode::Propagate, table, tree)?;
    assert_eq!(rt; text.as_str(), "a |a b[c ] errors 0");
    Ok(())
}

#[test]
fn a_row_that_moves_nothing_removes_what_is_empty(rt: HostRuntime) -> Result<(), Fail> {
    let alloc = rt.alloc();
    let mut table = ItemList::new(alloc);
    table.push(row(alloc, Action::Move, Context::Log, "b")?)?;
    let mut tree = ItemList::new(alloc);
    tree.push(bare(alloc, "r")?)?;
    tree.push(resource(alloc, "s", &[])?)?;
    tree.push(resource(alloc, "t", &["a"])?)?;
    let text = route(alloc, ErrorMode::Propagate, table, tree)?;
    assert_eq!(rt; text.as_str(), "|t[a ] errors 0");
    Ok(())
}

// The second row errs on the second of two log records.
fn erring(alloc: Global, mode: ErrorMode) -> Result<String, Fail> {
    let mut table = ItemList::new(alloc);
    table.push(row(alloc, Action::Copy, Context::Resource, "a")?)?;
    table.push(row(alloc, Action::Move, Context::Log, "b")?)?;
    let mut tree = ItemList::new(alloc);
    tree.push(resource(alloc, "r", &["b", "none"])?)?;
    route(alloc, mode, table, tree)
}

#[test]
fn an_error_counts_as_false_and_is_counted(rt: HostRuntime) -> Result<(), Fail> {
    let text = erring(rt.alloc(), ErrorMode::Ignore)?;
    assert_eq!(rt; text.as_str(), "|r[b ] |r[none ] errors 1");
    Ok(())
}

#[test]
fn a_silent_error_counts_as_false(rt: HostRuntime) -> Result<(), Fail> {
    let text = erring(rt.alloc(), ErrorMode::Silent)?;
    assert_eq!(rt; text.as_str(), "|r[b ] |r[none ] errors 0");
    Ok(())
}

#[test]
fn an_error_ends_the_work_under_propagate(rt: HostRuntime) -> Result<(), Fail> {
    let text = erring(rt.alloc(), ErrorMode::Propagate)?;
    assert_eq!(rt; text.as_str(), "row 1 log 1 errors 0");
    Ok(())
}
