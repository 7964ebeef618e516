//! A group of context `log` on a root of a forest, with another root beside it where it is shared.

use super::runs::{group, tree, tree_text};
use crate::{TransformCursor, advance};
use conf_json::{ErrorMode, NoteBook, StepEnd, TransformSettings};
use item_list::ItemList;
use ottl_eval::KeptMatchers;
use pdata_tree::Context;
use share_cow::{Forest, Root};
use std::alloc::{AllocError, Global};
use std::test::Fail;

fn settings(alloc: Global, statements: &[&str]) -> Result<TransformSettings, Fail> {
    let conditions = [r#"body == "hi""#];
    let mut log_statements = ItemList::new(alloc);
    log_statements.push(group(alloc, Context::Log, &conditions, statements)?)?;
    Ok(TransformSettings {
        error_mode: ErrorMode::Propagate,
        log_statements,
    })
}

fn shared(forest: &mut Forest, root: &Root) -> Result<Root, AllocError> {
    if forest.spare() == 0 || !forest.holds(root) {
        return Err(AllocError);
    }
    Ok(forest.share(root))
}

fn text_of(alloc: Global, forest: &Forest, root: &Root) -> Result<String, AllocError> {
    if !forest.holds(root) {
        return Err(AllocError);
    }
    let tree = forest.view(root).copy()?;
    tree_text(alloc, &tree)
}

// How a run ends, and how many steps it did.
fn run(
    alloc: Global,
    settings: &TransformSettings,
    forest: &mut Forest,
    root: &Root,
) -> Result<(bool, u64), AllocError> {
    if !forest.holds(root) {
        return Err(AllocError);
    }
    let mut cursor = TransformCursor::begin();
    let mut matchers = KeptMatchers::new(alloc);
    let mut book = NoteBook::new();
    let end = advance(
        alloc,
        settings,
        forest,
        root,
        &mut cursor,
        &mut matchers,
        &mut book,
    );
    Ok((matches!(end, StepEnd::Finished), cursor.steps()))
}

// The trees of two roots, of which a run wrote to the first, and how many nodes were made.
fn both(alloc: Global, statements: &[&str]) -> Result<String, Fail> {
    let settings = settings(alloc, statements)?;
    let mut forest = Forest::new(alloc, 2)?;
    let root = forest.plant(tree(alloc, 2)?)?;
    let other = shared(&mut forest, &root)?;
    let (is_finished, steps) = run(alloc, &settings, &mut forest, &root)?;
    let text = text_of(alloc, &forest, &root)?;
    let beside = text_of(alloc, &forest, &other)?;
    Ok(format!(in alloc;
        "{} {} {}: {} beside {}",
        is_finished,
        steps,
        forest.made(),
        text.as_str(),
        beside.as_str()
    )?)
}

// The tree of a root beside which none shares it, written to by a run, and how many nodes were
// made.
fn alone(alloc: Global, statements: &[&str]) -> Result<String, Fail> {
    let settings = settings(alloc, statements)?;
    let mut forest = Forest::new(alloc, 1)?;
    let root = forest.plant(tree(alloc, 2)?)?;
    let (is_finished, steps) = run(alloc, &settings, &mut forest, &root)?;
    let text = text_of(alloc, &forest, &root)?;
    Ok(format!(in alloc;
        "{} {} {}: {}",
        is_finished,
        steps,
        forest.made(),
        text.as_str()
    )?)
}

#[test]
fn a_run_makes_what_it_writes_and_leaves_other_roots(rt: HostRuntime) -> Result<(), Fail> {
    let alloc = rt.alloc();
    let writes = [
        r#"set(attributes["a"], 1)"#,
        r#"set(attributes["b"], attributes["a"] + 1)"#,
    ];
    let text = both(alloc, &writes)?;
    assert_eq!(rt;
        text.as_str(),
        "true 6 10: [ a=1 b=2 ][ a=1 b=2 ] beside [ ][ ]"
    );
    Ok(())
}

#[test]
fn a_run_that_fails_keeps_the_steps_before(rt: HostRuntime) -> Result<(), Fail> {
    let alloc = rt.alloc();
    let writes = [
        r#"set(attributes["a"], 1)"#,
        r#"set(attributes["b"], 1 / 0)"#,
    ];
    let text = both(alloc, &writes)?;
    assert_eq!(rt; text.as_str(), "false 3 9: [ a=1 ][ ] beside [ ][ ]");
    Ok(())
}

#[test]
fn a_run_alone_makes_nothing(rt: HostRuntime) -> Result<(), Fail> {
    let text = alone(rt.alloc(), &[r#"set(attributes["a"], 1)"#])?;
    assert_eq!(rt; text.as_str(), "true 4 5: [ a=1 ][ a=1 ]");
    Ok(())
}
