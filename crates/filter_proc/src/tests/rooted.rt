//! Conditions on the log records of a root of a forest, with another root beside it that shares its
//! tree.

use super::{PROPAGATE, settings, tree, tree_text};
use crate::{FilterCursor, advance};
use conf_json::{FilterSettings, NoteBook, StepEnd};
use ottl_eval::KeptMatchers;
use share_cow::{Forest, Root};
use std::alloc::{AllocError, Global};
use std::test::Fail;

fn shared(forest: &mut Forest, root: &Root) -> Result<Root, AllocError> {
    if forest.spare() == 0 || !forest.holds(root) {
        return Err(AllocError);
    }
    Ok(forest.share(root))
}

fn text_of(alloc: Global, forest: &Forest, root: &Root) -> Result<String, AllocError> {
    if !forest.holds(root) {
        return Err(AllocError);
    }
    let tree = forest.view(root).copy()?;
    tree_text(alloc, &tree)
}

// Whether a run finished, and how many steps it did.
fn run(
    alloc: Global,
    settings: &FilterSettings,
    forest: &mut Forest,
    root: &Root,
) -> Result<(bool, u64), AllocError> {
    if !forest.holds(root) {
        return Err(AllocError);
    }
    let mut cursor = FilterCursor::begin();
    let mut matchers = KeptMatchers::new(alloc);
    let mut book = NoteBook::new();
    let end = advance(
        alloc,
        settings,
        forest,
        root,
        &mut cursor,
        &mut matchers,
        &mut book,
    );
    Ok((matches!(end, StepEnd::Finished), cursor.steps()))
}

// The trees of two roots, the first of which was filtered, and how many nodes were made.
fn both(alloc: Global, conditions: &[&str]) -> Result<String, Fail> {
    let settings = settings(alloc, PROPAGATE, conditions)?;
    let mut forest = Forest::new(alloc, 2)?;
    let root = forest.plant(tree(alloc, &["no"], &["hi", "no"])?)?;
    let other = shared(&mut forest, &root)?;
    let (is_finished, steps) = run(alloc, &settings, &mut forest, &root)?;
    let text = text_of(alloc, &forest, &root)?;
    let beside = text_of(alloc, &forest, &other)?;
    Ok(format!(in alloc;
        "{} {} {}: {} beside {}",
        is_finished,
        steps,
        forest.made(),
        text.as_str(),
        beside.as_str()
    )?)
}

// The tree of a root beside which none shares it, filtered, and how many nodes were made.
fn alone(alloc: Global, conditions: &[&str]) -> Result<String, Fail> {
    let settings = settings(alloc, PROPAGATE, conditions)?;
    let mut forest = Forest::new(alloc, 1)?;
    let root = forest.plant(tree(alloc, &["no"], &["hi", "no"])?)?;
    let (is_finished, steps) = run(alloc, &settings, &mut forest, &root)?;
    let text = text_of(alloc, &forest, &root)?;
    Ok(format!(in alloc;
        "{} {} {}: {}",
        is_finished,
        steps,
        forest.made(),
        text.as_str()
    )?)
}

#[test]
fn a_run_makes_no_log_record_and_leaves_other_roots(rt: HostRuntime) -> Result<(), Fail> {
    let text = both(rt.alloc(), &[r#"body == "no""#])?;
    assert_eq!(rt;
        text.as_str(),
        "true 4 13: ([ hi ]) beside ([ ][ ])([ no ][ hi no ])"
    );
    Ok(())
}

#[test]
fn a_run_that_fails_keeps_the_tree(rt: HostRuntime) -> Result<(), Fail> {
    let text = both(rt.alloc(), &[r#"body == "no""#, "1 / 0 == 1"])?;
    assert_eq!(rt;
        text.as_str(),
        "false 2 10: ([ ][ ])([ no ][ hi no ]) beside ([ ][ ])([ no ][ hi no ])"
    );
    Ok(())
}

#[test]
fn a_run_alone_makes_no_log_record(rt: HostRuntime) -> Result<(), Fail> {
    let text = alone(rt.alloc(), &[r#"body == "no""#])?;
    assert_eq!(rt; text.as_str(), "true 4 13: ([ hi ])");
    Ok(())
}
