//! The tree of a root is routed in its forest, alone or with another root beside it that shares it.

ghost use Rattle.std.specs.Prelude.{◌<◌, length};
ghost use Rattle.share_cow.specs.Store.{IsLiveRoot, spare};

use super::{bare, resource, row, show};
use crate::{RouteStop, Routed, apply, give_up};
use conf_json::{Action, ErrorMode, NoteBook, RouteSettings};
use item_list::ItemList;
use ottl_eval::KeptMatchers;
use pdata_tree::{Batch, Context};
use share_cow::{Forest, Root, Roots};
use std::alloc::{AllocError, Global};
use std::test::Fail;

// A resource with three log records, one without scopes, and one with a log record: ten nodes.
fn tree(alloc: Global, third: &str) -> Result<Batch, AllocError> {
    let mut resources = ItemList::new(alloc);
    resources.push(resource(alloc, "r", &["ab", "a", third])?)?;
    resources.push(bare(alloc, "a")?)?;
    resources.push(resource(alloc, "b", &["b"])?)?;
    Ok(Batch { resources })
}

// A row that copies resources, one that moves log records, and one that copies them.
fn settings(alloc: Global, error_mode: ErrorMode) -> Result<RouteSettings, AllocError> {
    let mut table = ItemList::new(alloc);
    table.push(row(alloc, Action::Copy, Context::Resource, "a")?)?;
    table.push(row(alloc, Action::Move, Context::Log, "a")?)?;
    table.push(row(alloc, Action::Copy, Context::Log, "b")?)?;
    Ok(RouteSettings {
        error_mode,
        table,
        default_pipelines: ItemList::new(alloc),
    })
}

fn push_tree(text: &mut String, forest: &Forest, root: &Root) -> Result<(), AllocError> {
    if !forest.holds(root) {
        return Err(AllocError);
    }
    let tree = forest.view(root).copy()?;
    show(text, &tree)?;
    text.push('|')
}

fn push_trees(text: &mut String, forest: &Forest, roots: &Roots) -> Result<(), AllocError> {
    for index in 0..roots.len() {
        if let Some(root) = roots.at(index) {
            push_tree(text, forest, root)?;
        }
    }
    Ok(())
}

// The trees of the rows and the rest, each with a bar behind it; or the note.
fn push_end(
    text: &mut String,
    forest: &Forest,
    end: Result<Routed, RouteStop>,
) -> Result<(), Fail> {
    match end {
        Ok(routed) => {
            push_trees(text, forest, &routed.rows)?;
            push_tree(text, forest, &routed.rest)?;
        }
        Err(RouteStop::Failed(note)) => {
            let alloc = *text.allocator();
            let note = format!(in alloc; "row {} log {} ", note.index, note.place.log)?;
            text.push_str(note.as_str())?;
        }
        Err(RouteStop::NoMemory) => return Err(AllocError.into()),
    }
    Ok(())
}

// Routes the tree of a root, and tells the number of errors.
fn route(
    alloc: Global,
    error_mode: ErrorMode,
    forest: &mut Forest,
    root: &Root,
) -> Result<(Result<Routed, RouteStop>, u64), Fail> {
    let settings = settings(alloc, error_mode)?;
    let mut book = NoteBook::new();
    let mut matchers = KeptMatchers::new(alloc);
    if !forest.holds(root) || forest.spare() as usize <= settings.table.len() {
        return Err(Fail::from("no room"));
    }
    let end = apply(alloc, &settings, forest, root, &mut matchers, &mut book);
    Ok((end, book.count()))
}

// What is given, then the tree of the root that was lent, the number of errors, the nodes that were
// made, and how many more roots there can be.
fn alone(alloc: Global, error_mode: ErrorMode, third: &str) -> Result<String, Fail> {
    let mut forest = Forest::new(alloc, 6)?;
    let root = forest.plant(tree(alloc, third)?)?;
    let (end, errors) = route(alloc, error_mode, &mut forest, &root)?;
    let mut text = String::new(alloc);
    push_end(&mut text, &forest, end)?;
    push_tree(&mut text, &forest, &root)?;
    let (made, spare) = (forest.made(), forest.spare());
    Ok(format!(in alloc;
        "{} errors {} made {} spare {}",
        text.as_str(),
        errors,
        made,
        spare
    )?)
}

// The same where another root shares the tree, with the other's tree instead of the lent root's.
fn beside(alloc: Global, error_mode: ErrorMode, third: &str) -> Result<String, Fail> {
    let mut forest = Forest::new(alloc, 6)?;
    let root = forest.plant(tree(alloc, third)?)?;
    let other = forest.share(&root);
    let (end, errors) = route(alloc, error_mode, &mut forest, &root)?;
    let mut text = String::new(alloc);
    push_end(&mut text, &forest, end)?;
    push_tree(&mut text, &forest, &other)?;
    let (made, spare) = (forest.made(), forest.spare());
    Ok(format!(in alloc;
        "{} errors {} made {} spare {}",
        text.as_str(),
        errors,
        made,
        spare
    )?)
}

// The first row takes `a`, which is one node; the second takes `ab` and `a` in four nodes, and
// leaves the others in six; the third takes `b` in three.
const ROUTED: &str = "a |r[ab a ] |b[b ] |r[c ] b[b ] |r[ab a c ] a b[b ] |";

#[test]
fn a_routed_tree_shares_its_log_records(rt: HostRuntime) -> Result<(), Fail> {
    let alloc = rt.alloc();
    for text in [
        alone(alloc, ErrorMode::Propagate, "c")?,
        alone(alloc, ErrorMode::Ignore, "c")?,
    ] {
        let want = format!(in alloc; "{} errors 0 made {} spare 1", ROUTED, 10 + 12)?;
        assert_eq!(rt; text.as_str(), want.as_str());
    }
    Ok(())
}

#[test]
fn another_root_keeps_its_tree(rt: HostRuntime) -> Result<(), Fail> {
    let alloc = rt.alloc();
    let text = beside(alloc, ErrorMode::Propagate, "c")?;
    let want = format!(in alloc; "{} errors 0 made {} spare 0", ROUTED, 10 + 12)?;
    assert_eq!(rt; text.as_str(), want.as_str());
    Ok(())
}

#[test]
fn an_error_on_a_root_counts_as_false(rt: HostRuntime) -> Result<(), Fail> {
    let text = alone(rt.alloc(), ErrorMode::Ignore, "none")?;
    assert_eq!(rt;
        text.as_str(),
        "a |r[ab a ] |b[b ] |r[none ] b[b ] |r[ab a none ] a b[b ] | errors 2 made 22 spare 1"
    );
    Ok(())
}

// The first row made its node before the second failed.
#[test]
fn a_stop_leaves_no_root(rt: HostRuntime) -> Result<(), Fail> {
    let alloc = rt.alloc();
    let text = alone(alloc, ErrorMode::Propagate, "none")?;
    assert_eq!(rt;
        text.as_str(),
        "row 1 log 2 r[ab a none ] a b[b ] | errors 0 made 11 spare 5"
    );
    let text = beside(alloc, ErrorMode::Propagate, "none")?;
    assert_eq!(rt;
        text.as_str(),
        "row 1 log 2 r[ab a none ] a b[b ] | errors 0 made 11 spare 4"
    );
    Ok(())
}

// The roots of a tree that was routed are given up; the lent root stays.
fn given_up(alloc: Global) -> Result<(String, u32), Fail> {
    let mut forest = Forest::new(alloc, 6)?;
    let root = forest.plant(tree(alloc, "c")?)?;
    let settings = settings(alloc, ErrorMode::Propagate)?;
    if !forest.holds(&root) || forest.spare() as usize <= settings.table.len() {
        return Err(Fail::from("no room"));
    }
    let rest = kept_rest(alloc, &settings, &mut forest, &root)?;
    let mut text = String::new(alloc);
    push_tree(&mut text, &forest, &rest)?;
    push_tree(&mut text, &forest, &root)?;
    Ok((text, forest.spare()))
}

// The rest of a routed tree, whose other roots are given up.
fn kept_rest(
    alloc: Global,
    settings: &RouteSettings,
    forest: &mut Forest,
    root: &Root,
) -> Result<Root, Fail>
    requires live { IsLiveRoot forest.old root.now }
    requires room { length settings.now.table < spare forest.old }
{
    let mut book = NoteBook::new();
    let mut matchers = KeptMatchers::new(alloc);
    match apply(alloc, settings, forest, root, &mut matchers, &mut book) {
        Ok(Routed { rows, rest }) => {
            give_up(forest, rows);
            Ok(rest)
        }
        Err(_) => Err(Fail::from("not routed")),
    }
}

#[test]
fn roots_that_are_given_up_leave_the_others(rt: HostRuntime) -> Result<(), Fail> {
    let (text, spare) = given_up(rt.alloc())?;
    assert_eq!(rt; text.as_str(), "r[c ] b[b ] |r[ab a c ] a b[b ] |");
    assert_eq!(rt; spare, 4);
    Ok(())
}
