//! The rows of a table on the tree of a root, which is the rest that they leave.

ghost use Rattle.std.specs.Prelude.{◌≡◌, ◌<◌, ◌≤◌, [], ◌∷◌, length, IfOk, OnErr};
ghost use Rattle.pdata_tree.specs.Operations.{log_trees};
ghost use Rattle.proc_targets.specs.Ends.{FailsUnder, Stays};
ghost use Rattle.routing_conn.specs.Answers.{EndsBy, judge_of};
ghost use Rattle.routing_conn.specs.Bills.{MakesUpTo, bill_of, row_bill};
ghost use Rattle.routing_conn.specs.Meaning.{judges, routed_by, row_gives};
ghost use Rattle.routing_conn.specs.Rows.{Routes, row_trees, rows_trees};
ghost use Rattle.share_cow.specs.Scene.{tree_of};
ghost use Rattle.share_cow.specs.Store.{IsLiveRoot, made, spare};

use crate::judging::RowJudge;
use crate::selecting::part_roots;
use conf_json::{NoteBook, PlainStop, RouteSettings};
use ottl_eval::KeptMatchers;
use share_cow::{Forest, Root, Roots};
use std::alloc::Global;

/// Routes the tree of a root, which is left with the rest: a root for each row is added.
pub(crate) fn route_rows<'p>(
    alloc: Global,
    settings: &'p RouteSettings,
    forest: &mut Forest,
    rest: &Root,
    rows: &mut Roots,
    matchers: &mut KeptMatchers<'p>,
    book: &mut NoteBook,
) -> Result<(), PlainStop>
    requires live { IsLiveRoot forest.old rest.now }
    requires empty { rows.old.roots ≡ [] }
    requires room { rows.old.room ≡ length settings.now.table }
    requires spare { length settings.now.table ≤ spare forest.old }
    ensures value { EndsBy (λ _. rows_trees forest.new rest.now rows.new.roots) book.new result
        (routed_by log_trees (judges settings.now.error_mode 0 settings.now.table)
        (tree_of forest.old rest.now) book.old) }
    ensures routes { Routes rest.now forest.old forest.new rows.new.roots }
    ensures made { MakesUpTo result (made forest.old) (made forest.new)
        (bill_of (judges settings.now.error_mode 0 settings.now.table)
        (tree_of forest.old rest.now) book.old) }
    ensures stays { Stays settings.now.error_mode book.old book.new }
    ensures failed { FailsUnder settings.now.error_mode result }
{
    let mode = settings.error_mode;
    'rows: for (index, row) in settings.table.as_slice().iter().enumerate() {
        let judge = RowJudge { mode, index, row };
        let taken = route_row(alloc, &judge, forest, rest, matchers, book)?;
        rows.push(taken);
    }
    Ok(())
}

// A root for what a row takes of a root's tree, which is left with the rest.
fn route_row<'p>(
    alloc: Global,
    judge: &RowJudge<'p>,
    forest: &mut Forest,
    rest: &Root,
    matchers: &mut KeptMatchers<'p>,
    book: &mut NoteBook,
) -> Result<Root, PlainStop>
    requires live { IsLiveRoot forest.old rest.now }
    requires spare { 0 < spare forest.old }
    ensures value { EndsBy (row_trees forest.new rest.now) book.new result
        (row_gives log_trees (judge_of judge.now) (tree_of forest.old rest.now) book.old) }
    ensures ok { IfOk result (λ taken. Routes rest.now forest.old forest.new (taken ∷ [])) }
    ensures err { OnErr result (Routes rest.now forest.old forest.new []) }
    ensures made { MakesUpTo result (made forest.old) (made forest.new) (row_bill judge.now.row.now
        (row_gives log_trees (judge_of judge.now) (tree_of forest.old rest.now) book.old)) }
    ensures stays { Stays judge.now.mode book.old book.new }
    ensures failed { FailsUnder judge.now.mode result }
{
    let hits = judge.hits_in(alloc, forest, rest, matchers, book)?;
    match part_roots(alloc, forest, rest, judge.row, &hits) {
        Ok(taken) => Ok(taken),
        Err(_) => Err(PlainStop::NoMemory),
    }
}
