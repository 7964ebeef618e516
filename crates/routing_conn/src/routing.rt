//! The trees of a routing connector.

ghost use Rattle.pdata_tree.specs.Operations.{log_trees};
ghost use Rattle.proc_targets.specs.Ends.{Ends, FailsUnder, Stays};
ghost use Rattle.routing_conn.specs.Answers.{EndsBy, judge_of, trees_of};
ghost use Rattle.routing_conn.specs.Meaning.{routed, row_gives};

use crate::judging::RowJudge;
use crate::parting::part;
use conf_json::{NoteBook, PlainStop, RouteSettings};
use item_list::ItemList;
use ottl_eval::KeptMatchers;
use pdata_tree::Batch;
use proc_targets::{list_targets, or_stop};
use std::alloc::Global;

pub type Batches = ItemList<Batch>;

/// What a routing connector gives: a tree for each row of its table, and the rest.
#[derive(Drop)]
pub struct PlainRouted {
    pub rows: Batches,
    pub rest: Batch,
}

/// Routes a tree, with the matchers that are kept. It is used up: what a row moves is not copied.
#[tactic(auto, using(crate::proofs::Turns::trees_turn, proc_targets::proofs::Stops::stops))]
pub fn apply_plain<'p>(
    alloc: Global,
    settings: &'p RouteSettings,
    tree: Batch,
    matchers: &mut KeptMatchers<'p>,
    book: &mut NoteBook,
) -> Result<PlainRouted, PlainStop>
    ensures value { EndsBy trees_of book.new result
        (routed log_trees settings.now tree book.old) }
    ensures stays { Stays settings.now.error_mode book.old book.new }
    ensures failed { FailsUnder settings.now.error_mode result }
{
    let mode = settings.error_mode;
    let mut rows = ItemList::new(alloc);
    let mut left = tree;
    for (index, row) in settings.table.as_slice().iter().enumerate() {
        let judge = RowJudge { mode, index, row };
        let (taken, others) = apply_row(alloc, &judge, left, matchers, book)?;
        or_stop(rows.push(taken))?;
        left = others;
    }
    Ok(PlainRouted { rows, rest: left })
}

// The tree of a row, and the tree that it leaves.
#[tactic(auto, using(proc_targets::proofs::Stops::stops))]
fn apply_row<'p>(
    alloc: Global,
    judge: &RowJudge<'p>,
    mut tree: Batch,
    matchers: &mut KeptMatchers<'p>,
    book: &mut NoteBook,
) -> Result<(Batch, Batch), PlainStop>
    ensures value { Ends book.new result
        (row_gives log_trees (judge_of judge.now) tree book.old) }
    ensures stays { Stays judge.now.mode book.old book.new }
    ensures failed { FailsUnder judge.now.mode result }
{
    let places = or_stop(list_targets(alloc, &tree, judge.row.context))?;
    let flags = judge.hits(alloc, &mut tree, places.as_slice(), matchers, book)?;
    or_stop(part(alloc, judge.row, tree, flags.as_slice()))
}
