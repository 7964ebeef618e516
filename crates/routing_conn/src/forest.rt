//! The tree of a root routed in its forest: a root for each row of the table, and one for the rest.

ghost use Rattle.std.specs.Prelude.{◌≡◌, ◌<◌, [], ◌∷◌, length, IfOk, OnErr};
ghost use Rattle.fanout.specs.Handing.{AreApart};
ghost use Rattle.pdata_tree.specs.Operations.{log_trees};
ghost use Rattle.proc_targets.specs.Ends.{FailsUnder, Stays};
ghost use Rattle.routing_conn.specs.Answers.{EndsBy, trees_in};
ghost use Rattle.routing_conn.specs.Bills.{MakesUpTo, settings_bill};
ghost use Rattle.routing_conn.specs.Given.{AreLive, Gave, GivesUp};
ghost use Rattle.routing_conn.specs.Meaning.{routed};
ghost use Rattle.share_cow.specs.Scene.{tree_of};
ghost use Rattle.share_cow.specs.Store.{IsLiveRoot, made, spare};

use crate::rows::route_rows;
use conf_json::{NoteBook, PlainStop, RouteSettings};
use ottl_eval::KeptMatchers;
use proc_targets::{narrow, or_stop};
use share_cow::{Forest, Root, Roots};
use std::alloc::Global;

/// Why a tree wasn't routed.
pub type RouteStop = PlainStop;

/// What a routing connector gives: a root for each row of its table, and one for the rest.
#[derive(Drop)]
pub struct Routed {
    pub rows: Roots,
    pub rest: Root,
}

/// Routes the tree of a root, which stays, with the matchers that are kept. It makes no more nodes
/// than the spines of what rows take, and of what moving rows leave. Where it is stopped, no root is
/// left of it, and the account is as it was before.
pub fn apply<'p>(
    alloc: Global,
    settings: &'p RouteSettings,
    forest: &mut Forest,
    root: &Root,
    matchers: &mut KeptMatchers<'p>,
    book: &mut NoteBook,
) -> Result<Routed, RouteStop>
    requires live { IsLiveRoot forest.old root.now }
    requires room { length settings.now.table < spare forest.old }

    // What is given.
    ensures value { EndsBy (trees_in forest.new) book.new result
        (routed log_trees settings.now (tree_of forest.old root.now) book.old) }
    ensures stays { Stays settings.now.error_mode book.old book.new }
    ensures roots { IfOk result
        (λ given. Gave root.now forest.old forest.new (given.rest ∷ given.rows.roots)) }

    // What is made.
    ensures made { MakesUpTo result (made forest.old) (made forest.new)
        (settings_bill settings.now (tree_of forest.old root.now) book.old) }

    // What is left where it is stopped.
    ensures err { OnErr result (Gave root.now forest.old forest.new []) }
    ensures back { OnErr result (book.new ≡ book.old) }
    ensures failed { FailsUnder settings.now.error_mode result }
{
    let before = book.copy();
    let count = or_stop(narrow(settings.table.len()))?;
    let mut rows = or_stop(Roots::with_room(alloc, count))?;
    let rest = forest.share(root);
    match route_rows(alloc, settings, forest, &rest, &mut rows, matchers, book) {
        Ok(()) => Ok(Routed { rows, rest }),
        Err(stop) => {
            give_up(forest, rows);
            forest.release(rest);
            *book = before;
            Err(stop)
        }
    }
}

/// Gives up all roots of a list. It takes no memory.
pub fn give_up(forest: &mut Forest, roots: Roots)
    requires live { AreLive forest.old roots.roots }
    requires apart { AreApart roots.roots }
    ensures { GivesUp roots.roots forest.old forest.new }
{
    let mut left = roots;
    'roots: while let Some(root) = left.take() {
        forest.release(root);
    }
}
