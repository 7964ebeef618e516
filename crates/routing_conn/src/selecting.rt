//! What a row takes of a root's tree, as a root of its own, and what it leaves.

ghost use Rattle.std.specs.Prelude.{◌≡◌, ◌<◌, [], map, not, IfOk, OnErr, OnOk};
ghost use Rattle.routing_conn.specs.Rows.{PartsRow, Retains, Routes, Selects};
ghost use Rattle.share_cow.specs.Kept.{AllStay};
ghost use Rattle.share_cow.specs.Store.{IsLiveRoot, spare};

use conf_json::{Action, RouteRow};
use item_list::ItemList;
use pdata_tree::Context;
use share_cow::{Flags, Forest, Root};
use std::alloc::{AllocError, Global};

/// A root for the part of a root's tree that the flags tell. A row that moves leaves the others.
pub(crate) fn part_roots(
    alloc: Global,
    forest: &mut Forest,
    rest: &Root,
    row: &RouteRow,
    hits: &Flags,
) -> Result<Root, AllocError>
    requires live { IsLiveRoot forest.old rest.now }
    requires spare { 0 < spare forest.old }
    ensures ok { IfOk result
        (λ taken. PartsRow row.now hits.now rest.now taken forest.old forest.new) }
    ensures err { OnErr result (Routes rest.now forest.old forest.new []) }
{
    let taken = select_part(forest, rest, row.context, hits)?;
    match row.action {
        Action::Copy => Ok(taken),
        Action::Move => match leave_others(alloc, forest, rest, row.context, hits) {
            Ok(()) => Ok(taken),
            Err(error) => {
                forest.release(taken);
                Err(error)
            }
        },
    }
}

// A root for the part that the flags tell: whole resources, or log records.
fn select_part(
    forest: &mut Forest,
    root: &Root,
    context: Context,
    keep: &Flags,
) -> Result<Root, AllocError>
    requires live { IsLiveRoot forest.old root.now }
    requires spare { 0 < spare forest.old }
    ensures ok { IfOk result
        (λ part. Selects context keep.now root.now part forest.old forest.new) }
    ensures err { OnErr result (AllStay forest.old forest.new) }
{
    match context {
        Context::Resource => forest.select_resources(root, keep),
        Context::Scope | Context::Log => forest.select(root, keep),
    }
}

// Leaves what isn't flagged.
fn leave_others(
    alloc: Global,
    forest: &mut Forest,
    root: &Root,
    context: Context,
    hits: &Flags,
) -> Result<(), AllocError>
    requires { IsLiveRoot forest.old root.now }
    ensures ok { OnOk result
        (Retains context (map not hits.now) root.now forest.old forest.new) }
    ensures err { OnErr result (AllStay forest.old forest.new) }
{
    let keep = negate(alloc, hits.as_slice())?;
    retain_part(forest, root, context, &keep)
}

// Leaves the part that the flags tell.
fn retain_part(
    forest: &mut Forest,
    root: &Root,
    context: Context,
    keep: &Flags,
) -> Result<(), AllocError>
    requires { IsLiveRoot forest.old root.now }
    ensures ok { OnOk result (Retains context keep.now root.now forest.old forest.new) }
    ensures err { OnErr result (AllStay forest.old forest.new) }
{
    match context {
        Context::Resource => forest.retain_resources(root, keep),
        Context::Scope | Context::Log => forest.retain(root, keep),
    }
}

// The other truth for each.
fn negate(alloc: Global, flags: &[bool]) -> Result<Flags, AllocError>
    ensures { IfOk result (λ others. others ≡ map not flags.now) }
{
    let mut others = ItemList::with_capacity(alloc, flags.len())?;
    for flag in flags {
        others.push(!*flag)?;
    }
    Ok(others)
}
