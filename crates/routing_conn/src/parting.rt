//! What a row takes of a tree, and what it leaves.

ghost use Rattle.std.specs.Prelude.{◌≡◌, map, not, IfOk};
ghost use Rattle.pdata_tree.specs.Operations.{log_trees};
ghost use Rattle.routing_conn.specs.Meaning.{part_of, parted};

use conf_json::{Action, RouteRow};
use pdata_tree::{Batch, Context};
use std::alloc::{AllocError, Global};
use tree_parts::{copy_records, copy_resources, split_records, split_resources};

/// The tree of a row, and the tree that it leaves. Nothing is copied for a row that moves.
pub(crate) fn part(
    alloc: Global,
    row: &RouteRow,
    tree: Batch,
    flags: &[bool],
) -> Result<(Batch, Batch), AllocError>
    ensures { IfOk result (λ parts. parts ≡ parted log_trees row.now flags.now tree) }
{
    match row.action {
        Action::Move => split(alloc, row.context, tree, flags),
        Action::Copy => Ok((copy(alloc, row.context, &tree, flags)?, tree)),
    }
}

fn split(
    alloc: Global,
    context: Context,
    tree: Batch,
    flags: &[bool],
) -> Result<(Batch, Batch), AllocError>
    ensures taken { IfOk result (λ parts. parts.0 ≡ part_of log_trees context flags.now tree) }
    ensures left { IfOk result (λ parts. parts.1
        ≡ part_of log_trees context (map not flags.now) tree) }
{
    match context {
        Context::Resource => split_resources(alloc, tree, flags),
        Context::Scope | Context::Log => split_records(alloc, tree, flags),
    }
}

fn copy(alloc: Global, context: Context, tree: &Batch, flags: &[bool]) -> Result<Batch, AllocError>
    ensures { IfOk result (λ part. part ≡ part_of log_trees context flags.now tree.now) }
{
    match context {
        Context::Resource => copy_resources(alloc, tree, flags),
        Context::Scope | Context::Log => copy_records(alloc, tree, flags),
    }
}
