//! Finds a pipeline that reaches itself.

ghost use Rattle.std.specs.Prelude.{◌≡◌, false, length, List, ℕ, slice_get, Some, IfOk, unwrap_or};
ghost use Rattle.conf_shape.specs.Fault.{Finds};
ghost use Rattle.conf_shape.specs.Path.{pointer_of};
ghost use Rattle.conf_draft.specs.declared.draft.Draft.{Draft};
ghost use Rattle.graph_build.specs.Cycles as spec;
ghost use Rattle.graph_build.specs.Cycles.{cycles_fault};
ghost use Rattle.graph_build.specs.Exits.{exits_of};
ghost use Rattle.graph_build.specs.Reach.{targets_in, rows_in, named_in, reach_in};
ghost use Rattle.graph_build.specs.Tables as tables;

use crate::exits::{Exit, exits_of, leads_to};
use conf_draft::{Draft, Pipeline};
use conf_shape::{FaultKind, Path, PointedStop, told_at};
use item_list::ItemList;
use std::alloc::{AllocError, Global};

// To which of the pipelines the ways lead.
fn targets(
    alloc: Global,
    exits: &[Exit],
    pipelines: &[Pipeline],
) -> Result<ItemList<bool>, AllocError>
    ensures { IfOk result
        (λ row. row ≡ targets_in exits.now pipelines.now) }
{
    let mut row = ItemList::new(alloc);
    for pipeline in pipelines {
        row.push(leads_to(exits, pipeline.name.as_str()))?;
    }
    Ok(row)
}

// To which pipelines connectors lead from the one with that name.
fn targets_of(alloc: Global, draft: &Draft, name: &str) -> Result<ItemList<bool>, AllocError>
    ensures { IfOk result
        (λ row. row ≡ targets_in (exits_of draft.now name.now) draft.now.pipelines) }
{
    let exits = exits_of(alloc, draft, name)?;
    targets(alloc, exits.as_slice(), draft.pipelines.as_slice())
}

// For each of the pipelines, to which pipelines connectors lead from it.
fn table(
    alloc: Global,
    draft: &Draft,
    pipelines: &[Pipeline],
) -> Result<ItemList<ItemList<bool>>, AllocError>
    ensures { IfOk result (λ rows. rows ≡ rows_in draft.now pipelines.now) }
{
    let mut rows = ItemList::new(alloc);
    for pipeline in pipelines {
        rows.push(targets_of(alloc, draft, pipeline.name.as_str())?)?;
    }
    Ok(rows)
}

// Which of the pipelines has that name.
fn named(alloc: Global, pipelines: &[Pipeline], name: &str) -> Result<ItemList<bool>, AllocError>
    ensures { IfOk result (λ flags. flags ≡ named_in name.now pipelines.now) }
{
    let mut flags = ItemList::new(alloc);
    for pipeline in pipelines {
        flags.push(name == pipeline.name.as_str())?;
    }
    Ok(flags)
}

// Whether a pipeline has the truth of the first list and that of one of the others.
fn meets(row: &[bool], target: &[bool], flags: &[bool]) -> bool
    ensures { result ≡ tables.meets row.now target.now flags.now }
{
    let [leads, row @ ..] = row else {
        return false;
    };
    let [is_target, target @ ..] = target else {
        return false;
    };
    let [flag, flags @ ..] = flags else {
        return false;
    };
    (*leads && (*is_target || *flag)) || meets(row, target, flags)
}

fn next_flags(
    alloc: Global,
    rows: &[ItemList<bool>],
    target: &[bool],
    flags: &[bool],
) -> Result<ItemList<bool>, AllocError>
    ensures { IfOk result (λ next. next ≡ tables.next_truths rows.now target.now flags.now) }
{
    let mut next = ItemList::new(alloc);
    for row in rows {
        next.push(meets(row.as_slice(), target, flags))?;
    }
    Ok(next)
}

// No step leads anywhere.
fn none(alloc: Global, pipelines: &[Pipeline]) -> Result<ItemList<bool>, AllocError>
    ensures { (draft : Draft) (name : List ℕ) → IfOk result
        (λ flags. flags ≡ reach_in draft 0 name pipelines.now) }
{
    let mut flags = ItemList::new(alloc);
    for _pipeline in pipelines {
        flags.push(false)?;
    }
    Ok(flags)
}

// Which of the pipelines reach the one with that name.
#[tactic(auto, using(crate::proofs::Reaching::one_step_more))]
fn reaching(
    alloc: Global,
    draft: &Draft,
    rows: &[ItemList<bool>],
    name: &str,
) -> Result<ItemList<bool>, AllocError>
    requires { rows.now ≡ rows_in draft.now draft.now.pipelines }
    ensures { IfOk result (λ flags. flags
        ≡ reach_in draft.now (length draft.now.pipelines) name.now draft.now.pipelines) }
{
    let pipelines = draft.pipelines.as_slice();
    let target = named(alloc, pipelines, name)?;
    let mut flags = none(alloc, pipelines)?;
    for round in 0..pipelines.len() {
        flags = next_flags(alloc, rows, target.as_slice(), flags.as_slice())?;
    }
    Ok(flags)
}

#[tactic(auto, using(crate::proofs::Reaching::truth_there))]
fn is_on_cycle(
    alloc: Global,
    draft: &Draft,
    rows: &[ItemList<bool>],
    index: usize,
    pipeline: &Pipeline,
) -> Result<bool, AllocError>
    requires table { rows.now ≡ rows_in draft.now draft.now.pipelines }
    requires there { slice_get draft.now.pipelines index ≡ Some pipeline.now }
    ensures { IfOk result (λ on. on ≡ spec.is_on_cycle draft.now pipeline.now.name) }
{
    let flags = reaching(alloc, draft, rows, pipeline.name.as_str())?;
    Ok(is_set(&flags, index))
}

fn is_set(flags: &ItemList<bool>, index: usize) -> bool
    ensures { result ≡ unwrap_or (slice_get flags.now index) false }
{
    match flags.at(index) {
        Some(flag) => *flag,
        None => false,
    }
}

/// Looks for the first pipeline that reaches itself.
pub(crate) fn check_cycles<'a>(
    alloc: Global,
    draft: &Draft,
    path: &'a Path<'a>,
) -> Result<(), PointedStop>
    ensures { Finds result
        (cycles_fault draft.now (pointer_of path.now) draft.now.pipelines) }
{
    let rows = table(alloc, draft, draft.pipelines.as_slice())?;
    check_each(alloc, draft, rows.as_slice(), path)
}

fn check_each<'a>(
    alloc: Global,
    draft: &Draft,
    rows: &[ItemList<bool>],
    path: &'a Path<'a>,
) -> Result<(), PointedStop>
    requires { rows.now ≡ rows_in draft.now draft.now.pipelines }
    ensures { Finds result
        (cycles_fault draft.now (pointer_of path.now) draft.now.pipelines) }
{
    for (index, pipeline) in draft.pipelines.as_slice().iter().enumerate() {
        if is_on_cycle(alloc, draft, rows, index, pipeline)? {
            return Err(told_at(alloc, FaultKind::CycleOf, path, pipeline.name.as_str()));
        }
    }
    Ok(())
}
