//! Finds the legs below a root.

ghost use Rattle.std.specs.Prelude.{◌≡◌, ◌<◌, ℕ, length, nat_le, IfOk};
ghost use Rattle.std.specs.List.{list_any};
ghost use Rattle.conf_draft.specs.References as references;
ghost use Rattle.graph_build.specs.Exits.{pipeline_named};
ghost use Rattle.graph_build.specs.Legs as spec;
ghost use Rattle.graph_build.specs.Legs.{child_leg, children, legs_below, legs_from, max_legs, root_leg};
ghost use Rattle.graph_build.specs.Growing.{Grows};

use crate::exits::{Exit, exits_of, find_pipeline};
use crate::leg::Leg;
use crate::top::MAX_LEGS;
use conf_draft::{Draft, Pipeline};
use item_list::ItemList;
use pdata_value::Text;
use std::alloc::{AllocError, Global};

// A leg so deep has as many above it as there may be legs.
const MAX_LEVELS: u32 = 17;

/// Why no more legs were added.
#[derive(Clone, Copy, Debug, PartialEq, Eq)]
pub(crate) enum LegStop {
    TooMany,
    NoMemory,
}

impl From<AllocError> for LegStop {
    ghost use Rattle.graph_build.specs.declared.legs.LegStop.TheVariants.{NoMemory};

    ghost from_gives = { λ _ stop. stop ≡ NoMemory };

    fn from(_: AllocError) -> LegStop {
        LegStop::NoMemory
    }
}

// The number of an item. More items than there are such numbers want more memory than there is.
fn narrow(number: usize) -> Result<u32, AllocError>
    ensures { IfOk result (λ narrow. narrow ≡ number) }
{
    match u32::try_from(number) {
        Ok(narrow) => Ok(narrow),
        Err(_) => Err(AllocError),
    }
}

fn narrow_row(row: Option<usize>) -> Result<Option<u32>, AllocError>
    ensures { IfOk result (λ narrow. narrow ≡ row) }
{
    match row {
        Some(number) => Ok(Some(narrow(number)?)),
        None => Ok(None),
    }
}

fn mutates(draft: &Draft, name: &str) -> bool
    ensures { result ≡ spec.mutates (pipeline_named name.now draft.now.pipelines) }
{
    match find_pipeline(draft.pipelines.as_slice(), name) {
        Some(pipeline) => !pipeline.processors.is_empty(),
        None => false,
    }
}

fn root(alloc: Global, draft: &Draft, name: &str) -> Result<Leg, AllocError>
    ensures { IfOk result (λ leg. leg ≡ root_leg draft.now name.now) }
{
    Ok(Leg {
        parent: None,
        connector: None,
        row: None,
        pipeline: Text::from_str(alloc, name)?,
        mutates: mutates(draft, name),
    })
}

fn child(alloc: Global, draft: &Draft, parent: u32, exit: &Exit) -> Result<Leg, AllocError>
    ensures { IfOk result (λ leg. leg ≡ child_leg draft.now parent exit.now) }
{
    let connector = narrow(exit.connector)?;
    let row = narrow_row(exit.row)?;
    let name = exit.pipeline.as_str();
    Ok(Leg {
        parent: Some(parent),
        connector: Some(connector),
        row,
        pipeline: Text::from_str(alloc, name)?,
        mutates: mutates(draft, name),
    })
}

// Whether there are as many legs as there may be.
fn is_full(legs: &ItemList<Leg>) -> bool
    ensures { result ≡ nat_le max_legs (length legs.now) }
{
    MAX_LEGS <= legs.len()
}

// Adds a leg and all legs below it, so many levels deep.
#[cycle(walk)]
fn add_leg(
    alloc: Global,
    draft: &Draft,
    levels: u32,
    leg: Leg,
    legs: &mut ItemList<Leg>,
) -> Result<(), LegStop>
    ensures { Grows legs.old legs.new result (legs_below draft.now levels (length legs.old) leg) }
{
    if levels == 0 {
        return Ok(());
    }
    if is_full(legs) {
        return Err(LegStop::TooMany);
    }
    let number = legs.len() as u32;
    let exits = exits_of(alloc, draft, leg.pipeline.as_str())?;
    legs.push(leg)?;
    add_children(alloc, draft, levels - 1, number, exits.as_slice(), legs)
}

// Adds the legs behind ways out of a leg, and all legs below them.
#[cycle(walk)]
fn add_children(
    alloc: Global,
    draft: &Draft,
    levels: u32,
    parent: u32,
    exits: &[Exit],
    legs: &mut ItemList<Leg>,
) -> Result<(), LegStop>
    ensures { Grows legs.old legs.new result
        (children draft.now (legs_below draft.now levels) parent (length legs.old) exits.now) }
{
    for exit in exits {
        let leg = child(alloc, draft, parent, exit)?;
        add_leg(alloc, draft, levels, leg, legs)?;
    }
    Ok(())
}

/// Whether a name is one of these.
pub fn is_among(name: &str, names: &[Text]) -> bool
    ensures { result ≡ references.is_among name.now names.now }
{
    for other in names {
        if name == other.as_str() {
            return true;
        }
    }
    false
}

/// Whether a pipeline has the file receiver.
pub(crate) fn is_root(draft: &Draft, pipeline: &Pipeline) -> bool
    ensures { result ≡ spec.is_root draft.now pipeline.now }
{
    for name in pipeline.receivers.as_slice() {
        if is_among(name.as_str(), draft.receivers.as_slice()) {
            return true;
        }
    }
    false
}

/// Adds the legs that begin at these pipelines.
pub(crate) fn add_roots(
    alloc: Global,
    draft: &Draft,
    pipelines: &[Pipeline],
    legs: &mut ItemList<Leg>,
) -> Result<(), LegStop>
    ensures { Grows legs.old legs.new result
        (legs_from draft.now (length legs.old) pipelines.now) }
{
    for pipeline in pipelines {
        add_root(alloc, draft, pipeline, legs)?;
    }
    Ok(())
}

fn add_root(
    alloc: Global,
    draft: &Draft,
    pipeline: &Pipeline,
    legs: &mut ItemList<Leg>,
) -> Result<(), LegStop>
    ensures { Grows legs.old legs.new result
        (spec.legs_of_root draft.now (length legs.old) pipeline.now) }
{
    if !is_root(draft, pipeline) {
        return Ok(());
    }
    let leg = root(alloc, draft, pipeline.name.as_str())?;
    add_leg(alloc, draft, MAX_LEVELS, leg, legs)
}
