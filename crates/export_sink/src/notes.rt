//! Notes of refused payloads, and of the errors of legs.

ghost use Rattle.std.specs.Prelude.{◌≡◌, ◌++◌, [], map, slice_get, string_bytes, unwrap_or, IfOk, OnOk};
ghost use Rattle.export_sink.specs.Left.{notes_by};
ghost use Rattle.leg_model.specs.Notes as spec;
ghost use Rattle.leg_model.specs.Notes.{counted_line, counted_text, failed_text, leg_text, outcome_text, refused_text};
ghost use Rattle.leg_model.specs.Parts.{known_among, part_names};
ghost use Rattle.std.specs.Fmt.{decimal};
ghost use Rattle.conf_draft.specs.References.{is_among};
ghost use Rattle.plain_legs.specs.Views.{outcome_of};

use conf_draft::Draft;
use conf_json::{Note, Part};
use graph_build::{Leg, find_pipeline};
use item_list::ItemList;
use leg_model::LegNote;
use otlp_json::PayloadFault;
use pdata_tree::{Context, Place};
use pdata_value::Text;
use plain_legs::{LegOutcome, Named};
use std::alloc::{AllocError, Global};

/// The note of a refused payload.
pub(crate) fn refused_note(
    alloc: Global,
    number: u64,
    fault: PayloadFault,
) -> Result<String, AllocError>
    ensures { IfOk result (λ note. string_bytes note ≡ refused_text number fault) }
{
    Ok(format!(in alloc; "payload {number} refused {fault}\n")?)
}

// A number as it is printed.
fn number_text(alloc: Global, number: u32) -> Result<String, AllocError>
    ensures { IfOk result (λ text. string_bytes text ≡ decimal number) }
{
    Ok(format!(in alloc; "{number}")?)
}

#[tactic(auto, unfolding(leg_model::specs::Notes::group_text))]
fn group_text(alloc: Global, group: u32) -> Result<String, AllocError>
    ensures { IfOk result (λ text. string_bytes text ≡ spec.group_text group) }
{
    Ok(format!(in alloc; "group {group}")?)
}

// A part of a group by its number.
fn numbered_part(alloc: Global, group: u32, kind: &str, index: u32) -> Result<String, AllocError>
    ensures { IfOk result (λ text. string_bytes text ≡ spec.numbered_part group kind.now index) }
{
    let group = group_text(alloc, group)?;
    let index = number_text(alloc, index)?;
    Ok(format!(in alloc; "{group} {kind} {index}")?)
}

// What erred.
fn part_text(alloc: Global, note: &Note) -> Result<String, AllocError>
    ensures { IfOk result (λ text. string_bytes text
        ≡ spec.part_text note.now.part note.now.group note.now.index) }
{
    let Note { group, index, .. } = *note;
    match note.part {
        Part::Statement => numbered_part(alloc, group, "statement", index),
        Part::GroupCondition => numbered_part(alloc, group, "condition", index),
        Part::FilterCondition => Ok(format!(in alloc; "condition {index}")?),
        Part::RouteRow => Ok(format!(in alloc; "row {index}")?),
    }
}

// A place, as many numbers as the context has.
fn place_text(alloc: Global, context: Context, place: Place) -> Result<String, AllocError>
    ensures { IfOk result (λ text. string_bytes text ≡ spec.place_text context place) }
{
    let resource = number_text(alloc, place.resource)?;
    let scope = number_text(alloc, place.scope)?;
    let log = number_text(alloc, place.log)?;
    match context {
        Context::Resource => Ok(resource),
        Context::Scope => Ok(format!(in alloc; "{resource}/{scope}")?),
        Context::Log => Ok(format!(in alloc; "{resource}/{scope}/{log}")?),
    }
}

// An error of a leg, whose parts have these names.
fn error_text(alloc: Global, names: &[&str], error: &LegNote) -> Result<String, AllocError>
    ensures { IfOk result (λ text. string_bytes text
        ≡ spec.error_text (map (λ name. name.now) names.now) error.now) }
{
    let name = name_at(names, error.component);
    let part = part_text(alloc, &error.note)?;
    let place = place_text(alloc, error.note.context, error.note.place)?;
    let err = error.note.err;
    Ok(format!(in alloc; "{name} {part} at {place} {err}")?)
}

fn name_at<'a>(names: &[&'a str], index: usize) -> &'a str
    ensures { result.now ≡ unwrap_or (slice_get (map (λ name. name.now) names.now) index) [] }
{
    match names.get(index) {
        Some(name) => name,
        None => "",
    }
}

// An error that a leg counted.
fn push_error(
    alloc: Global,
    notes: &mut Vec<u8>,
    head: &str,
    names: &[&str],
    error: &LegNote,
) -> Result<(), AllocError>
    ensures { OnOk result (notes.new.items ≡ notes.old.items
        ++ counted_line head.now (map (λ name. name.now) names.now) error.now) }
{
    let error = error_text(alloc, names, error)?;
    let line = format!(in alloc; "{head} {error}\n")?;
    notes.extend_from_slice(line.as_bytes())?;
    Ok(())
}

// The errors that a leg counted.
fn push_counted(
    alloc: Global,
    notes: &mut Vec<u8>,
    head: &str,
    names: &[&str],
    errors: &[LegNote],
) -> Result<(), AllocError>
    ensures { OnOk result (notes.new.items ≡ notes.old.items
        ++ counted_text head.now (map (λ name. name.now) names.now) errors.now) }
{
    for error in errors {
        push_error(alloc, notes, head, names, error)?;
    }
    Ok(())
}

// The error with which a leg failed, if it did.
fn push_failed(
    alloc: Global,
    notes: &mut Vec<u8>,
    head: &str,
    names: &[&str],
    fault: &Option<LegNote>,
) -> Result<(), AllocError>
    ensures { OnOk result (notes.new.items ≡ notes.old.items
        ++ failed_text head.now (map (λ name. name.now) names.now) fault.now) }
{
    let Some(fault) = fault else {
        return Ok(());
    };
    let error = error_text(alloc, names, fault)?;
    let line = format!(in alloc; "{head} failed {error}\n")?;
    notes.extend_from_slice(line.as_bytes())?;
    Ok(())
}

// What is noted of a leg.
fn push_outcome(
    alloc: Global,
    notes: &mut Vec<u8>,
    draft: &Draft,
    leg: &Leg,
    head: &str,
    outcome: &LegOutcome,
) -> Result<(), AllocError>
    ensures { OnOk result (notes.new.items ≡ notes.old.items
        ++ outcome_text head.now (part_names draft.now leg.now.pipeline) (outcome_of outcome.now)) }
{
    let names = names_of(alloc, draft, leg.pipeline.as_str())?;
    push_counted(
        alloc,
        notes,
        head,
        names.as_slice(),
        outcome.notes.as_slice(),
    )?;
    push_failed(alloc, notes, head, names.as_slice(), &outcome.fault)
}

/// Appends what is noted of legs on a payload with that number.
pub(crate) fn push_notes(
    alloc: Global,
    notes: &mut Vec<u8>,
    draft: &Draft,
    number: u64,
    legs: &[Leg],
    left: &[LegOutcome],
) -> Result<(), AllocError>
    ensures { OnOk result (notes.new.items ≡ notes.old.items
        ++ notes_by draft.now number 0 legs.now (map outcome_of left.now)) }
{
    let mut left = left;
    for (index, leg) in legs.iter().enumerate() {
        let [outcome, others @ ..] = left else {
            return Ok(());
        };
        push_leg(alloc, notes, draft, number, index, leg, outcome)?;
        left = others;
    }
    Ok(())
}

// What is noted of the leg with that number; names are looked up where there is something.
fn push_leg(
    alloc: Global,
    notes: &mut Vec<u8>,
    draft: &Draft,
    number: u64,
    index: usize,
    leg: &Leg,
    outcome: &LegOutcome,
) -> Result<(), AllocError>
    ensures { OnOk result (notes.new.items ≡ notes.old.items
        ++ outcome_text (leg_text number index) (part_names draft.now leg.now.pipeline)
        (outcome_of outcome.now)) }
{
    if outcome.notes.is_empty() && outcome.fault.is_none() {
        return Ok(());
    }
    let leg_number = format!(in alloc; "{index}")?;
    let head = format!(in alloc; "payload {number} leg {leg_number}")?;
    push_outcome(alloc, notes, draft, leg, head.as_str(), outcome)
}

// The names of a pipeline's parts: of its processors, then of the connectors among its exporters.
fn names_of<'p>(
    alloc: Global,
    draft: &'p Draft,
    name: &str,
) -> Result<ItemList<&'p str>, AllocError>
    ensures { IfOk result (λ names. map (λ name. name.now) names ≡ part_names draft.now name.now) }
{
    let mut names = ItemList::new(alloc);
    if let Some(pipeline) = find_pipeline(draft.pipelines.as_slice(), name) {
        push_known(
            &mut names,
            pipeline.processors.as_slice(),
            draft.processors.as_slice(),
        )?;
        push_known(
            &mut names,
            pipeline.exporters.as_slice(),
            draft.connectors.as_slice(),
        )?;
    }
    Ok(names)
}

// Adds those of the listed names that are among these.
fn push_known<'p, N: Named>(
    names: &mut ItemList<&'p str>,
    listed: &'p [Text],
    known: &[N],
) -> Result<(), AllocError>
    ensures { OnOk result (map (λ name. name.now) names.new ≡ map (λ name. name.now) names.old
        ++ known_among (map N.name_of known.now) listed.now) }
{
    for name in listed {
        if has_named(known, name.as_str()) {
            names.push(name.as_str())?;
        }
    }
    Ok(())
}

fn has_named<N: Named>(known: &[N], name: &str) -> bool
    ensures { result ≡ is_among name.now (map N.name_of known.now) }
{
    for item in known {
        if name == item.name() {
            return true;
        }
    }
    false
}
