//! What is written for one line of an input.

ghost use Rattle.std.specs.List.{concat};
ghost use Rattle.std.specs.Prelude.{◌≡◌, ◌∷◌, ◌≤◌, [], length, map, IfOk};
ghost use Rattle.contract_words.specs.InputLines.{max_line};
ghost use Rattle.export_sink.specs.Bundles.{bundle_of};
ghost use Rattle.export_sink.specs.Left.{lines_by, left_bundle, refused_bundle, total_by};
ghost use Rattle.export_sink.specs.Planning.{conf_in, RunFits};
ghost use Rattle.leg_model.specs.Course.{no_counts};
ghost use Rattle.leg_model.specs.Totals.{totals_of};
ghost use Rattle.plain_legs.specs.Views.{outcome_of};

use crate::lines::push_lines;
use crate::notes::{push_notes, refused_note};
use crate::run_plan::RunPlan;
use conf_draft::Exporter;
use graph_build::Leg;
use item_list::ItemList;
use leg_model::{FileTotal, LegCounts, Totals};
use otlp_json::{PayloadFault, PayloadStop, read_payload};
use ottl_eval::KeptMatchers;
use pdata_value::Bytes;
use plain_legs::{LegOutcome, NO_COUNTS, run_legs};
use std::alloc::{AllocError, Global};

/// What is written for lines, and what is counted on them: a text for each exporter, in the byte
/// order of names, and the notes.
#[derive(Drop)]
pub struct Bundle {
    pub texts: ItemList<Bytes>,
    pub notes: Bytes,
    pub totals: Totals,
}

/// What is written for a line that has that payload number, with the matchers that are kept.
#[tactic(auto, using(crate::proofs::Bundles::left_one, crate::proofs::Bundles::refused_one))]
pub fn bundle_line<'p>(
    alloc: Global,
    plan: &RunPlan<'p>,
    number: u64,
    line: &[u8],
    matchers: &mut KeptMatchers<'p>,
) -> Result<Bundle, AllocError>
    requires short { length line.now ≤ max_line }
    requires fits { RunFits plan.now }
    ensures { IfOk result (λ made. made ≡ bundle_of (conf_in plan.now) number (line.now ∷ [])) }
{
    match read_payload(alloc, line) {
        Ok(tree) => {
            let left = run_legs(alloc, &plan.legs, tree, matchers)?;
            Ok(bundle_left(alloc, plan, number, left.as_slice())?)
        }
        Err(PayloadStop::Fault(fault)) => bundle_refused(alloc, plan, number, fault),
        Err(PayloadStop::NoMemory) => Err(AllocError),
    }
}

// Of what the legs left of a payload.
fn bundle_left(
    alloc: Global,
    plan: &RunPlan<'_>,
    number: u64,
    left: &[LegOutcome],
) -> Result<Bundle, AllocError>
    requires { RunFits plan.now }
    ensures { IfOk result (λ made. made
        ≡ left_bundle (conf_in plan.now) number (map outcome_of left.now)) }
{
    let (texts, files) = export_all(alloc, plan.ways.as_slice(), left)?;
    let mut notes = Vec::new(alloc);
    push_notes(
        alloc,
        &mut notes,
        plan.legs.draft,
        number,
        plan.legs.legs,
        left,
    )?;
    Ok(Bundle {
        texts,
        notes: Bytes::from_vec(notes),
        totals: Totals {
            accepted: 1,
            refused: 0,
            legs: counts_of(alloc, left)?,
            files,
        },
    })
}

// The lines of each exporter, by the legs that go to it.
fn export_all(
    alloc: Global,
    ways: &[ItemList<bool>],
    left: &[LegOutcome],
) -> Result<(ItemList<Bytes>, ItemList<FileTotal>), AllocError>
    ensures texts { IfOk result (λ made. made.0
        ≡ map (λ goes. concat (lines_by goes (map outcome_of left.now))) ways.now) }
    ensures totals { IfOk result (λ made. made.1
        ≡ map (λ goes. total_by (lines_by goes (map outcome_of left.now))) ways.now) }
{
    let mut texts = ItemList::with_capacity(alloc, ways.len())?;
    let mut files = ItemList::with_capacity(alloc, ways.len())?;
    for goes in ways {
        let (text, total) = export(alloc, goes.as_slice(), left)?;
        texts.push(text)?;
        files.push(total)?;
    }
    Ok((texts, files))
}

// The lines of those legs that go to an exporter.
fn export(
    alloc: Global,
    goes: &[bool],
    left: &[LegOutcome],
) -> Result<(Bytes, FileTotal), AllocError>
    ensures text { IfOk result (λ made. made.0
        ≡ concat (lines_by goes.now (map outcome_of left.now))) }
    ensures total { IfOk result (λ made. made.1
        ≡ total_by (lines_by goes.now (map outcome_of left.now))) }
{
    let mut text = Vec::new(alloc);
    let lines = push_lines(&mut text, goes, left)?;
    let total = FileTotal {
        lines,
        bytes: text.len() as u128,
    };
    Ok((Bytes::from_vec(text), total))
}

fn counts_of(alloc: Global, left: &[LegOutcome]) -> Result<ItemList<LegCounts>, AllocError>
    ensures { IfOk result (λ counts. counts ≡ map (λ o. o.counts) (map outcome_of left.now)) }
{
    let mut counts = ItemList::with_capacity(alloc, left.len())?;
    for outcome in left {
        counts.push(outcome.counts)?;
    }
    Ok(counts)
}

// Of a refused payload.
fn bundle_refused(
    alloc: Global,
    plan: &RunPlan<'_>,
    number: u64,
    fault: PayloadFault,
) -> Result<Bundle, AllocError>
    ensures { IfOk result (λ made. made ≡ refused_bundle (conf_in plan.now) number fault) }
{
    let (texts, files) = export_none(alloc, plan.legs.draft.exporters.as_slice())?;
    let note = refused_note(alloc, number, fault)?;
    Ok(Bundle {
        texts,
        notes: Bytes::from_vec(note.into_bytes()),
        totals: Totals {
            accepted: 0,
            refused: 1,
            legs: no_counts_of(alloc, plan.legs.legs)?,
            files,
        },
    })
}

// Nothing for each exporter.
fn export_none(
    alloc: Global,
    exporters: &[Exporter],
) -> Result<(ItemList<Bytes>, ItemList<FileTotal>), AllocError>
    ensures texts { IfOk result (λ made. made.0 ≡ map (λ e. []) exporters.now) }
    ensures totals { IfOk result (λ made. made.1 ≡ map (λ e. total_by []) exporters.now) }
{
    let mut texts = ItemList::with_capacity(alloc, exporters.len())?;
    let mut files = ItemList::with_capacity(alloc, exporters.len())?;
    for exporter in exporters {
        texts.push(Bytes::from_vec(Vec::new(alloc)))?;
        files.push(FileTotal { lines: 0, bytes: 0 })?;
    }
    Ok((texts, files))
}

fn no_counts_of(alloc: Global, legs: &[Leg]) -> Result<ItemList<LegCounts>, AllocError>
    ensures { IfOk result (λ counts. counts ≡ map (λ leg. no_counts) legs.now) }
{
    let mut counts = ItemList::with_capacity(alloc, legs.len())?;
    for leg in legs {
        counts.push(NO_COUNTS)?;
    }
    Ok(counts)
}

/// The totals of no line.
pub fn no_totals(alloc: Global, plan: &RunPlan<'_>) -> Result<Totals, AllocError>
    ensures { IfOk result (λ totals. totals ≡ totals_of (conf_in plan.now) []) }
{
    let (_, files) = export_none(alloc, plan.legs.draft.exporters.as_slice())?;
    Ok(Totals {
        accepted: 0,
        refused: 0,
        legs: no_counts_of(alloc, plan.legs.legs)?,
        files,
    })
}
