//! The summary of a run.

ghost use Rattle.std.specs.Prelude.{◌≡◌, ◌++◌, string_bytes, IfOk, OnOk};
ghost use Rattle.export_sink.specs.Planning.{conf_in};
ghost use Rattle.leg_model.specs.Totals as spec;
ghost use Rattle.leg_model.specs.Totals.{exporter_line, exporter_lines, leg_line, leg_lines, payloads_text, totals_text};

use crate::run_plan::RunPlan;
use crate::totals::add;
use conf_draft::Exporter;
use graph_build::Leg;
use leg_model::{FileTotal, LegCounts, Totals};
use std::alloc::{AllocError, Global};

/// The summary of these totals.
pub fn summary_text(
    alloc: Global,
    plan: &RunPlan<'_>,
    totals: &Totals,
) -> Result<Vec<u8>, AllocError>
    ensures { IfOk result (λ text. text.items ≡ totals_text (conf_in plan.now) totals.now) }
{
    let mut text = Vec::new(alloc);
    push_payloads(alloc, &mut text, totals.accepted, totals.refused)?;
    push_legs(alloc, &mut text, plan.legs.legs, totals.legs.as_slice())?;
    push_exporters(
        alloc,
        &mut text,
        plan.legs.draft.exporters.as_slice(),
        totals.files.as_slice(),
    )?;
    Ok(text)
}

fn push_payloads(
    alloc: Global,
    text: &mut Vec<u8>,
    accepted: u128,
    refused: u128,
) -> Result<(), AllocError>
    ensures { OnOk result (text.new.items ≡ text.old.items ++ payloads_text accepted refused) }
{
    let payloads = add(accepted, refused)?;
    let line = format!(in alloc; "payloads {payloads} accepted {accepted} refused {refused}\n")?;
    text.extend_from_slice(line.as_bytes())?;
    Ok(())
}

// The number of a leg.
#[tactic(auto, unfolding(leg_model::specs::Totals::leg_number))]
fn leg_number(alloc: Global, index: usize) -> Result<String, AllocError>
    ensures { IfOk result (λ text. string_bytes text ≡ spec.leg_number index) }
{
    Ok(format!(in alloc; "leg {index}")?)
}

#[tactic(auto, unfolding(leg_model::specs::Totals::flow_text))]
fn flow_text(
    alloc: Global,
    index: usize,
    leg: &Leg,
    counts: &LegCounts,
) -> Result<String, AllocError>
    ensures { IfOk result (λ text. string_bytes text ≡ spec.flow_text index leg.now counts.now) }
{
    let front = leg_number(alloc, index)?;
    let pipeline = leg.pipeline.as_str();
    let LegCounts { taken, out, .. } = *counts;
    Ok(format!(in alloc; "{front} {pipeline} in {taken} out {out}")?)
}

#[tactic(auto, unfolding(leg_model::specs::Totals::loss_text))]
fn loss_text(alloc: Global, counts: &LegCounts) -> Result<String, AllocError>
    ensures { IfOk result (λ text. string_bytes text ≡ spec.loss_text counts.now) }
{
    let LegCounts {
        filtered,
        unrouted,
        ..
    } = *counts;
    Ok(format!(in alloc; " filtered {filtered} unrouted {unrouted}")?)
}

#[tactic(auto, unfolding(leg_model::specs::Totals::failure_text))]
fn failure_text(alloc: Global, counts: &LegCounts) -> Result<String, AllocError>
    ensures { IfOk result (λ text. string_bytes text ≡ spec.failure_text counts.now) }
{
    let LegCounts { failed, errors, .. } = *counts;
    Ok(format!(in alloc; " failed {failed} errors {errors}\n")?)
}

fn push_leg(
    alloc: Global,
    text: &mut Vec<u8>,
    index: usize,
    leg: &Leg,
    counts: &LegCounts,
) -> Result<(), AllocError>
    ensures { OnOk result (text.new.items ≡ text.old.items ++ leg_line index leg.now counts.now) }
{
    let flow = flow_text(alloc, index, leg, counts)?;
    let losses = loss_text(alloc, counts)?;
    let failures = failure_text(alloc, counts)?;
    text.extend_from_slice(flow.as_bytes())?;
    text.extend_from_slice(losses.as_bytes())?;
    text.extend_from_slice(failures.as_bytes())?;
    Ok(())
}

fn push_legs(
    alloc: Global,
    text: &mut Vec<u8>,
    legs: &[Leg],
    counts: &[LegCounts],
) -> Result<(), AllocError>
    ensures { OnOk result (text.new.items ≡ text.old.items ++ leg_lines 0 legs.now counts.now) }
{
    let mut left = counts;
    for (index, leg) in legs.iter().enumerate() {
        let [counts, others @ ..] = left else {
            return Ok(());
        };
        push_leg(alloc, text, index, leg, counts)?;
        left = others;
    }
    Ok(())
}

fn push_exporter(
    alloc: Global,
    text: &mut Vec<u8>,
    exporter: &Exporter,
    total: &FileTotal,
) -> Result<(), AllocError>
    ensures { OnOk result (text.new.items
        ≡ text.old.items ++ exporter_line exporter.now total.now) }
{
    let name = exporter.name.as_str();
    let FileTotal { lines, bytes } = *total;
    let line = format!(in alloc; "exporter {name} lines {lines} bytes {bytes}\n")?;
    text.extend_from_slice(line.as_bytes())?;
    Ok(())
}

fn push_exporters(
    alloc: Global,
    text: &mut Vec<u8>,
    exporters: &[Exporter],
    totals: &[FileTotal],
) -> Result<(), AllocError>
    ensures { OnOk result (text.new.items
        ≡ text.old.items ++ exporter_lines exporters.now totals.now) }
{
    let mut exporters = exporters;
    let mut totals = totals;
    while let [exporter, others @ ..] = exporters {
        let [total, left @ ..] = totals else {
            return Ok(());
        };
        push_exporter(alloc, text, exporter, total)?;
        exporters = others;
        totals = left;
    }
    Ok(())
}
