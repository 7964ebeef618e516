//! The text of a plan: its legs.

ghost use Rattle.std.specs.Prelude.{◌≡◌, ◌++◌, string_bytes, decimal, IfOk, OnOk, Ok};
ghost use Rattle.graph_build.specs.Conf.{conf_of};
ghost use Rattle.run_texts.specs.Check as spec;
ghost use Rattle.run_texts.specs.Check.{access, leg_line, legs_text, origin, through, way};
ghost use Rattle.run_texts.specs.Said.{said_of};

use conf_draft::Draft;
use graph_build::{Leg, Plan, connector_at};
use std::alloc::{AllocError, Global};
use std::fmt::Write;

fn push_number(out: &mut String, number: usize) -> Result<(), AllocError>
    ensures { OnOk result (string_bytes out.new ≡ string_bytes out.old ++ decimal number) }
{
    write!(out, "{number}").map_err(|_| AllocError)
}

// The connector with that number of the pipeline of the leg with the number of the parent.
fn connector_of<'a>(draft: &'a Draft, legs: &[Leg], parent: u32, number: u32) -> &'a str
    ensures { result.now ≡ spec.connector_of draft.now legs.now parent number }
{
    let Some(leg) = legs.get(parent as usize) else {
        return "";
    };
    match connector_at(draft, leg.pipeline.as_str(), number) {
        Some(connector) => connector.name.as_str(),
        None => "",
    }
}

fn connector_name<'a>(draft: &'a Draft, legs: &[Leg], parent: u32, number: Option<u32>) -> &'a str
    ensures { result.now ≡ through draft.now legs.now parent number }
{
    match number {
        Some(number) => connector_of(draft, legs, parent, number),
        None => "",
    }
}

// The row of a table, or the default.
fn push_way(out: &mut String, row: Option<u32>) -> Result<(), AllocError>
    ensures { OnOk result (string_bytes out.new ≡ string_bytes out.old ++ way row) }
{
    match row {
        Some(row) => {
            out.push_str("row ")?;
            push_number(out, row as usize)
        }
        None => out.push_str("default"),
    }
}

fn push_origin(out: &mut String, draft: &Draft, legs: &[Leg], leg: &Leg) -> Result<(), AllocError>
    ensures { OnOk result (string_bytes out.new
        ≡ string_bytes out.old ++ origin draft.now legs.now leg.now) }
{
    let Some(parent) = leg.parent else {
        return out.push_str("root");
    };
    out.push_str("from ")?;
    push_number(out, parent as usize)?;
    out.push(' ')?;
    out.push_str(connector_name(draft, legs, parent, leg.connector))?;
    out.push(' ')?;
    push_way(out, leg.row)
}

fn access_word(mutates: bool) -> &'static str
    ensures { result.now ≡ access mutates }
{
    if mutates { "mutates" } else { "reads" }
}

fn push_leg(
    out: &mut String,
    draft: &Draft,
    legs: &[Leg],
    number: usize,
    leg: &Leg,
) -> Result<(), AllocError>
    ensures { OnOk result (string_bytes out.new
        ≡ string_bytes out.old ++ leg_line draft.now legs.now number leg.now) }
{
    out.push_str("leg ")?;
    push_number(out, number)?;
    out.push(' ')?;
    out.push_str(leg.pipeline.as_str())?;
    out.push(' ')?;
    push_origin(out, draft, legs, leg)?;
    out.push(' ')?;
    out.push_str(access_word(leg.mutates))?;
    out.push('\n')
}

fn text_of(alloc: Global, draft: &Draft, legs: &[Leg]) -> Result<String, AllocError>
    ensures { IfOk result (λ text. string_bytes text ≡ legs_text draft.now legs.now) }
{
    let mut out = String::from_str(alloc, "ok legs ")?;
    push_number(&mut out, legs.len())?;
    out.push('\n')?;
    for (number, leg) in legs.iter().enumerate() {
        push_leg(&mut out, draft, legs, number, leg)?;
    }
    Ok(out)
}

/// What is printed of a configuration without a fault: how many legs it has, and a line for each.
pub fn check_text(alloc: Global, plan: &Plan) -> Result<String, AllocError>
    ensures { IfOk result (λ text. said_of (conf_of plan.now) ≡ Ok (string_bytes text)) }
{
    text_of(alloc, plan.draft(), plan.legs())
}
