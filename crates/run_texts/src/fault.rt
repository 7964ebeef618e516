//! The note of a configuration's fault.

ghost use Rattle.std.specs.Prelude.{◌≡◌, ◌++◌, string_bytes, IfOk, OnOk};
ghost use Rattle.run_texts.specs.Fault.{inner_text, note_of};

use conf_json::{ConfFault, Inner};
use std::alloc::{AllocError, Global};
use std::fmt::Write;

// What is wrong with a statement.
fn push_inner(out: &mut String, inner: Option<Inner>) -> Result<(), AllocError>
    ensures { OnOk result (string_bytes out.new ≡ string_bytes out.old ++ inner_text inner) }
{
    match inner {
        Some(Inner::Syntax(fault)) => write!(out, " {fault}").map_err(|_| AllocError),
        Some(Inner::Plan(fault)) => write!(out, " {fault}").map_err(|_| AllocError),
        None => Ok(()),
    }
}

/// The number and the name of the fault, and its place; of a statement also what is wrong with it.
pub fn fault_note(alloc: Global, fault: &ConfFault) -> Result<String, AllocError>
    ensures { IfOk result (λ note. string_bytes note ≡ note_of fault.now) }
{
    let kind = fault.kind;
    let number = kind.number();
    let at = fault.at.as_str();
    let mut note = format!(in alloc; "conf {number} {kind} at ${at}")?;
    push_inner(&mut note, fault.inner)?;
    note.push('\n')?;
    Ok(note)
}
