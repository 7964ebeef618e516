//! The lines that an exporter gets of one payload.

ghost use Rattle.std.specs.List.{concat};
ghost use Rattle.std.specs.Prelude.{◌≡◌, ◌++◌, length, map, IfOk, OnOk};
ghost use Rattle.export_sink.specs.Left.{lines_by};
ghost use Rattle.leg_model.specs.Exports.{lines_left};
ghost use Rattle.plain_legs.specs.Views.{outcome_of};

use crate::totals::add;
use otlp_json::push_line;
use pdata_tree::Batch;
use plain_legs::LegOutcome;
use std::alloc::AllocError;

// Appends the line of a final tree, and tells how many lines that is.
fn push_left(text: &mut Vec<u8>, tree: &Option<Batch>) -> Result<u128, AllocError>
    ensures text { OnOk result (text.new.items ≡ text.old.items ++ concat (lines_left tree.now)) }
    ensures count { IfOk result (λ count. count ≡ length (lines_left tree.now)) }
{
    let Some(tree) = tree else {
        return Ok(0);
    };
    if tree.resources.is_empty() {
        return Ok(0);
    }
    push_line(text, tree)?;
    text.push(b'\n')?;
    Ok(1)
}

/// Appends the lines of those legs that go to an exporter, and tells how many lines they are.
pub(crate) fn push_lines(
    text: &mut Vec<u8>,
    goes: &[bool],
    left: &[LegOutcome],
) -> Result<u128, AllocError>
    ensures text { OnOk result (text.new.items
        ≡ text.old.items ++ concat (lines_by goes.now (map outcome_of left.now))) }
    ensures count { IfOk result
        (λ count. count ≡ length (lines_by goes.now (map outcome_of left.now))) }
{
    let mut count = 0;
    let mut goes = goes;
    let mut left = left;
    while let [goes_there, others @ ..] = goes {
        let [outcome, behind @ ..] = left else {
            return Ok(count);
        };
        if *goes_there {
            count = add(count, push_left(text, &outcome.tree)?)?;
        }
        goes = others;
        left = behind;
    }
    Ok(count)
}
