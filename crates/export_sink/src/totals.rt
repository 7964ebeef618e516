//! What is counted on the lines of an input.

ghost use Rattle.std.specs.Prelude.{◌≡◌, ◌+◌, IfOk};
ghost use Rattle.leg_model.specs.Sums as spec;
ghost use Rattle.leg_model.specs.Totals.{plus};

use item_list::ItemList;
use leg_model::{FileTotal, LegCounts, Totals};
use std::alloc::{AllocError, Global};

/// A sum past 128 bits counts as want of memory.
pub(crate) fn add(count: u128, more: u128) -> Result<u128, AllocError>
    ensures { IfOk result (λ sum. sum ≡ count + more) }
{
    match count.checked_add(more) {
        Some(sum) => Ok(sum),
        None => Err(AllocError),
    }
}

fn plus_counts(a: &LegCounts, b: &LegCounts) -> Result<LegCounts, AllocError>
    ensures { IfOk result (λ sum. sum ≡ plus a.now b.now) }
{
    Ok(LegCounts {
        taken: add(a.taken, b.taken)?,
        out: add(a.out, b.out)?,
        filtered: add(a.filtered, b.filtered)?,
        unrouted: add(a.unrouted, b.unrouted)?,
        failed: add(a.failed, b.failed)?,
        errors: add(a.errors, b.errors)?,
    })
}

fn plus_file(a: &FileTotal, b: &FileTotal) -> Result<FileTotal, AllocError>
    ensures { IfOk result (λ sum. sum ≡ spec.plus_file a.now b.now) }
{
    Ok(FileTotal {
        lines: add(a.lines, b.lines)?,
        bytes: add(a.bytes, b.bytes)?,
    })
}

fn plus_legs(
    alloc: Global,
    a: &[LegCounts],
    b: &[LegCounts],
) -> Result<ItemList<LegCounts>, AllocError>
    ensures { IfOk result (λ sums. sums ≡ spec.plus_legs a.now b.now) }
{
    let mut sums = ItemList::with_capacity(alloc, a.len())?;
    let mut a = a;
    let mut b = b;
    while let [first, others @ ..] = a {
        let [second, left @ ..] = b else {
            return Ok(sums);
        };
        sums.push(plus_counts(first, second)?)?;
        a = others;
        b = left;
    }
    Ok(sums)
}

fn plus_files(
    alloc: Global,
    a: &[FileTotal],
    b: &[FileTotal],
) -> Result<ItemList<FileTotal>, AllocError>
    ensures { IfOk result (λ sums. sums ≡ spec.plus_files a.now b.now) }
{
    let mut sums = ItemList::with_capacity(alloc, a.len())?;
    let mut a = a;
    let mut b = b;
    while let [first, others @ ..] = a {
        let [second, left @ ..] = b else {
            return Ok(sums);
        };
        sums.push(plus_file(first, second)?)?;
        a = others;
        b = left;
    }
    Ok(sums)
}

/// The totals of both, which are of one configuration. A sum past 128 bits counts as want of
/// memory.
pub fn plus_totals(alloc: Global, a: &Totals, b: &Totals) -> Result<Totals, AllocError>
    ensures { IfOk result (λ sum. sum ≡ spec.plus_totals a.now b.now) }
{
    Ok(Totals {
        accepted: add(a.accepted, b.accepted)?,
        refused: add(a.refused, b.refused)?,
        legs: plus_legs(alloc, a.legs.as_slice(), b.legs.as_slice())?,
        files: plus_files(alloc, a.files.as_slice(), b.files.as_slice())?,
    })
}
