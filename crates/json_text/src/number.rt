//! Numbers by their spelling (RFC 8259, section 6).

ghost use Rattle.std.specs.Prelude.{◌≡◌, ◌==◌, ◌<◌, ◌≤◌, length, OnOk, IfOk};
ghost use Rattle.contract_words.specs.Gives.{Gives};
ghost use Rattle.pdata_value.specs.Numeral.{is_sign, IsNumeral};
ghost use Rattle.json_text.specs.Reading as spec;
ghost use Rattle.json_text.specs.Reading.{fault_of};

use crate::cursor::Cursor;
use crate::error::JsonFault;
use crate::scan::is_digit;

/// Passes a number, which is its spelling.
#[inline(always)]
pub fn number<'a>(cursor: &mut Cursor<'a>) -> Result<&'a str, JsonFault>
    ensures gives { Gives (λ spelled. (spelled.now, cursor.new)) fault_of result
        (spec.number cursor.old) }
    ensures numeral { IfOk result (λ spelled. IsNumeral spelled.now) }
    ensures shorter { OnOk result (length cursor.new.left < length cursor.old.left) }
{
    let whole = cursor.rest();
    pass_number(cursor)?;
    let count = whole.len() - cursor.rest().len();
    Ok(&whole[..count])
}

#[tactic(auto, unfolding(crate::specs::Reading::number_end))]
fn pass_number(cursor: &mut Cursor<'_>) -> Result<(), JsonFault>
    ensures gives { Gives (λ _. cursor.new) fault_of result (spec.number_end cursor.old) }
    ensures shorter { OnOk result (length cursor.new.left < length cursor.old.left) }
{
    skip_minus(cursor);
    integer(cursor)?;
    fraction(cursor)?;
    exponent(cursor)
}

#[inline(always)]
fn skip_minus(cursor: &mut Cursor<'_>)
    ensures moved { cursor.new ≡ spec.passed (λ b. b == 45) cursor.old }
    ensures no_longer { length cursor.new.left ≤ length cursor.old.left }
{
    if cursor.peek() == b'-' {
        cursor.step();
    }
}

#[inline(always)]
fn skip_sign(cursor: &mut Cursor<'_>)
    ensures moved { cursor.new ≡ spec.passed is_sign cursor.old }
    ensures no_longer { length cursor.new.left ≤ length cursor.old.left }
{
    let next = cursor.peek();
    if next == b'+' || next == b'-' {
        cursor.step();
    }
}

// 0, or digits without a leading 0.
#[inline(always)]
fn integer(cursor: &mut Cursor<'_>) -> Result<(), JsonFault>
    ensures gives { Gives (λ _. cursor.new) fault_of result (spec.integer cursor.old) }
    ensures shorter { OnOk result (length cursor.new.left < length cursor.old.left) }
{
    let first = cursor.peek();
    if !is_digit(first) {
        return Err(JsonFault::BadJson(cursor.at()));
    }
    cursor.step();
    if first != b'0' {
        cursor.skip_digits();
    }
    Ok(())
}

// One digit or more.
#[inline(always)]
fn some_digits(cursor: &mut Cursor<'_>) -> Result<(), JsonFault>
    ensures gives { Gives (λ _. cursor.new) fault_of result (spec.some_digits cursor.old) }
    ensures no_longer { OnOk result (length cursor.new.left ≤ length cursor.old.left) }
{
    if !is_digit(cursor.peek()) {
        return Err(JsonFault::BadJson(cursor.at()));
    }
    cursor.step();
    cursor.skip_digits();
    Ok(())
}

#[inline(always)]
fn fraction(cursor: &mut Cursor<'_>) -> Result<(), JsonFault>
    ensures gives { Gives (λ _. cursor.new) fault_of result (spec.fraction cursor.old) }
    ensures no_longer { OnOk result (length cursor.new.left ≤ length cursor.old.left) }
{
    if cursor.peek() != b'.' {
        return Ok(());
    }
    cursor.step();
    some_digits(cursor)
}

#[inline(always)]
fn exponent(cursor: &mut Cursor<'_>) -> Result<(), JsonFault>
    ensures gives { Gives (λ _. cursor.new) fault_of result (spec.exponent cursor.old) }
    ensures no_longer { OnOk result (length cursor.new.left ≤ length cursor.old.left) }
{
    let next = cursor.peek();
    if next != b'e' && next != b'E' {
        return Ok(());
    }
    cursor.step();
    skip_sign(cursor);
    some_digits(cursor)
}
