//! What stands behind a backslash in a text (RFC 8259, section 7).

ghost use Rattle.std.specs.Prelude.{◌≡◌, ◌+◌, ◌*◌, ◌<◌, ◌≤◌, length, OnOk, IfOk};
ghost use Rattle.std.specs.Char as chars;
ghost use Rattle.std.specs.Char.{InScalarRange};
ghost use Rattle.contract_words.specs.Gives.{Gives};
ghost use Rattle.json_text.specs.Reading as spec;
ghost use Rattle.json_text.specs.Reading.{fault_of};

use crate::cursor::Cursor;
use crate::error::JsonFault;

/// Passes what stands behind a backslash, and tells its character.
#[tactic(auto, unfolding(crate::specs::Reading::escape))]
pub(crate) fn escape(cursor: &mut Cursor<'_>) -> Result<char, JsonFault>
    ensures gives { Gives (λ c. (c, cursor.new)) fault_of result (spec.escape cursor.old) }
    ensures shorter { OnOk result (length cursor.new.left < length cursor.old.left) }
{
    let letter = cursor.peek();
    if letter == b'u' {
        cursor.step();
        return unit(cursor);
    }
    if !is_short(letter) {
        return Err(JsonFault::BadJson(cursor.at()));
    }
    cursor.step();
    Ok(short(letter) as char)
}

fn is_short(letter: u8) -> bool
    ensures value { result ≡ spec.is_short letter }
{
    letter == b'"'
        || letter == b'\\'
        || letter == b'/'
        || letter == b'b'
        || letter == b'f'
        || letter == b'n'
        || letter == b'r'
        || letter == b't'
}

fn short(letter: u8) -> u8
    ensures { result ≡ spec.short letter }
{
    if letter == b'b' {
        8
    } else if letter == b'f' {
        12
    } else if letter == b'n' {
        b'\n'
    } else if letter == b'r' {
        b'\r'
    } else if letter == b't' {
        b'\t'
    } else {
        letter
    }
}

// The character of four digits, or of a pair of surrogates.
#[tactic(auto, unfolding(crate::specs::Reading::unit))]
fn unit(cursor: &mut Cursor<'_>) -> Result<char, JsonFault>
    ensures gives { Gives (λ c. (c, cursor.new)) fault_of result (spec.unit cursor.old) }
    ensures shorter { OnOk result (length cursor.new.left < length cursor.old.left) }
{
    let first = hex(cursor, 0, 15)?;
    if first == 13 {
        return from_d(cursor);
    }
    let second = hex(cursor, 0, 15)?;
    let code = two_more(cursor, first * 16 + second)?;
    Ok(character(code))
}

// Behind a first digit D.
#[tactic(auto, unfolding(crate::specs::Reading::from_d))]
fn from_d(cursor: &mut Cursor<'_>) -> Result<char, JsonFault>
    ensures gives { Gives (λ c. (c, cursor.new)) fault_of result (spec.from_d cursor.old) }
    ensures shorter { OnOk result (length cursor.new.left < length cursor.old.left) }
{
    let second = hex(cursor, 0, 11)?;
    let code = two_more(cursor, 208 + second)?;
    if second < 8 {
        return Ok(character(code));
    }
    low_half(cursor, code)
}

// The escape of a low surrogate, behind that of a high one.
#[tactic(auto, unfolding(crate::specs::Reading::low_half))]
fn low_half(cursor: &mut Cursor<'_>, high: u32) -> Result<char, JsonFault>
    requires least { 55296 ≤ high }
    requires most { high < 56320 }
    ensures gives { Gives (λ c. (c, cursor.new)) fault_of result (spec.low_half high cursor.old) }
    ensures shorter { OnOk result (length cursor.new.left < length cursor.old.left) }
{
    cursor.expect(b'\\')?;
    cursor.expect(b'u')?;
    hex(cursor, 13, 13)?;
    let second = hex(cursor, 12, 15)?;
    let low = two_more(cursor, 208 + second)?;
    Ok(character(65536 + (high - 55296) * 1024 + (low - 56320)))
}

fn character(code: u32) -> char
    requires { InScalarRange code }
    ensures { result ≡ code }
{
    char::from_u32(code).unwrap()
}

// Two more digits of a number.
#[tactic(auto, unfolding(crate::specs::Reading::two_more))]
fn two_more(cursor: &mut Cursor<'_>, front: u32) -> Result<u32, JsonFault>
    requires { front < 256 }
    ensures gives { Gives (λ n. (n, cursor.new)) fault_of result (spec.two_more front cursor.old) }
    ensures bounds { IfOk result (λ n. (front * 256 ≤ n) × (n < front * 256 + 256)) }
    ensures shorter { OnOk result (length cursor.new.left < length cursor.old.left) }
{
    let first = hex(cursor, 0, 15)?;
    let second = hex(cursor, 0, 15)?;
    Ok(front * 256 + first * 16 + second)
}

// A hexadecimal digit within these bounds.
fn hex(cursor: &mut Cursor<'_>, low: u32, high: u32) -> Result<u32, JsonFault>
    requires { high < 16 }
    ensures gives { Gives (λ n. (n, cursor.new)) fault_of result (spec.hex low high cursor.old) }
    ensures bounds { IfOk result (λ n. (low ≤ n) × (n ≤ high)) }
    ensures shorter { OnOk result (length cursor.new.left < length cursor.old.left) }
{
    let value = digit_value(cursor.peek());
    if value < low || high < value {
        return Err(JsonFault::BadJson(cursor.at()));
    }
    cursor.step();
    Ok(value)
}

// The value of a digit or letter, and 36 of any other byte.
fn digit_value(byte: u8) -> u32
    ensures value { result ≡ chars.digit_value byte }
    ensures some { result < 36 → 0 < byte }
    ensures ascii { result < 36 → byte < 128 }
{
    if byte < b'0' {
        36
    } else if byte < 58 {
        (byte - b'0') as u32
    } else if byte < b'A' {
        36
    } else if byte < 91 {
        (byte - 55) as u32
    } else if byte < b'a' {
        36
    } else if byte < 123 {
        (byte - 87) as u32
    } else {
        36
    }
}
