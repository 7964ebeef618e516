//! Literals, names, and keys of paths.

ghost use Rattle.std.specs.Prelude.{◌≡◌, ◌<◌, ◌^◌, length, OnOk, SomeIff, Some};
ghost use Rattle.contract_words.specs.Gives.{Gives};
ghost use Rattle.ottl_lex.specs.Names.{fault_of};
ghost use Rattle.ottl_lex.specs.Numbers.{digits_value};
ghost use Rattle.ottl_parse.specs.Place.{head};
ghost use Rattle.ottl_parse.specs.Reading as spec;
ghost use Rattle.ottl_parse.specs.Reading.{signed, bytes_of};

use crate::cursor::Cursor;
use ottl_lex::{SyntaxFault, SyntaxKind, SyntaxStop, codes, read_digits, read_literal, read_text};
use pdata_value::{Bytes, Text, Value};
use std::alloc::Global;

/// A name of this kind.
pub(crate) fn name(alloc: Global, cursor: &mut Cursor<'_>, kind: u8) -> Result<Text, SyntaxStop>
    requires { 0 < kind }
    ensures gives { Gives (λ name. (name, cursor.new)) fault_of result (bytes_of kind cursor.old) }
    ensures shorter { OnOk result (length cursor.new.left < length cursor.old.left) }
{
    if cursor.peek() != kind {
        return Err(SyntaxStop::Fault(cursor.fault(SyntaxKind::Unexpected)));
    }
    let name = Text::from_str(alloc, cursor.name())?;
    cursor.step();
    Ok(name)
}

/// The contents of a text.
#[tactic(auto, unfolding(crate::specs::Reading::text))]
pub(crate) fn text(alloc: Global, cursor: &mut Cursor<'_>) -> Result<Text, SyntaxStop>
    ensures gives { Gives (λ text. (text, cursor.new)) fault_of result (spec.text cursor.old) }
    ensures shorter { OnOk result (length cursor.new.left < length cursor.old.left) }
{
    if cursor.peek() != codes::QUOTED {
        return Err(SyntaxStop::Fault(cursor.fault(SyntaxKind::Unexpected)));
    }
    let contents = read_text(alloc, cursor.slice(), cursor.at())?;
    cursor.step();
    Ok(Text::from_string(contents))
}

fn signed(minus: bool, digits: &[u8]) -> Option<i64>
    ensures { result ≡ signed minus (digits_value digits.now) }
{
    let number = read_digits(digits)?;
    if minus {
        0_i64.checked_sub_unsigned(number)
    } else {
        0_i64.checked_add_unsigned(number)
    }
}

// Digits behind a sign, which is a minus or not.
#[tactic(auto, unfolding(crate::specs::Reading::number))]
fn number(cursor: &mut Cursor<'_>, minus: bool) -> Result<i64, SyntaxFault>
    ensures gives { Gives (λ number. (number, cursor.new)) Some result
        (spec.number minus cursor.old) }
    ensures shorter { OnOk result (length cursor.new.left < length cursor.old.left) }
{
    if cursor.peek() != codes::DIGITS {
        return Err(cursor.fault(SyntaxKind::Unexpected));
    }
    let Some(number) = signed(minus, cursor.slice()) else {
        return Err(cursor.fault(SyntaxKind::Wide));
    };
    cursor.step();
    Ok(number)
}

const MAX_INDEX: u64 = 0x7FFF_FFFF_FFFF_FFFF;

/// A number that is a key of a path.
#[tactic(auto, unfolding(crate::specs::Reading::index))]
pub(crate) fn index(cursor: &mut Cursor<'_>) -> Result<u64, SyntaxFault>
    ensures gives { Gives (λ index. (index, cursor.new)) Some result (spec.index cursor.old) }
    ensures shorter { OnOk result (length cursor.new.left < length cursor.old.left) }
{
    if cursor.peek() != codes::DIGITS {
        return Err(cursor.fault(SyntaxKind::Unexpected));
    }
    match read_digits(cursor.slice()) {
        Some(index) if index <= MAX_INDEX => {
            cursor.step();
            Ok(index)
        }
        _ => Err(cursor.fault(SyntaxKind::Wide)),
    }
}

/// A text, bytes, a number with its sign, or one of three words.
#[tactic(auto, unfolding(crate::specs::Reading::literal))]
pub(crate) fn literal(alloc: Global, cursor: &mut Cursor<'_>) -> Result<Value, SyntaxStop>
    ensures gives { Gives (λ value. (value, cursor.new)) fault_of result (spec.literal cursor.old) }
    ensures shorter { OnOk result (length cursor.new.left < length cursor.old.left) }
{
    let next = cursor.peek();
    if next == codes::QUOTED {
        Ok(Value::Text(text(alloc, cursor)?))
    } else if next == codes::HEX {
        let bytes = read_literal(alloc, cursor.slice())?;
        cursor.step();
        Ok(Value::Bytes(Bytes::from_vec(bytes)))
    } else if next == codes::DIGITS {
        Ok(Value::Int(number(cursor, false)?))
    } else if next == b'+' {
        cursor.step();
        Ok(Value::Int(number(cursor, false)?))
    } else if next == b'-' {
        cursor.step();
        Ok(Value::Int(number(cursor, true)?))
    } else if next == codes::TRUE {
        cursor.step();
        Ok(Value::Truth(true))
    } else if next == codes::FALSE {
        cursor.step();
        Ok(Value::Truth(false))
    } else if next == codes::NIL {
        cursor.step();
        Ok(Value::Empty)
    } else {
        Err(SyntaxStop::Fault(cursor.fault(SyntaxKind::Unexpected)))
    }
}
