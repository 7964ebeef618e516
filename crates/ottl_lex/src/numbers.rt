//! Digits: whole numbers, bytes literals, and the numbers inside escapes.

ghost use Rattle.std.specs.Prelude.{◌≡◌, ◌<◌, ◌≤◌, ◌^◌, IfOk};
ghost use Rattle.std.specs.Option.{SomeIff};
ghost use Rattle.std.specs.Char.{digit_value};
ghost use Rattle.ottl_lex.specs.Numbers.{numeral, hex_value, literal_bytes, digits_value};

use std::alloc::{AllocError, Global};

// The number that the first bytes write, if they are so many digits in the base.
pub(crate) fn numeral(text: &[u8], base: u32, count: usize) -> Option<u32>
    requires base { 2 ≤ base × base ≤ 16 }
    requires count { count ≤ 8 }
    ensures { result ≡ numeral base count text.now }
{
    let digits = text.get(..count)?;
    let mut value = 0;
    for digit in digits {
        value = value * base + char::from(*digit).to_digit(base)?;
    }
    Some(value)
}

fn hex_value(byte: u8) -> u8
    ensures value { result ≡ hex_value byte }
    ensures small { result < 16 }
{
    match char::from(byte).to_digit(16) {
        Some(digit) => digit as u8,
        None => 0,
    }
}

/// The bytes that a bytes literal with its `0x` writes.
pub fn read_literal(alloc: Global, literal: &[u8]) -> Result<Vec<u8>, AllocError>
    ensures { IfOk result (λ bytes. bytes.items ≡ literal_bytes literal.now) }
{
    let mut bytes = Vec::with_capacity(alloc, literal.len() / 2)?;
    let mut rest = literal.get(2..).unwrap_or(&[]);
    while let [high, low, others @ ..] = rest {
        bytes.push(16 * hex_value(*high) + hex_value(*low))?;
        rest = others;
    }
    Ok(bytes)
}

/// The number that digits write; None where it takes more than 64 bits.
pub fn read_digits(digits: &[u8]) -> Option<u64>
    ensures { SomeIff result (digits_value digits.now < 2 ^ 64) (digits_value digits.now) }
{
    let mut value: u64 = 0;
    for digit in digits {
        value = value.checked_mul(10)?.checked_add(digit_value(*digit))?;
    }
    Some(value)
}

fn digit_value(byte: u8) -> u64
    ensures value { result ≡ digit_value byte }
    ensures small { result ≤ 36 }
{
    match char::from(byte).to_digit(36) {
        Some(digit) => u64::from(digit),
        None => 36,
    }
}
