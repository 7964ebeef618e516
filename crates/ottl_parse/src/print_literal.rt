//! Prints literals.

ghost use Rattle.std.specs.Prelude.{◌≡◌, ◌++◌, ◌<◌, ◌≤◌, [], ◌∷◌, length, string_bytes, OnOk};
ghost use Rattle.std.specs.Char.{digit_char};
ghost use Rattle.std.specs.Fmt.{decimal, signed_decimal};
ghost use Rattle.std.specs.List.{prefix_len};
ghost use Rattle.ottl_parse.specs.Printing as spec;
ghost use Rattle.ottl_parse.specs.Printing.{escape_of, contents_text, quoted_text, hex_digits, literal_text, truth_text};

use pdata_value::Value;
use std::alloc::AllocError;

/// Appends a piece of text.
pub(crate) fn push(out: &mut String, piece: &str) -> Result<(), AllocError>
    ensures { OnOk result (string_bytes out.new ≡ string_bytes out.old ++ piece.now) }
{
    out.push_str(piece)
}

/// Appends a number in decimal.
pub(crate) fn push_number(out: &mut String, number: u64) -> Result<(), AllocError>
    ensures { OnOk result (string_bytes out.new ≡ string_bytes out.old ++ decimal number) }
{
    write!(out, "{number}")
}

fn push_int(out: &mut String, int: i64) -> Result<(), AllocError>
    ensures { OnOk result (string_bytes out.new ≡ string_bytes out.old ++ signed_decimal int) }
{
    write!(out, "{int}")
}

/// Appends a literal. No text spells one of a kind that isn't listed here.
pub(crate) fn push_literal(out: &mut String, value: &Value) -> Result<(), AllocError>
    ensures { OnOk result (string_bytes out.new ≡ string_bytes out.old ++ literal_text value.now) }
{
    match value {
        Value::Text(text) => push_quoted(out, text.as_str()),
        Value::Truth(truth) => push(out, if *truth { "true" } else { "false" }),
        Value::Int(int) => push_int(out, *int),
        Value::Bytes(bytes) => {
            push(out, "0x")?;
            push_bytes(out, bytes.as_slice())
        }
        Value::Empty | Value::Double(_) | Value::List(_) | Value::Map(_) => push(out, "nil"),
    }
}

// The character of a hexadecimal digit.
fn hex_digit(value: u8) -> char
    requires { value < 16 }
    ensures value { result ≡ digit_char value }
    ensures ascii { result < 128 }
{
    char::from(if value < 10 { b'0' + value } else { 87 + value })
}

// Two hexadecimal digits.
fn push_byte(out: &mut String, byte: u8) -> Result<(), AllocError>
    ensures { OnOk result (string_bytes out.new ≡ string_bytes out.old ++ hex_digits (byte ∷ [])) }
{
    out.push(hex_digit(byte / 16))?;
    out.push(hex_digit(byte % 16))
}

fn push_bytes(out: &mut String, bytes: &[u8]) -> Result<(), AllocError>
    ensures { OnOk result (string_bytes out.new ≡ string_bytes out.old ++ hex_digits bytes.now) }
{
    for byte in bytes {
        push_byte(out, *byte)?;
    }
    Ok(())
}

/// Appends a text in quotes.
pub(crate) fn push_quoted(out: &mut String, text: &str) -> Result<(), AllocError>
    ensures { OnOk result (string_bytes out.new ≡ string_bytes out.old ++ quoted_text text.now) }
{
    push(out, "\"")?;
    push_contents(out, text)?;
    push(out, "\"")
}

fn is_plain(byte: u8) -> bool
    ensures { result ≡ spec.is_plain byte }
{
    byte >= b' ' && byte != b'"' && byte != b'\\'
}

fn plain_len(text: &[u8]) -> usize
    ensures value { result ≡ prefix_len spec.is_plain text.now }
    ensures within { result ≤ length text.now }
{
    text.iter().take_while(|byte| is_plain(**byte)).count()
}

fn push_contents(out: &mut String, text: &str) -> Result<(), AllocError>
    ensures { OnOk result (string_bytes out.new ≡ string_bytes out.old ++ contents_text text.now) }
{
    let mut rest = text;
    'runs: loop {
        let count = plain_len(rest.as_bytes());
        push(out, &rest[..count])?;
        if count == rest.len() {
            return Ok(());
        }
        push_escape(out, rest.as_bytes()[count])?;
        rest = &rest[count + 1..];
    }
}

// The escape of a byte that can't stand for itself.
fn push_escape(out: &mut String, byte: u8) -> Result<(), AllocError>
    ensures { OnOk result (string_bytes out.new ≡ string_bytes out.old ++ escape_of byte) }
{
    if byte == b'"' {
        push(out, "\\\"")
    } else if byte == b'\\' {
        push(out, "\\\\")
    } else if byte == b'\n' {
        push(out, "\\n")
    } else if byte == b'\r' {
        push(out, "\\r")
    } else if byte == b'\t' {
        push(out, "\\t")
    } else {
        push(out, "\\x")?;
        push_byte(out, byte)
    }
}
