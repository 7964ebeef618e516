//! Writes the text of a value, without blanks.

ghost use Rattle.std.specs.Prelude.{◌≡◌, ◌++◌, ◌<◌, OnOk, IfOk};
ghost use Rattle.std.specs.Char.{digit_char};
ghost use Rattle.std.specs.List.{All};
ghost use Rattle.pdata_value.specs.Numeral.{IsNumeral};
ghost use Rattle.json_text.specs.Writing.{escape_of, bytes_text, quoted_text, truth_text, comma_before, text_of, numbers_of};

use crate::json::{Json, JsonKind};
use crate::scan::plain_len;
use std::alloc::{AllocError, Global};

/// The text of a value.
pub fn write(alloc: Global, json: &Json) -> Result<Vec<u8>, AllocError>
    requires { All IsNumeral (numbers_of json.now) }
    ensures { IfOk result (λ bytes. bytes.items ≡ text_of json.now) }
{
    let mut out = Vec::new(alloc);
    push_json(&mut out, json)?;
    Ok(out)
}

/// Appends the text of a value. An Err leaves what stood there, and some of the text behind it.
#[cycle(write)]
pub fn push_json(out: &mut Vec<u8>, json: &Json) -> Result<(), AllocError>
    ensures { OnOk result (out.new.items ≡ out.old.items ++ text_of json.now) }
{
    match &json.kind {
        JsonKind::Null => out.extend_from_slice(b"null"),
        JsonKind::Truth(truth) => push_truth(out, *truth),
        JsonKind::Number(spelling) => out.extend_from_slice(spelling.as_str().as_bytes()),
        JsonKind::Text(text) => push_text(out, text.as_str()),
        JsonKind::List(items) => {
            out.push(b'[')?;
            for (index, item) in items.as_slice().iter().enumerate() {
                push_comma_before(out, index)?;
                push_json(out, item)?;
            }
            out.push(b']')?;
            Ok(())
        }
        JsonKind::Object(members) => {
            out.push(b'{')?;
            for (index, member) in members.as_slice().iter().enumerate() {
                let (key, value) = member;
                push_comma_before(out, index)?;
                push_text(out, key.as_str())?;
                out.push(b':')?;
                push_json(out, value)?;
            }
            out.push(b'}')?;
            Ok(())
        }
    }
}

fn push_truth(out: &mut Vec<u8>, truth: bool) -> Result<(), AllocError>
    ensures { OnOk result (out.new.items ≡ out.old.items ++ truth_text truth) }
{
    if truth {
        out.extend_from_slice(b"true")
    } else {
        out.extend_from_slice(b"false")
    }
}

/// Appends the comma before each element but the first.
pub fn push_comma_before(out: &mut Vec<u8>, index: usize) -> Result<(), AllocError>
    ensures { OnOk result (out.new.items ≡ out.old.items ++ comma_before index) }
{
    if index > 0 {
        out.push(b',')?;
    }
    Ok(())
}

/// Appends a text in quotes, with the bytes that can't stand for themselves as escapes. An Err
/// leaves what stood there, and some of the text behind it.
pub fn push_text(out: &mut Vec<u8>, text: &str) -> Result<(), AllocError>
    ensures { OnOk result (out.new.items ≡ out.old.items ++ quoted_text text.now) }
{
    out.push(b'"')?;
    push_bytes(out, text.as_bytes())?;
    out.push(b'"')?;
    Ok(())
}

fn push_bytes(out: &mut Vec<u8>, bytes: &[u8]) -> Result<(), AllocError>
    ensures { OnOk result (out.new.items ≡ out.old.items ++ bytes_text bytes.now) }
{
    let mut rest = bytes;
    'runs: loop {
        let count = plain_len(rest);
        out.extend_from_slice(&rest[..count])?;
        if count == rest.len() {
            return Ok(());
        }
        push_escape(out, rest[count])?;
        rest = &rest[count + 1..];
    }
}

fn push_escape(out: &mut Vec<u8>, byte: u8) -> Result<(), AllocError>
    ensures { OnOk result (out.new.items ≡ out.old.items ++ escape_of byte) }
{
    if byte == b'"' {
        out.extend_from_slice(b"\\\"")
    } else if byte == b'\\' {
        out.extend_from_slice(b"\\\\")
    } else if byte == 8 {
        out.extend_from_slice(b"\\b")
    } else if byte == 12 {
        out.extend_from_slice(b"\\f")
    } else if byte == b'\n' {
        out.extend_from_slice(b"\\n")
    } else if byte == b'\r' {
        out.extend_from_slice(b"\\r")
    } else if byte == b'\t' {
        out.extend_from_slice(b"\\t")
    } else {
        out.extend_from_slice(b"\\u00")?;
        out.extend_from_slice(&[hex_digit(byte / 16), hex_digit(byte % 16)])
    }
}

fn hex_digit(value: u8) -> u8
    requires { value < 16 }
    ensures { result ≡ digit_char value }
{
    if value < 10 { b'0' + value } else { 87 + value }
}
