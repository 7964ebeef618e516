//! Values and pairs.

ghost use Rattle.std.specs.Prelude.{◌≡◌, ◌++◌, map, codes, IfOk, OnOk};
ghost use Rattle.std.specs.Fmt.{signed_decimal};
ghost use Rattle.base64.specs.Engines.{standard};
ghost use Rattle.base64.specs.GeneralPurpose as base64;
ghost use Rattle.json_text.specs.Writing.{quoted_text, truth_text, text_of};
ghost use Rattle.otlp_json.specs.Line as spec;
ghost use Rattle.otlp_json.specs.Line.{one_json, text_json, truth_json, values_json, value_json, pair_json};
ghost use Rattle.otlp_json.specs.Adding.{listed, pair_front};

use base64::engine::general_purpose::STANDARD;
use itoa::Buffer;
use json_text::{push_comma_before, push_text};
use pdata_value::{Spelling, Text, Value};
use std::alloc::AllocError;

fn push_text_value(out: &mut Vec<u8>, text: &str) -> Result<(), AllocError>
    ensures { OnOk result (out.new.items ≡ out.old.items
        ++ text_of (one_json (codes "stringValue") (text_json text.now))) }
{
    out.extend_from_slice(b"{\"stringValue\":")?;
    push_text(out, text)?;
    out.push(b'}')?;
    Ok(())
}

fn push_truth(out: &mut Vec<u8>, truth: bool) -> Result<(), AllocError>
    ensures { OnOk result (out.new.items ≡ out.old.items ++ truth_text truth) }
{
    if truth {
        out.extend_from_slice(b"true")
    } else {
        out.extend_from_slice(b"false")
    }
}

fn push_truth_value(out: &mut Vec<u8>, truth: bool) -> Result<(), AllocError>
    ensures { OnOk result (out.new.items ≡ out.old.items
        ++ text_of (one_json (codes "boolValue") (truth_json truth))) }
{
    out.extend_from_slice(b"{\"boolValue\":")?;
    push_truth(out, truth)?;
    out.push(b'}')?;
    Ok(())
}

fn push_int_value(out: &mut Vec<u8>, int: i64) -> Result<(), AllocError>
    ensures { OnOk result (out.new.items ≡ out.old.items
        ++ text_of (one_json (codes "intValue") (text_json (signed_decimal int)))) }
{
    let mut buffer = Buffer::new();
    out.extend_from_slice(b"{\"intValue\":")?;
    push_text(out, buffer.format(int))?;
    out.push(b'}')?;
    Ok(())
}

fn is_word(spelling: &str) -> bool
    ensures { result ≡ spec.is_word spelling.now }
{
    spelling == "NaN" || spelling == "Infinity" || spelling == "-Infinity"
}

fn push_spelling(out: &mut Vec<u8>, spelling: &str) -> Result<(), AllocError>
    ensures { OnOk result
        (out.new.items ≡ out.old.items ++ text_of (spec.double_json spelling.now)) }
{
    if is_word(spelling) {
        return push_text(out, spelling);
    }
    out.extend_from_slice(spelling.as_bytes())
}

fn push_double_value(out: &mut Vec<u8>, spelling: &Spelling) -> Result<(), AllocError>
    ensures { OnOk result (out.new.items ≡ out.old.items
        ++ text_of (one_json (codes "doubleValue") (spec.double_json spelling.now))) }
{
    out.extend_from_slice(b"{\"doubleValue\":")?;
    push_spelling(out, spelling.as_str())?;
    out.push(b'}')?;
    Ok(())
}

fn push_bytes_value(out: &mut Vec<u8>, bytes: &[u8]) -> Result<(), AllocError>
    ensures { OnOk result (out.new.items ≡ out.old.items
        ++ text_of (one_json (codes "bytesValue")
        (text_json (base64.encode_of standard bytes.now)))) }
{
    let text = STANDARD.encode(*out.allocator(), bytes)?;
    out.extend_from_slice(b"{\"bytesValue\":")?;
    push_text(out, text.as_str())?;
    out.push(b'}')?;
    Ok(())
}

/// Appends a value.
#[cycle(write)]
#[tactic(auto, using(crate::proofs::ValueJson::value_jsons, crate::proofs::Words::text_of_nil))]
pub(crate) fn push_value(out: &mut Vec<u8>, value: &Value) -> Result<(), AllocError>
    ensures { OnOk result (out.new.items ≡ out.old.items ++ text_of (value_json value.now)) }
{
    match value {
        Value::Empty => out.extend_from_slice(b"{}"),
        Value::Text(text) => push_text_value(out, text.as_str()),
        Value::Truth(truth) => push_truth_value(out, *truth),
        Value::Int(int) => push_int_value(out, *int),
        Value::Double(spelling) => push_double_value(out, spelling),
        Value::Bytes(bytes) => push_bytes_value(out, bytes.as_slice()),
        Value::List(values) => push_array(out, values.as_slice()),
        Value::Map(pairs) => push_map(out, pairs.as_slice()),
    }
}

#[cycle(write)]
fn push_array(out: &mut Vec<u8>, values: &[Value]) -> Result<(), AllocError>
    ensures { OnOk result (out.new.items ≡ out.old.items
        ++ text_of (one_json (codes "arrayValue") (values_json (map value_json values.now)))) }
{
    if values.is_empty() {
        return out.extend_from_slice(b"{\"arrayValue\":{}}");
    }
    out.extend_from_slice(b"{\"arrayValue\":{\"values\":[")?;
    push_values(out, values)?;
    out.extend_from_slice(b"]}}")?;
    Ok(())
}

#[cycle(write)]
fn push_values(out: &mut Vec<u8>, values: &[Value]) -> Result<(), AllocError>
    ensures { OnOk result (out.new.items ≡ out.old.items ++ listed value_json values.now) }
{
    for (index, value) in values.iter().enumerate() {
        push_comma_before(out, index)?;
        push_value(out, value)?;
    }
    Ok(())
}

#[cycle(write)]
fn push_map(out: &mut Vec<u8>, pairs: &[(Text, Value)]) -> Result<(), AllocError>
    ensures { OnOk result (out.new.items ≡ out.old.items
        ++ text_of (one_json (codes "kvlistValue") (values_json (map pair_json pairs.now)))) }
{
    if pairs.is_empty() {
        return out.extend_from_slice(b"{\"kvlistValue\":{}}");
    }
    out.extend_from_slice(b"{\"kvlistValue\":{\"values\":[")?;
    push_pairs(out, pairs)?;
    out.extend_from_slice(b"]}}")?;
    Ok(())
}

/// Appends pairs with commas between them.
#[cycle(write)]
pub(crate) fn push_pairs(out: &mut Vec<u8>, pairs: &[(Text, Value)]) -> Result<(), AllocError>
    ensures { OnOk result (out.new.items ≡ out.old.items ++ listed pair_json pairs.now) }
{
    for (index, pair) in pairs.iter().enumerate() {
        let (key, value) = pair;
        push_comma_before(out, index)?;
        push_pair_key(out, key.as_str())?;
        push_value(out, value)?;
        out.push(b'}')?;
    }
    Ok(())
}

// What stands before the value of a pair.
fn push_pair_key(out: &mut Vec<u8>, key: &str) -> Result<(), AllocError>
    ensures { OnOk result (out.new.items ≡ out.old.items ++ pair_front key.now) }
{
    out.extend_from_slice(b"{\"key\":")?;
    push_text(out, key)?;
    out.extend_from_slice(b",\"value\":")?;
    Ok(())
}
