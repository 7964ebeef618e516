//! Rows of the table of functions, and vectors of FIPS 180-4 and RFC 4648.

use crate::{decode, hex_text, parse_json, sha256};
use pdata_value::{Bytes, EvalStop, Pairs, Spelling, Text, Value, Values};
use std::alloc::Global;
use std::test::Fail;

fn text(alloc: Global, text: &str) -> Result<Value, Fail> {
    Ok(Value::Text(Text::from_str(alloc, text)?))
}

fn note_value(alloc: Global, value: &Value) -> Result<String, Fail> {
    let note = match value {
        Value::Empty => String::from_str(alloc, "nil")?,
        Value::Text(text) => format!(in alloc; "'{}", text.as_str())?,
        Value::Truth(truth) => format!(in alloc; "{}", *truth)?,
        Value::Int(int) => format!(in alloc; "{}", *int)?,
        Value::Double(spelling) => format!(in alloc; "~{}", spelling.as_str())?,
        Value::Bytes(_) => String::from_str(alloc, "bytes")?,
        Value::List(list) => format!(in alloc; "[{}]", list.len())?,
        Value::Map(map) => format!(in alloc; "{{{}}}", map.len())?,
    };
    Ok(note)
}

// A text behind `'`, a scalar as it is written in JSON behind nothing, an error behind `!`.
fn note(alloc: Global, answer: Result<Value, EvalStop>) -> Result<String, Fail> {
    match answer {
        Ok(value) => note_value(alloc, &value),
        Err(EvalStop::Err(error)) => Ok(format!(in alloc; "!{}", error)?),
        Err(EvalStop::NoMemory) => Err(Fail::from("no memory")),
    }
}

#[test]
fn digests_and_digits(rt: HostRuntime) -> Result<(), Fail> {
    let alloc = rt.alloc();
    let digest = sha256(alloc, &text(alloc, "abc")?);
    assert_eq!(rt;
        note(alloc, digest)?.as_str(),
        "'ba7816bf8f01cfea414140de5dae2223b00361a396177a9cb410ff61f20015ad"
    );
    let digest = sha256(alloc, &Value::Bytes(Bytes::from_slice(alloc, b"")?));
    assert_eq!(rt;
        note(alloc, digest)?.as_str(),
        "'e3b0c44298fc1c149afbf4c8996fb92427ae41e4649b934ca495991b7852b855"
    );
    assert_eq!(rt;
        note(alloc, hex_text(alloc, &text(alloc, "abc")?))?.as_str(),
        "'616263"
    );
    let bytes = Value::Bytes(Bytes::from_slice(alloc, &[0, 255])?);
    assert_eq!(rt; note(alloc, hex_text(alloc, &bytes))?.as_str(), "'00ff");
    assert_eq!(rt;
        note(alloc, hex_text(alloc, &text(alloc, "")?))?.as_str(),
        "'"
    );
    Ok(())
}

#[test]
fn base64_is_strict(rt: HostRuntime) -> Result<(), Fail> {
    let alloc = rt.alloc();
    let code = Text::from_str(alloc, "base64")?;
    for (spelled, want) in [
        ("aGk=", "'hi"),
        ("", "'"),
        ("Zm9vYmFy", "'foobar"),
        ("aGk", "!BadText"),
        ("aGl=", "!BadText"),
        ("a-k=", "!BadText"),
        ("aGk=\n", "!BadText"),
        ("/w==", "!BadText"),
    ] {
        let decoded = decode(alloc, &text(alloc, spelled)?, &code);
        assert_eq!(rt; note(alloc, decoded)?.as_str(), want, "at {spelled}");
    }
    Ok(())
}

#[test]
fn json_is_parsed(rt: HostRuntime) -> Result<(), Fail> {
    let alloc = rt.alloc();
    for (json, want) in [
        ("null", "nil"),
        (" true ", "true"),
        ("\"\\u00e9\"", "'é"),
        ("-0", "0"),
        ("9223372036854775807", "9223372036854775807"),
        ("9223372036854775808", "~9223372036854775808"),
        ("-9223372036854775808", "-9223372036854775808"),
        ("1.0", "~1.0"),
        ("1e2", "~1e2"),
        ("[1,2.0]", "[2]"),
        ("{\"a\":1,\"b\":2,\"a\":3}", "{2}"),
        ("[", "!BadText"),
        ("", "!BadText"),
        ("01", "!BadText"),
    ] {
        let value = parse_json(alloc, &text(alloc, json)?);
        assert_eq!(rt; note(alloc, value)?.as_str(), want, "at {json}");
    }
    let Ok(Value::Map(map)) = parse_json(alloc, &text(alloc, "{\"a\":1,\"b\":2,\"a\":3}")?) else {
        return Err(Fail::from("no map"));
    };
    assert!(rt; matches!(map.at(0), Some(("a", Value::Int(3)))));
    Ok(())
}

// An object of so many members, with the keys `k0` to `k19` one after another.
fn members(alloc: Global, count: usize) -> Result<Value, Fail> {
    let mut json = String::from_str(alloc, "{")?;
    for i in 0..count {
        let comma = if i == 0 { "" } else { "," };
        let member = format!(in alloc; "{}\"k{}\":{}", comma, i % 20, i)?;
        json.push_str(member.as_str())?;
    }
    json.push_str("}")?;
    Ok(Value::Text(Text::from_string(json)))
}

#[test]
fn members_of_large_objects_are_put_in_order(rt: HostRuntime) -> Result<(), Fail> {
    let alloc = rt.alloc();
    for (count, len, first, last) in [(20usize, 20, 0, 19), (32, 20, 20, 19), (50, 20, 40, 39)] {
        let Ok(Value::Map(map)) = parse_json(alloc, &members(alloc, count)?) else {
            return Err(Fail::from("no map"));
        };
        assert_eq!(rt; map.len(), len, "of {count}");
        assert!(rt;
            matches!(map.get("k0"), Some(Value::Int(n)) if *n == first),
            "first of {count}"
        );
        let at_last = match map.as_slice().last() {
            Some(pair) => note_value(alloc, &pair.1)?,
            None => String::new(alloc),
        };
        assert_eq!(rt; at_last, format!(in alloc; "{}", last)?, "last of {count}");
    }
    Ok(())
}

// A text of so many brackets, closed again.
fn nested(alloc: Global, depth: usize) -> Result<Value, Fail> {
    let mut json = String::new(alloc);
    for _ in 0..depth {
        json.push_str("[")?;
    }
    for _ in 0..depth {
        json.push_str("]")?;
    }
    Ok(Value::Text(Text::from_string(json)))
}

#[test]
fn json_ends_at_its_limits(rt: HostRuntime) -> Result<(), Fail> {
    let alloc = rt.alloc();
    for (depth, want) in [(63usize, "[1]"), (64, "[1]"), (65, "!BadText")] {
        let value = parse_json(alloc, &nested(alloc, depth)?);
        assert_eq!(rt; note(alloc, value)?.as_str(), want, "at {depth}");
    }
    let blanks = String::from_utf8(vec![in alloc; b' '; 16_777_217]?)?;
    let value = parse_json(alloc, &Value::Text(Text::from_string(blanks)));
    assert_eq!(rt; note(alloc, value)?.as_str(), "!Large");
    Ok(())
}

// What each function answers to a value.
fn answers(alloc: Global, value: &Value) -> Result<String, Fail> {
    let code = Text::from_str(alloc, "base64")?;
    let digest = note(alloc, sha256(alloc, value))?;
    let digits = note(alloc, hex_text(alloc, value))?;
    let decoded = note(alloc, decode(alloc, value, &code))?;
    let parsed = note(alloc, parse_json(alloc, value))?;
    Ok(format!(in alloc; "{digest} {digits} {decoded} {parsed}")?)
}

#[test]
fn other_kinds_are_refused(rt: HostRuntime) -> Result<(), Fail> {
    let alloc = rt.alloc();
    let nil = answers(alloc, &Value::Empty)?;
    assert_eq!(rt;
        nil.as_str(),
        "!NilArgument !NilArgument !NilArgument !NilArgument"
    );
    let truth = answers(alloc, &Value::Truth(true))?;
    assert_eq!(rt; truth.as_str(), "!KindOf !KindOf !KindOf !KindOf");
    let double = Value::Double(Spelling::read(alloc, "1.5")?);
    let double = answers(alloc, &double)?;
    assert_eq!(rt; double.as_str(), "!Double !Double !Double !Double");
    Ok(())
}

#[test]
fn containers_are_refused(rt: HostRuntime) -> Result<(), Fail> {
    let alloc = rt.alloc();
    let list = answers(alloc, &Value::List(Values::new(alloc)))?;
    assert_eq!(rt; list.as_str(), "!KindOf !KindOf !KindOf !KindOf");
    let map = answers(alloc, &Value::Map(Pairs::new(alloc)))?;
    assert_eq!(rt; map.as_str(), "!KindOf !KindOf !KindOf !KindOf");
    Ok(())
}
