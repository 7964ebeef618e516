//! Rows of the table of functions. Values are noted as `nil`, `true`, `7`, `'text`, `~1.5` (a
//! double), `#0aff` (bytes), `['a nil]` and `{k='a}`; errors as `!KindOf`.

mod matches;
mod texts;

use pdata_value::{Bytes, EvalStop, Pairs, Spelling, Text, Value, Values};
use std::alloc::Global;
use std::test::Fail;

// A value without elements, by its note.
fn scalar(alloc: Global, note: &str) -> Result<Value, Fail> {
    if let Some(text) = note.strip_prefix("'") {
        return Ok(Value::Text(Text::from_str(alloc, text)?));
    }
    if let Some(spelling) = note.strip_prefix("~") {
        return Ok(Value::Double(Spelling::read(alloc, spelling)?));
    }
    if let Some(digits) = note.strip_prefix("#") {
        return Ok(Value::Bytes(Bytes::from_vec(hex::decode(alloc, digits)?)));
    }
    if let Ok(int) = note.parse::<i64>() {
        return Ok(Value::Int(int));
    }
    Ok(if note == "true" {
        Value::Truth(true)
    } else if note == "false" {
        Value::Truth(false)
    } else if note == "[]" {
        Value::List(Values::new(alloc))
    } else if note == "{}" {
        Value::Map(Pairs::new(alloc))
    } else {
        Value::Empty
    })
}

// The part of a note within brackets.
fn inside<'a>(note: &'a str, open: &str, close: &str) -> Option<&'a str> {
    match note.strip_prefix(open) {
        Some(rest) => rest.strip_suffix(close),
        None => None,
    }
}

pub(crate) fn value(alloc: Global, note: &str) -> Result<Value, Fail> {
    if let Some(elements) = inside(note, "[", "]") {
        let mut list = Values::new(alloc);
        for element in elements.split_whitespace() {
            list.push(scalar(alloc, element)?)?;
        }
        return Ok(Value::List(list));
    }
    if let Some(pairs) = inside(note, "{", "}") {
        let mut map = Pairs::new(alloc);
        for pair in pairs.split_whitespace() {
            if let Some((key, element)) = pair.split_once("=") {
                map.push(Text::from_str(alloc, key)?, scalar(alloc, element)?)?;
            }
        }
        return Ok(Value::Map(map));
    }
    scalar(alloc, note)
}

fn note_scalar(out: &mut String, value: &Value) -> Result<(), Fail> {
    let alloc = *out.allocator();
    let note = match value {
        Value::Empty => String::from_str(alloc, "nil")?,
        Value::Text(text) => format!(in alloc; "'{}", text.as_str())?,
        Value::Truth(truth) => format!(in alloc; "{}", *truth)?,
        Value::Int(int) => format!(in alloc; "{}", *int)?,
        Value::Double(spelling) => format!(in alloc; "~{}", spelling.as_str())?,
        Value::Bytes(bytes) => {
            let digits = hex::encode(alloc, bytes.as_slice())?;
            format!(in alloc; "#{}", digits.as_str())?
        }
        Value::List(_) => String::from_str(alloc, "[]")?,
        Value::Map(_) => String::from_str(alloc, "{}")?,
    };
    out.push_str(note.as_str())?;
    Ok(())
}

// The note of a value.
pub(crate) fn note(alloc: Global, value: &Value) -> Result<String, Fail> {
    let mut out = String::new(alloc);
    match value {
        Value::List(list) => {
            out.push_str("[")?;
            for (i, element) in list.as_slice().iter().enumerate() {
                out.push_str(if i == 0 { "" } else { " " })?;
                note_scalar(&mut out, element)?;
            }
            out.push_str("]")?;
        }
        Value::Map(map) => {
            out.push_str("{")?;
            for (i, pair) in map.as_slice().iter().enumerate() {
                out.push_str(if i == 0 { "" } else { " " })?;
                out.push_str(pair.0.as_str())?;
                out.push_str("=")?;
                note_scalar(&mut out, &pair.1)?;
            }
            out.push_str("}")?;
        }
        _ => note_scalar(&mut out, value)?,
    }
    Ok(out)
}

// The note of an answer.
pub(crate) fn answer(alloc: Global, answer: Result<Value, EvalStop>) -> Result<String, Fail> {
    match answer {
        Ok(value) => note(alloc, &value),
        Err(EvalStop::Err(error)) => Ok(format!(in alloc; "!{}", error)?),
        Err(EvalStop::NoMemory) => Err(Fail::from("no memory")),
    }
}
