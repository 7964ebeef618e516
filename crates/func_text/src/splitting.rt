//! Parts of texts.

ghost use Rattle.std.specs.Prelude.{◌≡◌, ◌<◌, IfOk, length, map, option_map};
ghost use Rattle.pdata_value.specs.Value.{items};
ghost use Rattle.pdata_value.specs.declared.value.Value.TheVariants as kind;
ghost use Rattle.pdata_value.specs.Answers.{Answers};
ghost use Rattle.func_text.specs.Texts.{split_of, substring_of, part_of, pieces};

use pdata_value::{EvalErr, EvalStop, Text, Value, Values, int_in, made, text_in};
use std::alloc::{AllocError, Global};

/// The pieces of a text between the occurrences of a separator.
pub fn split(alloc: Global, value: &Value, separator: &Text) -> Result<Value, EvalStop>
    ensures { Answers result (split_of value.now separator.now) }
{
    let text = text_in(value)?;
    if separator.len() == 0 {
        return Err(EvalStop::Err(EvalErr::Range));
    }
    let pieces = pieces(alloc, separator.as_str(), text.as_str())?;
    made(Value::List(pieces))
}

fn pieces(alloc: Global, separator: &str, text: &str) -> Result<Values, AllocError>
    requires { 0 < length separator.now }
    ensures { IfOk result (λ list. items list
        ≡ map (λ piece. kind.Text piece) (pieces separator.now text.now)) }
{
    let mut list = Values::new(alloc);
    let mut rest = text;
    while let Some((piece, after)) = rest.split_once(separator) {
        list.push(Value::Text(Text::from_str(alloc, piece)?))?;
        rest = after;
    }
    list.push(Value::Text(Text::from_str(alloc, rest)?))?;
    Ok(list)
}

/// So many bytes of a text from a place on.
pub fn substring(
    alloc: Global,
    value: &Value,
    start: &Value,
    length: &Value,
) -> Result<Value, EvalStop>
    ensures { Answers result (substring_of value.now start.now length.now) }
{
    let text = text_in(value)?;
    let start = int_in(start)?;
    let count = int_in(length)?;
    match part(text.as_str(), start, count) {
        Some(part) => made(Value::Text(Text::from_str(alloc, part)?)),
        None => Err(EvalStop::Err(EvalErr::Range)),
    }
}

// So many bytes from a place on, where that is a part of whole characters.
fn part(text: &str, start: i64, count: i64) -> Option<&str>
    ensures { option_map (λ part. part.now) result ≡ part_of text.now start count }
{
    if start < 0 || count <= 0 {
        return None;
    }
    let start = start as usize;
    let end = start + count as usize;
    if end > text.len() || !text.is_char_boundary(start) || !text.is_char_boundary(end) {
        return None;
    }
    Some(&text[start..end])
}
