//! The texts of a list's elements, joined.

ghost use Rattle.std.specs.Prelude.{string_bytes};
ghost use Rattle.contract_words.specs.Gives.{Gives};
ghost use Rattle.pdata_value.specs.Errors.{eval_fault};
ghost use Rattle.pdata_value.specs.Answers.{Answers};
ghost use Rattle.func_text.specs.Joining.{behind, each_behind, joined_of};
ghost use Rattle.pdata_value.specs.Shown.{shown};
ghost use Rattle.func_text.specs.Texts.{concat_of};

use pdata_value::{EvalStop, Text, Value, list_in, made, shown};
use std::alloc::Global;

/// The texts of a list's elements, joined by the separator. The text of nil is empty.
pub fn concat(alloc: Global, list: &Value, separator: &Text) -> Result<Value, EvalStop>
    ensures { Answers result (concat_of list.now separator.now) }
{
    let values = list_in(list)?;
    let text = joined(alloc, values.as_slice(), separator.as_str())?;
    made(Value::Text(Text::from_string(text)))
}

fn joined(alloc: Global, values: &[Value], separator: &str) -> Result<String, EvalStop>
    ensures { Gives (λ text. string_bytes text) eval_fault result
        (joined_of separator.now values.now) }
{
    let mut text = String::new(alloc);
    if let [first, rest @ ..] = values {
        push_shown(alloc, &mut text, first)?;
        push_each(alloc, &mut text, separator, rest)?;
    }
    Ok(text)
}

fn push_each(
    alloc: Global,
    text: &mut String,
    separator: &str,
    values: &[Value],
) -> Result<(), EvalStop>
    ensures { Gives (λ _. string_bytes text.new) eval_fault result
        (each_behind separator.now (string_bytes text.old) values.now) }
{
    let mut rest = values;
    while let [value, after @ ..] = rest {
        text.push_str(separator)?;
        push_shown(alloc, text, value)?;
        rest = after;
    }
    Ok(())
}

fn push_shown(alloc: Global, text: &mut String, value: &Value) -> Result<(), EvalStop>
    ensures { Gives (λ _. string_bytes text.new) eval_fault result
        (behind (string_bytes text.old) (shown value.now)) }
{
    match value {
        Value::Text(shown) => text.push_str(shown.as_str())?,
        _ => {
            if let Some(shown) = shown(alloc, value)? {
                text.push_str(shown.as_str())?;
            }
        }
    }
    Ok(())
}
