//! Lists, element by element.

ghost use Rattle.std.specs.Prelude.{◌≡◌, ◌++◌, map, IsTrue, IfOk, OnOk};
ghost use Rattle.std.specs.List.{list_all};
ghost use Rattle.json_text.specs.Reading.{is_plain};
ghost use Rattle.json_text.specs.Writing.{text_of};
ghost use Rattle.json_text.specs.declared.json.Json.{Json};
ghost use Rattle.otlp_json.specs.Line.{list_json, list_member};
ghost use Rattle.otlp_json.specs.Adding.{Adds, listed};

use crate::writing::members::push_key;
use json_text::push_comma_before;
use std::alloc::AllocError;

/// What is written as a value of JSON.
pub(crate) trait ToJson {
    /// The value of JSON that it is written as.
    ghost json: { Self → Json };

    /// Appends its text.
    fn push(&self, out: &mut Vec<u8>) -> Result<(), AllocError>
        ensures { OnOk result (out.new.items ≡ out.old.items ++ text_of (json self.now)) };
}

fn push_items<T: ToJson>(out: &mut Vec<u8>, items: &[T]) -> Result<(), AllocError>
    ensures { OnOk result (out.new.items ≡ out.old.items ++ listed T.json items.now) }
{
    for (index, item) in items.iter().enumerate() {
        push_comma_before(out, index)?;
        item.push(out)?;
    }
    Ok(())
}

/// Appends a list.
pub(crate) fn push_list<T: ToJson>(out: &mut Vec<u8>, items: &[T]) -> Result<(), AllocError>
    ensures { OnOk result
        (out.new.items ≡ out.old.items ++ text_of (list_json (map T.json items.now))) }
{
    out.push(b'[')?;
    push_items(out, items)?;
    out.push(b']')?;
    Ok(())
}

/// Appends a member that is a list, where the list isn't empty; `some` tells whether members stand
/// before it, and the answer whether members stand then.
pub(crate) fn push_list_member<T: ToJson>(
    out: &mut Vec<u8>,
    some: bool,
    key: &str,
    items: &[T],
) -> Result<bool, AllocError>
    requires { IsTrue (list_all is_plain key.now) }
    ensures { IfOk result
        (λ now. Adds (list_member key.now (map T.json items.now))
        some out.old.items now out.new.items) }
{
    if items.is_empty() {
        return Ok(some);
    }
    push_key(out, some, key)?;
    push_list(out, items)?;
    Ok(true)
}
