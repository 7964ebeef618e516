//! Texts with their quotes (RFC 8259, section 7).

ghost use Rattle.std.specs.Prelude.{◌<◌, ◌≤◌, ℕ, length, string_bytes, OnOk};
ghost use Rattle.contract_words.specs.Gives.{Gives};
ghost use Rattle.json_text.specs.Reading as spec;
ghost use Rattle.json_text.specs.Reading.{with_front, fault_of};

use crate::cursor::Cursor;
use crate::error::JsonFault;
use crate::escape::escape;
use pdata_value::Text;
use std::alloc::Global;

/// Passes a text. One without escapes is copied at once.
pub fn text(alloc: Global, cursor: &mut Cursor<'_>) -> Result<Text, JsonFault>
    ensures gives { Gives (λ t. (t, cursor.new)) fault_of result (spec.quoted cursor.old) }
    ensures shorter { OnOk result (length cursor.new.left < length cursor.old.left) }
{
    cursor.expect(b'"')?;
    let run = cursor.plain_run();
    if cursor.peek() == b'"' {
        cursor.step();
        return Ok(Text::from_str(alloc, run)?);
    }
    let mut spelled = String::from_str(alloc, run)?;
    unescape(cursor, &mut spelled)?;
    Ok(Text::from_string(spelled))
}

// Appends what stands up to the closing quote, which is passed.
fn unescape(cursor: &mut Cursor<'_>, spelled: &mut String) -> Result<(), JsonFault>
    ensures gives { (n : ℕ) → length cursor.old.left < n
        → Gives (λ _. (string_bytes spelled.new, cursor.new)) fault_of result
        (with_front (string_bytes spelled.old) (spec.text n cursor.old)) }
    ensures no_longer { OnOk result (length cursor.new.left ≤ length cursor.old.left) }
{
    'pieces: loop {
        let run = cursor.plain_run();
        spelled.push_str(run)?;
        let next = cursor.peek();
        if next == b'"' {
            cursor.step();
            return Ok(());
        }
        if next != b'\\' {
            return Err(JsonFault::BadJson(cursor.at()));
        }
        cursor.step();
        let character = escape(cursor)?;
        spelled.push(character)?;
    }
}
