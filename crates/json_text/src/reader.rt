//! Reads a text of JSON by recursive descent.

ghost use Rattle.std.specs.Prelude.{◌≡◌, ◌<◌, ◌≤◌, ◌&&◌, ◌==◌, ℕ, length, nat_lt, IsTrue, OnOk, true, false};
ghost use Rattle.std.specs.List.{list_all};
ghost use Rattle.contract_words.specs.Gives.{Gives};
ghost use Rattle.json_text.specs.Place.{head, past, blanks};
ghost use Rattle.json_text.specs.Reading as spec;
ghost use Rattle.json_text.specs.Reading.{sequence, member, value, document, json_text, fault_of};

use crate::cursor::Cursor;
use crate::error::JsonFault;
use crate::json::{Items, Json, JsonKind, Members};
use crate::number::number;
use crate::text::text;
use item_list::ItemList;
use pdata_value::{Spelling, Text};
use std::alloc::Global;

// A list that grows from nothing begins with room for four, which is too much memory for many small
// ones.
const FIRST_ROOM: usize = 1;

/// The value that the bytes spell. Lists and objects may nest `depth` deep.
pub fn read(alloc: Global, bytes: &[u8], depth: u32) -> Result<Json, JsonFault>
    requires size { length bytes.now ≤ 16777216 }
    requires depth { depth ≤ 300 }
    ensures { Gives (λ json. json) fault_of result (json_text bytes.now depth) }
{
    match str::from_utf8(bytes) {
        Ok(text) => read_document(alloc, text, depth),
        Err(error) => Err(JsonFault::BadUtf8(error.valid_up_to() as u32)),
    }
}

#[tactic(auto, unfolding(crate::specs::Reading::document))]
fn read_document(alloc: Global, text: &str, depth: u32) -> Result<Json, JsonFault>
    requires { length text.now ≤ 16777216 }
    ensures { Gives (λ json. json) fault_of result (document depth text.now) }
{
    let mut cursor = Cursor::new(text);
    cursor.skip_blanks();
    let json = value_of(alloc, &mut cursor, depth)?;
    cursor.skip_blanks();
    if !cursor.is_at_end() {
        return Err(JsonFault::BadJson(cursor.at()));
    }
    Ok(json)
}

/// The value that stands next.
#[cycle(read)]
pub fn value_of(alloc: Global, cursor: &mut Cursor<'_>, depth: u32) -> Result<Json, JsonFault>
    ensures gives { Gives (λ json. (json, cursor.new)) fault_of result (value depth cursor.old) }
    ensures shorter { OnOk result (length cursor.new.left < length cursor.old.left) }
{
    let at = cursor.at();
    let next = cursor.peek();
    if next == b'[' {
        if depth == 0 {
            return Err(JsonFault::TooDeep(at));
        }
        cursor.step();
        let items = items_of(alloc, cursor, depth - 1)?;
        Ok(Json {
            at,
            kind: JsonKind::List(items),
        })
    } else if next == b'{' {
        if depth == 0 {
            return Err(JsonFault::TooDeep(at));
        }
        cursor.step();
        let members = members_of(alloc, cursor, depth - 1)?;
        Ok(Json {
            at,
            kind: JsonKind::Object(members),
        })
    } else {
        scalar(alloc, cursor)
    }
}

// What stands behind `[`, with the closing bracket.
#[cycle(read)]
fn items_of(alloc: Global, cursor: &mut Cursor<'_>, depth: u32) -> Result<Items, JsonFault>
    ensures gives { (n : ℕ) → length cursor.old.left < n
        → Gives (λ found. (found, cursor.new)) fault_of result
        (sequence (value depth) 93 n cursor.old) }
    ensures shorter { OnOk result (length cursor.new.left < length cursor.old.left) }
{
    if is_closed(cursor, b']') {
        return Ok(ItemList::new(alloc));
    }
    let mut found = ItemList::with_capacity(alloc, FIRST_ROOM)?;
    'items: loop {
        found.push(value_of(alloc, cursor, depth)?)?;
        if !goes_on(cursor, b']')? {
            return Ok(found);
        }
    }
}

// What stands behind `{`, with the closing brace.
#[cycle(read)]
fn members_of(alloc: Global, cursor: &mut Cursor<'_>, depth: u32) -> Result<Members, JsonFault>
    ensures gives { (n : ℕ) → length cursor.old.left < n
        → Gives (λ found. (found, cursor.new)) fault_of result
        (sequence (member (value depth)) 125 n cursor.old) }
    ensures shorter { OnOk result (length cursor.new.left < length cursor.old.left) }
{
    if is_closed(cursor, b'}') {
        return Ok(ItemList::new(alloc));
    }
    let mut found = ItemList::with_capacity(alloc, FIRST_ROOM)?;
    'members: loop {
        found.push(member_of(alloc, cursor, depth)?)?;
        if !goes_on(cursor, b'}')? {
            return Ok(found);
        }
    }
}

// A key, a colon and a value.
#[cycle(read)]
fn member_of(alloc: Global, cursor: &mut Cursor<'_>, depth: u32) -> Result<(Text, Json), JsonFault>
    ensures gives { Gives (λ pair. (pair, cursor.new)) fault_of result
        (member (value depth) cursor.old) }
    ensures shorter { OnOk result (length cursor.new.left < length cursor.old.left) }
{
    let key = text(alloc, cursor)?;
    cursor.skip_blanks();
    cursor.expect(b':')?;
    cursor.skip_blanks();
    let value = value_of(alloc, cursor, depth)?;
    Ok((key, value))
}

/// Whether nothing stands behind an opening byte. The closing one is then passed.
pub fn is_closed(cursor: &mut Cursor<'_>, close: u8) -> bool
    requires some { 0 < close }
    requires ascii { close < 128 }
    ensures closed { result ≡ true
        → (head (blanks cursor.old) ≡ close) × (cursor.new ≡ past 1 (blanks cursor.old)) }
    ensures goes_on { result ≡ false
        → ((head (blanks cursor.old) == close) ≡ false) × (cursor.new ≡ blanks cursor.old) }
    ensures no_longer { length cursor.new.left ≤ length cursor.old.left }
    ensures shorter { result ≡ true → length cursor.new.left < length cursor.old.left }
{
    cursor.skip_blanks();
    if cursor.peek() == close {
        cursor.step();
        return true;
    }
    false
}

/// Passes a comma, or the byte that closes, and tells whether it was the comma.
pub fn goes_on(cursor: &mut Cursor<'_>, close: u8) -> Result<bool, JsonFault>
    requires some { 0 < close }
    requires ascii { close < 128 }
    ensures gives { Gives (λ goes. (goes, cursor.new)) fault_of result
        (spec.comma_or close (blanks cursor.old)) }
    ensures shorter { OnOk result (length cursor.new.left < length cursor.old.left) }
{
    cursor.skip_blanks();
    let next = cursor.peek();
    if next == b',' {
        cursor.step();
        cursor.skip_blanks();
        return Ok(true);
    }
    if next == close {
        cursor.step();
        return Ok(false);
    }
    Err(JsonFault::BadJson(cursor.at()))
}

// A text, a literal or a number.
#[tactic(auto, unfolding(crate::specs::Reading::scalar))]
fn scalar(alloc: Global, cursor: &mut Cursor<'_>) -> Result<Json, JsonFault>
    ensures gives { Gives (λ json. (json, cursor.new)) fault_of result (spec.scalar cursor.old) }
    ensures shorter { OnOk result (length cursor.new.left < length cursor.old.left) }
{
    let at = cursor.at();
    let next = cursor.peek();
    if next == b'"' {
        let text = text(alloc, cursor)?;
        Ok(Json {
            at,
            kind: JsonKind::Text(text),
        })
    } else if next == b't' {
        literal(cursor, b"true")?;
        Ok(Json {
            at,
            kind: JsonKind::Truth(true),
        })
    } else if next == b'f' {
        literal(cursor, b"false")?;
        Ok(Json {
            at,
            kind: JsonKind::Truth(false),
        })
    } else if next == b'n' {
        literal(cursor, b"null")?;
        Ok(Json {
            at,
            kind: JsonKind::Null,
        })
    } else {
        let spelled = Text::from_str(alloc, number(cursor)?)?;
        Ok(Json {
            at,
            kind: JsonKind::Number(Spelling::from_text(spelled)),
        })
    }
}

fn literal(cursor: &mut Cursor<'_>, word: &[u8]) -> Result<(), JsonFault>
    requires { IsTrue (list_all (λ b. nat_lt 0 b && nat_lt b 128) word.now) }
    ensures gives { Gives (λ _. cursor.new) fault_of result (spec.these word.now cursor.old) }
    ensures shorter { 0 < length word.now
        → OnOk result (length cursor.new.left < length cursor.old.left) }
{
    for byte in word {
        cursor.expect(*byte)?;
    }
    Ok(())
}
