//! Texts, truths, numbers, ids, bytes and doubles, straight from the text.

ghost use Rattle.std.specs.Prelude.{◌≡◌, ◌<◌, ◌&&◌, length, nat_lt, IfOk, IsTrue, OnOk, Ok, Some};
ghost use Rattle.std.specs.List.{list_all};
ghost use Rattle.pdata_value.specs.Numeral.{IsNumeral};
ghost use Rattle.json_text.specs.Reading.{these};
ghost use Rattle.otlp_json.specs.Fields.{text_in, truth_in, u64_in, u32_in, i64_in, i32_in, id_in};
ghost use Rattle.otlp_json.specs.Fields.{spelled_in, numeral_in, bytes_in, double_in};
ghost use Rattle.otlp_json.specs.Direct.{plainly, Stands};

use crate::direct::{Bend, Direct};
use crate::fields::id_bytes;
use crate::number::{signed_of, small_signed_of, small_unsigned_of, unsigned_of};
use base64::DecodeAllocError;
use base64::engine::general_purpose::STANDARD;
use json_text::{number_next, text_next};
use pdata_value::{Bytes, Spelling, SpellingStop, Text};

pub(super) fn text(direct: &mut Direct<'_>, depth: u32) -> Result<Text, Bend>
    ensures stands { IfOk result
        (λ text. Stands (plainly text_in) depth direct.old text direct.new) }
    ensures shorter { OnOk result (length direct.new.cursor.left < length direct.old.cursor.left) }
{
    Ok(text_next(direct.alloc, &mut direct.cursor)?)
}

// The text without escapes that stands next.
fn plain<'a>(direct: &mut Direct<'a>, depth: u32) -> Result<&'a str, Bend>
    ensures stands { IfOk result
        (λ text. Stands (plainly text_in) depth direct.old text.now direct.new) }
    ensures shorter { OnOk result (length direct.new.cursor.left < length direct.old.cursor.left) }
{
    direct.cursor.expect(b'"')?;
    let text = direct.cursor.plain_run();
    direct.cursor.expect(b'"')?;
    Ok(text)
}

/// The numeral that stands next.
pub(super) fn numeral<'a>(direct: &mut Direct<'a>, depth: u32) -> Result<&'a str, Bend>
    ensures stands { IfOk result
        (λ text. Stands (plainly numeral_in) depth direct.old text.now direct.new) }
    ensures numeral { IfOk result (λ text. IsNumeral text.now) }
    ensures shorter { OnOk result (length direct.new.cursor.left < length direct.old.cursor.left) }
{
    Ok(number_next(&mut direct.cursor)?)
}

// The numeral or the text without escapes that gives a number.
fn spelled<'a>(direct: &mut Direct<'a>, depth: u32) -> Result<&'a str, Bend>
    ensures stands { IfOk result
        (λ text. Stands (plainly spelled_in) depth direct.old text.now direct.new) }
    ensures shorter { OnOk result (length direct.new.cursor.left < length direct.old.cursor.left) }
{
    if direct.cursor.peek() == b'"' {
        return plain(direct, depth);
    }
    numeral(direct, depth)
}

/// Passes these letters.
pub(super) fn word(direct: &mut Direct<'_>, letters: &[u8]) -> Result<(), Bend>
    requires { IsTrue (list_all (λ b. nat_lt 0 b && nat_lt b 128) letters.now) }
    ensures passed { OnOk result (these letters.now direct.old.cursor ≡ Ok direct.new.cursor) }
    ensures counts { direct.new.counts ≡ direct.old.counts }
    ensures shorter { 0 < length letters.now
        → OnOk result (length direct.new.cursor.left < length direct.old.cursor.left) }
{
    for letter in letters {
        direct.cursor.expect(*letter)?;
    }
    Ok(())
}

// What a spelling gives, if it gives anything.
fn given<T: Drop>(found: Option<T>) -> Result<T, Bend>
    ensures { IfOk result (λ x. found ≡ Some x) }
{
    match found {
        Some(value) => Ok(value),
        None => Err(Bend::Unusual),
    }
}

pub(super) fn u64_next(direct: &mut Direct<'_>, depth: u32) -> Result<u64, Bend>
    ensures stands { IfOk result (λ n. Stands (plainly u64_in) depth direct.old n direct.new) }
    ensures shorter { OnOk result (length direct.new.cursor.left < length direct.old.cursor.left) }
{
    let spelled = spelled(direct, depth)?;
    given(unsigned_of(spelled))
}

pub(super) fn u32_next(direct: &mut Direct<'_>, depth: u32) -> Result<u32, Bend>
    ensures stands { IfOk result (λ n. Stands (plainly u32_in) depth direct.old n direct.new) }
    ensures shorter { OnOk result (length direct.new.cursor.left < length direct.old.cursor.left) }
{
    let spelled = spelled(direct, depth)?;
    given(small_unsigned_of(spelled))
}

pub(super) fn i32_next(direct: &mut Direct<'_>, depth: u32) -> Result<i32, Bend>
    ensures stands { IfOk result (λ n. Stands (plainly i32_in) depth direct.old n direct.new) }
    ensures shorter { OnOk result (length direct.new.cursor.left < length direct.old.cursor.left) }
{
    let spelled = numeral(direct, depth)?;
    given(small_signed_of(spelled))
}

pub(super) fn id<const N: usize>(direct: &mut Direct<'_>, depth: u32) -> Result<[u8; N], Bend>
    ensures stands { IfOk result (λ id. Stands (plainly (id_in N)) depth direct.old id direct.new) }
    ensures shorter { OnOk result (length direct.new.cursor.left < length direct.old.cursor.left) }
{
    let spelled = plain(direct, depth)?;
    match id_bytes::<N>(spelled) {
        Some(id) => Ok(id),
        None => Err(Bend::Unusual),
    }
}

pub(super) fn truth(direct: &mut Direct<'_>, depth: u32) -> Result<bool, Bend>
    ensures stands { IfOk result
        (λ truth. Stands (plainly truth_in) depth direct.old truth direct.new) }
    ensures shorter { OnOk result (length direct.new.cursor.left < length direct.old.cursor.left) }
{
    if direct.cursor.peek() == b't' {
        word(direct, b"true")?;
        return Ok(true);
    }
    word(direct, b"false")?;
    Ok(false)
}

pub(super) fn i64_next(direct: &mut Direct<'_>, depth: u32) -> Result<i64, Bend>
    ensures stands { IfOk result (λ n. Stands (plainly i64_in) depth direct.old n direct.new) }
    ensures shorter { OnOk result (length direct.new.cursor.left < length direct.old.cursor.left) }
{
    let spelled = spelled(direct, depth)?;
    given(signed_of(spelled))
}

pub(super) fn double(direct: &mut Direct<'_>, depth: u32) -> Result<Spelling, Bend>
    ensures stands { IfOk result
        (λ spelling. Stands (plainly double_in) depth direct.old spelling direct.new) }
    ensures shorter { OnOk result (length direct.new.cursor.left < length direct.old.cursor.left) }
{
    if direct.cursor.peek() == b'"' {
        return double_in_text(direct, depth);
    }
    let spelled = numeral(direct, depth)?;
    Ok(Spelling::from_text(Text::from_str(direct.alloc, spelled)?))
}

// The double that a text without escapes gives.
fn double_in_text(direct: &mut Direct<'_>, depth: u32) -> Result<Spelling, Bend>
    ensures stands { IfOk result
        (λ spelling. Stands (plainly double_in) depth direct.old spelling direct.new) }
    ensures shorter { OnOk result (length direct.new.cursor.left < length direct.old.cursor.left) }
{
    let spelled = plain(direct, depth)?;
    match Spelling::read(direct.alloc, spelled) {
        Ok(spelling) => Ok(spelling),
        Err(SpellingStop::NotDouble) => Err(Bend::Unusual),
        Err(SpellingStop::NoMemory) => Err(Bend::NoMemory),
    }
}

pub(super) fn bytes(direct: &mut Direct<'_>, depth: u32) -> Result<Bytes, Bend>
    ensures stands { IfOk result
        (λ bytes. Stands (plainly bytes_in) depth direct.old bytes direct.new) }
    ensures shorter { OnOk result (length direct.new.cursor.left < length direct.old.cursor.left) }
{
    let spelled = plain(direct, depth)?;
    match STANDARD.decode(direct.alloc, spelled.as_bytes()) {
        Ok(bytes) => Ok(Bytes::from_vec(bytes)),
        Err(DecodeAllocError::OutOfMemory) => Err(Bend::NoMemory),
        Err(DecodeAllocError::DecodeError(_)) => Err(Bend::Unusual),
    }
}
