//! Texts, truths, numbers, ids, bytes and doubles.

ghost use Rattle.std.specs.Prelude.{◌≡◌};
ghost use Rattle.contract_words.specs.Gives.{Gives};
ghost use Rattle.otlp_json.specs.Reads.{fault_of, or_wrong};
ghost use Rattle.otlp_json.specs.Fields as spec;

use crate::error::{PayloadKind, PayloadStop, stop};
use crate::number::{signed_of, small_signed_of, small_unsigned_of, unsigned_of};
use base64::DecodeAllocError;
use base64::engine::general_purpose::STANDARD;
use hex::FromHex;
use json_text::{Json, Member};
use pdata_value::{Bytes, Spelling, SpellingStop, Text};
use std::alloc::Global;

#[tactic(auto, unfolding(crate::specs::Fields::members_in))]
pub(crate) fn members_of(json: &Json) -> Result<&[Member], PayloadStop>
    ensures { Gives (λ members. members.now) fault_of result (spec.members_in json.now) }
{
    match json.as_members() {
        Some(members) => Ok(members),
        None => Err(stop(PayloadKind::WrongKind, json.at)),
    }
}

#[tactic(auto, unfolding(crate::specs::Fields::items_in))]
pub(crate) fn items_of(json: &Json) -> Result<&[Json], PayloadStop>
    ensures { Gives (λ items. items.now) fault_of result (spec.items_in json.now) }
{
    match json.as_items() {
        Some(items) => Ok(items),
        None => Err(stop(PayloadKind::WrongKind, json.at)),
    }
}

#[tactic(auto, unfolding(crate::specs::Fields::text_in))]
fn str_of(json: &Json) -> Result<&str, PayloadStop>
    ensures { Gives (λ text. text.now) fault_of result (spec.text_in json.now) }
{
    match json.as_text() {
        Some(text) => Ok(text.as_str()),
        None => Err(stop(PayloadKind::WrongKind, json.at)),
    }
}

#[tactic(auto, unfolding(crate::specs::Fields::text_in))]
pub(crate) fn text_of(json: &Json) -> Result<Text, PayloadStop>
    ensures { Gives (λ text. text) fault_of result (spec.text_in json.now) }
{
    match json.as_text() {
        Some(text) => Ok(text.copy()?),
        None => Err(stop(PayloadKind::WrongKind, json.at)),
    }
}

#[tactic(auto, unfolding(crate::specs::Fields::truth_in))]
pub(crate) fn truth_of(json: &Json) -> Result<bool, PayloadStop>
    ensures { Gives (λ truth. truth) fault_of result (spec.truth_in json.now) }
{
    match json.as_truth() {
        Some(truth) => Ok(truth),
        None => Err(stop(PayloadKind::WrongKind, json.at)),
    }
}

#[tactic(auto, unfolding(crate::specs::Fields::numeral_in))]
fn numeral_of(json: &Json) -> Result<&str, PayloadStop>
    ensures { Gives (λ text. text.now) fault_of result (spec.numeral_in json.now) }
{
    match json.as_number() {
        Some(spelling) => Ok(spelling.as_str()),
        None => Err(stop(PayloadKind::WrongKind, json.at)),
    }
}

// The numeral or the text that gives a number.
#[tactic(auto, unfolding(crate::specs::Fields::spelled_in))]
fn spelled_of(json: &Json) -> Result<&str, PayloadStop>
    ensures { Gives (λ text. text.now) fault_of result (spec.spelled_in json.now) }
{
    if let Some(spelling) = json.as_number() {
        return Ok(spelling.as_str());
    }
    match json.as_text() {
        Some(text) => Ok(text.as_str()),
        None => Err(stop(PayloadKind::WrongKind, json.at)),
    }
}

// What a field holds, or its fault.
fn or_stop<T: Drop>(found: Option<T>, kind: PayloadKind, at: u32) -> Result<T, PayloadStop>
    ensures { Gives (λ x. x) fault_of result (or_wrong kind at found) }
{
    match found {
        Some(value) => Ok(value),
        None => Err(stop(kind, at)),
    }
}

#[tactic(auto, unfolding(crate::specs::Fields::u64_in))]
pub(crate) fn u64_of(json: &Json) -> Result<u64, PayloadStop>
    ensures { Gives (λ n. n) fault_of result (spec.u64_in json.now) }
{
    or_stop(
        unsigned_of(spelled_of(json)?),
        PayloadKind::BadNumber,
        json.at,
    )
}

#[tactic(auto, unfolding(crate::specs::Fields::u32_in))]
pub(crate) fn u32_of(json: &Json) -> Result<u32, PayloadStop>
    ensures { Gives (λ n. n) fault_of result (spec.u32_in json.now) }
{
    or_stop(
        small_unsigned_of(spelled_of(json)?),
        PayloadKind::BadNumber,
        json.at,
    )
}

#[tactic(auto, unfolding(crate::specs::Fields::i64_in))]
pub(crate) fn i64_of(json: &Json) -> Result<i64, PayloadStop>
    ensures { Gives (λ n. n) fault_of result (spec.i64_in json.now) }
{
    or_stop(
        signed_of(spelled_of(json)?),
        PayloadKind::BadNumber,
        json.at,
    )
}

#[tactic(auto, unfolding(crate::specs::Fields::i32_in))]
pub(crate) fn i32_of(json: &Json) -> Result<i32, PayloadStop>
    ensures { Gives (λ n. n) fault_of result (spec.i32_in json.now) }
{
    or_stop(
        small_signed_of(numeral_of(json)?),
        PayloadKind::BadNumber,
        json.at,
    )
}

/// The bytes of an id; none are spelled where it is the empty one.
pub(crate) fn id_bytes<const N: usize>(text: &str) -> Option<[u8; N]>
    ensures { result ≡ spec.id_bytes N text.now }
{
    if text.is_empty() {
        return Some([0; N]);
    }
    match <[u8; N] as FromHex>::from_hex(text) {
        Ok(id) => Some(id),
        Err(_) => None,
    }
}

#[tactic(auto, unfolding(crate::specs::Fields::id_in))]
pub(crate) fn id_of<const N: usize>(json: &Json) -> Result<[u8; N], PayloadStop>
    ensures { Gives (λ id. id) fault_of result (spec.id_in N json.now) }
{
    match id_bytes::<N>(str_of(json)?) {
        Some(id) => Ok(id),
        None => Err(stop(PayloadKind::BadId, json.at)),
    }
}

#[tactic(auto, unfolding(crate::specs::Fields::bytes_in))]
pub(crate) fn bytes_of(alloc: Global, json: &Json) -> Result<Bytes, PayloadStop>
    ensures { Gives (λ bytes. bytes) fault_of result (spec.bytes_in json.now) }
{
    match STANDARD.decode(alloc, str_of(json)?.as_bytes()) {
        Ok(bytes) => Ok(Bytes::from_vec(bytes)),
        Err(DecodeAllocError::OutOfMemory) => Err(PayloadStop::NoMemory),
        Err(DecodeAllocError::DecodeError(_)) => Err(stop(PayloadKind::BadBase64, json.at)),
    }
}

#[tactic(auto, using(crate::proofs::Doubles::spellings), unfolding(crate::specs::Fields::double_in))]
pub(crate) fn double_of(alloc: Global, json: &Json) -> Result<Spelling, PayloadStop>
    ensures { Gives (λ spelling. spelling) fault_of result (spec.double_in json.now) }
{
    if let Some(spelling) = json.as_number() {
        return Ok(spelling.copy()?);
    }
    let text = match json.as_text() {
        Some(text) => text,
        None => return Err(stop(PayloadKind::WrongKind, json.at)),
    };
    match Spelling::read(alloc, text.as_str()) {
        Ok(spelling) => Ok(spelling),
        Err(SpellingStop::NotDouble) => Err(stop(PayloadKind::BadNumber, json.at)),
        Err(SpellingStop::NoMemory) => Err(PayloadStop::NoMemory),
    }
}
