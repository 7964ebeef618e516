//! Texts of JSON as values.

ghost use Rattle.std.specs.Prelude.{◌≡◌, [], IfOk, map};
ghost use Rattle.pdata_value.specs.Value.{items, pairs};
ghost use Rattle.pdata_value.specs.Pairs.{put_all};
ghost use Rattle.pdata_value.specs.Answers.{Answers};
ghost use Rattle.func_code.specs.Codes.{parse_json_of};
ghost use Rattle.func_code.specs.Json.{member_of, number_of, value_of};

use func_text::spelled_int;
use item_list::ItemList;
use json_text::{Items, Json, JsonFault, JsonKind, Members};
use pdata_value::{EvalErr, EvalStop, Pairs, Spelling, Strategy, Value, Values, made, text_in};
use std::alloc::{AllocError, Global};

const MAX_BYTES: usize = 16_777_216;

const MAX_DEPTH: u32 = 64;

/// The value of a text of JSON. Integers that fit are integers, other numbers are doubles; null is
/// nil.
pub fn parse_json(alloc: Global, value: &Value) -> Result<Value, EvalStop>
    ensures { Answers result (parse_json_of value.now) }
{
    let text = text_in(value)?;
    if text.len() > MAX_BYTES {
        return Err(EvalStop::Err(EvalErr::Large));
    }
    match json_text::read(alloc, text.as_str().as_bytes(), MAX_DEPTH) {
        Ok(json) => made(value_of(alloc, &json)?),
        Err(JsonFault::NoMemory) => Err(EvalStop::NoMemory),
        Err(_) => Err(EvalStop::Err(EvalErr::BadText)),
    }
}

#[cycle(value)]
fn value_of(alloc: Global, json: &Json) -> Result<Value, AllocError>
    ensures { IfOk result (λ value. value ≡ value_of json.now) }
{
    match &json.kind {
        JsonKind::Null => Ok(Value::Empty),
        JsonKind::Truth(truth) => Ok(Value::Truth(*truth)),
        JsonKind::Number(numeral) => number_of(numeral),
        JsonKind::Text(text) => Ok(Value::Text(text.copy()?)),
        JsonKind::List(items) => Ok(Value::List(values_of(alloc, items)?)),
        JsonKind::Object(members) => Ok(Value::Map(pairs_of(alloc, members)?)),
    }
}

#[cycle(value)]
fn values_of(alloc: Global, list: &Items) -> Result<Values, AllocError>
    ensures { IfOk result (λ values. items values ≡ map value_of list.now) }
{
    let mut values = Values::new(alloc);
    for item in list.as_slice() {
        values.push(value_of(alloc, item)?)?;
    }
    Ok(values)
}

#[cycle(value)]
fn pairs_of(alloc: Global, members: &Members) -> Result<Pairs, AllocError>
    ensures { IfOk result (λ map_of. pairs map_of ≡ put_all [] (map member_of members.now)) }
{
    let mut listed = Pairs::from_list(ItemList::with_capacity(alloc, members.len())?);
    for member in members.as_slice() {
        listed.push(member.0.copy()?, value_of(alloc, &member.1)?)?;
    }
    let mut pairs = Pairs::new(alloc);
    pairs.merge(listed, Strategy::Upsert)?;
    Ok(pairs)
}

fn number_of(numeral: &Spelling) -> Result<Value, AllocError>
    ensures { IfOk result (λ value. value ≡ number_of numeral.now) }
{
    match spelled_int(numeral.as_str()) {
        Some(int) => Ok(Value::Int(int)),
        None => Ok(Value::Double(numeral.copy()?)),
    }
}
