//! Values and pairs.

ghost use Rattle.std.specs.Prelude.{◌≡◌, ◌-◌, ◌≤◌, ◌<◌, None, codes};
ghost use Rattle.std.specs.Option.{option_copied};
ghost use Rattle.contract_words.specs.Gives.{Gives};
ghost use Rattle.pdata_value.specs.Pairs.{has_key};
ghost use Rattle.pdata_value.specs.declared.value.Value.TheVariants as values;
ghost use Rattle.otlp_json.specs.Reads.{fault_of};
ghost use Rattle.json_text.specs.Members.{last_standing};
ghost use Rattle.otlp_json.specs.Values.{value_in, value_table, pair_in, pair_table, pairs_in, values_in, array_in, map_in, is_value_key, only_in};

use crate::counts::{Counts, count_value};
use crate::error::PayloadStop;
use crate::fields::{bytes_of, double_of, i64_of, items_of, members_of, text_of, truth_of};
use item_list::ItemList;
use json_text::{Json, Member, has_standing, stands, stands_under};
use pdata_value::{Pairs, Text, Value, Values};
use std::alloc::Global;

/// So many values may stand in one another.
pub(crate) const LEVELS: u32 = 64;

#[tactic(auto, unfolding(crate::specs::Values::is_value_key))]
fn is_value_key(key: &str) -> bool
    ensures { result ≡ is_value_key key.now }
{
    key == "stringValue"
        || key == "boolValue"
        || key == "intValue"
        || key == "doubleValue"
        || key == "arrayValue"
        || key == "kvlistValue"
        || key == "bytesValue"
}

// The last member that counts.
fn last_standing(members: &[Member]) -> Option<&Member>
    ensures { option_copied result ≡ last_standing is_value_key None members.now }
{
    let mut found = None;
    let mut rest = members;
    while let [member, behind @ ..] = rest {
        if is_value_key(member.0.as_str()) && stands(member, behind) {
            found = Some(member);
        }
        rest = behind;
    }
    found
}

/// The value that JSON is, where so many levels of values may stand from here on.
#[cycle(value)]
#[tactic(auto, using(crate::proofs::Levels::steps), unfolding(crate::specs::Values::only_in))]
pub(crate) fn value_of(
    alloc: Global,
    counts: &mut Counts,
    json: &Json,
    levels: u32,
) -> Result<Value, PayloadStop>
    ensures { Gives (λ value. (value, counts.new)) fault_of result
        (value_in levels json.now counts.old) }
{
    count_value(counts, levels, json.at)?;
    match last_standing(members_of(json)?) {
        Some(member) => value_by(alloc, counts, member, levels - 1),
        None => Ok(Value::Empty),
    }
}

#[cycle(value)]
#[tactic(auto, unfolding(crate::specs::Values::only_in, crate::specs::Values::array_in, crate::specs::Values::map_in))]
fn value_by(
    alloc: Global,
    counts: &mut Counts,
    member: &Member,
    levels: u32,
) -> Result<Value, PayloadStop>
    ensures { Gives (λ value. (value, counts.new)) fault_of result
        (only_in levels member.now counts.old) }
{
    let json = &member.1;
    let key = member.0.as_str();
    if key == "stringValue" {
        Ok(Value::Text(text_of(json)?))
    } else if key == "boolValue" {
        Ok(Value::Truth(truth_of(json)?))
    } else if key == "intValue" {
        Ok(Value::Int(i64_of(json)?))
    } else if key == "doubleValue" {
        Ok(Value::Double(double_of(alloc, json)?))
    } else if key == "arrayValue" {
        Ok(Value::List(array_of(alloc, counts, json, levels)?))
    } else if key == "kvlistValue" {
        Ok(Value::Map(map_of(alloc, counts, json, levels)?))
    } else if key == "bytesValue" {
        Ok(Value::Bytes(bytes_of(alloc, json)?))
    } else {
        Ok(Value::Empty)
    }
}

#[cycle(value)]
#[tactic(auto, unfolding(crate::specs::Values::array_in, crate::specs::Values::values_in))]
fn array_of(
    alloc: Global,
    counts: &mut Counts,
    json: &Json,
    levels: u32,
) -> Result<Values, PayloadStop>
    ensures { Gives (λ list. (list, counts.new)) fault_of result
        (array_in levels json.now counts.old) }
{
    let mut list = Values::new(alloc);
    let mut rest = members_of(json)?;
    while let [member, behind @ ..] = rest {
        if stands_under("values", member, behind) {
            list = values_of(alloc, counts, &member.1, levels)?;
        }
        rest = behind;
    }
    Ok(list)
}

#[cycle(value)]
#[tactic(auto, unfolding(crate::specs::Values::map_in, crate::specs::Values::pairs_in))]
fn map_of(
    alloc: Global,
    counts: &mut Counts,
    json: &Json,
    levels: u32,
) -> Result<Pairs, PayloadStop>
    ensures { Gives (λ map. (map, counts.new)) fault_of result
        (map_in levels json.now counts.old) }
{
    let mut map = Pairs::new(alloc);
    let mut rest = members_of(json)?;
    while let [member, behind @ ..] = rest {
        if stands_under("values", member, behind) {
            map = pairs_of(alloc, counts, &member.1, levels)?;
        }
        rest = behind;
    }
    Ok(map)
}

#[cycle(value)]
#[tactic(auto, unfolding(crate::specs::Values::values_in))]
fn values_of(
    alloc: Global,
    counts: &mut Counts,
    json: &Json,
    levels: u32,
) -> Result<Values, PayloadStop>
    ensures { Gives (λ list. (list, counts.new)) fault_of result
        (values_in levels json.now counts.old) }
{
    let items = items_of(json)?;
    let mut list = ItemList::with_capacity(alloc, items.len())?;
    for item in items {
        list.push(value_of(alloc, counts, item, levels)?)?;
    }
    Ok(Values::from_list(list))
}

/// The pairs that JSON is, where so many levels of values may stand from here on.
#[cycle(value)]
#[tactic(auto, unfolding(crate::specs::Values::pairs_in, crate::specs::Values::pair_in))]
pub(crate) fn pairs_of(
    alloc: Global,
    counts: &mut Counts,
    json: &Json,
    levels: u32,
) -> Result<Pairs, PayloadStop>
    ensures { Gives (λ pairs. (pairs, counts.new)) fault_of result
        (pairs_in levels json.now counts.old) }
{
    let items = items_of(json)?;
    let mut list = ItemList::with_capacity(alloc, items.len())?;
    for item in items {
        list.push(pair_of(alloc, counts, item, levels)?)?;
    }
    Ok(Pairs::from_list(list))
}

#[cycle(value)]
#[tactic(auto, unfolding(crate::specs::Values::pair_in))]
fn pair_of(
    alloc: Global,
    counts: &mut Counts,
    json: &Json,
    levels: u32,
) -> Result<(Text, Value), PayloadStop>
    ensures { Gives (λ pair. (pair, counts.new)) fault_of result
        (pair_in levels json.now counts.old) }
{
    let members = members_of(json)?;
    if !has_standing(members, "value") {
        count_value(counts, levels, json.at)?;
    }
    let mut key = Text::new(alloc);
    let mut value = Value::Empty;
    let mut rest = members;
    while let [member, behind @ ..] = rest {
        if stands_under("key", member, behind) {
            key = text_of(&member.1)?;
        } else if stands_under("value", member, behind) {
            value = value_of(alloc, counts, &member.1, levels)?;
        }
        rest = behind;
    }
    Ok((key, value))
}
