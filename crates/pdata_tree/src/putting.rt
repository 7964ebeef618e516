//! Replacing a part of a value.

ghost use Rattle.std.specs.Prelude.{◌≡◌, ◌<◌, length, slice_get, slice_set, OnOk};
ghost use Rattle.pdata_value.specs.Answers.{Answers};
ghost use Rattle.pdata_value.specs.Pairs.{get, put};
ghost use Rattle.pdata_value.specs.Value.{items, pairs};
ghost use Rattle.pdata_value.specs.declared.value.Value.{Value, out-Value};
ghost use Rattle.pdata_value.specs.Pairs.{get, put};
ghost use Rattle.pdata_tree.specs.Walk.{in_range, or_nil, name_put, with_index, with_name, with_walk};

use crate::path::Key;
use pdata_value::{EvalErr, EvalStop, Pairs, Text, Value, Values};
use std::alloc::Global;

/// The value with its part at the end of some steps replaced.
#[cycle(below)]
pub(crate) fn put_below(
    alloc: Global,
    value: Value,
    keys: &[Key],
    new: Value,
) -> Result<Value, EvalStop>
    ensures { Answers result (with_walk keys.now new value) }
{
    match keys {
        [] => Ok(new),
        [Key::Name(name), rest @ ..] => put_name(alloc, value, name, rest, new),
        [Key::Index(index), rest @ ..] => put_index(alloc, value, *index, rest, new),
    }
}

#[cycle(below)]
fn put_name(
    alloc: Global,
    value: Value,
    name: &Text,
    keys: &[Key],
    new: Value,
) -> Result<Value, EvalStop>
    ensures { Answers result (with_name name.now (with_walk keys.now new) (out-Value value)) }
{
    match value {
        Value::Map(map) => put_in_map(alloc, map, name, keys, new),
        Value::Empty => put_in_map(alloc, Pairs::new(alloc), name, keys, new),
        _ => Err(EvalStop::Err(EvalErr::KindOf)),
    }
}

#[cycle(below)]
fn put_in_map(
    alloc: Global,
    mut map: Pairs,
    name: &Text,
    keys: &[Key],
    new: Value,
) -> Result<Value, EvalStop>
    ensures { Answers result (name_put name.now (with_walk keys.now new) (pairs map)) }
{
    let old = take_under(&mut map, name);
    let changed = put_below(alloc, old, keys, new)?;
    map.put(name.as_str(), changed)?;
    Ok(Value::Map(map))
}

#[cycle(below)]
fn put_index(
    alloc: Global,
    value: Value,
    index: u64,
    keys: &[Key],
    new: Value,
) -> Result<Value, EvalStop>
    ensures { Answers result (with_index index (with_walk keys.now new) (out-Value value)) }
{
    match value {
        Value::List(mut list) => {
            let old = take_element(&mut list, index)?;
            let changed = put_below(alloc, old, keys, new)?;
            Ok(Value::List(put_element(list, index, changed)))
        }
        _ => Err(EvalStop::Err(EvalErr::KindOf)),
    }
}

// Takes out the value under a name; what is put there next doesn't tell.
#[tactic(auto, using(crate::proofs::Puts::put_again))]
fn take_under(map: &mut Pairs, name: &Text) -> Value
    ensures value { result ≡ or_nil (get (pairs map.old) name.now) }
    ensures rest { (v : Value) → put (pairs map.new) name.now v ≡ put (pairs map.old) name.now v }
{
    match map.replace(name.as_str(), Value::Empty) {
        Ok(old) => old,
        Err(nil) => nil,
    }
}

// Takes out the element at an index, where there is one.
#[tactic(auto, using(crate::proofs::Puts::set_again))]
fn take_element(list: &mut Values, index: u64) -> Result<Value, EvalStop>
    ensures value { Answers result (in_range (slice_get (items list.old) index)) }
    ensures within { OnOk result (index < length (items list.new)) }
    ensures rest { OnOk result
        ((v : Value) → slice_set (items list.new) index v ≡ slice_set (items list.old) index v) }
{
    let index = index as usize;
    match list.at(index) {
        Some(_) => Ok(list.replace(index, Value::Empty)),
        None => Err(EvalStop::Err(EvalErr::Range)),
    }
}

fn put_element(mut list: Values, index: u64, value: Value) -> Values
    requires { index < length (items list) }
    ensures { items result ≡ slice_set (items list) index value }
{
    drop(list.replace(index as usize, value));
    list
}
