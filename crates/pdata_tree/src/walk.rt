//! Reading below a value, key by key.

ghost use Rattle.std.specs.Prelude.{◌≡◌, slice_get, Some, Ok};
ghost use Rattle.std.specs.Option.{option_copied};
ghost use Rattle.contract_words.specs.Gives.{Gives};
ghost use Rattle.pdata_value.specs.Wanted.{map_of};
ghost use Rattle.pdata_value.specs.Pairs.{get};
ghost use Rattle.pdata_value.specs.Value.{items, pairs};
ghost use Rattle.pdata_tree.specs.Seen.{Sees};
ghost use Rattle.pdata_tree.specs.Walk.{below, in_range, or_nil, walk};

use crate::path::Key;
use crate::seen::Seen;
use pdata_value::{EvalErr, EvalStop, Pairs, Text, Value, Values};

/// The value at the end of some steps below a value, as it is seen there.
pub(crate) fn look_below<'a>(value: &'a Value, keys: &[Key]) -> Result<Seen<'a>, EvalStop>
    ensures { Sees result (walk keys.now value.now) }
{
    match look(value, keys) {
        Ok(Some(found)) => Ok(Seen::Lent(found)),
        Ok(None) => Ok(Seen::Made(Value::Empty)),
        Err(error) => Err(EvalStop::Err(error)),
    }
}

/// The value at the end of some steps below a map, as it is seen there. A whole map is copied.
pub fn look_map<'a>(map: &'a Pairs, keys: &[Key]) -> Result<Seen<'a>, EvalStop>
    ensures { Sees result (walk keys.now (map_of (pairs map.now))) }
{
    match keys {
        [] => Ok(Seen::Made(Value::Map(map.copy()?))),
        [Key::Name(name), rest @ ..] => look_under(map, name, rest),
        [Key::Index(_), ..] => Err(EvalStop::Err(EvalErr::KindOf)),
    }
}

#[tactic(auto, using(crate::proofs::Walks::walk_of_nil))]
fn look_under<'a>(map: &'a Pairs, name: &Text, keys: &[Key]) -> Result<Seen<'a>, EvalStop>
    ensures { Sees result (walk keys.now (or_nil (get (pairs map.now) name.now))) }
{
    match map.get(name.as_str()) {
        Some(value) => look_below(value, keys),
        None => Ok(Seen::Made(Value::Empty)),
    }
}

// None is nil.
fn look<'a>(value: &'a Value, keys: &[Key]) -> Result<Option<&'a Value>, EvalErr>
    ensures { Gives (λ found. or_nil (option_copied found)) Some result (walk keys.now value.now) }
{
    let mut found = Some(value);
    for key in keys {
        if let Some(value) = found {
            found = below(value, key)?;
        }
    }
    Ok(found)
}

fn below<'a>(value: &'a Value, key: &Key) -> Result<Option<&'a Value>, EvalErr>
    ensures { Gives (λ found. or_nil (option_copied found)) Some result (below key.now value.now) }
{
    match key {
        Key::Name(name) => match value {
            Value::Map(map) => Ok(map.get(name.as_str())),
            Value::Empty => Ok(None),
            _ => Err(EvalErr::KindOf),
        },
        Key::Index(index) => match value {
            Value::List(list) => Ok(Some(element(list, *index)?)),
            Value::Empty => Ok(None),
            _ => Err(EvalErr::KindOf),
        },
    }
}

fn element(list: &Values, index: u64) -> Result<&Value, EvalErr>
    ensures { Gives (λ value. value.now) Some result (in_range (slice_get (items list.now) index)) }
{
    match list.at(index as usize) {
        Some(value) => Ok(value),
        None => Err(EvalErr::Range),
    }
}
