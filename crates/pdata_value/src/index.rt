//! Keys by an index, where there are many.

ghost use Rattle.std.specs.Prelude.{◌≡◌, ◌<◌, ℕ, IfOk, IfSome, List, OnOk, Some, length, not, slice_get, take};
ghost use Rattle.std.specs.Option.{option_copied};
ghost use Rattle.pdata_value.specs.Pairs.{get, has_key, is_listed};
ghost use Rattle.pdata_value.specs.Places.{PutsAt, position};
ghost use Rattle.pdata_value.specs.Index.{at_key, Gains, Knows, Lists};
ghost use Rattle.pdata_value.specs.declared.value.Value.{Value};

use crate::pairs::{find, has_key};
use crate::text::Text;
use crate::value::Value;
use std::alloc::{AllocError, Global};
use std::collections::BTreeMap;

// So few keys are looked for, or looked through, one by one.
const FEW: usize = 32;

/// Whether so many keys are worth an index.
pub(crate) fn are_many(count: usize) -> bool {
    count > FEW
}

/// The place of each key, if many keys are looked for among many and memory suffices.
pub(crate) fn places_of<'k>(
    alloc: Global,
    list: &'k [(Text, Value)],
    lookups: usize,
) -> Option<BTreeMap<&'k str, usize>>
    ensures { IfSome result (λ index. Knows index list.now) }
{
    if are_many(lookups) && are_many(list.len()) {
        index_of(alloc, list).ok()
    } else {
        None
    }
}

/// The place of each key.
pub(crate) fn index_of(
    alloc: Global,
    list: &[(Text, Value)],
) -> Result<BTreeMap<&str, usize>, AllocError>
    ensures { IfOk result (λ index. Knows index list.now) }
{
    let mut index = BTreeMap::new(alloc);
    for (i, pair) in list.iter().enumerate() {
        let key = pair.0.as_str();
        match look_up(&index, key) {
            Some(_) => {}
            None => add_key(&mut index, key, i)?,
        }
    }
    Ok(index)
}

/// What the index has for the key.
pub(crate) fn look_up(index: &BTreeMap<&str, usize>, key: &str) -> Option<usize>
    ensures { result ≡ at_key index.now key.now }
{
    index.get(key).copied()
}

/// Gives the key this place.
pub(crate) fn add_key<'k, W: Drop>(
    index: &mut BTreeMap<&'k str, W>,
    key: &'k str,
    place: W,
) -> Result<(), AllocError>
    ensures { OnOk result (Gains index.old key.now place index.new) }
{
    index.insert(key, place)?;
    Ok(())
}

/// Where the first pair with the key stands.
#[tactic(auto, using(crate::proofs::Positions::puts_at))]
pub(crate) fn place_of(
    list: &[(Text, Value)],
    index: &Option<BTreeMap<&str, usize>>,
    key: &str,
) -> Option<usize>
    requires { IfSome index.now (λ places. Knows places list.now) }
    ensures place { result ≡ position list.now key.now }
    ensures puts { PutsAt list.now key.now result }
{
    match index {
        Some(places) => look_up(places, key),
        None => find(list, key),
    }
}

/// Whether a pair has the key.
pub(crate) fn has_place(
    list: &[(Text, Value)],
    index: &Option<BTreeMap<&str, usize>>,
    key: &str,
) -> bool
    requires { IfSome index.now (λ places. Knows places list.now) }
    ensures { result ≡ has_key list.now key.now }
{
    place_of(list, index, key).is_some()
}

/// Whether no pair before a place has the key that stands there.
pub(crate) fn is_first(
    list: &[(Text, Value)],
    index: &Option<BTreeMap<&str, usize>>,
    at: usize,
) -> bool
    requires within { at < length list.now }
    requires index { IfSome index.now (λ places. Knows places list.now) }
    ensures { (pair : List ℕ × Value) → slice_get list.now at ≡ Some pair
        → result ≡ not (has_key (take at list.now) pair.0) }
{
    match index {
        Some(places) => look_up(places, list[at].0.as_str()) == Some(at),
        None => !has_key(&list[..at], list[at].0.as_str()),
    }
}

/// The value of the first pair with the key.
pub(crate) fn value_of<'l>(
    list: &'l [(Text, Value)],
    index: &Option<BTreeMap<&str, usize>>,
    key: &str,
) -> Option<&'l Value>
    requires { IfSome index.now (λ places. Knows places list.now) }
    ensures { option_copied result ≡ get list.now key.now }
{
    match place_of(list, index, key) {
        Some(at) => Some(&list[at].1),
        None => None,
    }
}

/// The listed keys, if many keys are looked for among many and memory suffices.
pub(crate) fn keys_of<'k>(
    alloc: Global,
    keys: &'k [Text],
    lookups: usize,
) -> Option<BTreeMap<&'k str, ()>>
    ensures { IfSome result (λ index. Lists index keys.now) }
{
    if are_many(lookups) && are_many(keys.len()) {
        listing_of(alloc, keys).ok()
    } else {
        None
    }
}

fn listing_of(alloc: Global, keys: &[Text]) -> Result<BTreeMap<&str, ()>, AllocError>
    ensures { IfOk result (λ index. Lists index keys.now) }
{
    let mut index = BTreeMap::new(alloc);
    for key in keys {
        add_key(&mut index, key.as_str(), ())?;
    }
    Ok(index)
}

/// Whether the key is listed.
pub(crate) fn is_listed(keys: &[Text], index: &Option<BTreeMap<&str, ()>>, key: &str) -> bool
    requires { IfSome index.now (λ listed. Lists listed keys.now) }
    ensures { result ≡ is_listed keys.now key.now }
{
    match index {
        Some(listed) => listed.contains_key(key),
        None => stands_in(keys, key),
    }
}

fn stands_in(keys: &[Text], key: &str) -> bool
    ensures { result ≡ is_listed keys.now key.now }
{
    for listed in keys {
        if listed.as_str() == key {
            return true;
        }
    }
    false
}
