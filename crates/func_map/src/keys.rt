//! Editors by keys.

ghost use Rattle.std.specs.Prelude.{◌≡◌, IfOk};
ghost use Rattle.pdata_value.specs.Value.{pairs};
ghost use Rattle.pdata_value.specs.Pairs.{is_listed, kept, without};
ghost use Rattle.pdata_value.specs.Answers.{Answers};
ghost use Rattle.func_map.specs.Edits.{delete_key_of, keep_keys_of};

use crate::target::{new_map, target_in};
use pdata_value::{EvalStop, Pairs, Text, Value};
use std::alloc::{AllocError, Global};

/// The map without the pairs with the key.
pub fn delete_key(alloc: Global, target: &Value, key: &Text) -> Result<Option<Value>, EvalStop>
    ensures { Answers result (delete_key_of target.now key.now) }
{
    match target_in(target)? {
        Some(map) => new_map(without(alloc, map.as_slice(), key.as_str())?),
        None => Ok(None),
    }
}

#[tactic(auto, using(crate::proofs::Loops::taken, crate::proofs::Loops::left))]
fn without(alloc: Global, list: &[(Text, Value)], key: &str) -> Result<Pairs, AllocError>
    ensures { IfOk result (λ map. pairs map ≡ without list.now key.now) }
{
    let mut map = Pairs::new(alloc);
    let mut rest = list;
    while let [pair, after @ ..] = rest {
        if pair.0.as_str() != key {
            map.push(pair.0.copy()?, pair.1.copy()?)?;
        }
        rest = after;
    }
    Ok(map)
}

/// The map of the pairs with a listed key.
pub fn keep_keys(alloc: Global, target: &Value, keys: &[Text]) -> Result<Option<Value>, EvalStop>
    ensures { Answers result (keep_keys_of target.now keys.now) }
{
    match target_in(target)? {
        Some(map) => new_map(kept(alloc, map.as_slice(), keys)?),
        None => Ok(None),
    }
}

#[tactic(auto, using(crate::proofs::Loops::taken, crate::proofs::Loops::left))]
fn kept(alloc: Global, list: &[(Text, Value)], keys: &[Text]) -> Result<Pairs, AllocError>
    ensures { IfOk result (λ map. pairs map ≡ kept list.now keys.now) }
{
    let mut map = Pairs::new(alloc);
    let mut rest = list;
    while let [pair, after @ ..] = rest {
        if is_listed(keys, pair.0.as_str()) {
            map.push(pair.0.copy()?, pair.1.copy()?)?;
        }
        rest = after;
    }
    Ok(map)
}

fn is_listed(keys: &[Text], key: &str) -> bool
    ensures { result ≡ is_listed keys.now key.now }
{
    for listed in keys {
        if listed.as_str() == key {
            return true;
        }
    }
    false
}
