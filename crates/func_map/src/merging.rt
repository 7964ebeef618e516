//! Merging one map into another.

ghost use Rattle.std.specs.Prelude.{◌≡◌, IfOk, OnOk};
ghost use Rattle.contract_words.specs.Gives.{Gives};
ghost use Rattle.pdata_value.specs.Errors.{eval_fault};
ghost use Rattle.pdata_value.specs.Value.{pairs};
ghost use Rattle.pdata_value.specs.declared.value.Value.{out-Value};
ghost use Rattle.pdata_value.specs.Answers.{Answers};
ghost use Rattle.func_map.specs.Edits.{IsStrategy, merge_maps_of, or_empty, other_layer, strategy_of};

use crate::target::{new_map, target_in};
use pdata_value::{EvalErr, EvalStop, Pairs, Strategy, Text, Value};
use std::alloc::{AllocError, Global};

/// The map with the pairs of another map put into it, as the strategy says: `insert` puts a key
/// that the map didn't have at the start, `update` one that it had, `upsert` each. A target that is
/// nil is the empty map.
pub fn merge_maps(
    alloc: Global,
    target: &Value,
    other: &Value,
    strategy: &Text,
) -> Result<Option<Value>, EvalStop>
    requires { IsStrategy strategy.now }
    ensures { Answers result (merge_maps_of target.now other.now strategy.now) }
{
    let old = target_in(target)?;
    let other = other_map(other)?;
    let mut map = match old {
        Some(map) => map.copy()?,
        None => Pairs::new(alloc),
    };
    map.merge(other.copy()?, strategy_of(strategy.as_str()))?;
    new_map(map)
}

// The map that is put.
fn other_map(other: &Value) -> Result<&Pairs, EvalStop>
    ensures { Gives (λ map. pairs map.now) eval_fault result (other_layer (out-Value other.now)) }
{
    match other {
        Value::Empty => Err(EvalStop::Err(EvalErr::NilArgument)),
        Value::Map(map) => Ok(map),
        _ => Err(EvalStop::Err(EvalErr::KindOf)),
    }
}

fn strategy_of(text: &str) -> Strategy
    ensures { result ≡ strategy_of text.now }
{
    if text == "insert" {
        Strategy::Insert
    } else if text == "update" {
        Strategy::Update
    } else {
        Strategy::Upsert
    }
}
