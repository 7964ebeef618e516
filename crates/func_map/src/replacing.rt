//! Replacing in the keys or the values of a map.

ghost use Rattle.std.specs.Prelude.{◌≡◌, IfOk, [], map};
ghost use Rattle.pdata_value.specs.Value.{pairs};
ghost use Rattle.pdata_value.specs.Pairs.{put_all};
ghost use Rattle.pdata_value.specs.declared.value.Value.{out-Value};
ghost use Rattle.pdata_value.specs.Answers.{Answers};
ghost use Rattle.func_map.specs.Edits.{IsMode, all_replaced, replace_all_patterns_of};
ghost use Rattle.func_map.specs.Edits.{replaced_in, replaced_key, replaced_value};

use crate::target::{new_map, target_in};
use func_text::{Pattern, PatternMatcher};
use pdata_value::{EvalStop, Pairs, Text, Value};
use std::alloc::{AllocError, Global};

/// The map with all matches replaced by what the template writes there: in each text, in the mode
/// `value`; in each key, in the mode `key`, where the pairs are put one after another.
pub fn replace_all_patterns(
    alloc: Global,
    target: &Value,
    mode: &Text,
    pattern: &Pattern,
    template: &Text,
) -> Result<Option<Value>, EvalStop>
    requires { IsMode mode.now }
    ensures { Answers result
        (replace_all_patterns_of target.now mode.now pattern.now template.now) }
{
    let mut matcher = pattern.matcher(alloc)?;
    replace_all_patterns_with(alloc, target, mode, &mut matcher, template)
}

/// As `replace_all_patterns`.
pub fn replace_all_patterns_with(
    alloc: Global,
    target: &Value,
    mode: &Text,
    matcher: &mut PatternMatcher<'_>,
    template: &Text,
) -> Result<Option<Value>, EvalStop>
    requires { IsMode mode.now }
    ensures answer { Answers result
        (replace_all_patterns_of target.now mode.now matcher.old template.now) }
    ensures same { matcher.new ≡ matcher.old }
{
    match target_in(target)? {
        Some(map) => {
            let map = all_replaced(alloc, map.as_slice(), mode.as_str(), matcher, template)?;
            new_map(map)
        }
        None => Ok(None),
    }
}

fn all_replaced(
    alloc: Global,
    list: &[(Text, Value)],
    mode: &str,
    matcher: &mut PatternMatcher<'_>,
    template: &Text,
) -> Result<Pairs, AllocError>
    ensures value { IfOk result (λ new. pairs new
        ≡ all_replaced mode.now matcher.old template.now list.now) }
    ensures same { matcher.new ≡ matcher.old }
{
    if mode == "key" {
        with_keys_replaced(alloc, list, matcher, template)
    } else {
        with_values_replaced(alloc, list, matcher, template)
    }
}

fn with_keys_replaced(
    alloc: Global,
    list: &[(Text, Value)],
    matcher: &mut PatternMatcher<'_>,
    template: &Text,
) -> Result<Pairs, AllocError>
    ensures value { IfOk result (λ new. pairs new
        ≡ put_all [] (map (replaced_key matcher.old template.now) list.now)) }
    ensures same { matcher.new ≡ matcher.old }
{
    let mut new = Pairs::new(alloc);
    let mut rest = list;
    while let [pair, after @ ..] = rest {
        let key = matcher.replace_all(alloc, pair.0.as_str(), template.as_str())?;
        new.put(key.as_str(), pair.1.copy()?)?;
        rest = after;
    }
    Ok(new)
}

#[tactic(auto, using(crate::proofs::Loops::mapped))]
fn with_values_replaced(
    alloc: Global,
    list: &[(Text, Value)],
    matcher: &mut PatternMatcher<'_>,
    template: &Text,
) -> Result<Pairs, AllocError>
    ensures value { IfOk result (λ new. pairs new
        ≡ map (replaced_value matcher.old template.now) list.now) }
    ensures same { matcher.new ≡ matcher.old }
{
    let mut new = Pairs::new(alloc);
    let mut rest = list;
    while let [pair, after @ ..] = rest {
        let value = value_replaced(alloc, &pair.1, matcher, template)?;
        new.push(pair.0.copy()?, value)?;
        rest = after;
    }
    Ok(new)
}

fn value_replaced(
    alloc: Global,
    value: &Value,
    matcher: &mut PatternMatcher<'_>,
    template: &Text,
) -> Result<Value, AllocError>
    ensures value { IfOk result (λ new. new
        ≡ replaced_in matcher.old template.now value.now (out-Value value.now)) }
    ensures same { matcher.new ≡ matcher.old }
{
    match value {
        Value::Text(text) => {
            let replaced = matcher.replace_all(alloc, text.as_str(), template.as_str())?;
            Ok(Value::Text(Text::from_string(replaced)))
        }
        _ => value.copy(),
    }
}
