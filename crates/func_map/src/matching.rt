//! Editors by keys that have a match. Each stands twice: with a pattern, for which it makes a
//! matcher for the one call, and with a matcher that the caller keeps.

ghost use Rattle.std.specs.Prelude.{◌≡◌, IfOk};
ghost use Rattle.pdata_value.specs.Value.{pairs};
ghost use Rattle.pdata_value.specs.Answers.{Answers};
ghost use Rattle.func_map.specs.Edits.{delete_matching_keys_of, keep_matching_keys_of, matched, unmatched};

use crate::target::{new_map, target_in};
use func_text::{Pattern, PatternMatcher};
use pdata_value::{EvalStop, Pairs, Text, Value};
use std::alloc::{AllocError, Global};

/// The map without the pairs whose key has a match.
pub fn delete_matching_keys(
    alloc: Global,
    target: &Value,
    pattern: &Pattern,
) -> Result<Option<Value>, EvalStop>
    ensures { Answers result (delete_matching_keys_of target.now pattern.now) }
{
    let mut matcher = pattern.matcher(alloc)?;
    delete_matching_keys_with(alloc, target, &mut matcher)
}

/// As `delete_matching_keys`.
pub fn delete_matching_keys_with(
    alloc: Global,
    target: &Value,
    matcher: &mut PatternMatcher<'_>,
) -> Result<Option<Value>, EvalStop>
    ensures answer { Answers result (delete_matching_keys_of target.now matcher.old) }
    ensures same { matcher.new ≡ matcher.old }
{
    match target_in(target)? {
        Some(map) => new_map(unmatched(alloc, map.as_slice(), matcher)?),
        None => Ok(None),
    }
}

/// The map of the pairs whose key has a match.
pub fn keep_matching_keys(
    alloc: Global,
    target: &Value,
    pattern: &Pattern,
) -> Result<Option<Value>, EvalStop>
    ensures { Answers result (keep_matching_keys_of target.now pattern.now) }
{
    let mut matcher = pattern.matcher(alloc)?;
    keep_matching_keys_with(alloc, target, &mut matcher)
}

/// As `keep_matching_keys`.
pub fn keep_matching_keys_with(
    alloc: Global,
    target: &Value,
    matcher: &mut PatternMatcher<'_>,
) -> Result<Option<Value>, EvalStop>
    ensures answer { Answers result (keep_matching_keys_of target.now matcher.old) }
    ensures same { matcher.new ≡ matcher.old }
{
    match target_in(target)? {
        Some(map) => new_map(matched(alloc, map.as_slice(), matcher)?),
        None => Ok(None),
    }
}

#[tactic(auto, using(crate::proofs::Loops::taken, crate::proofs::Loops::left))]
fn unmatched(
    alloc: Global,
    list: &[(Text, Value)],
    matcher: &mut PatternMatcher<'_>,
) -> Result<Pairs, AllocError>
    ensures value { IfOk result (λ map. pairs map ≡ unmatched matcher.old list.now) }
    ensures same { matcher.new ≡ matcher.old }
{
    let mut map = Pairs::new(alloc);
    let mut rest = list;
    while let [pair, after @ ..] = rest {
        if !matcher.has_match(pair.0.as_str()) {
            map.push(pair.0.copy()?, pair.1.copy()?)?;
        }
        rest = after;
    }
    Ok(map)
}

#[tactic(auto, using(crate::proofs::Loops::taken, crate::proofs::Loops::left))]
fn matched(
    alloc: Global,
    list: &[(Text, Value)],
    matcher: &mut PatternMatcher<'_>,
) -> Result<Pairs, AllocError>
    ensures value { IfOk result (λ map. pairs map ≡ matched matcher.old list.now) }
    ensures same { matcher.new ≡ matcher.old }
{
    let mut map = Pairs::new(alloc);
    let mut rest = list;
    while let [pair, after @ ..] = rest {
        if matcher.has_match(pair.0.as_str()) {
            map.push(pair.0.copy()?, pair.1.copy()?)?;
        }
        rest = after;
    }
    Ok(map)
}
