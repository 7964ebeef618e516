//! The functions on patterns. Each stands twice: with a pattern, for which it makes a matcher for
//! the one call, and with a matcher that the caller keeps.

ghost use Rattle.std.specs.Prelude.{◌≡◌};
ghost use Rattle.pdata_value.specs.Answers.{Answers};
ghost use Rattle.func_text.specs.Matching.{is_match_of, extract_patterns_of, replace_pattern_of};

use crate::matcher::PatternMatcher;
use crate::pattern::Pattern;
use pdata_value::{EvalErr, EvalStop, Text, Value, made, shown, text_in};
use std::alloc::Global;

/// Whether the text of a value has a match.
pub fn is_match(alloc: Global, value: &Value, pattern: &Pattern) -> Result<Value, EvalStop>
    ensures { Answers result (is_match_of value.now pattern.now) }
{
    let mut matcher = pattern.matcher(alloc)?;
    is_match_with(alloc, value, &mut matcher)
}

/// As `is_match`.
pub fn is_match_with(
    alloc: Global,
    value: &Value,
    matcher: &mut PatternMatcher<'_>,
) -> Result<Value, EvalStop>
    ensures answer { Answers result (is_match_of value.now matcher.old) }
    ensures same { matcher.new ≡ matcher.old }
{
    match value {
        Value::Text(text) => Ok(Value::Truth(matcher.has_match(text.as_str()))),
        Value::Bytes(_) => Err(EvalStop::Err(EvalErr::KindOf)),
        _ => match shown(alloc, value)? {
            Some(text) => Ok(Value::Truth(matcher.has_match(text.as_str()))),
            None => Ok(Value::Truth(false)),
        },
    }
}

/// A map of the named groups of the first match in a text, in the pattern's order. A group that
/// took no part is the empty text; without a match the map is empty.
pub fn extract_patterns(alloc: Global, value: &Value, pattern: &Pattern) -> Result<Value, EvalStop>
    ensures { Answers result (extract_patterns_of value.now pattern.now) }
{
    let mut matcher = pattern.matcher(alloc)?;
    extract_patterns_with(alloc, value, &mut matcher)
}

/// As `extract_patterns`.
pub fn extract_patterns_with(
    alloc: Global,
    value: &Value,
    matcher: &mut PatternMatcher<'_>,
) -> Result<Value, EvalStop>
    ensures answer { Answers result (extract_patterns_of value.now matcher.old) }
    ensures same { matcher.new ≡ matcher.old }
{
    let text = text_in(value)?;
    let groups = matcher.named_groups(alloc, text.as_str())?;
    made(Value::Map(groups))
}

/// The new value, where the target is a text: all matches in it are replaced by what the template
/// writes there.
pub fn replace_pattern(
    alloc: Global,
    target: &Value,
    pattern: &Pattern,
    template: &Text,
) -> Result<Option<Value>, EvalStop>
    ensures { Answers result (replace_pattern_of target.now pattern.now template.now) }
{
    let mut matcher = pattern.matcher(alloc)?;
    replace_pattern_with(alloc, target, &mut matcher, template)
}

/// As `replace_pattern`.
pub fn replace_pattern_with(
    alloc: Global,
    target: &Value,
    matcher: &mut PatternMatcher<'_>,
    template: &Text,
) -> Result<Option<Value>, EvalStop>
    ensures answer { Answers result (replace_pattern_of target.now matcher.old template.now) }
    ensures same { matcher.new ≡ matcher.old }
{
    match target {
        Value::Text(text) => {
            let replaced = matcher.replace_all(alloc, text.as_str(), template.as_str())?;
            let value = made(Value::Text(Text::from_string(replaced)))?;
            Ok(Some(value))
        }
        _ => Ok(None),
    }
}
