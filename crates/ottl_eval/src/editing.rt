//! Editors, by the shape of their arguments.

ghost use Rattle.std.specs.Prelude.{◌≡◌};
ghost use Rattle.pdata_value.specs.Answers.{Answers};
ghost use Rattle.ottl_eval.specs.Editing as spec;

use crate::matchers::KeptMatchers;
use func_map::{
    delete_key, delete_matching_keys_with, keep_keys, keep_matching_keys_with, merge_maps,
    replace_all_patterns_with, set,
};
use func_text::{Pattern, PatternMatcher, replace_pattern_with};
use item_list::ItemList;
use ottl_plan::{ArgumentLiteral, Editor};
use pdata_value::{EvalErr, EvalStop, Text, Value};
use std::alloc::Global;

/// The new value of a target, or None where there is no action.
pub(crate) fn edited<'p>(
    alloc: Global,
    matchers: &mut KeptMatchers<'p>,
    editor: Editor,
    target: &Value,
    values: &[Value],
    literals: &'p [ArgumentLiteral],
) -> Result<Option<Value>, EvalStop>
    ensures { Answers result (spec.edited editor target.now values.now literals.now) }
{
    match values {
        [] => by_literals(alloc, matchers, editor, target, literals),
        [value] => by_one(alloc, editor, target, value, literals),
        [_, _, ..] => Err(EvalStop::Err(EvalErr::KindOf)),
    }
}

fn by_one(
    alloc: Global,
    editor: Editor,
    target: &Value,
    value: &Value,
    literals: &[ArgumentLiteral],
) -> Result<Option<Value>, EvalStop>
    ensures { Answers result (spec.by_one editor target.now value.now literals.now) }
{
    match literals {
        [] => by_value(editor, target, value),
        [literal] => by_value_and_literal(alloc, editor, target, value, literal),
        [_, _, ..] => Err(EvalStop::Err(EvalErr::KindOf)),
    }
}

fn by_value(editor: Editor, target: &Value, value: &Value) -> Result<Option<Value>, EvalStop>
    ensures { Answers result (spec.by_value editor target.now value.now) }
{
    match editor {
        Editor::Set => set(target, value),
        _ => Err(EvalStop::Err(EvalErr::KindOf)),
    }
}

fn by_value_and_literal(
    alloc: Global,
    editor: Editor,
    target: &Value,
    value: &Value,
    literal: &ArgumentLiteral,
) -> Result<Option<Value>, EvalStop>
    ensures { Answers result (spec.by_value_and_literal editor target.now value.now literal.now) }
{
    match literal {
        ArgumentLiteral::Text(word) => by_value_and_word(alloc, editor, target, value, word),
        ArgumentLiteral::Pattern(_) | ArgumentLiteral::Keys(_) => {
            Err(EvalStop::Err(EvalErr::KindOf))
        }
    }
}

fn by_value_and_word(
    alloc: Global,
    editor: Editor,
    target: &Value,
    value: &Value,
    word: &Text,
) -> Result<Option<Value>, EvalStop>
    ensures { Answers result (spec.by_value_and_word editor target.now value.now word.now) }
{
    match editor {
        Editor::MergeMaps if is_strategy(word.as_str()) => merge_maps(alloc, target, value, word),
        _ => Err(EvalStop::Err(EvalErr::KindOf)),
    }
}

fn is_strategy(word: &str) -> bool
    ensures { result ≡ spec.is_strategy word.now }
{
    word == "insert" || word == "update" || word == "upsert"
}

fn by_literals<'p>(
    alloc: Global,
    matchers: &mut KeptMatchers<'p>,
    editor: Editor,
    target: &Value,
    literals: &'p [ArgumentLiteral],
) -> Result<Option<Value>, EvalStop>
    ensures { Answers result (spec.by_literals editor target.now literals.now) }
{
    match literals {
        [only] => by_literal(alloc, matchers, editor, target, only),
        [pattern, template] => by_two(alloc, matchers, editor, target, pattern, template),
        [word, pattern, template] => {
            by_three(alloc, matchers, editor, target, word, pattern, template)
        }
        [] | [_, _, _, _, ..] => Err(EvalStop::Err(EvalErr::KindOf)),
    }
}

fn by_literal<'p>(
    alloc: Global,
    matchers: &mut KeptMatchers<'p>,
    editor: Editor,
    target: &Value,
    literal: &'p ArgumentLiteral,
) -> Result<Option<Value>, EvalStop>
    ensures { Answers result (spec.by_literal editor target.now literal.now) }
{
    match literal {
        ArgumentLiteral::Text(key) => by_key(alloc, editor, target, key),
        ArgumentLiteral::Keys(keys) => by_keys(alloc, editor, target, keys),
        ArgumentLiteral::Pattern(pattern) => by_pattern(alloc, matchers, editor, target, pattern),
    }
}

fn by_key(
    alloc: Global,
    editor: Editor,
    target: &Value,
    key: &Text,
) -> Result<Option<Value>, EvalStop>
    ensures { Answers result (spec.by_key editor target.now key.now) }
{
    match editor {
        Editor::DeleteKey => delete_key(alloc, target, key),
        _ => Err(EvalStop::Err(EvalErr::KindOf)),
    }
}

fn by_keys(
    alloc: Global,
    editor: Editor,
    target: &Value,
    keys: &ItemList<Text>,
) -> Result<Option<Value>, EvalStop>
    ensures { Answers result (spec.by_keys editor target.now keys.now) }
{
    match editor {
        Editor::KeepKeys => keep_keys(alloc, target, keys.as_slice()),
        _ => Err(EvalStop::Err(EvalErr::KindOf)),
    }
}

fn by_pattern<'p>(
    alloc: Global,
    matchers: &mut KeptMatchers<'p>,
    editor: Editor,
    target: &Value,
    pattern: &'p Pattern,
) -> Result<Option<Value>, EvalStop>
    ensures { Answers result (spec.by_pattern editor target.now pattern.now) }
{
    match editor {
        Editor::DeleteMatchingKeys => {
            delete_matching_keys_with(alloc, target, matchers.matcher(pattern)?)
        }
        Editor::KeepMatchingKeys => {
            keep_matching_keys_with(alloc, target, matchers.matcher(pattern)?)
        }
        _ => Err(EvalStop::Err(EvalErr::KindOf)),
    }
}

fn by_two<'p>(
    alloc: Global,
    matchers: &mut KeptMatchers<'p>,
    editor: Editor,
    target: &Value,
    pattern: &'p ArgumentLiteral,
    template: &ArgumentLiteral,
) -> Result<Option<Value>, EvalStop>
    ensures { Answers result (spec.by_two pattern.now template.now editor target.now) }
{
    match pattern {
        ArgumentLiteral::Pattern(pattern) => match template {
            ArgumentLiteral::Text(template) => match editor {
                Editor::ReplacePattern => {
                    replace_pattern_with(alloc, target, matchers.matcher(pattern)?, template)
                }
                _ => Err(EvalStop::Err(EvalErr::KindOf)),
            },
            ArgumentLiteral::Pattern(_) | ArgumentLiteral::Keys(_) => {
                Err(EvalStop::Err(EvalErr::KindOf))
            }
        },
        ArgumentLiteral::Text(_) | ArgumentLiteral::Keys(_) => {
            Err(EvalStop::Err(EvalErr::KindOf))
        }
    }
}

fn by_three<'p>(
    alloc: Global,
    matchers: &mut KeptMatchers<'p>,
    editor: Editor,
    target: &Value,
    word: &ArgumentLiteral,
    pattern: &'p ArgumentLiteral,
    template: &ArgumentLiteral,
) -> Result<Option<Value>, EvalStop>
    ensures { Answers result
        (spec.by_three word.now pattern.now template.now editor target.now) }
{
    match word {
        ArgumentLiteral::Text(word) => match pattern {
            ArgumentLiteral::Pattern(pattern) => match template {
                ArgumentLiteral::Text(template) => {
                    let matcher = matchers.matcher(pattern)?;
                    by_word(alloc, matcher, editor, target, word, template)
                }
                ArgumentLiteral::Pattern(_) | ArgumentLiteral::Keys(_) => {
                    Err(EvalStop::Err(EvalErr::KindOf))
                }
            },
            ArgumentLiteral::Text(_) | ArgumentLiteral::Keys(_) => {
                Err(EvalStop::Err(EvalErr::KindOf))
            }
        },
        ArgumentLiteral::Pattern(_) | ArgumentLiteral::Keys(_) => {
            Err(EvalStop::Err(EvalErr::KindOf))
        }
    }
}

fn by_word(
    alloc: Global,
    matcher: &mut PatternMatcher<'_>,
    editor: Editor,
    target: &Value,
    word: &Text,
    template: &Text,
) -> Result<Option<Value>, EvalStop>
    ensures { Answers result (spec.by_word word.now matcher.old template.now editor target.now) }
{
    match editor {
        Editor::ReplaceAllPatterns if is_mode(word.as_str()) => {
            replace_all_patterns_with(alloc, target, word, matcher, template)
        }
        _ => Err(EvalStop::Err(EvalErr::KindOf)),
    }
}

fn is_mode(word: &str) -> bool
    ensures { result ≡ spec.is_mode word.now }
{
    word == "key" || word == "value"
}
