//! Converters, by the shape of their arguments.

ghost use Rattle.std.specs.Prelude.{◌≡◌};
ghost use Rattle.pdata_value.specs.Answers.{Answers};
ghost use Rattle.ottl_eval.specs.Converting as spec;

use crate::matchers::KeptMatchers;
use func_code::{decode, hex_text, parse_json, sha256};
use func_text::{
    Pattern, concat, extract_patterns_with, int, is_bool, is_double, is_int, is_list, is_map,
    is_match_with, is_string, len, split, string, substring,
};
use func_time::{
    day, format_time, hour, is_time_format, minute, month, nanosecond, second, time, unix,
    unix_micro, unix_milli, unix_nano, unix_seconds, weekday, year,
};
use ottl_plan::{ArgumentLiteral, Converter};
use pdata_value::{EvalErr, EvalStop, Text, Value};
use std::alloc::Global;

/// What a converter answers of values, and of what the call spells.
pub(crate) fn convert<'p>(
    alloc: Global,
    matchers: &mut KeptMatchers<'p>,
    converter: Converter,
    values: &[Value],
    literals: &'p [ArgumentLiteral],
) -> Result<Value, EvalStop>
    ensures { Answers result (spec.converted converter values.now literals.now) }
{
    match values {
        [only] => convert_one(alloc, matchers, converter, only, literals),
        [] | [_, _, ..] => convert_values(alloc, converter, values, literals),
    }
}

/// What a converter answers of one value, and of what the call spells.
pub(crate) fn convert_one<'p>(
    alloc: Global,
    matchers: &mut KeptMatchers<'p>,
    converter: Converter,
    value: &Value,
    literals: &'p [ArgumentLiteral],
) -> Result<Value, EvalStop>
    ensures { Answers result (spec.of_one converter value.now literals.now) }
{
    match literals {
        [] => of_value(alloc, converter, value),
        [literal] => of_literal(alloc, matchers, converter, value, literal),
        [_, _, ..] => Err(EvalStop::Err(EvalErr::KindOf)),
    }
}

fn convert_values(
    alloc: Global,
    converter: Converter,
    values: &[Value],
    literals: &[ArgumentLiteral],
) -> Result<Value, EvalStop>
    ensures { Answers result (spec.of_values converter values.now literals.now) }
{
    match literals {
        [] => of_several(alloc, converter, values),
        [_, ..] => Err(EvalStop::Err(EvalErr::KindOf)),
    }
}

fn of_several(alloc: Global, converter: Converter, values: &[Value]) -> Result<Value, EvalStop>
    ensures { Answers result (spec.of_several converter values.now) }
{
    match values {
        [first, second] => of_two(converter, first, second),
        [first, second, third] => of_three(alloc, converter, first, second, third),
        [] | [_] | [_, _, _, _, ..] => Err(EvalStop::Err(EvalErr::KindOf)),
    }
}

fn of_two(converter: Converter, first: &Value, second: &Value) -> Result<Value, EvalStop>
    ensures { Answers result (spec.of_two converter first.now second.now) }
{
    match converter {
        Converter::Unix => unix(first, second),
        _ => Err(EvalStop::Err(EvalErr::KindOf)),
    }
}

fn of_three(
    alloc: Global,
    converter: Converter,
    first: &Value,
    second: &Value,
    third: &Value,
) -> Result<Value, EvalStop>
    ensures { Answers result (spec.of_three converter first.now second.now third.now) }
{
    match converter {
        Converter::Substring => substring(alloc, first, second, third),
        _ => Err(EvalStop::Err(EvalErr::KindOf)),
    }
}

fn of_literal<'p>(
    alloc: Global,
    matchers: &mut KeptMatchers<'p>,
    converter: Converter,
    value: &Value,
    literal: &'p ArgumentLiteral,
) -> Result<Value, EvalStop>
    ensures { Answers result (spec.of_literal converter value.now literal.now) }
{
    match literal {
        ArgumentLiteral::Text(text) => of_text(alloc, converter, value, text),
        ArgumentLiteral::Pattern(pattern) => {
            of_pattern(alloc, matchers, converter, value, pattern)
        }
        ArgumentLiteral::Keys(_) => Err(EvalStop::Err(EvalErr::KindOf)),
    }
}

fn of_pattern<'p>(
    alloc: Global,
    matchers: &mut KeptMatchers<'p>,
    converter: Converter,
    value: &Value,
    pattern: &'p Pattern,
) -> Result<Value, EvalStop>
    ensures { Answers result (spec.of_pattern converter value.now pattern.now) }
{
    match converter {
        Converter::IsMatch => is_match_with(alloc, value, matchers.matcher(pattern)?),
        Converter::ExtractPatterns => {
            extract_patterns_with(alloc, value, matchers.matcher(pattern)?)
        }
        _ => Err(EvalStop::Err(EvalErr::KindOf)),
    }
}

fn of_text(
    alloc: Global,
    converter: Converter,
    value: &Value,
    text: &Text,
) -> Result<Value, EvalStop>
    ensures { Answers result (spec.of_text converter value.now text.now) }
{
    match converter {
        Converter::Concat => concat(alloc, value, text),
        Converter::Split => split(alloc, value, text),
        Converter::Decode if text.as_str() == "base64" => decode(alloc, value, text),
        Converter::Time => time(alloc, value, text),
        Converter::FormatTime if is_time_format(text.as_str()) => format_time(alloc, value, text),
        _ => Err(EvalStop::Err(EvalErr::KindOf)),
    }
}

fn of_value(alloc: Global, converter: Converter, value: &Value) -> Result<Value, EvalStop>
    ensures { Answers result (spec.of_value converter value.now) }
{
    match converter {
        Converter::Len => len(value),
        Converter::Int => int(value),
        Converter::String => string(alloc, value),
        Converter::Sha256 => sha256(alloc, value),
        Converter::Hex => hex_text(alloc, value),
        Converter::ParseJson => parse_json(alloc, value),
        Converter::IsString => is_string(value),
        Converter::IsInt => is_int(value),
        Converter::IsBool => is_bool(value),
        Converter::IsDouble => is_double(value),
        Converter::IsMap => is_map(value),
        Converter::IsList => is_list(value),
        Converter::UnixSeconds => unix_seconds(value),
        Converter::UnixMilli => unix_milli(value),
        Converter::UnixMicro => unix_micro(value),
        Converter::UnixNano => unix_nano(value),
        Converter::Year => year(value),
        Converter::Month => month(value),
        Converter::Day => day(value),
        Converter::Hour => hour(value),
        Converter::Minute => minute(value),
        Converter::Second => second(value),
        Converter::Nanosecond => nanosecond(value),
        Converter::Weekday => weekday(value),
        _ => Err(EvalStop::Err(EvalErr::KindOf)),
    }
}
