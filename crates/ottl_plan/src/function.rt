//! The functions of statements: their names, and what they want in the places of their arguments.

ghost use Rattle.std.specs.Prelude.{◌≡◌};
ghost use Rattle.ottl_plan.specs.Functions as spec;

use crate::argument::ArgumentKind;

/// Functions that change what a path leads to, their target. It is their first argument.
#[derive(Clone, Copy, Debug, PartialEq, Eq)]
pub enum Editor {
    Set,
    DeleteKey,
    DeleteMatchingKeys,
    KeepKeys,
    KeepMatchingKeys,
    MergeMaps,
    ReplacePattern,
    ReplaceAllPatterns,
}

impl Editor {
    #[tactic(auto, unfolding(crate::specs::Functions::editor_of))]
    pub(crate) fn of_name(name: &str) -> Option<Editor>
        ensures { result ≡ spec.editor_of name.now }
    {
        match name {
            "set" => Some(Editor::Set),
            "delete_key" => Some(Editor::DeleteKey),
            "delete_matching_keys" => Some(Editor::DeleteMatchingKeys),
            "keep_keys" => Some(Editor::KeepKeys),
            "keep_matching_keys" => Some(Editor::KeepMatchingKeys),
            "merge_maps" => Some(Editor::MergeMaps),
            "replace_pattern" => Some(Editor::ReplacePattern),
            "replace_all_patterns" => Some(Editor::ReplaceAllPatterns),
            _ => None,
        }
    }

    /// What it wants behind its target.
    pub(crate) fn arguments(self) -> &'static [ArgumentKind]
        ensures { result.now ≡ spec.editor_arguments self }
    {
        match self {
            Editor::Set => &[ArgumentKind::Value],
            Editor::DeleteKey => &[ArgumentKind::Text],
            Editor::DeleteMatchingKeys | Editor::KeepMatchingKeys => &[ArgumentKind::Pattern],
            Editor::KeepKeys => &[ArgumentKind::Keys],
            Editor::MergeMaps => &[ArgumentKind::Value, ArgumentKind::Strategy],
            Editor::ReplacePattern => &[ArgumentKind::Pattern, ArgumentKind::Text],
            Editor::ReplaceAllPatterns => &[
                ArgumentKind::Mode,
                ArgumentKind::Pattern,
                ArgumentKind::Text,
            ],
        }
    }
}

/// Functions that answer a value.
#[derive(Clone, Copy, Debug, PartialEq, Eq)]
pub enum Converter {
    Concat,
    Split,
    Substring,
    Len,
    Int,
    String,
    IsMatch,
    ExtractPatterns,
    Sha256,
    Hex,
    Decode,
    ParseJson,
    IsString,
    IsInt,
    IsBool,
    IsDouble,
    IsMap,
    IsList,
    Time,
    FormatTime,
    Unix,
    UnixSeconds,
    UnixMilli,
    UnixMicro,
    UnixNano,
    Year,
    Month,
    Day,
    Hour,
    Minute,
    Second,
    Nanosecond,
    Weekday,
}

impl Converter {
    pub(crate) fn of_name(name: &str) -> Option<Converter>
        ensures { result ≡ spec.converter_of name.now }
    {
        if let Some(converter) = text_converter(name) {
            return Some(converter);
        }
        if let Some(converter) = kind_converter(name) {
            return Some(converter);
        }
        if let Some(converter) = time_converter(name) {
            return Some(converter);
        }
        part_converter(name)
    }

    pub(crate) fn arguments(self) -> &'static [ArgumentKind]
        ensures { result.now ≡ spec.converter_arguments self }
    {
        match self {
            Converter::Concat | Converter::Split => &[ArgumentKind::Value, ArgumentKind::Text],
            Converter::Substring => &[
                ArgumentKind::Value,
                ArgumentKind::Value,
                ArgumentKind::Value,
            ],
            Converter::IsMatch | Converter::ExtractPatterns => &[
                ArgumentKind::Value,
                ArgumentKind::Pattern,
            ],
            Converter::Decode => &[ArgumentKind::Value, ArgumentKind::Code],
            Converter::Time | Converter::FormatTime => &[ArgumentKind::Value, ArgumentKind::Format],
            Converter::Unix => &[ArgumentKind::Value, ArgumentKind::Value],
            _ => &[ArgumentKind::Value],
        }
    }
}

#[tactic(auto, unfolding(crate::specs::Functions::text_converter))]
fn text_converter(name: &str) -> Option<Converter>
    ensures { result ≡ spec.text_converter name.now }
{
    match name {
        "Concat" => Some(Converter::Concat),
        "Split" => Some(Converter::Split),
        "Substring" => Some(Converter::Substring),
        "Len" => Some(Converter::Len),
        "Int" => Some(Converter::Int),
        "String" => Some(Converter::String),
        "IsMatch" => Some(Converter::IsMatch),
        "ExtractPatterns" => Some(Converter::ExtractPatterns),
        "SHA256" => Some(Converter::Sha256),
        "Hex" => Some(Converter::Hex),
        "Decode" => Some(Converter::Decode),
        "ParseJSON" => Some(Converter::ParseJson),
        _ => None,
    }
}

#[tactic(auto, unfolding(crate::specs::Functions::kind_converter))]
fn kind_converter(name: &str) -> Option<Converter>
    ensures { result ≡ spec.kind_converter name.now }
{
    match name {
        "IsString" => Some(Converter::IsString),
        "IsInt" => Some(Converter::IsInt),
        "IsBool" => Some(Converter::IsBool),
        "IsDouble" => Some(Converter::IsDouble),
        "IsMap" => Some(Converter::IsMap),
        "IsList" => Some(Converter::IsList),
        _ => None,
    }
}

#[tactic(auto, unfolding(crate::specs::Functions::time_converter))]
fn time_converter(name: &str) -> Option<Converter>
    ensures { result ≡ spec.time_converter name.now }
{
    match name {
        "Time" => Some(Converter::Time),
        "FormatTime" => Some(Converter::FormatTime),
        "Unix" => Some(Converter::Unix),
        "UnixSeconds" => Some(Converter::UnixSeconds),
        "UnixMilli" => Some(Converter::UnixMilli),
        "UnixMicro" => Some(Converter::UnixMicro),
        "UnixNano" => Some(Converter::UnixNano),
        _ => None,
    }
}

#[tactic(auto, unfolding(crate::specs::Functions::part_converter))]
fn part_converter(name: &str) -> Option<Converter>
    ensures { result ≡ spec.part_converter name.now }
{
    match name {
        "Year" => Some(Converter::Year),
        "Month" => Some(Converter::Month),
        "Day" => Some(Converter::Day),
        "Hour" => Some(Converter::Hour),
        "Minute" => Some(Converter::Minute),
        "Second" => Some(Converter::Second),
        "Nanosecond" => Some(Converter::Nanosecond),
        "Weekday" => Some(Converter::Weekday),
        _ => None,
    }
}
