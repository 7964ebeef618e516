//! Rows of the table of functions. A map is noted as `k='a j=1 n=nil`, a double as `~1.5`, an error
//! as `!KindOf`.

ghost use Rattle.func_map.specs.Edits.{IsMode, IsStrategy};

use crate::{
    delete_key, delete_matching_keys, delete_matching_keys_with, keep_keys, keep_matching_keys,
    keep_matching_keys_with, merge_maps, replace_all_patterns, replace_all_patterns_with, set,
};
use func_text::{Matchers, Pattern, PatternMaker, RegexMaker};
use pdata_value::{EvalStop, Pairs, Spelling, Text, Value};
use std::alloc::Global;
use std::test::Fail;

fn pattern(alloc: Global, text: &str) -> Result<Pattern, Fail> {
    match RegexMaker::new().make(alloc, text) {
        Ok(pattern) => Ok(pattern),
        Err(_) => Err(Fail::from("refused")),
    }
}

// The value of a note: a map, or a scalar of another kind.
fn target_of(alloc: Global, note: &str) -> Result<Value, Fail> {
    if let Some(spelling) = note.strip_prefix("~") {
        return Ok(Value::Double(Spelling::read(alloc, spelling)?));
    }
    if let Ok(int) = note.parse::<i64>() {
        return Ok(Value::Int(int));
    }
    if note == "nil" {
        return Ok(Value::Empty);
    }
    map_of(alloc, note)
}

fn map_of(alloc: Global, note: &str) -> Result<Value, Fail> {
    let mut map = Pairs::new(alloc);
    for pair in note.split_whitespace() {
        if let Some((key, element)) = pair.split_once("=") {
            let value = if let Some(text) = element.strip_prefix("'") {
                Value::Text(Text::from_str(alloc, text)?)
            } else if let Ok(int) = element.parse::<i64>() {
                Value::Int(int)
            } else {
                Value::Empty
            };
            map.push(Text::from_str(alloc, key)?, value)?;
        }
    }
    Ok(Value::Map(map))
}

// The note of an answer; `none` where there is no action.
fn note(alloc: Global, answer: Result<Option<Value>, EvalStop>) -> Result<String, Fail> {
    let value = match answer {
        Ok(Some(value)) => value,
        Ok(None) => return Ok(String::from_str(alloc, "none")?),
        Err(EvalStop::Err(error)) => return Ok(format!(in alloc; "!{}", error)?),
        Err(EvalStop::NoMemory) => return Err(Fail::from("no memory")),
    };
    let Value::Map(map) = value else {
        return Ok(String::from_str(alloc, "other")?);
    };
    let mut out = String::new(alloc);
    for pair in map.as_slice() {
        let value = match &pair.1 {
            Value::Text(text) => format!(in alloc; "'{}", text.as_str())?,
            Value::Int(int) => format!(in alloc; "{}", int)?,
            _ => String::from_str(alloc, "nil")?,
        };
        let pair = format!(in alloc; "{}={} ", pair.0.as_str(), value.as_str())?;
        out.push_str(pair.as_str())?;
    }
    Ok(out)
}

const MAP: &str = "a=1 b='x a=2 ab='xx n=nil";

fn deleted(alloc: Global, target: &str, key: &str) -> Result<String, Fail> {
    let target = target_of(alloc, target)?;
    let key = Text::from_str(alloc, key)?;
    note(alloc, delete_key(alloc, &target, &key))
}

// Two keys are kept.
fn kept(alloc: Global, target: &str, first: &str, second: &str) -> Result<String, Fail> {
    let target = target_of(alloc, target)?;
    let keys = [
        Text::from_str(alloc, first)?,
        Text::from_str(alloc, second)?,
    ];
    note(alloc, keep_keys(alloc, &target, &keys))
}

fn deleted_by(alloc: Global, target: &str, source: &str) -> Result<String, Fail> {
    let target = target_of(alloc, target)?;
    let pattern = pattern(alloc, source)?;
    note(alloc, delete_matching_keys(alloc, &target, &pattern))
}

fn kept_by(alloc: Global, target: &str, source: &str) -> Result<String, Fail> {
    let target = target_of(alloc, target)?;
    let pattern = pattern(alloc, source)?;
    note(alloc, keep_matching_keys(alloc, &target, &pattern))
}

fn merged(alloc: Global, target: &str, other: &str, strategy: &Text) -> Result<String, Fail>
    requires { IsStrategy strategy.now }
{
    let target = target_of(alloc, target)?;
    let other = target_of(alloc, other)?;
    note(alloc, merge_maps(alloc, &target, &other, strategy))
}

fn replaced(
    alloc: Global,
    target: &str,
    mode: &Text,
    source: &str,
    template: &str,
) -> Result<String, Fail>
    requires { IsMode mode.now }
{
    let target = target_of(alloc, target)?;
    let pattern = pattern(alloc, source)?;
    let template = Text::from_str(alloc, template)?;
    note(
        alloc,
        replace_all_patterns(alloc, &target, mode, &pattern, &template),
    )
}

fn is_set(alloc: Global, target: &str, value: &str) -> Result<String, Fail> {
    let target = target_of(alloc, target)?;
    let value = target_of(alloc, value)?;
    note(alloc, set(&target, &value))
}

#[test]
fn pairs_are_taken_by_their_keys(rt: HostRuntime) -> Result<(), Fail> {
    let alloc = rt.alloc();
    assert_eq!(rt; deleted(alloc, MAP, "a")?.as_str(), "b='x ab='xx n=nil ");
    assert_eq!(rt; deleted(alloc, MAP, "ab")?.as_str(), "a=1 b='x a=2 n=nil ");
    assert_eq!(rt;
        deleted(alloc, MAP, "z")?.as_str(),
        "a=1 b='x a=2 ab='xx n=nil "
    );
    assert_eq!(rt; kept(alloc, MAP, "n", "a")?.as_str(), "a=1 a=2 n=nil ");
    assert_eq!(rt; kept(alloc, MAP, "y", "z")?.as_str(), "");
    Ok(())
}

#[test]
fn pairs_are_taken_by_matches(rt: HostRuntime) -> Result<(), Fail> {
    let alloc = rt.alloc();
    for (source, matching, rest) in [
        ("^a", "a=1 a=2 ab='xx ", "b='x n=nil "),
        ("b$", "b='x ab='xx ", "a=1 a=2 n=nil "),
        ("", "a=1 b='x a=2 ab='xx n=nil ", ""),
    ] {
        assert_eq!(rt;
            kept_by(alloc, MAP, source)?.as_str(),
            matching,
            "at {source}"
        );
        assert_eq!(rt;
            deleted_by(alloc, MAP, source)?.as_str(),
            rest,
            "at {source}"
        );
    }
    Ok(())
}

#[test]
fn maps_are_merged_by_strategies(rt: HostRuntime) -> Result<(), Fail> {
    let alloc = rt.alloc();
    let (target, other) = ("a=1 b=2 a=3", "b=7 c=8 c=9");
    let insert = Text::from_str(alloc, "insert")?;
    let update = Text::from_str(alloc, "update")?;
    let upsert = Text::from_str(alloc, "upsert")?;
    assert_eq!(rt;
        merged(alloc, target, other, &insert)?.as_str(),
        "a=1 b=2 a=3 c=9 "
    );
    assert_eq!(rt;
        merged(alloc, target, other, &update)?.as_str(),
        "a=1 b=7 a=3 "
    );
    assert_eq!(rt;
        merged(alloc, target, other, &upsert)?.as_str(),
        "a=1 b=7 a=3 c=9 "
    );
    assert_eq!(rt; merged(alloc, "nil", other, &upsert)?.as_str(), "b=7 c=9 ");
    assert_eq!(rt; merged(alloc, "~1", other, &upsert)?.as_str(), "!KindOf");
    assert_eq!(rt; merged(alloc, "7", "nil", &upsert)?.as_str(), "!KindOf");
    assert_eq!(rt;
        merged(alloc, "nil", "nil", &upsert)?.as_str(),
        "!NilArgument"
    );
    assert_eq!(rt; merged(alloc, "nil", "~1", &upsert)?.as_str(), "!KindOf");
    assert_eq!(rt; merged(alloc, "nil", "7", &upsert)?.as_str(), "!KindOf");
    Ok(())
}

#[test]
fn matches_are_replaced_in_keys_or_values(rt: HostRuntime) -> Result<(), Fail> {
    let alloc = rt.alloc();
    let key = Text::from_str(alloc, "key")?;
    for (target, source, template, want) in [
        ("k1='a z='b k2='c", "^k[0-9]$", "k", "k='c z='b "),
        ("b=1 a=2", "b", "a", "a=2 "),
        ("k=1 k=2", "x", "y", "k=2 "),
        ("ab=1", "(?<l>a)(b)", "$2${l}", "ba=1 "),
        ("nil", "a", "b", "none"),
        ("7", "a", "b", "!KindOf"),
    ] {
        let new = replaced(alloc, target, &key, source, template)?;
        assert_eq!(rt; new.as_str(), want, "keys at {target}");
    }
    let value = Text::from_str(alloc, "value")?;
    for (target, source, template, want) in [
        (
            "a='x1y22 b=7 n=nil a='3",
            "[0-9]+",
            "#",
            "a='x#y# b=7 n=nil a='# ",
        ),
        ("a='x", "y", "z", "a='x "),
    ] {
        let new = replaced(alloc, target, &value, source, template)?;
        assert_eq!(rt; new.as_str(), want, "values at {target}");
    }
    Ok(())
}

#[test]
fn nil_is_no_target_and_other_kinds_are_refused(rt: HostRuntime) -> Result<(), Fail> {
    let alloc = rt.alloc();
    for (target, want) in [("nil", "none"), ("7", "!KindOf"), ("~1.5", "!KindOf")] {
        assert_eq!(rt; deleted(alloc, target, "a")?.as_str(), want);
        assert_eq!(rt; kept(alloc, target, "a", "b")?.as_str(), want);
        assert_eq!(rt; deleted_by(alloc, target, "a")?.as_str(), want);
        assert_eq!(rt; kept_by(alloc, target, "a")?.as_str(), want);
    }
    assert_eq!(rt; is_set(alloc, "a=1", "nil")?.as_str(), "none");
    assert_eq!(rt; is_set(alloc, "7", "a=1")?.as_str(), "a=1 ");
    assert_eq!(rt; is_set(alloc, "a=1", "7")?.as_str(), "other");
    Ok(())
}

fn kept_matcher_deletes(alloc: Global, pattern: &Pattern) -> Result<String, Fail> {
    let target = target_of(alloc, MAP)?;
    let mut matchers = Matchers::<8>::new(alloc);
    note(
        alloc,
        delete_matching_keys_with(alloc, &target, matchers.matcher(pattern)?),
    )
}

fn kept_matcher_keeps(alloc: Global, pattern: &Pattern) -> Result<String, Fail> {
    let target = target_of(alloc, MAP)?;
    let mut matchers = Matchers::<8>::new(alloc);
    note(
        alloc,
        keep_matching_keys_with(alloc, &target, matchers.matcher(pattern)?),
    )
}

fn kept_matcher_replaces(alloc: Global, pattern: &Pattern) -> Result<String, Fail> {
    let target = target_of(alloc, MAP)?;
    let (mode, template) = (Text::from_str(alloc, "key")?, Text::from_str(alloc, "c")?);
    let mut matchers = Matchers::<8>::new(alloc);
    let matcher = matchers.matcher(pattern)?;
    note(
        alloc,
        replace_all_patterns_with(alloc, &target, &mode, matcher, &template),
    )
}

#[test]
fn kept_matchers_answer_the_same(rt: HostRuntime) -> Result<(), Fail> {
    let alloc = rt.alloc();
    let pattern = pattern(alloc, "^a")?;
    assert_eq!(rt;
        kept_matcher_deletes(alloc, &pattern)?.as_str(),
        "b='x n=nil "
    );
    assert_eq!(rt;
        kept_matcher_keeps(alloc, &pattern)?.as_str(),
        "a=1 a=2 ab='xx "
    );
    assert_eq!(rt;
        kept_matcher_replaces(alloc, &pattern)?.as_str(),
        "c=2 b='x cb='xx n=nil "
    );
    Ok(())
}
