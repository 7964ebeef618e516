//! Calls and their arguments.

use super::{condition, parsed, planned};
use crate::plan_statement;
use func_text::RegexMaker;
use pdata_tree::Context;
use std::alloc::Global;
use std::test::Fail;

#[test]
fn each_statement_has_its_first_fault(rt: HostRuntime) -> Result<(), Fail> {
    for (text, want) in [
        (r#"replace_pattern(body, "(", "x")"#, "BadPattern at 22"),
        (
            r#"replace_pattern(body, "\\w{1000}{1000}", "x")"#,
            "PatternSize at 22",
        ),
        (
            r#"merge_maps(attributes, attributes, "add")"#,
            "BadMode at 35",
        ),
        (r#"IsMatch(body, "a")"#, "EditorWanted at 0"),
        ("Set(body, 1, 2)", "EditorWanted at 0"),
        ("set(body, drop(body))", "ConverterWanted at 10"),
        ("set(body, set(body))", "ConverterWanted at 10"),
        ("drop(body)", "UnknownFunction at 0"),
        ("set(body, Drop(nothing))", "UnknownFunction at 10"),
        ("set(nothing)", "WrongArity at 0"),
        ("set(body, Len())", "WrongArity at 10"),
        ("set(body, Len(nothing, 1))", "WrongArity at 10"),
        ("set(1, nothing)", "WrongKind at 4"),
        ("set(nothing, Len())", "UnknownPath at 4"),
        (r#"delete_key(attributes, ["a"])"#, "WrongKind at 23"),
        ("keep_keys(attributes, \"a\")", "WrongKind at 22"),
        (r#"keep_keys(attributes, ["a", 1])"#, "WrongKind at 22"),
        (
            r#"replace_all_patterns(body, "keys", "(", "x")"#,
            "BadMode at 27",
        ),
        (
            r#"replace_all_patterns(body, key, "(", "x")"#,
            "WrongKind at 27",
        ),
        (r#"set(body, FormatTime(0, "%j"))"#, "BadMode at 24"),
        (r#"set(body, Decode(body, "hex"))"#, "BadMode at 23"),
        ("set(body, SEVERITY_NUMBER_WARN5)", "UnknownEnum at 10"),
        ("set(body, [1, Len(body, 2), NAME])", "WrongArity at 14"),
        (
            "set(body, 1) where Len(body) == nothing",
            "UnknownPath at 32",
        ),
    ] {
        assert_eq!(rt;
            planned(rt.alloc(), text, Context::Log)?.as_str(),
            want,
            "at {text}"
        );
    }
    Ok(())
}

#[test]
fn each_function_is_planned(rt: HostRuntime) -> Result<(), Fail> {
    for text in [
        "set(severity_number, SEVERITY_NUMBER_WARN2)",
        r#"delete_key(attributes, "a")"#,
        r#"delete_matching_keys(attributes, "^a")"#,
        r#"keep_keys(attributes, ["a", "b"])"#,
        r#"keep_matching_keys(attributes["m"], "^a")"#,
        r#"merge_maps(attributes, {"a": 1, "a": [2]}, "upsert")"#,
        r#"replace_pattern(body, "a+", "b")"#,
        r#"replace_all_patterns(attributes, "key", "a+", "b")"#,
        r#"set(body, Concat(Split(body, ","), ";")) where not IsMatch(body, "^$") and 1 + 2 * 3 < 4"#,
        r#"set(body, Substring(String(Int(body)), 0, Len(body)))"#,
        r#"set(body, ExtractPatterns(Decode(Hex(SHA256(body)), "base64"), "(?P<k>.)"))"#,
        r#"set(body, FormatTime(Time(body, "%Y-%m-%d"), "%H:%M:%S"))"#,
        "set(body, Unix(UnixSeconds(time), Nanosecond(time)))",
    ] {
        assert_eq!(rt;
            planned(rt.alloc(), text, Context::Log)?.as_str(),
            "planned",
            "at {text}"
        );
    }
    Ok(())
}

#[test]
fn conditions_are_planned(rt: HostRuntime) -> Result<(), Fail> {
    for (text, want) in [
        ("true or IsString(body)", "planned"),
        ("Weekday(time) == 0 or name == \"\"", "UnknownPath at 22"),
        ("not IsList(NAME)", "UnknownEnum at 11"),
    ] {
        assert_eq!(rt;
            condition(rt.alloc(), text, Context::Log)?.as_str(),
            want,
            "at {text}"
        );
    }
    Ok(())
}

// A statement with a pattern of so many bytes.
fn with_pattern(alloc: Global, bytes: u32) -> Result<String, Fail> {
    let mut text = String::from_str(alloc, "delete_matching_keys(attributes, \"")?;
    for _ in 0..bytes {
        text.push('a')?;
    }
    text.push_str("\")")?;
    Ok(text)
}

#[test]
fn a_pattern_may_have_a_thousand_bytes(rt: HostRuntime) -> Result<(), Fail> {
    let alloc = rt.alloc();
    for (bytes, want) in [(1000, "planned"), (1001, "PatternLong at 33")] {
        let text = with_pattern(alloc, bytes)?;
        assert_eq!(rt;
            planned(alloc, text.as_str(), Context::Log)?.as_str(),
            want,
            "at {bytes}"
        );
    }
    Ok(())
}

// How many values the call of a statement has.
fn count_values(alloc: Global, text: &str) -> Result<usize, Fail> {
    let statement = parsed(alloc, text)?;
    match plan_statement(alloc, &mut RegexMaker::new(), &statement, Context::Log) {
        Ok(plan) => Ok(plan.values().len()),
        Err(_) => Err(Fail::from("no plan")),
    }
}

#[test]
fn values_are_those_of_the_call(rt: HostRuntime) -> Result<(), Fail> {
    let alloc = rt.alloc();
    assert_eq!(rt;
        count_values(alloc, r#"merge_maps(cache, body, "insert")"#)?,
        1
    );
    assert_eq!(rt; count_values(alloc, r#"delete_key(cache, "k")"#)?, 0);
    Ok(())
}
