//! Functions on patterns.

use super::{answer, note, value};
use crate::{
    MakeStop, Matchers, Pattern, PatternMaker, RegexMaker, extract_patterns, extract_patterns_with,
    is_match, is_match_with, replace_pattern, replace_pattern_with,
};
use pdata_value::Text;
use std::alloc::Global;
use std::test::Fail;

fn pattern(alloc: Global, text: &str) -> Result<Pattern, Fail> {
    match RegexMaker::new().make(alloc, text) {
        Ok(pattern) => Ok(pattern),
        Err(_) => Err(Fail::from("refused")),
    }
}

#[test]
fn texts_that_are_no_patterns_are_refused(rt: HostRuntime) -> Result<(), Fail> {
    let alloc = rt.alloc();
    let mut maker = RegexMaker::new();
    for (text, want) in [
        ("(", MakeStop::Syntax),
        ("a{2,1}", MakeStop::Syntax),
        (r"\w{1000}{1000}", MakeStop::Size),
    ] {
        assert_eq!(rt; maker.make(alloc, text).err(), Some(want), "at {text}");
    }
    assert_eq!(rt; pattern(alloc, "^a+$")?.as_str(), "^a+$");
    Ok(())
}

#[test]
fn matches_are_found(rt: HostRuntime) -> Result<(), Fail> {
    let alloc = rt.alloc();
    for (text, source, want) in [
        ("'ab", "b", "true"),
        ("'ab", "^b", "false"),
        ("'", "^$", "true"),
        ("'é", "^.$", "true"),
        ("42", "^4", "true"),
        ("true", "rue", "true"),
        ("nil", "", "false"),
        ("#61", "a", "!KindOf"),
        ("[]", "", "!KindOf"),
        ("{}", "", "!KindOf"),
        ("~1", "1", "!Double"),
    ] {
        let found = is_match(alloc, &value(alloc, text)?, &pattern(alloc, source)?);
        assert_eq!(rt; answer(alloc, found)?.as_str(), want, "at {text} {source}");
    }
    Ok(())
}

#[test]
fn named_groups_are_extracted(rt: HostRuntime) -> Result<(), Fail> {
    let alloc = rt.alloc();
    for (text, source, want) in [
        ("'k=v", "(?P<l>.)=(?P<r>.)", "{l='k r='v}"),
        ("'x-y", r"(?<b>\w)(-)(?<a>\w)", "{b='x a='y}"),
        ("'b", "(?<a>a)?(?<b>b)", "{a=' b='b}"),
        ("'c", "(?<a>a)", "{}"),
        ("'a", "(a)", "{}"),
        ("nil", "a", "!NilArgument"),
        ("~1", "a", "!Double"),
        ("1", "a", "!KindOf"),
    ] {
        let groups = extract_patterns(alloc, &value(alloc, text)?, &pattern(alloc, source)?);
        assert_eq!(rt; answer(alloc, groups)?.as_str(), want, "at {text} {source}");
    }
    Ok(())
}

#[test]
fn matches_are_replaced_by_templates(rt: HostRuntime) -> Result<(), Fail> {
    let alloc = rt.alloc();
    for (text, source, template, want) in [
        ("'user 42 in", "[0-9]+", "#", "'user # in"),
        ("'aXbXc", "X", "", "'abc"),
        ("'abc", "x", "y", "'abc"),
        ("'ab", "", "-", "'-a-b-"),
        (
            "'é1 b-2",
            r"(?<b>\w)(-)?(?<a>\d)",
            "$3${b}$$ $nope$",
            "'1é$ $ 2b$ $",
        ),
        ("nil", "a", "b", "none"),
        ("7", "7", "8", "none"),
        ("['a]", "a", "b", "none"),
    ] {
        let template = Text::from_str(alloc, template)?;
        let target = value(alloc, text)?;
        let replaced = match replace_pattern(alloc, &target, &pattern(alloc, source)?, &template) {
            Ok(Some(value)) => note(alloc, &value)?,
            Ok(None) => String::from_str(alloc, "none")?,
            Err(_) => String::from_str(alloc, "error")?,
        };
        assert_eq!(rt; replaced.as_str(), want, "at {text} {source}");
    }
    Ok(())
}

#[test]
fn kept_matchers_answer_the_same(rt: HostRuntime) -> Result<(), Fail> {
    let alloc = rt.alloc();
    let patterns = [
        pattern(alloc, "(?<l>.)=(?<r>.)")?,
        pattern(alloc, "^k")?,
        pattern(alloc, "v$")?,
    ];
    let text = value(alloc, "'k=v")?;
    let template = Text::from_str(alloc, "${r}=${l}")?;
    let mut matchers = Matchers::<2>::new(alloc);
    for pattern in &patterns {
        let found = is_match_with(alloc, &text, matchers.matcher(pattern)?);
        assert_eq!(rt; answer(alloc, found)?.as_str(), "true");
    }
    let groups = extract_patterns_with(alloc, &text, matchers.matcher(&patterns[0])?);
    assert_eq!(rt; answer(alloc, groups)?.as_str(), "{l='k r='v}");
    let matcher = matchers.matcher(&patterns[0])?;
    match replace_pattern_with(alloc, &text, matcher, &template)? {
        Some(value) => assert_eq!(rt; note(alloc, &value)?.as_str(), "'v=k"),
        None => return Err(Fail::from("no action")),
    }
    Ok(())
}
