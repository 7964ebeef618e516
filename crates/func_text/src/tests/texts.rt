//! Functions on texts, lengths, numbers and kinds.

use super::{answer, value};
use crate::{
    concat, int, is_bool, is_double, is_int, is_list, is_map, is_string, len, split, string,
    substring,
};
use pdata_value::{Bytes, Text, Value, made};
use std::test::Fail;

#[test]
fn texts_are_joined_and_split(rt: HostRuntime) -> Result<(), Fail> {
    let alloc = rt.alloc();
    for (list, separator, want) in [
        ("['a 'b 'c]", ",", "'a,b,c"),
        ("[]", ",", "'"),
        ("['é]", ",", "'é"),
        ("[nil -1 true false #0aff]", "-", "'--1-true-false-0aff"),
        ("['a ~1.5 []]", "", "!Double"),
        ("['a [] ~1.5]", "", "!KindOf"),
        ("[{}]", "", "!KindOf"),
        ("'a", ",", "!KindOf"),
        ("{}", ",", "!KindOf"),
        ("nil", ",", "!NilArgument"),
        ("~1", ",", "!Double"),
    ] {
        let separator = Text::from_str(alloc, separator)?;
        let joined = concat(alloc, &value(alloc, list)?, &separator);
        assert_eq!(rt; answer(alloc, joined)?.as_str(), want, "at {list}");
    }
    for (text, separator, want) in [
        ("'a,b,", ",", "['a 'b ']"),
        ("'", ",", "[']"),
        ("',", ",", "[' ']"),
        ("'ab", "abc", "['ab]"),
        ("'aaaaa", "aa", "[' ' 'a]"),
        ("'ababa", "aba", "[' 'ba]"),
        ("'𝄞é€", "é", "['𝄞 '€]"),
        ("'a", "", "!Range"),
        ("7", "", "!KindOf"),
        ("#61", ",", "!KindOf"),
        ("nil", ",", "!NilArgument"),
        ("~1", ",", "!Double"),
    ] {
        let separator = Text::from_str(alloc, separator)?;
        let pieces = split(alloc, &value(alloc, text)?, &separator);
        assert_eq!(rt; answer(alloc, pieces)?.as_str(), want, "at {text}");
    }
    Ok(())
}

#[test]
fn parts_are_whole_characters(rt: HostRuntime) -> Result<(), Fail> {
    let alloc = rt.alloc();
    for (text, start, length, want) in [
        ("'abc", "1", "2", "'bc"),
        ("'abc", "0", "3", "'abc"),
        ("'abc", "2", "2", "!Range"),
        ("'abc", "-1", "2", "!Range"),
        ("'abc", "1", "0", "!Range"),
        ("'abc", "3", "1", "!Range"),
        (
            "'abc",
            "9223372036854775807",
            "9223372036854775807",
            "!Range",
        ),
        ("'é", "0", "1", "!Range"),
        ("'é€𝄞", "2", "3", "'€"),
        ("'é€𝄞", "5", "4", "'𝄞"),
        ("'é€𝄞", "4", "1", "!Range"),
        ("1", "~1", "nil", "!KindOf"),
        ("'a", "~1", "nil", "!Double"),
        ("'a", "-1", "nil", "!NilArgument"),
        ("nil", "1", "1", "!NilArgument"),
    ] {
        let part = substring(
            alloc,
            &value(alloc, text)?,
            &value(alloc, start)?,
            &value(alloc, length)?,
        );
        assert_eq!(rt;
            answer(alloc, part)?.as_str(),
            want,
            "at {text} {start} {length}"
        );
    }
    Ok(())
}

#[test]
fn lengths_numbers_and_texts_of_each_kind(rt: HostRuntime) -> Result<(), Fail> {
    let alloc = rt.alloc();
    for (note, length, number, text) in [
        ("nil", "!NilArgument", "nil", "nil"),
        ("'", "0", "nil", "'"),
        ("'é", "2", "nil", "'é"),
        ("'+7", "2", "7", "'+7"),
        ("'7x", "2", "nil", "'7x"),
        ("'-0", "2", "0", "'-0"),
        ("'+", "1", "nil", "'+"),
        ("'+-1", "3", "nil", "'+-1"),
        ("'007", "3", "7", "'007"),
        (
            "'9223372036854775807",
            "19",
            "9223372036854775807",
            "'9223372036854775807",
        ),
        (
            "'-9223372036854775808",
            "20",
            "-9223372036854775808",
            "'-9223372036854775808",
        ),
        ("'9223372036854775808", "19", "nil", "'9223372036854775808"),
        ("true", "!KindOf", "1", "'true"),
        ("false", "!KindOf", "0", "'false"),
        (
            "-9223372036854775808",
            "!KindOf",
            "-9223372036854775808",
            "'-9223372036854775808",
        ),
        ("~1.5", "!Double", "!Double", "!Double"),
        ("#0aff", "2", "!KindOf", "'0aff"),
        ("[1 2]", "2", "!KindOf", "!KindOf"),
        ("{k=1 k=2 j=3}", "3", "!KindOf", "!KindOf"),
    ] {
        let value = value(alloc, note)?;
        assert_eq!(rt;
            answer(alloc, len(&value))?.as_str(),
            length,
            "len at {note}"
        );
        assert_eq!(rt;
            answer(alloc, int(&value))?.as_str(),
            number,
            "int at {note}"
        );
        assert_eq!(rt;
            answer(alloc, string(alloc, &value))?.as_str(),
            text,
            "string at {note}"
        );
    }
    Ok(())
}

#[test]
fn each_kind_is_told(rt: HostRuntime) -> Result<(), Fail> {
    let alloc = rt.alloc();
    for (note, want) in [
        ("nil", "------"),
        ("'a", "s-----"),
        ("7", "-i----"),
        ("true", "--b---"),
        ("~1e2", "---d--"),
        ("{}", "----m-"),
        ("[]", "-----l"),
        ("#00", "------"),
    ] {
        let value = value(alloc, note)?;
        let tests = [
            (is_string(&value), "s"),
            (is_int(&value), "i"),
            (is_bool(&value), "b"),
            (is_double(&value), "d"),
            (is_map(&value), "m"),
            (is_list(&value), "l"),
        ];
        let mut told = String::new(alloc);
        for (test, letter) in tests {
            let holds = matches!(&test, Ok(Value::Truth(true)));
            told.push_str(if holds { letter } else { "-" })?;
        }
        assert_eq!(rt; told.as_str(), want, "at {note}");
    }
    Ok(())
}

#[test]
fn values_are_made_up_to_their_limit(rt: HostRuntime) -> Result<(), Fail> {
    let alloc = rt.alloc();
    for (count, fits) in [(16_777_215usize, true), (16_777_216, false)] {
        let bytes = vec![in alloc; 0u8; count]?;
        let made = made(Value::Bytes(Bytes::from_vec(bytes)));
        assert_eq!(rt; made.is_ok(), fits);
    }
    Ok(())
}
