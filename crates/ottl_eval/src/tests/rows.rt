//! Comparisons and arithmetic. A double is noted as `~1.5`, bytes as `#ab`, a list of one value as
//! `[1`, and a map of one value as `{1`.

use crate::arithmetic::arithmetic;
use crate::comparing::{compared, compared_where_seen};
use ottl_parse::Sign;
use pdata_tree::Seen;
use pdata_value::{Bytes, EvalStop, Pairs, Spelling, Text, Value, Values};
use std::alloc::Global;
use std::test::Fail;

fn scalar(alloc: Global, note: &str) -> Result<Value, Fail> {
    if note == "nil" {
        return Ok(Value::Empty);
    }
    if note == "true" || note == "false" {
        return Ok(Value::Truth(note == "true"));
    }
    if let Some(spelling) = note.strip_prefix("~") {
        return Ok(Value::Double(Spelling::read(alloc, spelling)?));
    }
    if let Some(bytes) = note.strip_prefix("#") {
        return Ok(Value::Bytes(Bytes::from_slice(alloc, bytes.as_bytes())?));
    }
    match note.parse::<i64>() {
        Ok(int) => Ok(Value::Int(int)),
        Err(_) => Ok(Value::Text(Text::from_str(alloc, note)?)),
    }
}

fn value(alloc: Global, note: &str) -> Result<Value, Fail> {
    if let Some(element) = note.strip_prefix("[") {
        let mut list = Values::new(alloc);
        list.push(scalar(alloc, element)?)?;
        return Ok(Value::List(list));
    }
    if let Some(element) = note.strip_prefix("{") {
        let mut map = Pairs::new(alloc);
        map.put("k", scalar(alloc, element)?)?;
        return Ok(Value::Map(map));
    }
    scalar(alloc, note)
}

fn refused(alloc: Global, stop: EvalStop) -> Result<String, Fail> {
    match stop {
        EvalStop::Err(error) => Ok(format!(in alloc; "!{}", error)?),
        EvalStop::NoMemory => Err(Fail::from("no memory")),
    }
}

// How two values compare under the six signs `== != < <= > >=`: a `1` where it is so.
fn compare(alloc: Global, left: &str, right: &str) -> Result<String, Fail> {
    let left = value(alloc, left)?;
    let right = value(alloc, right)?;
    let mut note = String::new(alloc);
    for sign in [
        Sign::Equal,
        Sign::Unequal,
        Sign::Less,
        Sign::AtMost,
        Sign::Greater,
        Sign::AtLeast,
    ] {
        match compared(sign, &left, &right) {
            Ok(true) => note.push_str("1")?,
            Ok(false) => note.push_str("0")?,
            Err(stop) => return refused(alloc, stop),
        }
    }
    Ok(note)
}

#[test]
fn values_of_one_kind_have_an_order(rt: HostRuntime) -> Result<(), Fail> {
    for (left, right, want) in [
        ("1", "1", "100101"),
        ("-1", "1", "011100"),
        ("b", "a", "010011"),
        ("#a", "#b", "011100"),
        ("false", "true", "011100"),
        ("nil", "nil", "100101"),
    ] {
        let note = compare(rt.alloc(), left, right)?;
        assert_eq!(rt; note.as_str(), want, "{left} and {right}");
    }
    Ok(())
}

#[test]
fn lists_and_maps_have_none(rt: HostRuntime) -> Result<(), Fail> {
    for (left, right, want) in [
        ("[1", "[1", "100000"),
        ("[1", "[2", "010000"),
        ("{a", "{a", "100000"),
        ("{a", "{b", "010000"),
        ("[1", "{1", "010000"),
        ("[~1", "[1", "!Double"),
        ("{1", "{~1", "!Double"),
    ] {
        let note = compare(rt.alloc(), left, right)?;
        assert_eq!(rt; note.as_str(), want, "{left} and {right}");
    }
    Ok(())
}

#[test]
fn values_of_two_kinds_are_unequal(rt: HostRuntime) -> Result<(), Fail> {
    for (left, right, want) in [
        ("1", "a", "010000"),
        ("nil", "0", "010000"),
        ("a", "#a", "010000"),
        ("~1", "a", "010000"),
        ("~1", "~1", "!Double"),
        ("~1", "1", "!Double"),
        ("1", "~1", "!Double"),
    ] {
        let note = compare(rt.alloc(), left, right)?;
        assert_eq!(rt; note.as_str(), want, "{left} and {right}");
    }
    Ok(())
}

const KINDS: [&str; 7] = ["nil", "true", "5", "t", "#a", "[1", "{1"];

// How a value compares with one of each other kind, one after another.
fn compare_with_others(alloc: Global, left: &str) -> Result<String, Fail> {
    let mut notes = String::new(alloc);
    for right in KINDS.iter() {
        if *right != left {
            notes.push_str(compare(alloc, left, right)?.as_str())?;
        }
    }
    Ok(notes)
}

#[test]
fn each_pair_of_kinds_is_unequal(rt: HostRuntime) -> Result<(), Fail> {
    for left in KINDS.iter() {
        let notes = compare_with_others(rt.alloc(), left)?;
        assert_eq!(rt;
            notes.as_str(),
            "010000010000010000010000010000010000",
            "{left}"
        );
    }
    Ok(())
}

// How two notes compare where neither, the left, the right, and each is lent as a text by itself.
fn compare_where_seen(
    alloc: Global,
    left: &str,
    right: &str,
    sign: Sign,
) -> Result<[bool; 4], Fail> {
    let left_text = Text::from_str(alloc, left)?;
    let right_text = Text::from_str(alloc, right)?;
    let left = value(alloc, left)?;
    let right = value(alloc, right)?;
    Ok([
        matches!(
            compared_where_seen(sign, &Seen::Lent(&left), &Seen::Lent(&right)),
            Ok(true)
        ),
        matches!(
            compared_where_seen(sign, &Seen::Text(&left_text), &Seen::Lent(&right)),
            Ok(true)
        ),
        matches!(
            compared_where_seen(sign, &Seen::Lent(&left), &Seen::Text(&right_text)),
            Ok(true)
        ),
        matches!(
            compared_where_seen(sign, &Seen::Text(&left_text), &Seen::Text(&right_text)),
            Ok(true)
        ),
    ])
}

#[test]
fn texts_are_compared_where_they_stand(rt: HostRuntime) -> Result<(), Fail> {
    for (left, sign, right, want) in [
        ("ERROR", Sign::Equal, "ERROR", [true; 4]),
        ("ERROR", Sign::Unequal, "ERRO", [true; 4]),
        ("a", Sign::Less, "b", [true; 4]),
        ("b", Sign::AtMost, "a", [false; 4]),
        ("5", Sign::Equal, "t", [false; 4]),
        ("5", Sign::Unequal, "t", [true; 4]),
        ("nil", Sign::Equal, "5", [false; 4]),
    ] {
        let found = compare_where_seen(rt.alloc(), left, right, sign)?;
        assert_eq!(rt; found, want, "{left} and {right}");
    }
    Ok(())
}

fn compute(alloc: Global, left: &str, sign: Sign, right: &str) -> Result<String, Fail> {
    let left = value(alloc, left)?;
    let right = value(alloc, right)?;
    match arithmetic(sign, &left, &right) {
        Ok(Value::Int(int)) => Ok(format!(in alloc; "{}", int)?),
        Ok(_) => Err(Fail::from("no integer")),
        Err(stop) => refused(alloc, stop),
    }
}

#[test]
fn arithmetic_stays_within_64_bits(rt: HostRuntime) -> Result<(), Fail> {
    for (left, sign, right, want) in [
        ("2", Sign::Plus, "3", "5"),
        ("9223372036854775807", Sign::Plus, "1", "!Overflow"),
        ("-9223372036854775808", Sign::Minus, "1", "!Overflow"),
        ("-3", Sign::Times, "4", "-12"),
        ("4611686018427387904", Sign::Times, "2", "!Overflow"),
        ("-9223372036854775808", Sign::Over, "-1", "!Overflow"),
        ("-7", Sign::Over, "2", "-3"),
        ("7", Sign::Over, "-2", "-3"),
        ("1", Sign::Over, "0", "!DivideByZero"),
    ] {
        let note = compute(rt.alloc(), left, sign, right)?;
        assert_eq!(rt; note.as_str(), want, "{left} and {right}");
    }
    Ok(())
}

#[test]
fn arithmetic_wants_integers(rt: HostRuntime) -> Result<(), Fail> {
    for (left, right, want) in [
        ("nil", "~1", "!NilArgument"),
        ("~1", "nil", "!Double"),
        ("a", "nil", "!KindOf"),
        ("1", "nil", "!NilArgument"),
        ("1", "true", "!KindOf"),
    ] {
        let note = compute(rt.alloc(), left, Sign::Plus, right)?;
        assert_eq!(rt; note.as_str(), want, "{left} and {right}");
    }
    Ok(())
}
