//! Rows of the table of functions, and what `jiff` itself prints.

use crate::{
    day, format_time, hour, is_time_format, minute, moments_are_those_of_dates_and_times, month,
    nanosecond, second, time, unix, unix_micro, unix_milli, unix_nano, unix_seconds, weekday, year,
};
use pdata_value::{Bytes, EvalErr, EvalStop, Spelling, Text, Value, Values};
use std::alloc::Global;
use std::test::Fail;

// The integer of an answer, or its error.
fn int_of(answer: Result<Value, EvalStop>) -> Result<i64, EvalStop> {
    match answer {
        Ok(Value::Int(int)) => Ok(int),
        Ok(_) => Err(EvalStop::NoMemory),
        Err(stop) => Err(stop),
    }
}

fn error(error: EvalErr) -> Result<i64, EvalStop> {
    Err(EvalStop::Err(error))
}

// The text of an answer.
fn text_of(answer: Result<Value, EvalStop>) -> Result<Text, Fail> {
    match answer {
        Ok(Value::Text(text)) => Ok(text),
        _ => Err(Fail::from("no text")),
    }
}

#[test]
fn texts_are_read_by_formats(rt: HostRuntime) -> Result<(), Fail> {
    let alloc = rt.alloc();
    moments_are_those_of_dates_and_times();
    for (text, format, want) in [
        ("1970-01-02", "%Y-%m-%d", Ok(86_400_000_000_000)),
        (
            "1969-12-31 23:59:59",
            "%Y-%m-%d %H:%M:%S",
            Ok(-1_000_000_000),
        ),
        ("2024-02-29", "%Y-%m-%d", Ok(1_709_164_800_000_000_000)),
        ("2023-02-29", "%Y-%m-%d", error(EvalErr::BadText)),
        (
            "2262-04-11 23:47:16",
            "%Y-%m-%d %H:%M:%S",
            Ok(9_223_372_036_000_000_000),
        ),
        (
            "2262-04-11 23:47:17",
            "%Y-%m-%d %H:%M:%S",
            error(EvalErr::Range),
        ),
        (
            "1677-09-21 00:12:44",
            "%Y-%m-%d %H:%M:%S",
            Ok(-9_223_372_036_000_000_000),
        ),
        (
            "1677-09-21 00:12:43",
            "%Y-%m-%d %H:%M:%S",
            error(EvalErr::Range),
        ),
        ("x", "%Y", error(EvalErr::BadText)),
        ("", "", Ok(0)),
        ("05", "%M", Ok(300_000_000_000)),
        ("at 7h", "at %Hh", Ok(25_200_000_000_000)),
        ("7h", "at %Hh", error(EvalErr::BadText)),
        ("%5", "%%%H", Ok(18_000_000_000_000)),
        ("24", "%H", error(EvalErr::BadText)),
        ("1970-13-01", "%Y-%m-%d", error(EvalErr::BadText)),
        ("03 04", "%d %d", Ok(259_200_000_000_000)),
        ("1970;05", "%Y", error(EvalErr::BadText)),
    ] {
        let value = Value::Text(Text::from_str(alloc, text)?);
        let moment = time(alloc, &value, &Text::from_str(alloc, format)?);
        assert_eq!(rt; int_of(moment), want, "at {text} {format}");
    }
    Ok(())
}

#[test]
fn times_are_shown_by_formats(rt: HostRuntime) -> Result<(), Fail> {
    let alloc = rt.alloc();
    for (moment, format, want) in [
        (0, "%Y-%m-%d", "1970-01-01"),
        (-1, "%H:%M:%S %%", "23:59:59 %"),
        (i64::MIN, "%Y%m%d %H%M%S", "16770921 001243"),
        (i64::MAX, "%Y年%m月%d日 %H%M%S", "2262年04月11日 234716"),
        (951_782_400_000_000_000, "%d.%m.%Y", "29.02.2000"),
        (0, "", ""),
        (0, "%d%d", "0101"),
    ] {
        let format = Text::from_str(alloc, format)?;
        if is_time_format(format.as_str()) {
            let shown = text_of(format_time(alloc, &Value::Int(moment), &format))?;
            assert_eq!(rt; shown.as_str(), want);
        } else {
            return Err(Fail::from("no format"));
        }
    }
    for text in ["%y", "%", "%-d", "%j", "a%%%", "%%%%%Y%"] {
        assert!(rt; !is_time_format(text), "at {text}");
    }
    Ok(())
}

#[test]
fn parts_are_those_of_the_civil_date_and_time(rt: HostRuntime) -> Result<(), Fail> {
    let table = [
        (0i64, [1970i64, 1, 1, 0, 0, 0, 0, 4]),
        (-1, [1969, 12, 31, 23, 59, 59, 999_999_999, 3]),
        (i64::MIN, [1677, 9, 21, 0, 12, 43, 145_224_192, 2]),
        (i64::MAX, [2262, 4, 11, 23, 47, 16, 854_775_807, 5]),
        (1_709_164_800_000_000_001, [2024, 2, 29, 0, 0, 0, 1, 4]),
        (1_700_352_000_000_000_000, [2023, 11, 19, 0, 0, 0, 0, 0]),
        (1_700_265_600_000_000_000, [2023, 11, 18, 0, 0, 0, 0, 6]),
    ];
    for (moment, want) in table {
        let time = Value::Int(moment);
        let parts = [
            int_of(year(&time)),
            int_of(month(&time)),
            int_of(day(&time)),
            int_of(hour(&time)),
            int_of(minute(&time)),
            int_of(second(&time)),
            int_of(nanosecond(&time)),
            int_of(weekday(&time)),
        ];
        for (i, part) in parts.iter().enumerate() {
            assert_eq!(rt; *part, Ok(want[i]), "part {i} at {moment}");
        }
    }
    Ok(())
}

#[test]
fn units_are_rounded_down(rt: HostRuntime) -> Result<(), Fail> {
    for (moment, want) in [
        (-1i64, [-1i64, -1, -1, -1]),
        (0, [0, 0, 0, 0]),
        (1_999_999_999, [1, 1_999, 1_999_999, 1_999_999_999]),
        (-1_000_000_000, [-1, -1_000, -1_000_000, -1_000_000_000]),
        (-1_000_000_001, [-2, -1_001, -1_000_001, -1_000_000_001]),
    ] {
        let time = Value::Int(moment);
        assert_eq!(rt; int_of(unix_seconds(&time)), Ok(want[0]), "at {moment}");
        assert_eq!(rt; int_of(unix_milli(&time)), Ok(want[1]), "at {moment}");
        assert_eq!(rt; int_of(unix_micro(&time)), Ok(want[2]), "at {moment}");
        assert_eq!(rt; int_of(unix_nano(&time)), Ok(want[3]), "at {moment}");
    }
    for (seconds, nanoseconds, want) in [
        (1i64, 5i64, Ok(1_000_000_005i64)),
        (-1, 999_999_999, Ok(-1)),
        (9_223_372_036, 854_775_807, Ok(i64::MAX)),
        (9_223_372_036, 854_775_808, error(EvalErr::Overflow)),
        (9_223_372_037, -145_224_193, Ok(i64::MAX)),
        (i64::MIN, i64::MIN, error(EvalErr::Overflow)),
    ] {
        let moment = unix(&Value::Int(seconds), &Value::Int(nanoseconds));
        assert_eq!(rt; int_of(moment), want, "at {seconds} {nanoseconds}");
    }
    Ok(())
}

// Whether each function answers this error to a value.
fn all_refuse(alloc: Global, value: &Value, want: EvalErr) -> Result<bool, Fail> {
    let format = Text::from_str(alloc, "%Y")?;
    Ok(
        int_of(time(alloc, value, &format)) == error(want)
            && int_of(unix(value, &Value::Empty)) == error(want)
            && int_of(unix(&Value::Int(0), value)) == error(want)
            && int_of(unix_seconds(value)) == error(want)
            && int_of(weekday(value)) == error(want)
            && int_of(year(value)) == error(want),
    )
}

#[test]
fn other_kinds_are_refused(rt: HostRuntime) -> Result<(), Fail> {
    let alloc = rt.alloc();
    assert!(rt; all_refuse(alloc, &Value::Empty, EvalErr::NilArgument)?);
    assert!(rt; all_refuse(alloc, &Value::Truth(true), EvalErr::KindOf)?);
    let double = Value::Double(Spelling::read(alloc, "1.5")?);
    assert!(rt; all_refuse(alloc, &double, EvalErr::Double)?);
    let bytes = Value::Bytes(Bytes::from_slice(alloc, b"1970")?);
    assert!(rt; all_refuse(alloc, &bytes, EvalErr::KindOf)?);
    assert!(rt; all_refuse(alloc, &Value::List(Values::new(alloc)), EvalErr::KindOf)?);
    Ok(())
}
