//! What given bytes are read as, and what given values are written as.

use crate::{
    Json, JsonFault, JsonKind, cut_objects_are_refused, push_comma_before, push_json, push_text,
    read, reading_is_the_grammar, spelled_value_is_read, write, written_is_read,
};
use std::alloc::Global;
use std::process::Abort;
use std::test::Fail;

const LINE: &str =
    "{\"resourceLogs\":[{\"resource\":{\"attributes\":[{\"key\":\"a\\u00e9\",\"value\":{\"intValue\":\"-1\"}}]},\"x\":[1.5e3,true,null]}]}";

fn fault(rt: &impl Abort, alloc: Global, bytes: &[u8]) -> Option<JsonFault> {
    assert!(rt; bytes.len() < 1000);
    match read(alloc, bytes, 300) {
        Ok(_) => None,
        Err(fault) => Some(fault),
    }
}

#[test]
fn faults_stand_at_their_places(rt: HostRuntime) -> Result<(), Fail> {
    let table: [(&[u8], JsonFault); 36] = [
        (b"{\"resourceLogs\":\"\\u00", JsonFault::BadJson(21)),
        (b"{\"resourceLogs\":\"\\ud800\"}", JsonFault::BadJson(23)),
        (b"{\"resourceLogs\":\"\\udc00\"}", JsonFault::BadJson(20)),
        (b"\"\\ud800\\ud800\"", JsonFault::BadJson(10)),
        (b"\"\\ud800\\u0041\"", JsonFault::BadJson(9)),
        (b"\"\\u00g0\"", JsonFault::BadJson(5)),
        (b"{\"\xff", JsonFault::BadUtf8(2)),
        (b"x\xff", JsonFault::BadUtf8(1)),
        (b"\xef\xbb\xbf{}", JsonFault::BadJson(0)),
        (b"", JsonFault::BadJson(0)),
        (b" \t\r\n", JsonFault::BadJson(4)),
        (b"01", JsonFault::BadJson(1)),
        (b"-01", JsonFault::BadJson(2)),
        (b"1.", JsonFault::BadJson(2)),
        (b"1.e1", JsonFault::BadJson(2)),
        (b"-", JsonFault::BadJson(1)),
        (b"-x", JsonFault::BadJson(1)),
        (b"1e", JsonFault::BadJson(2)),
        (b"1e+", JsonFault::BadJson(3)),
        (b"+1", JsonFault::BadJson(0)),
        (b".5", JsonFault::BadJson(0)),
        (b"tru", JsonFault::BadJson(3)),
        (b"nul", JsonFault::BadJson(3)),
        (b"nule", JsonFault::BadJson(3)),
        (b"truex", JsonFault::BadJson(4)),
        (b"\"a\x1f\"", JsonFault::BadJson(2)),
        (b"\"a\nb\"", JsonFault::BadJson(2)),
        (b"\"\\x\"", JsonFault::BadJson(2)),
        (b"\"\\", JsonFault::BadJson(2)),
        (b"[1,]", JsonFault::BadJson(3)),
        (b"[1 2]", JsonFault::BadJson(3)),
        (b"{\"a\":1,}", JsonFault::BadJson(7)),
        (b"{\"a\" 1}", JsonFault::BadJson(5)),
        (b"{a:1}", JsonFault::BadJson(1)),
        (b"1 2", JsonFault::BadJson(2)),
        (b"[}", JsonFault::BadJson(1)),
    ];
    for (bytes, wanted) in table {
        assert_eq!(rt; fault(&rt, rt.alloc(), bytes), Some(wanted), "{bytes:?}");
    }
    Ok(())
}

#[test]
fn containers_nest_as_deep_as_allowed(rt: HostRuntime) -> Result<(), Fail> {
    let mut bytes = b"{\"x\":".to_vec(rt.alloc())?;
    for _ in 0..299 {
        bytes.push(b'[')?;
    }
    assert_eq!(rt;
        fault(&rt, rt.alloc(), bytes.as_slice()),
        Some(JsonFault::BadJson(304))
    );
    bytes.push(b'[')?;
    assert_eq!(rt;
        fault(&rt, rt.alloc(), bytes.as_slice()),
        Some(JsonFault::TooDeep(304))
    );
    Ok(())
}

#[test]
fn each_cut_of_a_line_ends_too_early(rt: HostRuntime) -> Result<(), Fail> {
    let bytes = LINE.as_bytes();
    for count in 0..bytes.len() {
        let wanted = JsonFault::BadJson(u32::try_from(count).unwrap_or(0));
        assert_eq!(rt; fault(&rt, rt.alloc(), &bytes[..count]), Some(wanted));
    }
    assert_eq!(rt; fault(&rt, rt.alloc(), bytes), None);
    Ok(())
}

#[test]
fn values_are_read_and_written(rt: HostRuntime) -> Result<(), Fail> {
    let table: [(&str, &str); 12] = [
        ("1E+2", "1E+2"),
        ("-0", "-0"),
        ("1.0e-10", "1.0e-10"),
        (" 0 ", "0"),
        ("true", "true"),
        (" [ ] ", "[]"),
        ("{ }", "{}"),
        (
            "[null,\tfalse , {\"a\" : [1] , \"a\":2}]",
            "[null,false,{\"a\":[1],\"a\":2}]",
        ),
        (
            "\"\\u0041\\/\\b\\f\\n\\r\\t\\\"\\\\\"",
            "\"A/\\b\\f\\n\\r\\t\\\"\\\\\"",
        ),
        ("\"\\u001F\\u007f\"", "\"\\u001f\u{7f}\""),
        (
            "\"\\uD83D\\uDE00 \\ud7ff\\uE000\"",
            "\"\u{1f600} \u{d7ff}\u{e000}\"",
        ),
        (
            "{\"\\u006bey\":\"\u{e9}\\u00e9\"}",
            "{\"key\":\"\u{e9}\u{e9}\"}",
        ),
    ];
    for (text, wanted) in table {
        assert!(rt; text.len() < 1000);
        let json = read(rt.alloc(), text.as_bytes(), 3)?;
        let mut out = Vec::new(rt.alloc());
        push_json(&mut out, &json)?;
        assert_eq!(rt; out.as_slice(), wanted.as_bytes(), "{text}");
    }
    Ok(())
}

#[test]
fn values_stand_at_their_first_bytes(rt: HostRuntime) -> Result<(), Fail> {
    let json = read(rt.alloc(), b" [1, {\"a\": true}]", 2)?;
    assert_eq!(rt; json.at, 1);
    let mut places = Vec::new(rt.alloc());
    if let JsonKind::List(items) = &json.kind {
        for item in items.as_slice() {
            places.push(item.at)?;
            if let JsonKind::Object(members) = &item.kind {
                for (_, value) in members.as_slice() {
                    places.push(value.at)?;
                }
            }
        }
    }
    assert_eq!(rt; places.as_slice(), [2u32, 5, 11].as_slice());
    Ok(())
}

#[test]
fn a_truth_and_a_text_are_written(rt: HostRuntime) -> Result<(), Fail> {
    reading_is_the_grammar();
    spelled_value_is_read();
    cut_objects_are_refused();
    written_is_read();
    let json = Json {
        at: 0,
        kind: JsonKind::Truth(true),
    };
    let mut out = write(rt.alloc(), &json)?;
    push_comma_before(&mut out, 1)?;
    push_text(&mut out, "a\u{1}\u{e9}")?;
    assert_eq!(rt; out.as_slice(), "true,\"a\\u0001\u{e9}\"".as_bytes());
    Ok(())
}
