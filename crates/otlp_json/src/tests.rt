//! What given lines are read as, and how they are written.

mod direct;

use crate::{
    PayloadStop, cut_lines_are_refused, lines_read_back, payloads_are_within_limits, push_line,
    read_payload, write_line,
};
use std::alloc::{AllocError, Global};
use std::process::Abort;
use std::test::Fail;

const BEFORE_RECORD: &str =
    r#"{"resourceLogs":[{"resource":{},"scopeLogs":[{"scope":{},"logRecords":["#;

const BEHIND_RECORD: &str = "]}]}]}";

/// The written form of a line, or its fault.
fn answer(rt: &impl Abort, alloc: Global, line: &[u8]) -> Result<Vec<u8>, AllocError> {
    assert!(rt; line.len() <= 16_777_216);
    match read_payload(alloc, line) {
        Ok(batch) => write_line(alloc, &batch),
        Err(PayloadStop::Fault(fault)) => {
            let name = format!(in alloc; "{fault}")?;
            Ok(name.into_bytes())
        }
        Err(PayloadStop::NoMemory) => Err(AllocError),
    }
}

/// A payload of one record, which begins at place 71.
fn line_of(alloc: Global, record: &str) -> Result<String, AllocError> {
    format!(in alloc; "{BEFORE_RECORD}{record}{BEHIND_RECORD}")
}

#[test]
fn records_are_written_in_their_one_form(rt: HostRuntime) -> Result<(), Fail> {
    let table: [(&str, &str); 23] = [
        // Every member, and each left out where it is as good as absent.
        (
            r#"{"timeUnixNano":"1544712660300000000","observedTimeUnixNano":18446744073709551615,"severityNumber":9,"severityText":"INFO","body":{"stringValue":"hi"},"attributes":[{"key":"k","value":{"boolValue":true}}],"droppedAttributesCount":"3","flags":4294967295,"traceId":"5B8EFFF798038103D269B633813FC60C","spanId":"eee19B7EC3c1b174"}"#,
            r#"{"timeUnixNano":"1544712660300000000","observedTimeUnixNano":"18446744073709551615","severityNumber":9,"severityText":"INFO","body":{"stringValue":"hi"},"attributes":[{"key":"k","value":{"boolValue":true}}],"droppedAttributesCount":3,"flags":4294967295,"traceId":"5b8efff798038103d269b633813fc60c","spanId":"eee19b7ec3c1b174"}"#,
        ),
        (
            r#"{"spanId":"","traceId":"00000000000000000000000000000000","flags":"0","droppedAttributesCount":0,"attributes":[],"body":null,"severityText":"","severityNumber":0,"observedTimeUnixNano":"-0","timeUnixNano":0}"#,
            r#"{}"#,
        ),
        (
            r#"{"spanId":"0000000000000001","flags":1,"body":{},"severityNumber":-2147483648,"timeUnixNano":1}"#,
            r#"{"timeUnixNano":"1","severityNumber":-2147483648,"flags":1,"spanId":"0000000000000001"}"#,
        ),
        // Members that are unknown, stand twice, are null or have an escape in their key.
        (
            r#"{"x":{"y":[1,{}]},"flags":[1],"flags":2}"#,
            r#"{"flags":2}"#,
        ),
        (r#"{"flags":2,"flags":null}"#, r#"{}"#),
        (
            r#"{"\u0066lags":2,"severityText":"\u000a\u0000\/\u00e9"}"#,
            r#"{"severityText":"\n\u0000/é","flags":2}"#,
        ),
        // Values, of whose members the last counts.
        (
            r#"{"body":{"stringValue":"a","intValue":1}}"#,
            r#"{"body":{"intValue":"1"}}"#,
        ),
        (
            r#"{"body":{"intValue":"1","stringValue":null}}"#,
            r#"{"body":{"intValue":"1"}}"#,
        ),
        (
            r#"{"body":{"intValue":[],"stringValue":"a"}}"#,
            r#"{"body":{"stringValue":"a"}}"#,
        ),
        (
            r#"{"body":{"intValue":-9223372036854775808}}"#,
            r#"{"body":{"intValue":"-9223372036854775808"}}"#,
        ),
        (
            r#"{"body":{"intValue":9223372036854775807}}"#,
            r#"{"body":{"intValue":"9223372036854775807"}}"#,
        ),
        (
            r#"{"body":{"intValue":"-0"}}"#,
            r#"{"body":{"intValue":"0"}}"#,
        ),
        (
            r#"{"body":{"boolValue":false}}"#,
            r#"{"body":{"boolValue":false}}"#,
        ),
        (
            r#"{"body":{"stringValue":""}}"#,
            r#"{"body":{"stringValue":""}}"#,
        ),
        (
            r#"{"body":{"doubleValue":"1e3"}}"#,
            r#"{"body":{"doubleValue":1e3}}"#,
        ),
        (
            r#"{"body":{"doubleValue":0.10}}"#,
            r#"{"body":{"doubleValue":0.10}}"#,
        ),
        (
            r#"{"body":{"doubleValue":"-Infinity"}}"#,
            r#"{"body":{"doubleValue":"-Infinity"}}"#,
        ),
        (
            r#"{"body":{"bytesValue":"aGk="}}"#,
            r#"{"body":{"bytesValue":"aGk="}}"#,
        ),
        (
            r#"{"body":{"bytesValue":""}}"#,
            r#"{"body":{"bytesValue":""}}"#,
        ),
        (
            r#"{"body":{"arrayValue":{}}}"#,
            r#"{"body":{"arrayValue":{}}}"#,
        ),
        (
            r#"{"body":{"arrayValue":{"values":[{},{"arrayValue":{"values":[]}}]}}}"#,
            r#"{"body":{"arrayValue":{"values":[{},{"arrayValue":{}}]}}}"#,
        ),
        (
            r#"{"body":{"kvlistValue":{"values":null}}}"#,
            r#"{"body":{"kvlistValue":{}}}"#,
        ),
        (
            r#"{"body":{"kvlistValue":{"values":[{},{"value":{"intValue":7},"key":"k"},{"key":"k","value":null}]}}}"#,
            r#"{"body":{"kvlistValue":{"values":[{"key":"","value":{}},{"key":"k","value":{"intValue":"7"}},{"key":"k","value":{}}]}}}"#,
        ),
    ];
    for (record, wanted) in table {
        let line = line_of(rt.alloc(), record)?;
        let wanted = line_of(rt.alloc(), wanted)?;
        let written = answer(&rt, rt.alloc(), line.as_bytes())?;
        assert_eq!(rt; written.as_slice(), wanted.as_bytes(), "{record}");
        let again = answer(&rt, rt.alloc(), wanted.as_bytes())?;
        assert_eq!(rt; again.as_slice(), wanted.as_bytes(), "{record} again");
    }
    Ok(())
}

#[test]
fn records_are_refused_at_the_value(rt: HostRuntime) -> Result<(), Fail> {
    let table: [(&str, &str); 31] = [
        // Kinds.
        (r#"null"#, "WrongKind at 71"),
        (r#"{"body":{"boolValue":1}}"#, "WrongKind at 92"),
        (r#"{"severityNumber":"9"}"#, "WrongKind at 89"),
        (r#"{"timeUnixNano":true}"#, "WrongKind at 87"),
        (r#"{"body":"hi"}"#, "WrongKind at 79"),
        (r#"{"body":{"stringValue":7}}"#, "WrongKind at 94"),
        (r#"{"body":{"doubleValue":true}}"#, "WrongKind at 94"),
        (r#"{"attributes":{}}"#, "WrongKind at 85"),
        (r#"{"attributes":[{"key":"k"},null]}"#, "WrongKind at 98"),
        (r#"{"attributes":[{"key":1}]}"#, "WrongKind at 93"),
        (r#"{"body":{"arrayValue":[]}}"#, "WrongKind at 93"),
        (
            r#"{"body":{"kvlistValue":{"values":{}}}}"#,
            "WrongKind at 104",
        ),
        // Numbers.
        (
            r#"{"body":{"intValue":9223372036854775808}}"#,
            "BadNumber at 91",
        ),
        (r#"{"body":{"intValue":"1.0"}}"#, "BadNumber at 91"),
        (r#"{"body":{"intValue":1e3}}"#, "BadNumber at 91"),
        (r#"{"body":{"intValue":" 1"}}"#, "BadNumber at 91"),
        (r#"{"body":{"intValue":"01"}}"#, "BadNumber at 91"),
        (r#"{"body":{"intValue":"+1"}}"#, "BadNumber at 91"),
        (r#"{"body":{"intValue":""}}"#, "BadNumber at 91"),
        (r#"{"body":{"doubleValue":"nan"}}"#, "BadNumber at 94"),
        (
            r#"{"timeUnixNano":"18446744073709551616"}"#,
            "BadNumber at 87",
        ),
        (r#"{"timeUnixNano":-1}"#, "BadNumber at 87"),
        (r#"{"severityNumber":2147483648}"#, "BadNumber at 89"),
        (r#"{"flags":4294967296}"#, "BadNumber at 80"),
        // Ids and bytes.
        (
            r#"{"traceId":"5B8EFFF798038103D269B633813FC60"}"#,
            "BadId at 82",
        ),
        (r#"{"traceId":"eee19b7ec3c1b174"}"#, "BadId at 82"),
        (r#"{"spanId":"eee19b7ec3c1b17g"}"#, "BadId at 81"),
        (r#"{"body":{"bytesValue":"aGk"}}"#, "BadBase64 at 93"),
        (r#"{"body":{"bytesValue":"aGl="}}"#, "BadBase64 at 93"),
        (r#"{"body":{"bytesValue":"-_8="}}"#, "BadBase64 at 93"),
        // The first in the order of the text.
        (
            r#"{"flags":-1,"body":{"boolValue":1},"traceId":"x"}"#,
            "BadNumber at 80",
        ),
    ];
    for (record, fault) in table {
        let line = line_of(rt.alloc(), record)?;
        let found = answer(&rt, rt.alloc(), line.as_bytes())?;
        assert_eq!(rt; found.as_slice(), fault.as_bytes(), "{record}");
    }
    Ok(())
}

#[test]
fn payloads_have_one_answer(rt: HostRuntime) -> Result<(), Fail> {
    let table: [(&[u8], &str); 21] = [
        (b"{}", r#"{"resourceLogs":[]}"#),
        (
            b" { \"resourceLogs\" : null }\r\n",
            r#"{"resourceLogs":[]}"#,
        ),
        (
            br#"{"resourceLogs":[{"schemaUrl":"x"}]}"#,
            r#"{"resourceLogs":[{"resource":{},"schemaUrl":"x"}]}"#,
        ),
        (
            br#"{"resourceLogs":[{"schemaUrl":"u","scopeLogs":[{"schemaUrl":"v","logRecords":[],"scope":{"droppedAttributesCount":1,"attributes":[{"key":"b"}],"version":"2","name":"n"}}],"resource":{"droppedAttributesCount":2,"attributes":[{"key":"a"}]}}]}"#,
            r#"{"resourceLogs":[{"resource":{"attributes":[{"key":"a","value":{}}],"droppedAttributesCount":2},"scopeLogs":[{"scope":{"name":"n","version":"2","attributes":[{"key":"b","value":{}}],"droppedAttributesCount":1},"schemaUrl":"v"}],"schemaUrl":"u"}]}"#,
        ),
        (
            br#"{"resourceLogs":[{"scopeLogs":[{},{"scope":null}]},{}]}"#,
            r#"{"resourceLogs":[{"resource":{},"scopeLogs":[{"scope":{}},{"scope":{}}]},{"resource":{}}]}"#,
        ),
        // Texts that are no JSON.
        (b"", "BadJson at 0"),
        (b" \t", "BadJson at 2"),
        (b"{}x", "BadJson at 2"),
        (b"\xef\xbb\xbf{}", "BadJson at 0"),
        (b"{\"resourceLogs\":\"\\u00", "BadJson at 21"),
        (b"{\"resourceLogs\":\"\\ud800\"}", "BadJson at 23"),
        (b"{\"resourceLogs\":\"\\udc00\"}", "BadJson at 20"),
        (b"{\"\xff", "BadUtf8 at 2"),
        (b"{\"resourceLogs\":1,\xff", "BadUtf8 at 18"),
        (b"{\"resourceLogs\":1,}", "BadJson at 18"),
        // Values that are no payload.
        (b"[]", "NotObject at 0"),
        (b" \"{}\"", "NotObject at 1"),
        (br#"{"resourceLogs":{}}"#, "WrongKind at 16"),
        (br#"{"resourceLogs":[[]]}"#, "WrongKind at 17"),
        (br#"{"resourceLogs":[{"resource":[]}]}"#, "WrongKind at 29"),
        (
            br#"{"resourceLogs":[{"scopeLogs":[null]}]}"#,
            "WrongKind at 31",
        ),
    ];
    for (line, wanted) in table {
        let found = answer(&rt, rt.alloc(), line)?;
        assert_eq!(rt; found.as_slice(), wanted.as_bytes(), "{line:?}");
    }
    Ok(())
}

#[test]
fn each_proper_front_is_refused_at_its_length(rt: HostRuntime) -> Result<(), Fail> {
    let line = line_of(rt.alloc(), r#"{"body":{"stringValue":"hi"}}"#)?;
    assert_eq!(rt; line.len(), 106);
    for count in 0..106 {
        let front = &line.as_bytes()[..count];
        let fault = format!(in rt.alloc(); "BadJson at {count}")?;
        let found = answer(&rt, rt.alloc(), front)?;
        assert_eq!(rt; found.as_slice(), fault.as_bytes());
    }
    Ok(())
}

/// So many elements between a front and a back.
fn filled(
    alloc: Global,
    front: &str,
    element: &str,
    back: &str,
    count: usize,
) -> Result<String, AllocError> {
    let mut line = String::from_str(alloc, front)?;
    for index in 0..count {
        if index > 0 {
            line.push_str(",")?;
        }
        line.push_str(element)?;
    }
    line.push_str(back)?;
    Ok(line)
}

#[test]
fn payloads_are_refused_past_their_limits(rt: HostRuntime) -> Result<(), Fail> {
    let records = (BEFORE_RECORD, "{}", BEHIND_RECORD);
    let elements = ("{\"resourceLogs\":[", "{}", "]}");
    let pairs = (
        r#"{"resourceLogs":[{"resource":{},"scopeLogs":[{"scope":{},"logRecords":[{"body":{"kvlistValue":{"values":["#,
        "{}",
        "]}}}]}]}]}",
    );
    let written = (pairs.0, r#"{"key":"","value":{}}"#, pairs.2);
    // The front of the answer; what is accepted is written.
    let table = [
        (records, 32_768, "{\"resourceLogs\":[{"),
        (records, 32_769, "TooMany at 98375"),
        (elements, 32_768, "{\"resourceLogs\":[{"),
        (elements, 32_769, "TooMany at 98321"),
        (pairs, 499_999, "{\"resourceLogs\":[{"),
        (written, 499_999, "{\"resourceLogs\":[{"),
        (pairs, 500_000, "TooMany at 1500102"),
    ];
    for ((front, element, back), count, wanted) in table {
        let line = filled(rt.alloc(), front, element, back, count)?;
        let found = answer(&rt, rt.alloc(), line.as_bytes())?;
        assert!(rt;
            found.as_slice().starts_with(wanted.as_bytes()),
            "{element} {count} times"
        );
    }
    Ok(())
}

/// A body in which so many values stand in one another.
fn nested(alloc: Global, levels: usize) -> Result<String, AllocError> {
    let mut record = String::from_str(alloc, r#"{"body":"#)?;
    for _ in 1..levels {
        record.push_str(r#"{"arrayValue":{"values":["#)?;
    }
    record.push_str("{}")?;
    for _ in 1..levels {
        record.push_str("]}}")?;
    }
    record.push_str("}")?;
    Ok(record)
}

#[test]
fn values_nest_sixty_four_deep(rt: HostRuntime) -> Result<(), Fail> {
    let deep = line_of(rt.alloc(), nested(rt.alloc(), 64)?.as_str())?;
    let written = answer(&rt, rt.alloc(), deep.as_bytes())?;
    assert_eq!(rt; written.as_slice(), deep.as_bytes());
    let deeper = line_of(rt.alloc(), nested(rt.alloc(), 65)?.as_str())?;
    let fault = answer(&rt, rt.alloc(), deeper.as_bytes())?;
    assert_eq!(rt; fault.as_slice(), b"TooDeep at 1679".as_slice());
    let mut opening = String::from_str(rt.alloc(), r#"{"x":"#)?;
    for _ in 0..300 {
        opening.push_str("[")?;
    }
    let fault = answer(&rt, rt.alloc(), opening.as_bytes())?;
    assert_eq!(rt; fault.as_slice(), b"TooDeep at 304".as_slice());
    Ok(())
}

#[test]
fn a_line_is_pushed_behind_what_stands(rt: HostRuntime) -> Result<(), Fail> {
    lines_read_back();
    cut_lines_are_refused();
    payloads_are_within_limits();
    let batch = read_payload(rt.alloc(), b"{}")?;
    let mut out = b"x\n".to_vec(rt.alloc())?;
    push_line(&mut out, &batch)?;
    assert_eq!(rt; out.as_slice(), b"x\n{\"resourceLogs\":[]}".as_slice());
    Ok(())
}
