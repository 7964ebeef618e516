//! A record with all that it may have, and payloads that are refused, each with its kind and place.

use super::{Failing, run};
use std::alloc::{AllocError, Global};
use std::test::Fail;

/// Each member of a record, the last first.
const REVERSED: &str =
    r#"{"eventName":"e","spanId":"EEE19B7EC3C1B174","traceId":"5B8EFFF798038103D269B633813FC60C","flags":1,"droppedAttributesCount":2,"attributes":[{"key":"n","value":{"intValue":7}},{"key":"d","value":{"doubleValue":0.10}},{"key":"b","value":{"bytesValue":"aGk="}},{"key":"t","value":{"boolValue":true}},{"key":"l","value":{"arrayValue":{"values":[{"stringValue":"x"}]}}},{"key":"m","value":{"kvlistValue":{"values":[{"key":"k","value":{}}]}}}],"body":{"stringValue":"hi"},"severityText":"INFO","severityNumber":9,"observedTimeUnixNano":2,"timeUnixNano":"1"}"#;

/// The same as it is written.
const ORDERED: &str =
    r#"{"timeUnixNano":"1","observedTimeUnixNano":"2","severityNumber":9,"severityText":"INFO","body":{"stringValue":"hi"},"attributes":[{"key":"n","value":{"intValue":"7"}},{"key":"d","value":{"doubleValue":0.10}},{"key":"b","value":{"bytesValue":"aGk="}},{"key":"t","value":{"boolValue":true}},{"key":"l","value":{"arrayValue":{"values":[{"stringValue":"x"}]}}},{"key":"m","value":{"kvlistValue":{"values":[{"key":"k","value":{}}]}}}],"droppedAttributesCount":2,"flags":1,"traceId":"5b8efff798038103d269b633813fc60c","spanId":"eee19b7ec3c1b174"}"#;

/// A payload of one record.
fn payload(alloc: Global, record: &str) -> Result<String, AllocError> {
    Ok(format!(in alloc;
        "{{\"resourceLogs\":[{{\"resource\":{{}},\"scopeLogs\":[{{\"scope\":{{}},\"logRecords\":[{record}]}}]}}]}}\n"
    )?)
}

/// What `pass` leaves of a payload of one record.
fn passed(alloc: Global, record: &str) -> Result<Vec<u8>, AllocError> {
    let line = payload(alloc, record)?;
    run(alloc, "pass|in|out", line.as_bytes(), Failing::Nothing)
}

#[test]
fn members_are_written_in_their_order(rt: HostRuntime) -> Result<(), Fail> {
    let rows = [
        (REVERSED, ORDERED),
        (r#"{"x":{"y":[1,{}]}}"#, "{}"),
        (r#"{"flags":null,"body":{"stringValue":null}}"#, "{}"),
        (
            r#"{"flags":1,"flags":2,"severityText":""}"#,
            r#"{"flags":2}"#,
        ),
        (r#"{"traceId":"00000000000000000000000000000000"}"#, "{}"),
    ];
    for (record, wanted) in rows {
        let found = passed(rt.alloc(), record)?;
        let line = payload(rt.alloc(), wanted)?;
        let want = format!(in rt.alloc(); "Done|{line}|payloads 1 accepted 1 refused 0\n|")?;
        assert_eq!(rt; found.as_slice(), want.as_bytes(), "of {record}");
    }
    Ok(())
}

#[test]
fn refused_payloads_are_noted_with_kind_and_place(rt: HostRuntime) -> Result<(), Fail> {
    let rows = [
        (r#"null"#, "WrongKind at 71"),
        (r#"{"body":{"boolValue":1}}"#, "WrongKind at 92"),
        (r#"{"flags":4294967296}"#, "BadNumber at 80"),
        (r#"{"severityNumber":"9"}"#, "WrongKind at 89"),
        (r#"{"body":{"bytesValue":"aGk"}}"#, "BadBase64 at 93"),
        (r#"{"traceId":"eee19b7ec3c1b174"}"#, "BadId at 82"),
        (r#"{"body":{"intValue":"1e3"}}"#, "BadNumber at 91"),
        (r#"{"body":"\ud800"}"#, "BadJson at 86"),
    ];
    for (record, fault) in rows {
        let found = passed(rt.alloc(), record)?;
        let want = format!(in rt.alloc();
            "SomeRefused||payloads 1 accepted 0 refused 1\n|payload 1 refused {fault}\n"
        )?;
        assert_eq!(rt; found.as_slice(), want.as_bytes(), "of {record}");
    }
    Ok(())
}

#[test]
fn bytes_that_are_no_text_are_refused(rt: HostRuntime) -> Result<(), Fail> {
    let found = run(rt.alloc(), "pass|in|out", b"{\"\xff\n", Failing::Nothing)?;
    assert_eq!(rt;
        found.as_slice(),
        b"SomeRefused||payloads 1 accepted 0 refused 1\n|payload 1 refused BadUtf8 at 2\n".as_slice()
    );
    Ok(())
}
