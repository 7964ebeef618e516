//! The laws can be called, and a payload comes back.

use crate::{read_json_can_be_written, read_payloads_can_be_written};
use otlp_json::{read_payload, write_line};
use std::test::Fail;

// Escapes, numbers as numerals and as texts, a double that is a word, ids in capitals, a member
// that stands twice, one that is null and one that is unknown.
const LINE: &str =
    r#" {"x":[1e9],"resourceLogs":[{"schemaUrl":"u","resource":{"attributes":[{"key":"\u00e9"}]},"scopeLogs":[{"scope":null,"scope":{"name":"\ud83d\ude00\/"},"logRecords":[{"flags":2,"severityNumber":-1,"timeUnixNano":7,"traceId":"5B8EFFF798038103D269B633813FC60C","body":{"kvlistValue":{"values":[{"key":"k","value":{"doubleValue":"NaN"}},{"key":"b","value":{"bytesValue":"aGk="}}]}},"flags":"3"}]}]}]} "#;

const WRITTEN: &str =
    r#"{"resourceLogs":[{"resource":{"attributes":[{"key":"é","value":{}}]},"scopeLogs":[{"scope":{"name":"😀/"},"logRecords":[{"timeUnixNano":"7","severityNumber":-1,"body":{"kvlistValue":{"values":[{"key":"k","value":{"doubleValue":"NaN"}},{"key":"b","value":{"bytesValue":"aGk="}}]}},"flags":3,"traceId":"5b8efff798038103d269b633813fc60c"}]}],"schemaUrl":"u"}]}"#;

#[test]
fn what_is_read_comes_back(rt: HostRuntime) -> Result<(), Fail> {
    read_json_can_be_written();
    read_payloads_can_be_written();
    let batch = read_payload(rt.alloc(), LINE.as_bytes())?;
    let written = write_line(rt.alloc(), &batch)?;
    assert_eq!(rt; written.as_slice(), WRITTEN.as_bytes());
    let again = read_payload(rt.alloc(), WRITTEN.as_bytes())?;
    let rewritten = write_line(rt.alloc(), &again)?;
    assert_eq!(rt; rewritten.as_slice(), WRITTEN.as_bytes());
    Ok(())
}
