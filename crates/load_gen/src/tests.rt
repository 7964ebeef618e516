//! Payloads by their text.

use crate::make_payloads;
use std::alloc::Global;
use std::test::Fail;

const FRONT: &str = concat!(
    r#"{"resourceLogs":[{"resource":{"attributes":[{"key":"service.name","#,
    r#""value":{"stringValue":"svc-3"}}]},"scopeLogs":[{"scope":{"name":"demo"},"#,
    r#""logRecords":[{"timeUnixNano":"1700000001000000000","severityNumber":"#
);

#[test]
fn the_first_payload_of_seed_0_is_of_service_3(rt: HostRuntime) -> Result<(), Fail> {
    let alloc = rt.alloc();
    let lines = make_payloads(alloc, 0, 1)?;
    assert!(rt; lines.as_slice().starts_with(FRONT.as_bytes()));
    Ok(())
}

#[test]
fn each_payload_is_a_line(rt: HostRuntime) -> Result<(), Fail> {
    let alloc = rt.alloc();
    let lines = make_payloads(alloc, 7, 3)?;
    let mut newlines = 0;
    for byte in lines.as_slice() {
        if *byte == b'\n' && newlines < 100 {
            newlines += 1;
        }
    }
    assert_eq!(rt; newlines, 3);
    Ok(())
}
