//! Payloads that are made, through pipelines.

use super::{Failing, ground_with, run_words};
use crate::status::Status;
use load_gen::make_payloads;
use std::alloc::{AllocError, Global};
use std::test::Fail;

/// Drops records, and renames what is left.
const CONF: &str = concat!(
    r#"{"receivers":{"otlpjsonfile":{}},"exporters":{"file":{"path":"out"}},"processors":{"#,
    r#""filter":{"logs":{"log_record":["severity_number < 9"]}},"#,
    r#""transform":{"log_statements":[{"context":"log","statements":["#,
    r#""set(attributes[\"id\"], attributes[\"user\"])","delete_key(attributes, \"user\")"]}]}},"#,
    r#""service":{"pipelines":{"logs":{"receivers":["otlpjsonfile"],"#,
    r#""processors":["filter","transform"],"exporters":["file"]}}}}"#
);

/// The status of those words, and then what `out` holds, the output and the notes, a bar before
/// each.
fn told(alloc: Global, words: &str, input: &[u8]) -> Result<Vec<u8>, AllocError> {
    let mut ground = ground_with(alloc, input, Failing::Nothing)?;
    ground.disk.put("c", CONF.as_bytes())?;
    let status = run_words(
        alloc,
        words,
        &mut ground.disk,
        &mut ground.out,
        &mut ground.notes,
    )?;
    super::tell(
        alloc,
        status,
        &ground.disk,
        ground.out.bytes(),
        ground.notes.bytes(),
    )
}

#[test]
fn made_payloads_are_run_as_those_of_an_input(rt: HostRuntime) -> Result<(), Fail> {
    let alloc = rt.alloc();
    let payloads = make_payloads(alloc, 7, 20)?;
    let want = told(alloc, "run|c|in|0", payloads.as_slice())?;
    let first = told(alloc, "demo|c|7|20|0", b"")?;
    let again = told(alloc, "demo|c|7|20|0", b"")?;
    assert!(rt; 1_000 < want.len());
    assert!(rt; first.as_slice() == want.as_slice());
    assert!(rt; again.as_slice() == want.as_slice());
    Ok(())
}

#[test]
fn numbers_are_digits_without_a_sign_or_leading_zeros(rt: HostRuntime) -> Result<(), Fail> {
    let alloc = rt.alloc();
    let rows = [
        ("demo|c|0|1|0", true),
        ("demo|c|18446744073709551615|1|0", true),
        ("demo|c|18446744073709551616|1|0", false),
        ("demo|c|07|1|0", false),
        ("demo|c|+7|1|0", false),
        ("demo|c|7|0|0", false),
        ("demo|c|7|10001|0", false),
        ("demo|c||1|0", false),
        ("demo|c|7|1|1", false),
        ("demo|c|7|1", false),
        ("demo||7|1|0", false),
    ];
    for (words, runs) in rows {
        let mut ground = ground_with(alloc, b"", Failing::Nothing)?;
        ground.disk.put("c", CONF.as_bytes())?;
        let status = run_words(
            alloc,
            words,
            &mut ground.disk,
            &mut ground.out,
            &mut ground.notes,
        )?;
        assert!(rt; (status == Status::Done) == runs);
        assert!(rt; (status == Status::Usage) != runs);
    }
    Ok(())
}
