//! Configurations that are run over payloads, and what stands in the files afterwards.

use super::{Failing, ground_with, run_words};
use crate::status::Status;
use std::alloc::{AllocError, Global};
use std::test::Fail;
use tele_io::{DiskOp, MemDisk};

/// Pipelines that may be run, by what stands between the receivers and the exporters of each.
const PLAIN: &str = concat!(
    r#"{"receivers":{"otlpjsonfile":{}},"exporters":{"file":{"path":"a"}},"#,
    r#""service":{"pipelines":{"logs":{"receivers":["otlpjsonfile"],"exporters":["file"]}}}}"#
);

/// A payload with these records.
fn payload(alloc: Global, records: &str) -> Result<String, AllocError> {
    let scope = format!(in alloc; r#"{{"scope":{{}},"logRecords":[{records}]}}"#)?;
    format!(in alloc; r#"{{"resourceLogs":[{{"resource":{{}},"scopeLogs":[{scope}]}}]}}"#)
}

/// One pipeline with a transform of that mode, and these statements on log records.
fn transforming(alloc: Global, mode: &str, statements: &str) -> Result<String, AllocError> {
    let group = format!(in alloc; r#"{{"context":"log","statements":[{statements}]}}"#)?;
    let transform = format!(in alloc; r#"{{"error_mode":"{mode}","log_statements":[{group}]}}"#)?;
    processing(alloc, "transform", transform.as_str())
}

/// One pipeline with that processor.
fn processing(alloc: Global, name: &str, settings: &str) -> Result<String, AllocError> {
    let head = r#"{"receivers":{"otlpjsonfile":{}},"exporters":{"file":{"path":"a"}}"#;
    let processors = format!(in alloc; r#""processors":{{"{name}":{settings}}}"#)?;
    let front = format!(in alloc; r#""receivers":["otlpjsonfile"],"processors":["{name}"]"#)?;
    let pipelines = format!(in alloc; r#"{{"logs":{{{front},"exporters":["file"]}}}}"#)?;
    format!(in alloc; r#"{head},{processors},"service":{{"pipelines":{pipelines}}}}}"#)
}

/// The status, then what each of the files `a`, `b` and `d` that is there holds, then the output
/// and the notes, with a bar before each.
fn tell_files(
    alloc: Global,
    status: Status,
    disk: &MemDisk,
    out: &[u8],
    notes: &[u8],
) -> Result<Vec<u8>, AllocError> {
    let mut text = Vec::new(alloc);
    text.extend_from_slice(format!(in alloc; "{status:?}")?.as_bytes())?;
    for name in ["a", "b", "d"] {
        match disk.get(name) {
            Some(bytes) => {
                text.extend_from_slice(format!(in alloc; "|{name} ")?.as_bytes())?;
                text.extend_from_slice(bytes)?;
            }
            None => {}
        }
    }
    for bytes in [out, notes] {
        text.push(b'|')?;
        text.extend_from_slice(bytes)?;
    }
    Ok(text)
}

/// Runs a configuration over an input, and tells how that ended.
fn run(alloc: Global, conf: &str, input: &str, failing: Failing) -> Result<Vec<u8>, AllocError> {
    let mut ground = ground_with(alloc, input.as_bytes(), failing)?;
    ground.disk.put("c", conf.as_bytes())?;
    let status = run_words(
        alloc,
        "run|c|in|0",
        &mut ground.disk,
        &mut ground.out,
        &mut ground.notes,
    )?;
    tell_files(
        alloc,
        status,
        &ground.disk,
        ground.out.bytes(),
        ground.notes.bytes(),
    )
}

/// The same of one payload with these records, by statements in that mode.
fn transformed(
    alloc: Global,
    mode: &str,
    statements: &str,
    records: &str,
) -> Result<Vec<u8>, AllocError> {
    let conf = transforming(alloc, mode, statements)?;
    let line = payload(alloc, records)?;
    run(alloc, conf.as_str(), line.as_str(), Failing::Nothing)
}

/// What is told of a run that left this record, without errors and notes.
fn left(alloc: Global, record: &str) -> Result<Vec<u8>, AllocError> {
    let line = payload(alloc, record)?;
    let bytes = line.len() + 1;
    let legs = "leg 0 logs in 1 out 1 filtered 0 unrouted 0 failed 0 errors 0";
    let file = format!(in alloc; "exporter file lines 1 bytes {bytes}")?;
    let sums = format!(in alloc; "payloads 1 accepted 1 refused 0\n{legs}\n{file}\n")?;
    Ok(format!(in alloc; "Done|a {line}\n|{sums}|")?.into_bytes())
}

#[test]
fn identity_keeps_bytes(rt: HostRuntime) -> Result<(), Fail> {
    let line = payload(rt.alloc(), r#"{"body":{"stringValue":"hi"}}"#)?;
    let told = run(rt.alloc(), PLAIN, line.as_str(), Failing::Nothing)?;
    let want = left(rt.alloc(), r#"{"body":{"stringValue":"hi"}}"#)?;
    assert!(rt; told.as_slice() == want.as_slice());
    Ok(())
}

#[test]
fn an_empty_input_leaves_empty_files(rt: HostRuntime) -> Result<(), Fail> {
    let told = run(rt.alloc(), PLAIN, "", Failing::Nothing)?;
    let want = concat!(
        "Done|a |payloads 0 accepted 0 refused 0\n",
        "leg 0 logs in 0 out 0 filtered 0 unrouted 0 failed 0 errors 0\n",
        "exporter file lines 0 bytes 0\n|"
    );
    assert!(rt; told.as_slice() == want.as_bytes());
    Ok(())
}

#[test]
fn a_refused_payload_leaves_the_others(rt: HostRuntime) -> Result<(), Fail> {
    let input = "{\"resourceLogs\":\"\\u00\n{\"resourceLogs\":[]}\n";
    let told = run(rt.alloc(), PLAIN, input, Failing::Nothing)?;
    let want = concat!(
        "SomeRefused|a |payloads 2 accepted 1 refused 1\n",
        "leg 0 logs in 0 out 0 filtered 0 unrouted 0 failed 0 errors 0\n",
        "exporter file lines 0 bytes 0\n|payload 1 refused BadJson at 21\n"
    );
    assert!(rt; told.as_slice() == want.as_bytes());
    Ok(())
}

#[test]
fn statements_rewrite_records(rt: HostRuntime) -> Result<(), Fail> {
    let rows = [
        (
            concat!(
                r#""set(attributes[\"x\"], attributes[\"none\"])","set(attributes[\"y\"], \"1\") "#,
                r#"where attributes[\"none\"] == nil""#
            ),
            r#"{}"#,
            r#"{"attributes":[{"key":"y","value":{"stringValue":"1"}}]}"#,
        ),
        (
            r#""replace_all_patterns(attributes, \"key\", \"^k[0-9]$\", \"k\")""#,
            concat!(
                r#"{"attributes":[{"key":"k1","value":{"stringValue":"a"}},{"key":"z","#,
                r#""value":{"stringValue":"b"}},{"key":"k2","value":{"stringValue":"c"}}]}"#
            ),
            concat!(
                r#"{"attributes":[{"key":"k","value":{"stringValue":"c"}},{"key":"z","#,
                r#""value":{"stringValue":"b"}}]}"#
            ),
        ),
        (
            r##""delete_matching_keys(attributes, \"^pass\")","replace_pattern(body, \"[0-9]+\", \"#\")""##,
            concat!(
                r#"{"body":{"stringValue":"user 42 in"},"attributes":[{"key":"password","#,
                r#""value":{"stringValue":"x"}}]}"#
            ),
            r##"{"body":{"stringValue":"user # in"}}"##,
        ),
    ];
    for (statements, record, want) in rows {
        let told = transformed(rt.alloc(), "propagate", statements, record)?;
        let want = left(rt.alloc(), want)?;
        assert!(rt; told.as_slice() == want.as_slice(), "of {statements}");
    }
    Ok(())
}

#[test]
fn error_modes_keep_or_drop(rt: HostRuntime) -> Result<(), Fail> {
    let statements =
        r#""set(attributes[\"a\"], 1)","set(attributes[\"b\"], 1 / 0)","set(attributes[\"c\"], 3)""#;
    let kept = concat!(
        r#"|a {"resourceLogs":[{"resource":{},"scopeLogs":[{"scope":{},"logRecords":["#,
        r#"{"attributes":[{"key":"a","value":{"intValue":"1"}},"#,
        r#"{"key":"c","value":{"intValue":"3"}}]}]}]}]}"#,
        "\n|payloads 1 accepted 1 refused 0\n",
        "leg 0 logs in 1 out 1 filtered 0 unrouted 0 failed 0"
    );
    let error = "transform group 0 statement 1 at 0/0/0 DivideByZero";
    let ignored = format!(in rt.alloc();
        "Done{kept} errors 1\nexporter file lines 1 bytes 168\n|payload 1 leg 0 {error}\n"
    )?;
    let silent = format!(in rt.alloc(); "Done{kept} errors 0\nexporter file lines 1 bytes 168\n|")?;
    let counts = "leg 0 logs in 1 out 0 filtered 0 unrouted 0 failed 1 errors 0";
    let failed = format!(in rt.alloc();
        "Done|a |payloads 1 accepted 1 refused 0\n{counts}\nexporter file lines 0 bytes 0\n|payload 1 leg 0 failed {error}\n"
    )?;
    let rows = [
        ("ignore", ignored.as_str()),
        ("silent", silent.as_str()),
        ("propagate", failed.as_str()),
    ];
    for (mode, want) in rows {
        let told = transformed(rt.alloc(), mode, statements, "{}")?;
        assert!(rt; told.as_slice() == want.as_bytes(), "of {mode}");
    }
    Ok(())
}

/// Two pipelines of their own, one of which sets an attribute.
const APART: &str = concat!(
    r#"{"receivers":{"otlpjsonfile":{}},"#,
    r#""processors":{"transform":{"log_statements":[{"context":"log","#,
    r#""statements":["set(attributes[\"x\"], \"1\")"]}]}},"#,
    r#""exporters":{"file/a":{"path":"a"},"file/b":{"path":"b"}},"service":{"pipelines":{"#,
    concat!(
        r#""logs/a":{"receivers":["otlpjsonfile"],"processors":["transform"],"exporters":["#,
        r#""file/a"]},"#
    ),
    r#""logs/b":{"receivers":["otlpjsonfile"],"exporters":["file/b"]}}}}"#
);

#[test]
fn a_pipeline_changes_nothing_of_another(rt: HostRuntime) -> Result<(), Fail> {
    let line = payload(rt.alloc(), r#"{"body":{"stringValue":"hi"}}"#)?;
    let told = run(rt.alloc(), APART, line.as_str(), Failing::Nothing)?;
    let want = concat!(
        r#"Done|a {"resourceLogs":[{"resource":{},"scopeLogs":[{"scope":{},"logRecords":["#,
        r#"{"body":{"stringValue":"hi"},"attributes":[{"key":"x","value":{"stringValue":"1"}}]}"#,
        r#"]}]}]}"#,
        "\n",
        r#"|b {"resourceLogs":[{"resource":{},"scopeLogs":[{"scope":{},"logRecords":["#,
        r#"{"body":{"stringValue":"hi"}}]}]}]}"#,
        "\n|payloads 1 accepted 1 refused 0\n",
        "leg 0 logs/a in 1 out 1 filtered 0 unrouted 0 failed 0 errors 0\n",
        "leg 1 logs/b in 1 out 1 filtered 0 unrouted 0 failed 0 errors 0\n",
        "exporter file/a lines 1 bytes 162\nexporter file/b lines 1 bytes 107\n|"
    );
    assert!(rt; told.as_slice() == want.as_bytes());
    Ok(())
}

#[test]
fn filtered_records_are_counted(rt: HostRuntime) -> Result<(), Fail> {
    let filter = r#"{"logs":{"log_record":["body == \"no\""]}}"#;
    let conf = processing(rt.alloc(), "filter", filter)?;
    let line = payload(
        rt.alloc(),
        r#"{"body":{"stringValue":"no"}},{"body":{"stringValue":"hi"}}"#,
    )?;
    let told = run(rt.alloc(), conf.as_str(), line.as_str(), Failing::Nothing)?;
    let want = concat!(
        r#"Done|a {"resourceLogs":[{"resource":{},"scopeLogs":[{"scope":{},"logRecords":["#,
        r#"{"body":{"stringValue":"hi"}}]}]}]}"#,
        "\n|payloads 1 accepted 1 refused 0\n",
        "leg 0 logs in 2 out 1 filtered 1 unrouted 0 failed 0 errors 0\n",
        "exporter file lines 1 bytes 107\n|"
    );
    assert!(rt; told.as_slice() == want.as_bytes());
    Ok(())
}

#[test]
fn failing_calls_leave_fronts(rt: HostRuntime) -> Result<(), Fail> {
    let line = "{\"resourceLogs\":[{}]}\n";
    let input = format!(in rt.alloc(); "{line}{line}{line}")?;
    let rows = [
        (
            Failing::File(DiskOp::Append, "b", 2),
            "WriteFault|a {\"resourceLogs\":[{\"resource\":{}}]}\n{\"resourceLogs\":[{\"resource\":{}}]}\n|b {\"resourceLogs\":[{\"resource\":{}}]}\n||",
        ),
        (Failing::File(DiskOp::Create, "b", 1), "WriteFault|a ||"),
        (Failing::File(DiskOp::Read, "in", 1), "ReadFault|a |b ||"),
        (Failing::File(DiskOp::Read, "c", 1), "ReadFault||"),
    ];
    for (failing, want) in rows {
        let told = run(rt.alloc(), APART, input.as_str(), failing)?;
        assert!(rt; told.as_slice() == want.as_bytes(), "of {want}");
    }
    Ok(())
}

#[test]
fn configurations_with_faults_run_nothing(rt: HostRuntime) -> Result<(), Fail> {
    let same = concat!(
        r#"{"receivers":{"otlpjsonfile":{}},"exporters":{"file":{"path":"in"}},"#,
        r#""service":{"pipelines":{"logs":{"receivers":["otlpjsonfile"],"exporters":["file"]}}}}"#
    );
    let rows = [
        (same, "BadConf||conf 15 SamePath at $/exporters/file/path\n"),
        ("{}", "BadConf||conf 4 MissingKey at $/receivers\n"),
    ];
    for (conf, want) in rows {
        let told = run(rt.alloc(), conf, "kept", Failing::Nothing)?;
        assert!(rt; told.as_slice() == want.as_bytes(), "of {want}");
    }
    Ok(())
}
