//! Configurations, and what is told of them.

use super::{Failing, run};
use std::alloc::{AllocError, Global};
use std::test::Fail;
use tele_io::DiskOp;

/// One pipeline from the file receiver to one file.
const PLAIN: &str = concat!(
    r#"{"receivers":{"otlpjsonfile":{}},"exporters":{"file":{"path":"o"}},"#,
    r#""service":{"pipelines":{"logs":{"receivers":["otlpjsonfile"],"exporters":["#,
    r#""file"]}}}}"#
);

#[test]
fn legs_or_the_first_fault_are_told(rt: HostRuntime) -> Result<(), Fail> {
    let first_read = Failing::File(DiskOp::Read, "in", 1);
    let legs = "ok legs 1\nleg 0 logs root reads\n";
    let done = format!(in rt.alloc(); "Done|absent|{legs}|")?;
    let rows = [
        ("check|in", PLAIN, Failing::Nothing, done.as_str()),
        (
            "check|in",
            "{}",
            Failing::Nothing,
            "BadConf|absent||conf 4 MissingKey at $/receivers\n",
        ),
        ("check|in", PLAIN, Failing::Output, "WriteFault|absent||"),
        ("check|in", "{}", Failing::Note, "WriteFault|absent||"),
        ("check|in", PLAIN, first_read, "ReadFault|absent||"),
        ("check|none", "", Failing::Nothing, "ReadFault|absent||"),
    ];
    for (words, conf, failing, want) in rows {
        let told = run(rt.alloc(), words, conf.as_bytes(), failing)?;
        assert_eq!(rt; told.as_slice(), want.as_bytes(), "of {conf}");
    }
    Ok(())
}

/// A configuration with spaces behind it, so many bytes in all.
fn spaced(alloc: Global, size: usize) -> Result<Vec<u8>, AllocError> {
    let count = size.saturating_sub(PLAIN.len());
    let mut bytes = Vec::new(alloc);
    bytes.extend_from_slice(PLAIN.as_bytes())?;
    bytes.extend_from_slice(vec![in alloc; b' '; count]?.as_slice())?;
    Ok(bytes)
}

#[test]
fn configurations_are_read_up_to_the_limit(rt: HostRuntime) -> Result<(), Fail> {
    let rows = [
        (1_048_576, "Done|absent|ok legs 1\nleg 0 logs root reads\n|"),
        (1_048_577, "TooLong|absent||"),
    ];
    for (size, want) in rows {
        let conf = spaced(rt.alloc(), size)?;
        let told = run(rt.alloc(), "check|in", conf.as_slice(), Failing::Nothing)?;
        assert_eq!(rt; told.as_slice(), want.as_bytes(), "of {size} bytes");
    }
    Ok(())
}

/// What stands before the exporters: one receiver, and a statement that calls no function.
const ERRING: &str = concat!(
    r#"{"receivers":{"otlpjsonfile":{}},"processors":{"transform":{"log_statements":"#,
    r#"[{"context":"log","statements":["drop(body)"]}]}},"#
);

/// Two exporters with one path, and a pipeline.
const SAME: &str = concat!(
    r#""exporters":{"file":{"path":"o"},"file/b":{"path":"o"}},"#,
    r#""service":{"pipelines":{"logs":{"receivers":["otlpjsonfile"],"exporters":["file"]}}}}"#
);

/// Two pipelines that lead to each other, and an exporter that writes to the input.
const CYCLE: &str = concat!(
    r#""connectors":{"routing/x":{"default_pipelines":["logs/q"],"table":[]},"#,
    r#""routing/y":{"default_pipelines":["logs/p"],"table":[]}},"#,
    r#""exporters":{"file":{"path":"in"}},"service":{"pipelines":{"#,
    r#""logs/p":{"receivers":["otlpjsonfile","routing/y"],"exporters":["routing/x"]},"#,
    r#""logs/q":{"receivers":["routing/x"],"exporters":["routing/y"]}}}}"#
);

/// What is told of a configuration of two parts.
fn checked(alloc: Global, front: &str, back: &str) -> Result<Vec<u8>, AllocError> {
    let conf = format!(in alloc; "{front}{back}")?;
    run(alloc, "check|in", conf.as_bytes(), Failing::Nothing)
}

#[test]
fn faults_come_in_the_order_of_phases(rt: HostRuntime) -> Result<(), Fail> {
    let one = r#"{"receivers":{"otlpjsonfile":{}},"#;
    let unknown_name =
        r#""service":{"pipelines":{"logs":{"receivers":["none"],"exporters":["file"]}}}}"#;
    let two_members =
        r#"{"receivers":{"otlpjsonfile":{}},"exporters":{"file":{"path":"o","x":1}},"#;
    let two_paths = concat!(
        r#"{"receivers":{"otlpjsonfile":{}},"#,
        r#""exporters":{"file":{"path":"o"},"file/b":{"path":"o"}},"#
    );
    let statement = "$/processors/transform/log_statements/0/statements/0 UnknownFunction at 0";
    let statement = format!(in rt.alloc(); "conf 16 BadStatement at {statement}")?;
    let rows = [
        (r#"{"receivers":[]"#, ",", "conf 1 BadJson at $"),
        (
            two_members,
            unknown_name,
            "conf 3 UnknownKey at $/exporters/file/x",
        ),
        (
            two_paths,
            unknown_name,
            "conf 6 UnknownComponent at $/service/pipelines/logs/receivers/0",
        ),
        (ERRING, SAME, "conf 15 SamePath at $/exporters/file~1b/path"),
        (ERRING, CYCLE, statement.as_str()),
        (one, CYCLE, "conf 17 CycleOf at $/service/pipelines/logs~1p"),
    ];
    for (front, back, want) in rows {
        let told = checked(rt.alloc(), front, back)?;
        let want = format!(in rt.alloc(); "BadConf|absent||{want}\n")?;
        assert!(rt; told.as_slice() == want.as_bytes(), "of {want}");
    }
    Ok(())
}

#[test]
fn the_last_of_repeated_members_counts(rt: HostRuntime) -> Result<(), Fail> {
    let back = concat!(
        r#","exporters":{"file":{"path":"o"}},"#,
        r#""service":{"pipelines":{"logs":{"receivers":["otlpjsonfile"],"exporters":["file"]}}}}"#
    );
    let rows = [
        (
            r#"{"receivers":{"otlpjsonfile":{}},"receivers":{}"#,
            "BadConf|absent||conf 4 MissingKey at $/receivers/otlpjsonfile\n",
        ),
        (
            r#"{"receivers":[],"receivers":{"otlpjsonfile":{}}"#,
            "Done|absent|ok legs 1\nleg 0 logs root reads\n|",
        ),
    ];
    for (front, want) in rows {
        let told = checked(rt.alloc(), front, back)?;
        assert!(rt; told.as_slice() == want.as_bytes(), "of {front}");
    }
    Ok(())
}
