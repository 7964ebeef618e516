//! What is printed of configurations.

use crate::{check_text, fault_note};
use conf_json::{ConfStop, MAX_CONF};
use func_text::RegexMaker;
use graph_build::check_conf;
use std::alloc::{AllocError, Global};
use std::test::Fail;

// The text of a configuration's legs, or the note of its fault.
fn printed(alloc: Global, text: &str) -> Result<String, Fail> {
    if MAX_CONF < text.len() {
        return Err(Fail::from("too long"));
    }
    match check_conf(alloc, &mut RegexMaker::new(), text.as_bytes()) {
        Ok(plan) => Ok(check_text(alloc, &plan)?),
        Err(ConfStop::Fault(fault)) => Ok(fault_note(alloc, &fault)?),
        Err(ConfStop::NoMemory) => Err(AllocError.into()),
    }
}

const TOP: &str = r#"{"receivers":{"otlpjsonfile":{}},"exporters":{"file":{"path":"o"}},"#;

// Two pipelines, the first with a transform with these statements.
fn transforming(alloc: Global, statements: &str) -> Result<String, Fail> {
    let groups = format!(in alloc; r#"[{{"context":"log","statements":[{statements}]}}]"#)?;
    let processors = format!(in alloc; r#"{{"transform":{{"log_statements":{groups}}}}}"#)?;
    let pipelines = concat!(
        r#""logs/a":{"receivers":["otlpjsonfile"],"processors":["transform"],"#,
        r#""exporters":["file"]},"#,
        r#""logs/b":{"receivers":["otlpjsonfile"],"exporters":["file"]}"#
    );
    let service = format!(in alloc; r#"{{"pipelines":{{{pipelines}}}}}"#)?;
    let text = format!(in alloc; r#"{TOP}"processors":{processors},"service":{service}}}"#)?;
    printed(alloc, text.as_str())
}

#[test]
fn roots_tell_whether_they_mutate(rt: HostRuntime) -> Result<(), Fail> {
    let text = transforming(rt.alloc(), r#""set(attributes[\"x\"], \"1\")""#)?;
    let want = "ok legs 2\nleg 0 logs/a root mutates\nleg 1 logs/b root reads\n";
    assert_eq!(rt; text.as_str(), want);
    Ok(())
}

#[test]
fn a_fault_of_a_statement_tells_what_is_wrong_with_it(rt: HostRuntime) -> Result<(), Fail> {
    for (statements, want) in [
        (
            r#""set(body, 1)","drop(body)""#,
            "conf 16 BadStatement at $/processors/transform/log_statements/0/statements/1 UnknownFunction at 0\n",
        ),
        (
            r#""set(body, ""#,
            "conf 16 BadStatement at $/processors/transform/log_statements/0/statements/0 Unexpected at 10\n",
        ),
        (
            "1",
            "conf 2 WrongKind at $/processors/transform/log_statements/0/statements/0\n",
        ),
    ] {
        let note = transforming(rt.alloc(), statements)?;
        assert_eq!(rt; note.as_str(), want);
    }
    Ok(())
}

// A pipeline that routes to three others, by two rows and the default.
fn routing(alloc: Global) -> Result<String, Fail> {
    let table = concat!(
        r#"{"context":"log","condition":"IsMatch(body, \"a\")","pipelines":["logs/p"],"action":"copy"},"#,
        r#"{"context":"log","condition":"IsMatch(body, \"b\")","pipelines":["logs/q"]}"#
    );
    let connectors = format!(in alloc;
        r#"{{"routing/x":{{"table":[{table}],"default_pipelines":["logs/r"]}}}}"#
    )?;
    let pipelines = concat!(
        r#""logs/in":{"receivers":["otlpjsonfile"],"exporters":["file","routing/x"]},"#,
        r#""logs/p":{"receivers":["routing/x"],"exporters":["file"]},"#,
        r#""logs/q":{"receivers":["routing/x"],"exporters":["file"]},"#,
        r#""logs/r":{"receivers":["routing/x"],"exporters":["file"]}"#
    );
    let service = format!(in alloc; r#"{{"pipelines":{{{pipelines}}}}}"#)?;
    let text = format!(in alloc; r#"{TOP}"connectors":{connectors},"service":{service}}}"#)?;
    printed(alloc, text.as_str())
}

#[test]
fn routed_legs_tell_their_way(rt: HostRuntime) -> Result<(), Fail> {
    let text = routing(rt.alloc())?;
    let want = concat!(
        "ok legs 4\nleg 0 logs/in root reads\n",
        "leg 1 logs/p from 0 routing/x row 0 reads\n",
        "leg 2 logs/q from 0 routing/x row 1 reads\n",
        "leg 3 logs/r from 0 routing/x default reads\n"
    );
    assert_eq!(rt; text.as_str(), want);
    Ok(())
}
