//! First faults among names and numbers, and what is read.

use crate::{Draft, check_paths, read_draft};
use conf_shape::PointedStop;
use std::alloc::{AllocError, Global};
use std::fmt::Write;
use std::test::Fail;

const TOP: &str = r#"{"receivers":{"otlpjsonfile":{}},"exporters":{"file":{"path":"o"}},"#;

const ROOT: &str = r#""logs":{"receivers":["otlpjsonfile"],"exporters":["file"]}"#;

// The numbers of what was read, or the first fault.
fn printed(alloc: Global, text: &str) -> Result<String, Fail> {
    match read_draft(alloc, text.as_bytes()) {
        Ok(draft) => Ok(numbers(alloc, &draft)?),
        Err(PointedStop::Fault(fault)) => {
            let kind = fault.kind;
            let at = fault.at.as_str();
            Ok(format!(in alloc; "{kind} at ${at}")?)
        }
        Err(PointedStop::NoMemory) => Err(AllocError.into()),
    }
}

// How many processors, connectors and pipelines there are.
fn numbers(alloc: Global, draft: &Draft) -> Result<String, AllocError> {
    let processors = draft.processors.len();
    let connectors = draft.connectors.len();
    let pipelines = draft.pipelines.len();
    format!(in alloc; "{processors} {connectors} {pipelines}")
}

// The answer for these pipelines, and more at the top.
fn with_pipelines(alloc: Global, pipelines: &str, more: &str) -> Result<String, Fail> {
    let text = format!(in alloc; r#"{TOP}{more}"service":{{"pipelines":{{{pipelines}}}}}}}"#)?;
    printed(alloc, text.as_str())
}

#[test]
fn pipelines_cite_what_is_defined(rt: HostRuntime) -> Result<(), Fail> {
    for (pipeline, want) in [
        (
            r#""receivers":["otlpjsonfile"],"exporters":["file"]"#,
            "0 0 1",
        ),
        (
            r#""receivers":[],"exporters":[]"#,
            "NoReceiver at $/service/pipelines/logs/receivers",
        ),
        (
            r#""receivers":["file"],"exporters":["file"]"#,
            "UnknownComponent at $/service/pipelines/logs/receivers/0",
        ),
        (
            r#""receivers":["otlpjsonfile","otlpjsonfile"],"exporters":[]"#,
            "Repeated at $/service/pipelines/logs/receivers/1",
        ),
        (
            r#""receivers":["otlpjsonfile"],"exporters":[],"processors":["x"]"#,
            "UnknownComponent at $/service/pipelines/logs/processors/0",
        ),
        (
            r#""receivers":["otlpjsonfile"],"exporters":[]"#,
            "NoExporter at $/service/pipelines/logs/exporters",
        ),
        (
            r#""receivers":["otlpjsonfile"],"exporters":["file","x","file"]"#,
            "UnknownComponent at $/service/pipelines/logs/exporters/1",
        ),
        (
            r#""receivers":["otlpjsonfile"],"exporters":["file","file"]"#,
            "Repeated at $/service/pipelines/logs/exporters/1",
        ),
    ] {
        let pipelines = format!(in rt.alloc(); r#""logs":{{{pipeline}}}"#)?;
        let got = with_pipelines(rt.alloc(), pipelines.as_str(), "")?;
        assert_eq!(rt; got.as_str(), want, "{pipeline}");
    }
    Ok(())
}

// The answer for a routing connector with these rows and default pipelines, to which `logs/in`
// exports and from which `logs/out` receives.
fn with_routing(alloc: Global, rows: &str, defaults: &str) -> Result<String, Fail> {
    let routing = format!(in alloc; r#"{{"table":[{rows}],"default_pipelines":[{defaults}]}}"#)?;
    let more = format!(in alloc; r#""connectors":{{"routing":{routing}}},"#)?;
    let input = r#""logs/in":{"receivers":["otlpjsonfile"],"exporters":["routing"]}"#;
    let output = r#""logs/out":{"receivers":["routing"],"exporters":["file"]}"#;
    let pipelines = format!(in alloc; "{ROOT},{input},{output}")?;
    with_pipelines(alloc, pipelines.as_str(), more.as_str())
}

#[test]
fn connectors_route_to_pipelines_that_receive_from_them(rt: HostRuntime) -> Result<(), Fail> {
    for (pipelines, defaults, want) in [
        (r#""logs/out""#, "", "0 1 3"),
        (
            "",
            "",
            "NoExporter at $/connectors/routing/table/0/pipelines",
        ),
        (
            r#""logs/x""#,
            "",
            "UnknownPipeline at $/connectors/routing/table/0/pipelines/0",
        ),
        (
            r#""logs""#,
            "",
            "UnknownPipeline at $/connectors/routing/table/0/pipelines/0",
        ),
        (
            r#""logs/out","logs/out""#,
            r#""logs/x""#,
            "Repeated at $/connectors/routing/table/0/pipelines/1",
        ),
        (
            r#""logs/out""#,
            r#""logs/out","logs/in""#,
            "UnknownPipeline at $/connectors/routing/default_pipelines/1",
        ),
    ] {
        let row = format!(in rt.alloc(); r#"{{"condition":"true","pipelines":[{pipelines}]}}"#)?;
        let got = with_routing(rt.alloc(), row.as_str(), defaults)?;
        assert_eq!(rt; got.as_str(), want, "{pipelines} {defaults}");
    }
    Ok(())
}

#[test]
fn connectors_are_used_and_some_pipeline_is_fed(rt: HostRuntime) -> Result<(), Fail> {
    let connector = r#""connectors":{"routing/~":{"table":[]}},"#;
    let routing = r#""connectors":{"routing":{"table":[]}},"#;
    for (pipelines, more, want) in [
        (ROOT, routing, "UnusedConnector at $/connectors/routing"),
        (
            r#""logs":{"receivers":["otlpjsonfile"],"exporters":["routing"]}"#,
            routing,
            "UnusedConnector at $/connectors/routing",
        ),
        (
            r#""logs":{"receivers":["routing"],"exporters":["routing"]}"#,
            routing,
            "NoReceiver at $/service/pipelines",
        ),
        ("", "", "NoReceiver at $/service/pipelines"),
        (ROOT, connector, "BadName at $/connectors/routing~1~0"),
    ] {
        let got = with_pipelines(rt.alloc(), pipelines, more)?;
        assert_eq!(rt; got.as_str(), want, "{pipelines}");
    }
    Ok(())
}

// That many pipelines, the first of them in the byte order of their names with that exporter.
fn many_pipelines(alloc: Global, count: usize) -> Result<String, Fail> {
    let mut pipelines = String::new(alloc);
    for number in 0..count {
        if number != 0 {
            pipelines.push(',')?;
        }
        write!(
            pipelines,
            r#""logs/{number}":{{"receivers":["otlpjsonfile"],"exporters":["file"]}}"#
        )?;
    }
    with_pipelines(alloc, pipelines.as_str(), "")
}

#[test]
fn pipelines_are_at_most_thirty_two(rt: HostRuntime) -> Result<(), Fail> {
    let got = many_pipelines(rt.alloc(), 32)?;
    assert_eq!(rt; got.as_str(), "0 0 32");
    let got = many_pipelines(rt.alloc(), 33)?;
    assert_eq!(rt; got.as_str(), "TooManyPipelines at $/service/pipelines");
    Ok(())
}

// A group with that many statements.
fn many_statements(alloc: Global, count: usize) -> Result<String, Fail> {
    let mut statements = String::new(alloc);
    for number in 0..count {
        statements.push_str(if number == 0 { r#""s""# } else { r#","s""# })?;
    }
    let group = format!(in alloc; r#"{{"context":"log","statements":[{statements}]}}"#)?;
    let transform = format!(in alloc; r#"{{"transform":{{"log_statements":[{group}]}}}}"#)?;
    let more = format!(in alloc; r#""processors":{transform},"#)?;
    with_pipelines(alloc, ROOT, more.as_str())
}

#[test]
fn groups_count_as_statements_do(rt: HostRuntime) -> Result<(), Fail> {
    let got = many_statements(rt.alloc(), 1023)?;
    assert_eq!(rt; got.as_str(), "1 0 1");
    let got = many_statements(rt.alloc(), 1024)?;
    assert_eq!(rt; got.as_str(), "TooManyStatements at $");
    Ok(())
}

#[test]
fn exporters_have_paths_of_their_own(rt: HostRuntime) -> Result<(), Fail> {
    let exporters =
        r#""exporters":{"file":{"path":"a"},"file/b":{"path":"b"},"file/c":{"path":"a"}},"#;
    let got = with_pipelines(rt.alloc(), ROOT, exporters)?;
    assert_eq!(rt; got.as_str(), "SamePath at $/exporters/file~1c/path");
    Ok(())
}

// What is told of a configuration whose one exporter writes to `o`, where these names are taken.
fn beside(alloc: Global, taken: &[&str]) -> Result<String, Fail> {
    let text = format!(in alloc; r#"{TOP}"service":{{"pipelines":{{{ROOT}}}}}}}"#)?;
    let draft = match read_draft(alloc, text.as_bytes()) {
        Ok(draft) => draft,
        Err(_) => return Err(Fail::from("no draft")),
    };
    match check_paths(alloc, &draft, taken) {
        Ok(()) => Ok(String::from_str(alloc, "apart")?),
        Err(PointedStop::Fault(fault)) => {
            let kind = fault.kind;
            let at = fault.at.as_str();
            Ok(format!(in alloc; "{kind} at ${at}")?)
        }
        Err(PointedStop::NoMemory) => Err(AllocError.into()),
    }
}

#[test]
fn exporters_write_to_no_name_that_is_taken(rt: HostRuntime) -> Result<(), Fail> {
    let got = beside(rt.alloc(), &["c", "o"])?;
    assert_eq!(rt; got.as_str(), "SamePath at $/exporters/file/path");
    let got = beside(rt.alloc(), &["c", "i"])?;
    assert_eq!(rt; got.as_str(), "apart");
    Ok(())
}
