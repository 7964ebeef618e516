//! What given lines leave, by a configuration: the exporters' texts, the notes and the summary.

use crate::{bundle_line, plan_run, plus_totals, summary_text};
use conf_json::MAX_CONF;
use func_text::RegexMaker;
use graph_build::{Plan, check_conf};
use ottl_eval::KeptMatchers;
use std::alloc::{AllocError, Global};
use std::test::Fail;

const COPY: &str = concat!(
    r#"{"receivers":{"otlpjsonfile":{}},"exporters":{"file":{"path":"out"}},"#,
    r#""service":{"pipelines":{"logs":{"receivers":["otlpjsonfile"],"exporters":["#,
    r#""file"]}}}}"#
);

const ERRING: &str = concat!(
    r#"{"receivers":{"otlpjsonfile":{}},"#,
    r#""processors":{"transform":{"error_mode":"ignore","log_statements":["#,
    r#"{"context":"log","statements":["set(attributes[\"a\"], 1)","set(attributes["#,
    r#"\"b\"], 1 / 0)"]}]}},"exporters":{"file":{"path":"out"}},"#,
    r#""service":{"pipelines":{"logs":{"receivers":["otlpjsonfile"],"processors":["#,
    r#""transform"],"exporters":["file"]}}}}"#
);

const FAILING: &str = concat!(
    r#"{"receivers":{"otlpjsonfile":{}},"processors":{"transform":{"log_statements":["#,
    r#"{"context":"log","statements":["set(attributes[\"b\"], 1 / 0)"]}]}},"#,
    r#""exporters":{"file":{"path":"a"},"file/b":{"path":"b"}},"#,
    r#""service":{"pipelines":{"logs":{"receivers":["otlpjsonfile"],"processors":["#,
    r#""transform"],"exporters":["file"]},"logs/b":{"receivers":["otlpjsonfile"],"#,
    r#""exporters":["file/b"]}}}}"#
);

const ROUTING: &str = concat!(
    r#"{"receivers":{"otlpjsonfile":{}},"connectors":{"routing":{"table":["#,
    r#"{"context":"log","condition":"IsMatch(body, \"a\")","pipelines":["logs/p"],"#,
    r#""action":"copy"},{"context":"log","condition":"IsMatch(body, \"b\")","#,
    r#""pipelines":["logs/q"]}]}},"exporters":{"file/p":{"path":"p"},"#,
    r#""file/q":{"path":"q"}},"service":{"pipelines":{"logs/in":{"receivers":["#,
    r#""otlpjsonfile"],"exporters":["routing"]},"logs/p":{"receivers":["routing"],"#,
    r#""exporters":["file/p"]},"logs/q":{"receivers":["routing"],"exporters":["#,
    r#""file/q"]}}}}"#
);

const LINE: &str = concat!(
    r#"{"resourceLogs":[{"resource":{},"scopeLogs":[{"scope":{},"logRecords":["#,
    r#"{"body":{"stringValue":"hi"}}]}]}]}"#
);

const LETTERS: &str = concat!(
    r#"{"resourceLogs":[{"resource":{},"scopeLogs":[{"scope":{},"logRecords":["#,
    r#"{"body":{"stringValue":"ab"}},{"body":{"stringValue":"a"}},"#,
    r#"{"body":{"stringValue":"b"}},{"body":{"stringValue":"c"}}]}]}]}"#
);

fn planned(alloc: Global, conf: &str) -> Result<Plan, Fail> {
    if MAX_CONF < conf.len() {
        return Err(AllocError.into());
    }
    match check_conf(alloc, &mut RegexMaker::new(), conf.as_bytes()) {
        Ok(plan) => Ok(plan),
        Err(_) => Err(Fail::from("no configuration")),
    }
}

// What is told of one line.
fn told(alloc: Global, conf: &str, line: &str) -> Result<Vec<u8>, Fail> {
    if 16_777_216 < line.len() {
        return Err(AllocError.into());
    }
    let plan = planned(alloc, conf)?;
    let run = plan_run(alloc, &plan)?;
    let mut matchers = KeptMatchers::new(alloc);
    let bundle = bundle_line(alloc, &run, 1, line.as_bytes(), &mut matchers)?;
    let summary = summary_text(alloc, &run, &bundle.totals)?;
    let mut told = Vec::new(alloc);
    for text in bundle.texts.as_slice() {
        told.extend_from_slice(text.as_slice())?;
    }
    told.extend_from_slice(bundle.notes.as_slice())?;
    told.extend_from_slice(summary.as_slice())?;
    Ok(told)
}

// The summary of a line that stands twice.
fn told_twice(alloc: Global, conf: &str, line: &str) -> Result<Vec<u8>, Fail> {
    if 16_777_216 < line.len() {
        return Err(AllocError.into());
    }
    let plan = planned(alloc, conf)?;
    let run = plan_run(alloc, &plan)?;
    let mut matchers = KeptMatchers::new(alloc);
    let bundle = bundle_line(alloc, &run, 1, line.as_bytes(), &mut matchers)?;
    let both = plus_totals(alloc, &bundle.totals, &bundle.totals)?;
    Ok(summary_text(alloc, &run, &both)?)
}

#[test]
fn a_pipeline_without_processors_copies(rt: HostRuntime) -> Result<(), Fail> {
    let told = told(rt.alloc(), COPY, LINE)?;
    let want = concat!(
        r#"{"resourceLogs":[{"resource":{},"scopeLogs":[{"scope":{},"logRecords":["#,
        r#"{"body":{"stringValue":"hi"}}]}]}]}"#,
        "\n",
        r#"payloads 1 accepted 1 refused 0"#,
        "\n",
        r#"leg 0 logs in 1 out 1 filtered 0 unrouted 0 failed 0 errors 0"#,
        "\n",
        r#"exporter file lines 1 bytes 107"#,
        "\n"
    );
    assert!(rt; told.as_slice() == want.as_bytes());
    Ok(())
}

#[test]
fn errors_are_noted_and_the_work_goes_on(rt: HostRuntime) -> Result<(), Fail> {
    let told = told(rt.alloc(), ERRING, LINE)?;
    let want = concat!(
        r#"{"resourceLogs":[{"resource":{},"scopeLogs":[{"scope":{},"logRecords":["#,
        r#"{"body":{"stringValue":"hi"},"attributes":[{"key":"a","#,
        r#""value":{"intValue":"1"}}]}]}]}]}"#,
        "\n",
        r#"payload 1 leg 0 transform group 0 statement 1 at 0/0/0 DivideByZero"#,
        "\n",
        r#"payloads 1 accepted 1 refused 0"#,
        "\n",
        r#"leg 0 logs in 1 out 1 filtered 0 unrouted 0 failed 0 errors 1"#,
        "\n",
        r#"exporter file lines 1 bytes 159"#,
        "\n"
    );
    assert!(rt; told.as_slice() == want.as_bytes());
    Ok(())
}

#[test]
fn a_failed_leg_leaves_its_sibling(rt: HostRuntime) -> Result<(), Fail> {
    let told = told(rt.alloc(), FAILING, LINE)?;
    let want = concat!(
        r#"{"resourceLogs":[{"resource":{},"scopeLogs":[{"scope":{},"logRecords":["#,
        r#"{"body":{"stringValue":"hi"}}]}]}]}"#,
        "\n",
        r#"payload 1 leg 0 failed transform group 0 statement 0 at 0/0/0 DivideByZero"#,
        "\n",
        r#"payloads 1 accepted 1 refused 0"#,
        "\n",
        r#"leg 0 logs in 1 out 0 filtered 0 unrouted 0 failed 1 errors 0"#,
        "\n",
        r#"leg 1 logs/b in 1 out 1 filtered 0 unrouted 0 failed 0 errors 0"#,
        "\n",
        r#"exporter file lines 0 bytes 0"#,
        "\n",
        r#"exporter file/b lines 1 bytes 107"#,
        "\n"
    );
    assert!(rt; told.as_slice() == want.as_bytes());
    Ok(())
}

#[test]
fn rows_copy_and_move(rt: HostRuntime) -> Result<(), Fail> {
    let told = told(rt.alloc(), ROUTING, LETTERS)?;
    let want = concat!(
        r#"{"resourceLogs":[{"resource":{},"scopeLogs":[{"scope":{},"logRecords":["#,
        r#"{"body":{"stringValue":"ab"}},{"body":{"stringValue":"a"}}]}]}]}"#,
        "\n",
        r#"{"resourceLogs":[{"resource":{},"scopeLogs":[{"scope":{},"logRecords":["#,
        r#"{"body":{"stringValue":"ab"}},{"body":{"stringValue":"b"}}]}]}]}"#,
        "\n",
        r#"payloads 1 accepted 1 refused 0"#,
        "\n",
        r#"leg 0 logs/in in 4 out 4 filtered 0 unrouted 2 failed 0 errors 0"#,
        "\n",
        r#"leg 1 logs/p in 2 out 2 filtered 0 unrouted 0 failed 0 errors 0"#,
        "\n",
        r#"leg 2 logs/q in 2 out 2 filtered 0 unrouted 0 failed 0 errors 0"#,
        "\n",
        r#"exporter file/p lines 1 bytes 136"#,
        "\n",
        r#"exporter file/q lines 1 bytes 136"#,
        "\n"
    );
    assert!(rt; told.as_slice() == want.as_bytes());
    Ok(())
}

#[test]
fn refused_lines_are_noted(rt: HostRuntime) -> Result<(), Fail> {
    let told = told(rt.alloc(), COPY, "[]")?;
    let want = r#"payload 1 refused NotObject at 0
payloads 1 accepted 0 refused 1
leg 0 logs in 0 out 0 filtered 0 unrouted 0 failed 0 errors 0
exporter file lines 0 bytes 0
"#;
    assert!(rt; told.as_slice() == want.as_bytes());
    Ok(())
}

#[test]
fn totals_are_added(rt: HostRuntime) -> Result<(), Fail> {
    let told = told_twice(rt.alloc(), COPY, LINE)?;
    let want = r#"payloads 2 accepted 2 refused 0
leg 0 logs in 2 out 2 filtered 0 unrouted 0 failed 0 errors 0
exporter file lines 2 bytes 214
"#;
    assert!(rt; told.as_slice() == want.as_bytes());
    Ok(())
}
