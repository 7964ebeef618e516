//! Legs and their faults.

mod limits;
mod plans;

use crate::{Leg, find_legs};
use conf_draft::{Draft, read_draft};
use conf_shape::PointedStop;
use std::alloc::{AllocError, Global};
use std::fmt::Write;
use std::test::Fail;

// The draft of a configuration with one file receiver and one exporter.
fn draft(alloc: Global, connectors: &str, pipelines: &str) -> Result<Draft, Fail> {
    let top = r#""receivers":{"otlpjsonfile":{}},"exporters":{"file":{"path":"o"}}"#;
    let service = format!(in alloc; r#"{{"pipelines":{{{pipelines}}}}}"#)?;
    let text = format!(in alloc; r#"{{{top},"connectors":{{{connectors}}},"service":{service}}}"#)?;
    match read_draft(alloc, text.as_bytes()) {
        Ok(draft) => Ok(draft),
        Err(_) => Err(AllocError.into()),
    }
}

fn push_number(out: &mut String, number: Option<u32>) -> Result<(), Fail> {
    match number {
        Some(number) => write!(out, " {number}")?,
        None => out.push_str(" -")?,
    }
    Ok(())
}

fn push_leg(out: &mut String, leg: &Leg) -> Result<(), Fail> {
    let mutates = leg.mutates;
    if !out.is_empty() {
        out.push_str(", ")?;
    }
    out.push_str(leg.pipeline.as_str())?;
    push_number(out, leg.parent)?;
    push_number(out, leg.connector)?;
    push_number(out, leg.row)?;
    write!(out, " {mutates}")?;
    Ok(())
}

// The legs, each with its parent, connector, row and whether it mutates; or the first fault.
fn printed(alloc: Global, connectors: &str, pipelines: &str) -> Result<String, Fail> {
    let draft = draft(alloc, connectors, pipelines)?;
    let mut out = String::new(alloc);
    match find_legs(alloc, &draft) {
        Ok(legs) => {
            for leg in legs.as_slice() {
                push_leg(&mut out, leg)?;
            }
        }
        Err(PointedStop::Fault(fault)) => {
            let kind = fault.kind;
            let at = fault.at.as_str();
            write!(out, "{kind} at ${at}")?;
        }
        Err(PointedStop::NoMemory) => return Err(AllocError.into()),
    }
    Ok(out)
}

#[test]
fn legs_follow_rows_and_then_the_default(rt: HostRuntime) -> Result<(), Fail> {
    let connectors = concat!(
        r#""routing":{"table":[{"condition":"a","pipelines":["logs/p"]},"#,
        r#"{"condition":"b","pipelines":["logs/q"]}],"default_pipelines":["logs/r"]}"#
    );
    let pipelines = concat!(
        r#""logs/in":{"receivers":["otlpjsonfile"],"exporters":["routing"]},"#,
        r#""logs/p":{"receivers":["routing"],"exporters":["file"]},"#,
        r#""logs/q":{"receivers":["routing"],"exporters":["file"]},"#,
        r#""logs/r":{"receivers":["routing","otlpjsonfile"],"exporters":["file"]}"#
    );
    let got = printed(rt.alloc(), connectors, pipelines)?;
    let want = concat!(
        "logs/in - - - false, logs/p 0 0 0 false, logs/q 0 0 1 false, ",
        "logs/r 0 0 - false, logs/r - - - false"
    );
    assert_eq!(rt; got.as_str(), want);
    Ok(())
}

#[test]
fn a_cycle_is_told_at_its_least_pipeline(rt: HostRuntime) -> Result<(), Fail> {
    let connectors = concat!(
        r#""routing/x":{"table":[],"default_pipelines":["logs/q"]},"#,
        r#""routing/y":{"table":[],"default_pipelines":["logs/p"]}"#
    );
    let pipelines = concat!(
        r#""logs/a":{"receivers":["otlpjsonfile"],"exporters":["routing/x"]},"#,
        r#""logs/p":{"receivers":["routing/y"],"exporters":["routing/x"]},"#,
        r#""logs/q":{"receivers":["routing/x"],"exporters":["routing/y"]}"#
    );
    let got = printed(rt.alloc(), connectors, pipelines)?;
    assert_eq!(rt; got.as_str(), "CycleOf at $/service/pipelines/logs~1p");
    Ok(())
}

// That many root pipelines.
fn roots(alloc: Global, count: usize) -> Result<String, Fail> {
    let mut pipelines = String::new(alloc);
    for number in 0..count {
        if number != 0 {
            pipelines.push(',')?;
        }
        write!(
            pipelines,
            r#""logs/{number}":{{"receivers":["otlpjsonfile"],"exporters":["file"]}}"#
        )?;
    }
    printed(alloc, "", pipelines.as_str())
}

#[test]
fn roots_are_at_most_eight(rt: HostRuntime) -> Result<(), Fail> {
    let got = roots(rt.alloc(), 9)?;
    assert_eq!(rt; got.as_str(), "TooManyRoots at $/service/pipelines");
    let got = roots(rt.alloc(), 8)?;
    assert!(rt; got.as_str().ends_with("logs/7 - - - false"));
    Ok(())
}
