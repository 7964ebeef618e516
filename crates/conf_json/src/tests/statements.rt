//! Statements and conditions of configurations.

use crate::{ConfFault, ConfStop, Inner, MAX_CONF, Settings, read_conf};
use func_text::RegexMaker;
use std::alloc::{AllocError, Global};
use std::test::Fail;

// A configuration with these processors and this table of routing rows.
fn configuration(alloc: Global, processors: &str, table: &str) -> Result<String, AllocError> {
    let mut text = String::from_str(
        alloc,
        r#"{"receivers":{"otlpjsonfile":{}},"exporters":{"file":{"path":"a"}},"#,
    )?;
    text.push_str(r#""connectors":{"routing":{"table":["#)?;
    text.push_str(table)?;
    text.push_str(r#"]}},"processors":{"#)?;
    text.push_str(processors)?;
    text.push_str(r#"},"service":{"pipelines":{"logs/p":{"receivers":["otlpjsonfile"],"#)?;
    text.push_str(r#""exporters":["routing"]},"logs/q":{"receivers":["routing"],"#)?;
    text.push_str(r#""exporters":["file"]}}}}"#)?;
    Ok(text)
}

fn inner(alloc: Global, inner: Option<Inner>) -> Result<String, AllocError> {
    match inner {
        Some(Inner::Syntax(fault)) => Ok(format!(in alloc; " {}", fault)?),
        Some(Inner::Plan(fault)) => Ok(format!(in alloc; " {}", fault)?),
        None => Ok(String::new(alloc)),
    }
}

fn note_fault(alloc: Global, fault: ConfFault) -> Result<String, AllocError> {
    let mut note = format!(in alloc; "{} at ${}", fault.kind, fault.at.as_str())?;
    note.push_str(inner(alloc, fault.inner)?.as_str())?;
    Ok(note)
}

// How many bytes, connectors and processors settings have.
fn note_settings(alloc: Global, settings: &Settings) -> Result<String, AllocError> {
    let planned = settings.planned();
    Ok(format!(in alloc;
        "{} connectors, {} processors, {} exporters",
        planned.connectors.len(),
        planned.processors.len(),
        settings.draft().exporters.len()
    )?)
}

fn read(alloc: Global, text: &str) -> Result<String, Fail> {
    if MAX_CONF < text.len() {
        return Err(Fail::from("too long"));
    }
    match read_conf(alloc, &mut RegexMaker::new(), text.as_bytes()) {
        Ok(settings) => {
            if settings.bytes() != text.as_bytes() {
                return Err(Fail::from("other bytes"));
            }
            Ok(note_settings(alloc, &settings)?)
        }
        Err(ConfStop::Fault(fault)) => Ok(note_fault(alloc, fault)?),
        Err(ConfStop::NoMemory) => Err(AllocError.into()),
    }
}

fn read_parts(alloc: Global, processors: &str, table: &str) -> Result<String, Fail> {
    read(alloc, configuration(alloc, processors, table)?.as_str())
}

const ROW: &str = r#"{"condition":"attributes[\"a\"] == 1","pipelines":["logs/q"]}"#;

#[test]
fn statements_are_planned(rt: HostRuntime) -> Result<(), Fail> {
    let processors = concat!(
        r#""filter":{"logs":{"log_record":["flags == 1"]}},"transform":{"log_statements":["#,
        r#"{"context":"scope","conditions":["name == nil"],"statements":["set(version, "#,
        r#"\"x\")"]}]}"#
    );
    let note = read_parts(rt.alloc(), processors, ROW)?;
    assert_eq!(rt; note.as_str(), "1 connectors, 2 processors, 1 exporters");
    Ok(())
}

#[test]
fn the_first_fault_of_a_statement_is_told(rt: HostRuntime) -> Result<(), Fail> {
    let alloc = rt.alloc();
    let third = concat!(
        r#""transform":{"log_statements":[{"context":"log","statements":["set(body, 1)","#,
        r#""set(body, 1)","drop(body)"]}]}"#
    );
    let note = read_parts(alloc, third, ROW)?;
    assert_eq!(rt;
        note.as_str(),
        "BadStatement at $/processors/transform/log_statements/0/statements/2 UnknownFunction at 0"
    );
    let both = concat!(
        r#""transform":{"log_statements":[{"context":"log","conditions":["body ="],"#,
        r#""statements":["drop(body)"]}]}"#
    );
    let note = read_parts(alloc, both, ROW)?;
    assert_eq!(rt;
        note.as_str(),
        "BadStatement at $/processors/transform/log_statements/0/conditions/0 BadChar at 5"
    );
    Ok(())
}

#[test]
fn connectors_come_before_processors(rt: HostRuntime) -> Result<(), Fail> {
    let filter = r#""filter":{"logs":{"log_record":["name == nil"]}}"#;
    let note = read_parts(rt.alloc(), filter, ROW)?;
    assert_eq!(rt;
        note.as_str(),
        "BadStatement at $/processors/filter/logs/log_record/0 UnknownPath at 0"
    );
    let row = r#"{"condition":"body == 1","pipelines":["logs/q"]}"#;
    let note = read_parts(rt.alloc(), filter, row)?;
    assert_eq!(rt;
        note.as_str(),
        "BadStatement at $/connectors/routing/table/0/condition UnknownPath at 0"
    );
    Ok(())
}
