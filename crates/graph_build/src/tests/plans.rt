//! Plans of configurations.

use super::push_leg;
use crate::{Plan, check_conf};
use conf_json::{ConfFault, ConfStop, Inner, MAX_CONF};
use func_text::RegexMaker;
use std::alloc::{AllocError, Global};
use std::fmt::Write;
use std::test::Fail;

// What is wrong with a statement.
fn push_inner(out: &mut String, inner: Option<Inner>) -> Result<(), Fail> {
    match inner {
        Some(Inner::Syntax(fault)) => write!(out, " {fault}")?,
        Some(Inner::Plan(fault)) => write!(out, " {fault}")?,
        None => {}
    }
    Ok(())
}

fn told(alloc: Global, fault: ConfFault) -> Result<String, Fail> {
    let kind = fault.kind;
    let at = fault.at.as_str();
    let mut out = format!(in alloc; "{kind} at ${at}")?;
    push_inner(&mut out, fault.inner)?;
    Ok(out)
}

// The legs of a plan of these bytes.
fn legs_of(alloc: Global, plan: &Plan, bytes: &[u8]) -> Result<String, Fail> {
    if plan.settings().bytes() != bytes {
        return Err(Fail::from("other bytes"));
    }
    let mut out = String::new(alloc);
    for leg in plan.legs() {
        push_leg(&mut out, leg)?;
    }
    Ok(out)
}

// The legs of a configuration, or its first fault.
fn checked(alloc: Global, text: &str) -> Result<String, Fail> {
    if MAX_CONF < text.len() {
        return Err(Fail::from("too long"));
    }
    match check_conf(alloc, &mut RegexMaker::new(), text.as_bytes()) {
        Ok(plan) => legs_of(alloc, &plan, text.as_bytes()),
        Err(ConfStop::Fault(fault)) => told(alloc, fault),
        Err(ConfStop::NoMemory) => Err(AllocError.into()),
    }
}

// Two root pipelines, of which the first has a transform with these statements.
fn transforming(alloc: Global, statements: &str) -> Result<String, Fail> {
    let top = concat!(
        r#""receivers":{"otlpjsonfile":{}},"#,
        r#""exporters":{"file/a":{"path":"a"},"file/b":{"path":"b"}}"#
    );
    let groups = format!(in alloc; r#"[{{"context":"log","statements":[{statements}]}}]"#)?;
    let processors = format!(in alloc; r#"{{"transform":{{"log_statements":{groups}}}}}"#)?;
    let pipelines = concat!(
        r#""logs/a":{"receivers":["otlpjsonfile"],"processors":["transform"],"#,
        r#""exporters":["file/a"]},"#,
        r#""logs/b":{"receivers":["otlpjsonfile"],"exporters":["file/b"]}"#
    );
    let service = format!(in alloc; r#"{{"pipelines":{{{pipelines}}}}}"#)?;
    let text = format!(in alloc; r#"{{{top},"processors":{processors},"service":{service}}}"#)?;
    checked(alloc, text.as_str())
}

#[test]
fn a_plan_has_the_legs_of_its_settings(rt: HostRuntime) -> Result<(), Fail> {
    let got = transforming(rt.alloc(), r#""set(attributes[\"x\"], \"1\")""#)?;
    assert_eq!(rt; got.as_str(), "logs/a - - - true, logs/b - - - false");
    Ok(())
}

#[test]
fn statements_are_planned_before_legs_are_looked_at(rt: HostRuntime) -> Result<(), Fail> {
    let set = r#""set(attributes[\"x\"], \"1\")""#;
    let statements = format!(in rt.alloc(); r#"{set},{set},"drop(body)""#)?;
    let got = transforming(rt.alloc(), statements.as_str())?;
    let want =
        "BadStatement at $/processors/transform/log_statements/0/statements/2 UnknownFunction at 0";
    assert_eq!(rt; got.as_str(), want);
    Ok(())
}
