//! As many legs as there may be, and more.

use super::printed;
use std::alloc::{AllocError, Global};
use std::fmt::Write;
use std::test::Fail;

fn push_comma(out: &mut String) -> Result<(), AllocError> {
    if !out.is_empty() {
        out.push(',')?;
    }
    Ok(())
}

// A root that routes to that many pipelines.
fn fan(alloc: Global, count: u32) -> Result<String, Fail> {
    let mut names = String::new(alloc);
    let mut pipelines = String::new(alloc);
    for number in 0..count {
        push_comma(&mut names)?;
        write!(names, r#""logs/{number}""#)?;
        write!(
            pipelines,
            r#""logs/{number}":{{"receivers":["routing"],"exporters":["file"]}},"#
        )?;
    }
    pipelines.push_str(r#""logs/a":{"receivers":["otlpjsonfile"],"exporters":["routing"]}"#)?;
    let routing = format!(in alloc; r#""routing":{{"table":[],"default_pipelines":[{names}]}}"#)?;
    printed(alloc, routing.as_str(), pipelines.as_str())
}

#[test]
fn legs_are_at_most_sixteen(rt: HostRuntime) -> Result<(), Fail> {
    let got = fan(rt.alloc(), 15)?;
    assert!(rt; got.as_str().ends_with("logs/14 0 0 - false"));
    let got = fan(rt.alloc(), 16)?;
    assert_eq!(rt; got.as_str(), "TooManyLegs at $/service/pipelines");
    Ok(())
}

// A connector whose two rows both lead to the next pipeline of a chain.
fn push_twice(out: &mut String, number: u32, next: u32) -> Result<(), Fail> {
    let row = r#"{"condition":"a","pipelines":["logs/"#;
    push_comma(out)?;
    write!(
        out,
        r#""routing/{number}":{{"table":[{row}{next}"]}},{row}{next}"]}}]}}"#
    )?;
    Ok(())
}

// A chain of 32 pipelines, each of which leads to the next in two ways.
fn chain(alloc: Global) -> Result<String, Fail> {
    let mut connectors = String::new(alloc);
    let mut pipelines = String::from_str(
        alloc,
        r#""logs/0":{"receivers":["otlpjsonfile"],"exporters":["routing/0"]},"#,
    )?;
    for number in 1..31 {
        push_twice(&mut connectors, number - 1, number)?;
        write!(pipelines, r#""logs/{number}":{{"receivers":["routing/"#)?;
        let before = number - 1;
        write!(
            pipelines,
            r#"{before}"],"exporters":["routing/{number}"]}},"#
        )?;
    }
    push_twice(&mut connectors, 30, 31)?;
    pipelines.push_str(r#""logs/31":{"receivers":["routing/30"],"exporters":["file"]}"#)?;
    printed(alloc, connectors.as_str(), pipelines.as_str())
}

#[test]
fn no_leg_behind_the_seventeenth_is_looked_at(rt: HostRuntime) -> Result<(), Fail> {
    let got = chain(rt.alloc())?;
    assert_eq!(rt; got.as_str(), "TooManyLegs at $/service/pipelines");
    Ok(())
}
