//! Many exporters of one pipeline.

use super::{Failing, ground_with, run_words};
use crate::status::Status;
use std::alloc::{AllocError, Global};
use std::test::Fail;

/// A payload of one log record, in its one form.
const LINE: &str = concat!(
    r#"{"resourceLogs":[{"resource":{},"scopeLogs":[{"scope":{},"logRecords":["#,
    r#"{"body":{"stringValue":"hi"}}]}]}]}"#,
    "\n"
);

/// One pipeline to so many exporters, each with a file of its own: `f0`, `f1` and so on.
fn fan(alloc: Global, count: u32) -> Result<String, AllocError> {
    let mut exporters = String::new(alloc);
    let mut names = String::new(alloc);
    for number in 0..count {
        let comma = if number == 0 { "" } else { "," };
        let exporter = format!(in alloc; r#"{comma}"file/{number}":{{"path":"f{number}"}}"#)?;
        let name = format!(in alloc; r#"{comma}"file/{number}""#)?;
        exporters.push_str(exporter.as_str())?;
        names.push_str(name.as_str())?;
    }
    let head = r#"{"receivers":{"otlpjsonfile":{}}"#;
    let pipeline = format!(in alloc; r#"{{"receivers":["otlpjsonfile"],"exporters":[{names}]}}"#)?;
    let service = format!(in alloc; r#"{{"pipelines":{{"logs":{pipeline}}}}}"#)?;
    format!(in alloc; r#"{head},"exporters":{{{exporters}}},"service":{service}}}"#)
}

#[test]
fn each_of_thirty_two_exporters_gets_the_line(rt: HostRuntime) -> Result<(), Fail> {
    let alloc = rt.alloc();
    let mut ground = ground_with(alloc, LINE.as_bytes(), Failing::Nothing)?;
    let conf = fan(alloc, 32)?;
    ground.disk.put("c", conf.as_bytes())?;
    let status = run_words(
        alloc,
        "run|c|in|0",
        &mut ground.disk,
        &mut ground.out,
        &mut ground.notes,
    )?;
    assert!(rt; status == Status::Done);
    for number in 0..32u32 {
        let name = format!(in alloc; "f{number}")?;
        assert!(rt;
            ground.disk.get(name.as_str()) == Some(LINE.as_bytes()),
            "{name}"
        );
    }
    Ok(())
}
