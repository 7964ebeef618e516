//! First faults and their places.

use crate::{PointedStop, read_shape};
use std::alloc::{AllocError, Global};
use std::test::Fail;

const RECEIVERS: &str = r#"{"otlpjsonfile":{}}"#;

const EXPORTERS: &str = r#"{"file":{"path":"o"}}"#;

const SERVICE: &str =
    r#"{"pipelines":{"logs":{"receivers":["otlpjsonfile"],"exporters":["file"]}}}"#;

// The first fault of the bytes, or `right`.
fn printed(alloc: Global, text: &str) -> Result<String, Fail> {
    match read_shape(alloc, text.as_bytes()) {
        Ok(_) => Ok(String::from_str(alloc, "right")?),
        Err(PointedStop::Fault(fault)) => {
            let number = fault.kind.number();
            let kind = fault.kind;
            let at = fault.at.as_str();
            Ok(format!(in alloc; "{number} {kind} at ${at}")?)
        }
        Err(PointedStop::NoMemory) => Err(AllocError.into()),
    }
}

// A configuration with these receivers and exporters, one pipeline, and more at its top.
fn whole(
    alloc: Global,
    receivers: &str,
    exporters: &str,
    more: &str,
) -> Result<String, AllocError> {
    format!(in alloc;
        r#"{{"receivers":{receivers},"exporters":{exporters},"service":{SERVICE}{more}}}"#
    )
}

// The first fault of a configuration with one more section, or `right`.
fn printed_with(alloc: Global, name: &str, section: &str) -> Result<String, Fail> {
    let more = format!(in alloc; ",\"{name}\":{section}")?;
    let text = whole(alloc, RECEIVERS, EXPORTERS, more.as_str())?;
    printed(alloc, text.as_str())
}

#[test]
fn what_is_no_object_of_json_is_refused(rt: HostRuntime) -> Result<(), Fail> {
    for (text, want) in [
        ("", "1 BadJson at $"),
        ("[", "1 BadJson at $"),
        ("[]", "2 WrongKind at $"),
        ("null", "2 WrongKind at $"),
        ("{}", "4 MissingKey at $/receivers"),
        (r#"{"a":1}"#, "3 UnknownKey at $/a"),
        (r#"{"a/b~c":1}"#, "3 UnknownKey at $/a~1b~0c"),
        (r#"{"b":1,"a":1}"#, "3 UnknownKey at $/a"),
        (
            r#"{"\u00e9\u20ac\ud83d\ude00~":1}"#,
            "3 UnknownKey at $/é€😀~0",
        ),
    ] {
        let got = printed(rt.alloc(), text)?;
        assert_eq!(rt; got.as_str(), want, "{text}");
    }
    Ok(())
}

#[test]
fn receivers_are_one_component_of_one_type(rt: HostRuntime) -> Result<(), Fail> {
    for (receivers, want) in [
        (RECEIVERS, "right"),
        ("{}", "4 MissingKey at $/receivers/otlpjsonfile"),
        ("1", "2 WrongKind at $/receivers"),
        (
            r#"{"otlpjsonfile":{},"otlpjsonfile/b":{}}"#,
            "3 UnknownKey at $/receivers/otlpjsonfile~1b",
        ),
        (
            r#"{"otlpjsonfile":{"a":1},"otlpjsonfile/b":{}}"#,
            "3 UnknownKey at $/receivers/otlpjsonfile/a",
        ),
        (r#"{"1x":{}}"#, "5 BadName at $/receivers/1x"),
        (r#"{"otlp":{}}"#, "6 UnknownComponent at $/receivers/otlp"),
        (
            r#"{"otlpjsonfile/":{}}"#,
            "5 BadName at $/receivers/otlpjsonfile~1",
        ),
        (
            r#"{"otlpjsonfile/a b":{}}"#,
            "5 BadName at $/receivers/otlpjsonfile~1a b",
        ),
        (
            r#"{"otlpjsonfile/a/b":{}}"#,
            "5 BadName at $/receivers/otlpjsonfile~1a~1b",
        ),
        (r#"{"otlpjsonfile/a-._9":{}}"#, "right"),
    ] {
        let text = whole(rt.alloc(), receivers, EXPORTERS, "")?;
        let got = printed(rt.alloc(), text.as_str())?;
        assert_eq!(rt; got.as_str(), want, "{receivers}");
    }
    Ok(())
}

#[test]
fn exporters_have_a_path(rt: HostRuntime) -> Result<(), Fail> {
    for (exporters, want) in [
        (
            r#"{"file":{"path":""}}"#,
            "2 WrongKind at $/exporters/file/path",
        ),
        (r#"{"file":{}}"#, "4 MissingKey at $/exporters/file/path"),
        (
            r#"{"file":{"path":1}}"#,
            "2 WrongKind at $/exporters/file/path",
        ),
        (
            r#"{"file":{"path":[]}}"#,
            "2 WrongKind at $/exporters/file/path",
        ),
        (
            r#"{"file":{"path":{}}}"#,
            "2 WrongKind at $/exporters/file/path",
        ),
        (
            r#"{"file":{"path":"a","q/~r":1}}"#,
            "3 UnknownKey at $/exporters/file/q~1~0r",
        ),
        ("{}", "right"),
    ] {
        let text = whole(rt.alloc(), RECEIVERS, exporters, "")?;
        let got = printed(rt.alloc(), text.as_str())?;
        assert_eq!(rt; got.as_str(), want, "{exporters}");
    }
    Ok(())
}

#[test]
fn processors_have_the_members_of_their_types(rt: HostRuntime) -> Result<(), Fail> {
    for (section, want) in [
        (
            r#"{"transform":{}}"#,
            "4 MissingKey at $/processors/transform/log_statements",
        ),
        (
            r#"{"transform":{"log_statements":[{}]}}"#,
            "4 MissingKey at $/processors/transform/log_statements/0/context",
        ),
        (
            r#"{"transform/x":{"log_statements":[{"context":"log","statements":["a",1]}]}}"#,
            "2 WrongKind at $/processors/transform~1x/log_statements/0/statements/1",
        ),
        (
            r#"{"transform/x":{"log_statements":[{"context":"span","statements":[]}]}}"#,
            "7 BadMode at $/processors/transform~1x/log_statements/0/context",
        ),
        (
            r#"{"transform":{"error_mode":"loud","log_statements":[]}}"#,
            "7 BadMode at $/processors/transform/error_mode",
        ),
        (
            r#"{"transform":{"error_mode":1,"log_statements":[]}}"#,
            "2 WrongKind at $/processors/transform/error_mode",
        ),
        (
            r#"{"filter":{"logs":{}}}"#,
            "4 MissingKey at $/processors/filter/logs/log_record",
        ),
        (
            r#"{"filter":{"logs":[]}}"#,
            "2 WrongKind at $/processors/filter/logs",
        ),
        (r#"{"groupbyattrs":{}}"#, "right"),
        (
            r#"{"groupbyattrs":{"keys":[null]}}"#,
            "2 WrongKind at $/processors/groupbyattrs/keys/0",
        ),
        (
            r#"{"other":{}}"#,
            "6 UnknownComponent at $/processors/other",
        ),
    ] {
        let got = printed_with(rt.alloc(), "processors", section)?;
        assert_eq!(rt; got.as_str(), want, "{section}");
    }
    Ok(())
}

#[test]
fn connectors_have_a_table_of_rows(rt: HostRuntime) -> Result<(), Fail> {
    for (section, want) in [
        (
            r#"{"routing":{"table":[{"condition":"x","pipelines":["a"],"action":"mov"}]}}"#,
            "7 BadMode at $/connectors/routing/table/0/action",
        ),
        (
            r#"{"routing":{"table":[{"condition":2,"pipelines":["a"]}]}}"#,
            "2 WrongKind at $/connectors/routing/table/0/condition",
        ),
        (
            r#"{"routing":{"table":[{"pipelines":["a"],"condition":"c","context":"scope"}]}}"#,
            "7 BadMode at $/connectors/routing/table/0/context",
        ),
    ] {
        let got = printed_with(rt.alloc(), "connectors", section)?;
        assert_eq!(rt; got.as_str(), want, "{section}");
    }
    Ok(())
}
