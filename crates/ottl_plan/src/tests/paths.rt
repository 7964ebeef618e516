//! Paths and names of severities.

use super::planned;
use crate::severity::severity_of;
use pdata_tree::Context;
use std::test::Fail;

#[test]
fn each_context_has_its_paths(rt: HostRuntime) -> Result<(), Fail> {
    for (path, resource, scope, log) in [
        ("attributes[\"a\"]", true, true, true),
        ("dropped_attributes_count", true, true, true),
        ("cache[0]", true, true, true),
        ("name", false, true, false),
        ("version", false, true, false),
        ("resource.attributes", false, true, true),
        ("resource.dropped_attributes_count", false, true, true),
        (
            "instrumentation_scope.attributes[\"a\"]",
            false,
            false,
            true,
        ),
        ("instrumentation_scope.name", false, false, true),
        ("instrumentation_scope.version", false, false, true),
        ("body[\"a\"][0]", false, false, true),
        ("body.string", false, false, true),
        ("severity_number", false, false, true),
        ("severity_text", false, false, true),
        ("time_unix_nano", false, false, true),
        ("time", false, false, true),
        ("observed_time_unix_nano", false, false, true),
        ("observed_time", false, false, true),
        ("flags", false, false, true),
        ("trace_id.string", false, false, true),
        ("span_id.string", false, false, true),
        ("time[0]", false, false, false),
        ("body.string[\"a\"]", false, false, false),
        ("trace_id", false, false, false),
        ("resource", false, false, false),
        ("resource.name", false, false, false),
        ("attributes.a", false, false, false),
        ("body.string.string", false, false, false),
    ] {
        let text = format!(in rt.alloc(); "set({path}, 1)")?;
        for (context, has) in [
            (Context::Resource, resource),
            (Context::Scope, scope),
            (Context::Log, log),
        ] {
            let want = if has { "planned" } else { "UnknownPath at 4" };
            assert_eq!(rt;
                planned(rt.alloc(), text.as_str(), context)?.as_str(),
                want,
                "at {path}"
            );
        }
    }
    Ok(())
}

#[test]
fn severities_have_numbers(rt: HostRuntime) -> Result<(), Fail> {
    for (name, want) in [
        ("SEVERITY_NUMBER_UNSPECIFIED", Some(0)),
        ("SEVERITY_NUMBER_TRACE", Some(1)),
        ("SEVERITY_NUMBER_DEBUG4", Some(8)),
        ("SEVERITY_NUMBER_INFO", Some(9)),
        ("SEVERITY_NUMBER_WARN2", Some(14)),
        ("SEVERITY_NUMBER_ERROR3", Some(19)),
        ("SEVERITY_NUMBER_FATAL4", Some(24)),
        ("SEVERITY_NUMBER_FATAL5", None),
        ("SEVERITY_NUMBER_TRACE1", None),
        ("WARN", None),
    ] {
        assert_eq!(rt; severity_of(name), want, "at {name}");
    }
    Ok(())
}
