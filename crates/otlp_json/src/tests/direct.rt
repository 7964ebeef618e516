//! Which lines are read straight from their text, and which bend to the general way.

use crate::direct::{Bend, read_direct};
use crate::tests::{answer, line_of, nested};
use std::alloc::{AllocError, Global};
use std::process::Abort;
use std::test::Fail;

/// Whether a text is unusual.
fn bends(rt: &impl Abort, alloc: Global, text: &str) -> Result<bool, AllocError> {
    assert!(rt; text.len() <= 16_777_216);
    match read_direct(alloc, text) {
        Ok(_) => Ok(false),
        Err(Bend::Unusual) => Ok(true),
        Err(Bend::NoMemory) => Err(AllocError),
    }
}

#[test]
fn records_bend_where_a_member_is_unusual(rt: HostRuntime) -> Result<(), Fail> {
    // Each that bends stands below its like that doesn't.
    let table: [(&str, bool); 28] = [
        (r#"{"flags":1,"flagz":1}"#, false),
        (r#"{"flags":1,"flags":1}"#, true),
        (r#"{"\u0066lags":1}"#, true),
        (r#"{"x":null,"x":null}"#, false),
        (r#"{"flags":null}"#, true),
        (r#"{"timeUnixNano":18446744073709551615}"#, false),
        (r#"{"timeUnixNano":18446744073709551616}"#, true),
        (r#"{"severityNumber":1}"#, false),
        (r#"{"severityNumber":"1"}"#, true),
        (r#"{"traceId":"5b8efff798038103d269b633813fc60c"}"#, false),
        (r#"{"traceId":"5b8efff798038103d269b633813fc60"}"#, true),
        (r#"{"severityText":"\n"}"#, false),
        (r#"{"severityText":"\q"}"#, true),
        (r#"{"attributes":[{"key":"k"}]}"#, false),
        (r#"{"attributes":[{"key":1}]}"#, true),
        (r#"{"body":{}}"#, false),
        (r#"{"body":[]}"#, true),
        (r#"{"body":{"intValue":"1","x":null}}"#, false),
        (r#"{"body":{"intValue":"1","stringValue":"a"}}"#, true),
        (r#"{"body":{"stringValue":null}}"#, true),
        (
            r#"{"body":{"arrayValue":{"x":[],"values":[{},{"bytesValue":"aGk="}]}}}"#,
            false,
        ),
        (r#"{"body":{"arrayValue":{"values":[],"values":[]}}}"#, true),
        (
            r#"{"body":{"arrayValue":{"values":[{},{"bytesValue":"aGk"}]}}}"#,
            true,
        ),
        (
            r#"{"body":{"kvlistValue":{"values":[{"x":0,"value":{"doubleValue":1e3},"key":"k"}]}}}"#,
            false,
        ),
        (
            r#"{"body":{"kvlistValue":{"values":[{"key":"k","key":"k"}]}}}"#,
            true,
        ),
        (
            r#"{"body":{"kvlistValue":{"values":[{"key":"k","value":null}]}}}"#,
            true,
        ),
        (r#"{"body":{"kvlistValue":{"values":null}}}"#, true),
        (
            r#"{ "spanId" : "" , "traceId" : "" , "attributes" : [ ] , "body" : { } , "severityText" : "" , "timeUnixNano" : "0" }"#,
            false,
        ),
    ];
    for (record, wanted) in table {
        let line = line_of(rt.alloc(), record)?;
        let found = bends(&rt, rt.alloc(), line.as_str())?;
        assert_eq!(rt; found, wanted, "{record}");
    }
    Ok(())
}

#[test]
fn records_bend_where_a_scalar_is_unusual(rt: HostRuntime) -> Result<(), Fail> {
    // Each that bends stands below its like that doesn't.
    let table: [(&str, bool); 35] = [
        (r#"{"severityText":""}"#, false),
        (r#"{"severityText":"a\"b\u00e9"}"#, false),
        (r#"{"severityText":"a"b"}"#, true),
        (r#"{"timeUnixNano":"7"}"#, false),
        (r#"{"timeUnixNano":"\u0037"}"#, true),
        (r#"{"timeUnixNano":"07"}"#, true),
        (r#"{"timeUnixNano":7}"#, false),
        (r#"{"timeUnixNano":7.0}"#, true),
        (r#"{"timeUnixNano":07}"#, true),
        (r#"{"flags":"4294967295"}"#, false),
        (r#"{"flags":"4294967296"}"#, true),
        (r#"{"severityNumber":-2147483648}"#, false),
        (r#"{"severityNumber":-2147483649}"#, true),
        (r#"{"spanId":"eee19b7ec3c1b174"}"#, false),
        (r#"{"spanId":"\u0065ee19b7ec3c1b174"}"#, true),
        (r#"{"spanId":"eee19b7ec3c1b17g"}"#, true),
        (r#"{"body":{"boolValue":true}}"#, false),
        (r#"{"body":{"boolValue":tru}}"#, true),
        (r#"{"body":{"boolValue":"true"}}"#, true),
        (r#"{"body":{"boolValue":null}}"#, true),
        (r#"{"body":{"doubleValue":-1.5E+3}}"#, false),
        (r#"{"body":{"doubleValue":"-1.5E+3"}}"#, false),
        (r#"{"body":{"doubleValue":"NaN"}}"#, false),
        (r#"{"body":{"doubleValue":NaN}}"#, true),
        (r#"{"body":{"doubleValue":"1."}}"#, true),
        (r#"{"body":{"bytesValue":""}}"#, false),
        (r#"{"body":{"bytesValue":"aGk\u003d"}}"#, true),
        (
            r#"{"x":[{"y":[1,"a",null,true,false,{}]}, [ ] ,{ }]}"#,
            false,
        ),
        (r#"{"x":[{"y":[1,"\n",null,true,false,{}]}]}"#, false),
        (r#"{"x":[{"y":[1,"\q",null,true,false,{}]}]}"#, true),
        (r#"{"x":[{"\u0079":[1,"a",null,true,false,{}]}]}"#, true),
        (r#"{"x":[{"y":[1,"a",nul,true,false,{}]}]}"#, true),
        (r#"{"x":[{"y":[1,"a",null,true,fals,{}]}]}"#, true),
        (r#"{"x":[{"y":[1,"a",null,true,false,{}]]}"#, true),
        (r#"{"x":[1,]}"#, true),
    ];
    for (record, wanted) in table {
        let line = line_of(rt.alloc(), record)?;
        let found = bends(&rt, rt.alloc(), line.as_str())?;
        assert_eq!(rt; found, wanted, "{record}");
    }
    Ok(())
}

/// The record of a member behind the front of an object.
fn record_of(alloc: Global, front: &str, member: &str) -> Result<String, AllocError> {
    format!(in alloc; "{front}{member}{BRACE}")
}

const BRACE: &str = "}";

/// An escaped key, at which a record bends.
const BENT: &str = r#"{"\u0078":0,"#;

#[test]
fn members_are_read_alike_on_both_ways(rt: HostRuntime) -> Result<(), Fail> {
    let table: [&str; 16] = [
        r#""severityText":"plain é""#,
        r#""severityText":"a\"b\n\ud83d\ude00""#,
        r#""timeUnixNano":"18446744073709551615","observedTimeUnixNano":7"#,
        r#""timeUnixNano":"-0","flags":"4294967295","droppedAttributesCount":2"#,
        r#""severityNumber":-2147483648"#,
        r#""traceId":"5B8EFFF798038103D269B633813FC60C","spanId":"""#,
        r#""body":{"stringValue":""}"#,
        r#""body":{"boolValue":true}"#,
        r#""body":{"boolValue":false}"#,
        r#""body":{"intValue":"-9223372036854775808"}"#,
        r#""body":{"intValue":9223372036854775807}"#,
        r#""body":{"doubleValue":0.10}"#,
        r#""body":{"doubleValue":"-Infinity"}"#,
        r#""body":{"bytesValue":"aGk="}"#,
        r#""attributes":[{"key":"k","value":{"stringValue":"v"}},{"key":""}]"#,
        r#""x":[{"y":[1,"a",null,true,false,{}]}],"flags":1"#,
    ];
    for member in table {
        let usual = line_of(rt.alloc(), record_of(rt.alloc(), "{", member)?.as_str())?;
        let bent = line_of(rt.alloc(), record_of(rt.alloc(), BENT, member)?.as_str())?;
        assert!(rt; !bends(&rt, rt.alloc(), usual.as_str())?, "{member}");
        assert!(rt; bends(&rt, rt.alloc(), bent.as_str())?, "{member}");
        let found = answer(&rt, rt.alloc(), usual.as_bytes())?;
        let wanted = answer(&rt, rt.alloc(), bent.as_bytes())?;
        assert_eq!(rt; found.as_slice(), wanted.as_slice(), "{member}");
    }
    Ok(())
}

#[test]
fn lines_bend_where_an_object_is_unusual(rt: HostRuntime) -> Result<(), Fail> {
    let table: [(&str, bool); 17] = [
        (" {} ", false),
        ("{}x", true),
        (r#"{"x":"y"}"#, false),
        (r#"{"x":"y"]"#, true),
        (r#"{"x":"y}"#, true),
        ("[]", true),
        (r#"{"resourceLogs":[{"scopeLogs":[]}]}"#, false),
        (r#"{"resourceLogs":[{"scopeLogs":[]}]"#, true),
        (
            r#"{"x":1,"resourceLogs":[{"x":[{}],"schemaUrl":"u","scopeLogs":[{"x":{"y":2},"schemaUrl":"v","logRecords":[{"x":null}],"scope":{"x":"","version":"1","name":"n"}}],"resource":{"x":true,"attributes":[]}}]}"#,
            false,
        ),
        (r#"{"resourceLogs":null}"#, true),
        (r#"{"resourceLogs":[],"resourceLogs":[]}"#, true),
        (r#"{"resourceLogs":[{"resource":null}]}"#, true),
        (
            r#"{"resourceLogs":[{"schemaUrl":"u","schemaUrl":"u"}]}"#,
            true,
        ),
        (r#"{"resourceLogs":[{"scopeLogs":[{"scope":null}]}]}"#, true),
        (
            r#"{"resourceLogs":[{"scopeLogs":[{"scope":{"name":"a","name":"a"}}]}]}"#,
            true,
        ),
        (
            r#"{"resourceLogs":[{"scopeLogs":[{"logRecords":[]}]}]}"#,
            false,
        ),
        (
            r#"{"resourceLogs":[{"scopeLogs":[{"logRecords":[1]}]}]}"#,
            true,
        ),
    ];
    for (line, wanted) in table {
        let found = bends(&rt, rt.alloc(), line)?;
        assert_eq!(rt; found, wanted, "{line}");
    }
    Ok(())
}

#[test]
fn values_bend_below_sixty_four_others(rt: HostRuntime) -> Result<(), Fail> {
    for (levels, wanted) in [(64, false), (65, true)] {
        let line = line_of(rt.alloc(), nested(rt.alloc(), levels)?.as_str())?;
        let found = bends(&rt, rt.alloc(), line.as_str())?;
        assert_eq!(rt; found, wanted, "{levels}");
    }
    Ok(())
}
