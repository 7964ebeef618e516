//! Printed forms.

use super::statement_of;
use std::test::Fail;

#[test]
fn each_statement_has_its_printed_form(rt: HostRuntime) -> Result<(), Fail> {
    for (text, want) in [
        ("set(body,+7)", "set(body, 7)"),
        (
            "set( body , -9223372036854775808 )",
            "set(body, -9223372036854775808)",
        ),
        (
            r#"set(attributes["a"],(1+2)*3)where not(a==1 or b==2)"#,
            r#"set(attributes["a"], (1 + 2) * 3) where not (a == 1 or b == 2)"#,
        ),
        ("f()", "f()"),
        (
            "F([],{},[1,nil,true,false])",
            "F([], {}, [1, nil, true, false])",
        ),
        (
            "set(a.b . c[0][\"k\"], 0xAbCd)",
            "set(a.b.c[0][\"k\"], 0xabcd)",
        ),
        (
            r#"set(a, {"k":1,"k":[2],"m":{}})"#,
            r#"set(a, {"k": 1, "k": [2], "m": {}})"#,
        ),
        ("set(a, b - (c - d))", "set(a, b - (c - d))"),
        ("set(a, (b - c) - d)", "set(a, (b - c) - d)"),
        ("set(a, b - c - d)", "set(a, b - c - d)"),
        ("set(a, (b * c) + (d))", "set(a, b * c + d)"),
        ("set(a, b / (c * d) - -1)", "set(a, b / (c * d) - -1)"),
        ("f(a) where not not x == 1", "f(a) where not not x == 1"),
        (
            "f(a) where (A() and B()) or (C() or D())",
            "f(a) where A() and B() or (C() or D())",
        ),
        (
            "f(a) where (A() or B()) and not (C() and D())",
            "f(a) where (A() or B()) and not (C() and D())",
        ),
        (
            "f(a) where (a + 1) <= ((b)) and c != d",
            "f(a) where a + 1 <= b and c != d",
        ),
        (
            r#"set(a, "\a\b\f\n\r\t\v\\\"\x7f\101\u00e9")"#,
            "set(a, \"\\x07\\x08\\x0c\\n\\r\\t\\x0b\\\\\\\"\x7fAé\")",
        ),
        (
            "set(flags, SEVERITY_NUMBER_INFO)",
            "set(flags, SEVERITY_NUMBER_INFO)",
        ),
    ] {
        let printed = statement_of(rt.alloc(), text)?;
        assert_eq!(rt; printed.as_str(), want, "at {text}");
        assert_eq!(rt;
            statement_of(rt.alloc(), want)?.as_str(),
            want,
            "again at {text}"
        );
    }
    Ok(())
}

#[test]
fn the_statements_of_a_redaction_are_printed_as_they_are(rt: HostRuntime) -> Result<(), Fail> {
    for text in [
        r#"set(attributes["service"], resource.attributes["service.name"])"#,
        r#"delete_matching_keys(attributes, "^pass")"#,
        r##"replace_pattern(body["msg"], "[0-9]+", "#")"##,
        r#"set(severity_text, "WARN") where severity_number >= SEVERITY_NUMBER_WARN"#,
        r#"merge_maps(attributes, {"env": "prod", "service": "other"}, "insert")"#,
    ] {
        assert_eq!(rt; statement_of(rt.alloc(), text)?.as_str(), text);
    }
    Ok(())
}
