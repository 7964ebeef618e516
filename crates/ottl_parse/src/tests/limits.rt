//! Open constructs, and long sums.

use super::{condition_of, statement_of};
use std::alloc::Global;
use std::test::Fail;

// So many opening pieces, what is inside, and as many closing pieces, behind a front.
fn nested(
    alloc: Global,
    front: &str,
    open: &str,
    inside: &str,
    close: &str,
    count: u32,
) -> Result<String, Fail> {
    let mut text = String::from_str(alloc, front)?;
    for _ in 0..count {
        text.push_str(open)?;
    }
    text.push_str(inside)?;
    for _ in 0..count {
        text.push_str(close)?;
    }
    Ok(text)
}

// The parenthesis of the statement's call is one of the constructs that are open.
#[test]
fn sixty_four_constructs_may_be_open(rt: HostRuntime) -> Result<(), Fail> {
    let alloc = rt.alloc();
    for (open, inside, close, fault) in [
        ("(", "1", ")", "TooDeep at 65"),
        ("[", "1", "]", "TooDeep at 65"),
        ("{\"\":", "1", "}", "TooDeep at 254"),
        ("f(", "1", ")", "TooDeep at 129"),
        ("A(", "", ")", "TooDeep at 129"),
    ] {
        let mut most = nested(alloc, "f(", open, inside, close, 63)?;
        most.push(')')?;
        assert!(rt;
            !statement_of(alloc, most.as_str())?
                .as_str()
                .starts_with("TooDeep"),
            "at {open}"
        );
        let mut more = nested(alloc, "f(", open, inside, close, 64)?;
        more.push(')')?;
        assert_eq!(rt;
            statement_of(alloc, more.as_str())?.as_str(),
            fault,
            "at {open}"
        );
    }
    Ok(())
}

#[test]
fn a_not_stays_open_through_its_operand(rt: HostRuntime) -> Result<(), Fail> {
    let alloc = rt.alloc();
    for (count, inside, want) in [
        (64, "true", "condition"),
        (65, "true", "TooDeep at 256"),
        (63, "A()", "condition"),
        (64, "A()", "TooDeep at 257"),
        (63, "a[0] == 1", "condition"),
        (64, "a[0] == 1", "TooDeep at 257"),
        (64, "a.b == 1", "condition"),
    ] {
        let text = nested(alloc, "", "not ", inside, "", count)?;
        assert_eq!(rt;
            condition_of(alloc, text.as_str())?.as_str(),
            want,
            "at {count} {inside}"
        );
    }
    Ok(())
}

#[test]
fn a_sum_of_ten_thousand_terms_is_parsed(rt: HostRuntime) -> Result<(), Fail> {
    let alloc = rt.alloc();
    let mut text = String::from_str(alloc, "set(a, 1")?;
    for _ in 0..9_999 {
        text.push_str(" + 1")?;
    }
    text.push(')')?;
    assert!(rt; statement_of(alloc, text.as_str())? == text);
    Ok(())
}
