//! Errors in each mode.

use super::runs::run_group;
use conf_json::ErrorMode;
use std::alloc::Global;
use std::test::Fail;

// Three statements, of which the second errs.
fn run_three(alloc: Global, mode: ErrorMode) -> Result<String, Fail> {
    let statements = [
        r#"set(attributes["a"], 1)"#,
        r#"set(attributes["b"], 1 / 0)"#,
        r#"set(attributes["c"], 3)"#,
    ];
    run_group(alloc, mode, &[], &statements, 1)
}

#[test]
fn ignore_counts_and_notes_an_error_and_goes_on(rt: HostRuntime) -> Result<(), Fail> {
    let text = run_three(rt.alloc(), ErrorMode::Ignore)?;
    assert_eq!(rt;
        text.as_str(),
        "[ a=1 c=3 ]; errors 1 notes 1: Statement 0.1 at 0/0/0 DivideByZero"
    );
    Ok(())
}

#[test]
fn silent_goes_on(rt: HostRuntime) -> Result<(), Fail> {
    let text = run_three(rt.alloc(), ErrorMode::Silent)?;
    assert_eq!(rt; text.as_str(), "[ a=1 c=3 ]; errors 0 notes 0");
    Ok(())
}

#[test]
fn propagate_fails_with_the_first_error(rt: HostRuntime) -> Result<(), Fail> {
    let text = run_three(rt.alloc(), ErrorMode::Propagate)?;
    assert_eq!(rt;
        text.as_str(),
        "failed Statement 0.1 at 0/0/0 DivideByZero; errors 0 notes 0"
    );
    Ok(())
}

#[test]
fn a_double_has_no_order(rt: HostRuntime) -> Result<(), Fail> {
    let alloc = rt.alloc();
    let above = [r#"set(attributes["x"], "X") where attributes["d"] > 1"#];
    let text = run_group(alloc, ErrorMode::Ignore, &[], &above, 1)?;
    assert_eq!(rt;
        text.as_str(),
        "[ ]; errors 1 notes 1: Statement 0.0 at 0/0/0 Double"
    );
    let nil = [r#"set(attributes["x"], "X") where attributes["d"] == nil"#];
    let text = run_group(alloc, ErrorMode::Ignore, &[], &nil, 1)?;
    assert_eq!(rt; text.as_str(), "[ ]; errors 0 notes 0");
    Ok(())
}

// A condition that errs, before one that holds.
fn run_conditions(alloc: Global, mode: ErrorMode) -> Result<String, Fail> {
    let conditions = ["1 / 0 == 1", r#"body == "hi""#];
    run_group(alloc, mode, &conditions, &[r#"set(attributes["a"], 1)"#], 1)
}

#[test]
fn a_condition_that_errs_is_false_where_the_work_goes_on(rt: HostRuntime) -> Result<(), Fail> {
    let alloc = rt.alloc();
    let text = run_conditions(alloc, ErrorMode::Ignore)?;
    assert_eq!(rt;
        text.as_str(),
        "[ a=1 ]; errors 1 notes 1: GroupCondition 0.0 at 0/0/0 DivideByZero"
    );
    let text = run_conditions(alloc, ErrorMode::Silent)?;
    assert_eq!(rt; text.as_str(), "[ a=1 ]; errors 0 notes 0");
    let text = run_conditions(alloc, ErrorMode::Propagate)?;
    assert_eq!(rt;
        text.as_str(),
        "failed GroupCondition 0.0 at 0/0/0 DivideByZero; errors 0 notes 0"
    );
    Ok(())
}

// One error on each of so many log records.
fn account(alloc: Global, count: usize) -> Result<String, Fail> {
    let text = run_group(alloc, ErrorMode::Ignore, &["1 / 0 == 1"], &[], count)?;
    match text.as_str().split_once("; ") {
        Some((_, account)) => Ok(String::from_str(alloc, account)?),
        None => Err(Fail::from("no account")),
    }
}

#[test]
fn eight_errors_are_noted(rt: HostRuntime) -> Result<(), Fail> {
    let text = account(rt.alloc(), 8)?;
    assert_eq!(rt;
        text.as_str(),
        "errors 8 notes 8: GroupCondition 0.0 at 0/0/7 DivideByZero"
    );
    Ok(())
}

#[test]
fn the_ninth_error_is_only_counted(rt: HostRuntime) -> Result<(), Fail> {
    let text = account(rt.alloc(), 9)?;
    assert_eq!(rt;
        text.as_str(),
        "errors 9 notes 8: GroupCondition 0.0 at 0/0/7 DivideByZero"
    );
    Ok(())
}
