//! Groups, their targets and their caches.

use super::runs::{group, run, run_group};
use conf_json::ErrorMode;
use item_list::ItemList;
use pdata_tree::Context;
use std::test::Fail;

#[test]
fn the_cache_lasts_for_one_target(rt: HostRuntime) -> Result<(), Fail> {
    let statements = [
        r#"set(attributes["before"], cache["n"])"#,
        r#"set(cache["n"], 1)"#,
        r#"set(attributes["after"], cache["n"])"#,
    ];
    let text = run_group(rt.alloc(), ErrorMode::Propagate, &[], &statements, 2)?;
    assert_eq!(rt; text.as_str(), "[ after=1 ][ after=1 ]; errors 0 notes 0");
    Ok(())
}

#[test]
fn a_target_is_taken_where_one_condition_holds(rt: HostRuntime) -> Result<(), Fail> {
    let alloc = rt.alloc();
    let statements = [r#"set(attributes["a"], 1)"#];
    let none = [r#"body == "no""#, r#"attributes["a"] == 1"#];
    let text = run_group(alloc, ErrorMode::Propagate, &none, &statements, 1)?;
    assert_eq!(rt; text.as_str(), "[ ]; errors 0 notes 0");
    let one = [r#"body == "no""#, r#"body == "hi""#];
    let text = run_group(alloc, ErrorMode::Propagate, &one, &statements, 1)?;
    assert_eq!(rt; text.as_str(), "[ a=1 ]; errors 0 notes 0");
    Ok(())
}

#[test]
fn groups_run_in_order(rt: HostRuntime) -> Result<(), Fail> {
    let alloc = rt.alloc();
    let mut groups = ItemList::new(alloc);
    let resource = [r#"set(attributes["r"], 1)"#];
    groups.push(group(alloc, Context::Resource, &[], &resource)?)?;
    let scope = [r#"set(attributes["s"], resource.attributes["r"] + 1)"#];
    groups.push(group(alloc, Context::Scope, &[], &scope)?)?;
    let log = [
        r#"set(attributes["a"], instrumentation_scope.attributes["s"])"#,
        r#"set(attributes["b"], 1 / 0)"#,
    ];
    groups.push(group(alloc, Context::Log, &[], &log)?)?;
    let text = run(alloc, ErrorMode::Ignore, groups, 2)?;
    assert_eq!(rt;
        text.as_str(),
        "[ a=2 ][ a=2 ]; errors 2 notes 2: Statement 2.1 at 0/0/1 DivideByZero"
    );
    Ok(())
}
