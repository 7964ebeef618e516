//! Statements on a resource with the attribute `n`, which is 5.

use crate::{Cache, Outcome, eval, holds, run_statement};
use item_list::ItemList;
use ottl_parse::Sign;
use ottl_plan::{
    Arguments, Edit, Editor, PlannedCompare, PlannedCondition, PlannedExpr, PlannedStatement,
    PlannedTerm,
};
use pdata_tree::{
    Batch, Context, Field, Key, PathTo, Place, PlainScene, ResourceNode, ResourceTree,
};
use pdata_value::{Pairs, Text, Value};
use sqlite_items::Boxed;
use std::alloc::{AllocError, Global};
use std::test::Fail;

const FIRST: Place = Place {
    resource: 0,
    scope: 0,
    log: 0,
};

fn tree(alloc: Global) -> Result<Batch, AllocError> {
    let mut attributes = Pairs::new(alloc);
    attributes.put("n", Value::Int(5))?;
    let node = ResourceNode {
        attributes,
        dropped: 0,
        schema_url: Text::new(alloc),
    };
    let mut resources = ItemList::new(alloc);
    resources.push(ResourceTree {
        node,
        scopes: ItemList::new(alloc),
    })?;
    Ok(Batch { resources })
}

fn path(alloc: Global, field: Field, key: &str) -> Result<PathTo, AllocError> {
    let mut keys = ItemList::new(alloc);
    keys.push(Key::Name(Text::from_str(alloc, key)?))?;
    Ok(PathTo { field, keys })
}

fn n(alloc: Global) -> Result<PlannedExpr, AllocError> {
    Ok(PlannedExpr::Path(path(alloc, Field::Attributes, "n")?))
}

fn int(int: i64) -> PlannedExpr {
    PlannedExpr::Literal(Value::Int(int))
}

fn compare(
    alloc: Global,
    left: PlannedExpr,
    sign: Sign,
    right: PlannedExpr,
) -> Result<PlannedExpr, AllocError> {
    Ok(PlannedExpr::Compare(PlannedCompare {
        sign,
        left: Boxed::new(alloc, left)?,
        right: Boxed::new(alloc, right)?,
    }))
}

// The attribute divided by a number.
fn over(alloc: Global, divisor: i64) -> Result<PlannedExpr, AllocError> {
    let mut terms = ItemList::new(alloc);
    terms.push(PlannedTerm {
        sign: Sign::Times,
        expr: n(alloc)?,
    })?;
    terms.push(PlannedTerm {
        sign: Sign::Over,
        expr: int(divisor),
    })?;
    Ok(PlannedExpr::Product(terms))
}

// The attribute is this number, and beside it a comparison that errs.
fn is_or_errs(alloc: Global, number: i64) -> Result<ItemList<PlannedExpr>, AllocError> {
    let mut exprs = ItemList::new(alloc);
    exprs.push(compare(alloc, n(alloc)?, Sign::Equal, int(number))?)?;
    exprs.push(compare(alloc, over(alloc, 0)?, Sign::Equal, int(1))?)?;
    Ok(exprs)
}

fn set(
    alloc: Global,
    field: Field,
    value: PlannedExpr,
    condition: Option<PlannedExpr>,
) -> Result<PlannedStatement, AllocError> {
    let mut values = ItemList::new(alloc);
    values.push(value)?;
    Ok(PlannedStatement {
        context: Context::Resource,
        edit: Edit {
            editor: Editor::Set,
            target: path(alloc, field, "n")?,
            arguments: Arguments {
                values,
                literals: ItemList::new(alloc),
            },
        },
        condition: condition.map(|expr| PlannedCondition {
            context: Context::Resource,
            expr,
        }),
    })
}

fn outcome_note(outcome: Outcome) -> &'static str {
    match outcome {
        Outcome::Done => "Done",
        Outcome::Skipped => "Skipped",
        Outcome::Err(_) => "Err",
        Outcome::NoMemory => "NoMemory",
    }
}

fn int_note(value: Option<&Value>) -> i64 {
    match value {
        Some(Value::Int(int)) => *int,
        _ => -1,
    }
}

// The outcome, the attribute afterwards, and the cache's `n`; each -1 where it is no integer.
fn run(alloc: Global, statement: &PlannedStatement) -> Result<String, Fail> {
    let mut tree = tree(alloc)?;
    let mut cache = Cache::new(alloc);
    let mut scene = PlainScene::new(&mut tree, Context::Resource, FIRST);
    let outcome = outcome_note(run_statement(alloc, &mut scene, &mut cache, statement));
    let kept = match tree.resources.at(0) {
        Some(resource) => int_note(resource.node.attributes.get("n")),
        None => -2,
    };
    Ok(format!(in alloc; "{} {} {}", outcome, kept, int_note(cache.get("n")))?)
}

#[test]
fn a_value_is_written_where_the_condition_holds(rt: HostRuntime) -> Result<(), Fail> {
    let alloc = rt.alloc();
    let is = compare(alloc, n(alloc)?, Sign::Equal, int(5))?;
    let note = run(alloc, &set(alloc, Field::Attributes, int(7), Some(is))?)?;
    assert_eq!(rt; note.as_str(), "Done 7 -1");
    Ok(())
}

#[test]
fn nothing_is_done_where_it_does_not(rt: HostRuntime) -> Result<(), Fail> {
    let alloc = rt.alloc();
    let is = compare(alloc, n(alloc)?, Sign::Greater, int(5))?;
    let note = run(alloc, &set(alloc, Field::Attributes, int(7), Some(is))?)?;
    assert_eq!(rt; note.as_str(), "Skipped 5 -1");
    Ok(())
}

#[test]
fn nil_is_not_written(rt: HostRuntime) -> Result<(), Fail> {
    let alloc = rt.alloc();
    let nil = PlannedExpr::Literal(Value::Empty);
    let note = run(alloc, &set(alloc, Field::Attributes, nil, None)?)?;
    assert_eq!(rt; note.as_str(), "Done 5 -1");
    Ok(())
}

#[test]
fn the_cache_is_written_apart(rt: HostRuntime) -> Result<(), Fail> {
    let alloc = rt.alloc();
    let note = run(alloc, &set(alloc, Field::Cache, over(alloc, 2)?, None)?)?;
    assert_eq!(rt; note.as_str(), "Done 5 2");
    Ok(())
}

#[test]
fn an_error_changes_nothing(rt: HostRuntime) -> Result<(), Fail> {
    let alloc = rt.alloc();
    let note = run(
        alloc,
        &set(alloc, Field::Attributes, over(alloc, 0)?, None)?,
    )?;
    assert_eq!(rt; note.as_str(), "Err 5 -1");
    Ok(())
}

#[test]
fn or_stops_before_an_error(rt: HostRuntime) -> Result<(), Fail> {
    let alloc = rt.alloc();
    let any = PlannedExpr::Or(is_or_errs(alloc, 5)?);
    let note = run(alloc, &set(alloc, Field::Attributes, int(7), Some(any))?)?;
    assert_eq!(rt; note.as_str(), "Done 7 -1");
    Ok(())
}

#[test]
fn and_stops_before_an_error(rt: HostRuntime) -> Result<(), Fail> {
    let alloc = rt.alloc();
    let all = PlannedExpr::And(is_or_errs(alloc, 6)?);
    let note = run(alloc, &set(alloc, Field::Attributes, int(7), Some(all))?)?;
    assert_eq!(rt; note.as_str(), "Skipped 5 -1");
    Ok(())
}

fn evaluate(alloc: Global, expr: &PlannedExpr) -> Result<i64, Fail> {
    let mut tree = tree(alloc)?;
    let scene = PlainScene::new(&mut tree, Context::Resource, FIRST);
    match eval(alloc, &scene, &Cache::new(alloc), expr) {
        Ok(value) => Ok(int_note(Some(&value))),
        Err(_) => Err(Fail::from("refused")),
    }
}

#[test]
fn a_quotient_has_a_value(rt: HostRuntime) -> Result<(), Fail> {
    let value = evaluate(rt.alloc(), &over(rt.alloc(), 2)?)?;
    assert_eq!(rt; value, 2);
    Ok(())
}

fn judge(alloc: Global, expr: PlannedExpr) -> Result<bool, Fail> {
    let condition = PlannedCondition {
        context: Context::Resource,
        expr,
    };
    let mut tree = tree(alloc)?;
    let scene = PlainScene::new(&mut tree, Context::Resource, FIRST);
    match holds(alloc, &scene, &Cache::new(alloc), &condition) {
        Ok(truth) => Ok(truth),
        Err(_) => Err(Fail::from("refused")),
    }
}

#[test]
fn a_comparison_holds(rt: HostRuntime) -> Result<(), Fail> {
    let alloc = rt.alloc();
    let truth = judge(alloc, compare(alloc, n(alloc)?, Sign::AtMost, int(5))?)?;
    assert!(rt; truth);
    Ok(())
}
