//! The first fault in the shape of a configuration.

ghost use Rattle.std.specs.Prelude.{◌≡◌, is_some};
ghost use Rattle.serde_json.specs.Find.{get_member};
ghost use Rattle.serde_json.specs.View.{view, items_view, members_view};
ghost use Rattle.conf_shape.specs.Path.{pointer_of};
ghost use Rattle.conf_shape.specs.Fault.{Finds};
ghost use Rattle.conf_shape.specs.Rows.{rows_in};
ghost use Rattle.conf_shape.specs.Shape.{text_fault, unknown_fault, absent_fault, before_fault, count_fault, after_fault, shape_fault, elements_fault, members_fault};

use crate::fault::{PointedStop, told, told_at};
use crate::kind::FaultKind;
use crate::path::Path;
use crate::table::{Member, Rule, element_rule, find_rule, is_word_of, member_rule, members_of};
use serde_json::{Map, Value};
use std::alloc::Global;

/// Looks for the first fault of a value under a rule.
#[cycle(walk)]
pub(crate) fn check<'a>(
    alloc: Global,
    rule: Rule,
    path: &'a Path<'a>,
    value: &'a Value,
) -> Result<(), PointedStop>
    ensures { Finds result (shape_fault rule (pointer_of path.now) (view value.now)) }
{
    match value {
        Value::String(text) => check_text(alloc, rule, path, text.as_str()),
        Value::Array(elements) => match element_rule(rule) {
            Some(inner) => check_elements(alloc, inner, path, elements),
            None => Err(told(alloc, FaultKind::WrongKind, path)),
        },
        Value::Object(members) => {
            check_before(alloc, rule, path, members)?;
            check_members(alloc, rule, path, members)?;
            check_after(alloc, rule, path, members)
        }
        _ => Err(told(alloc, FaultKind::WrongKind, path)),
    }
}

#[cycle(walk)]
fn check_elements<'a>(
    alloc: Global,
    rule: Rule,
    path: &'a Path<'a>,
    elements: &'a Vec<Value>,
) -> Result<(), PointedStop>
    ensures { Finds result
        (elements_fault rule (pointer_of path.now) 0 (items_view elements.now.items)) }
{
    for (index, element) in elements.iter().enumerate() {
        check(alloc, rule, &Path::Element(path, index), element)?;
    }
    Ok(())
}

#[cycle(walk)]
fn check_members<'a>(
    alloc: Global,
    rule: Rule,
    path: &'a Path<'a>,
    members: &'a Map<String, Value>,
) -> Result<(), PointedStop>
    ensures { Finds result
        (members_fault rule (pointer_of path.now) (members_view members.now.entries)) }
{
    for (name, member) in members.iter() {
        let here = Path::Member(path, name.as_str());
        match member_rule(rule, name.as_str()) {
            Ok(inner) => check(alloc, inner, &here, member)?,
            Err(kind) => return Err(told(alloc, kind, &here)),
        }
    }
    Ok(())
}

fn check_text<'a>(
    alloc: Global,
    rule: Rule,
    path: &'a Path<'a>,
    text: &str,
) -> Result<(), PointedStop>
    ensures { Finds result (text_fault rule (pointer_of path.now) text.now) }
{
    match rule {
        Rule::AnyText => Ok(()),
        Rule::FilledText => {
            if text.is_empty() {
                return Err(told(alloc, FaultKind::WrongKind, path));
            }
            Ok(())
        }
        Rule::Word(words) => {
            if is_word_of(words, text) {
                return Ok(());
            }
            Err(told(alloc, FaultKind::BadMode, path))
        }
        _ => Err(told(alloc, FaultKind::WrongKind, path)),
    }
}

fn check_before<'a>(
    alloc: Global,
    rule: Rule,
    path: &'a Path<'a>,
    members: &'a Map<String, Value>,
) -> Result<(), PointedStop>
    ensures { Finds result
        (before_fault rule (pointer_of path.now) (members_view members.now.entries)) }
{
    match rule {
        Rule::Object(part) => {
            check_listed(alloc, members_of(part), path, members)?;
            check_present(alloc, members_of(part), path, members)
        }
        Rule::Components(_) => Ok(()),
        Rule::Component(_) => Ok(()),
        _ => Err(told(alloc, FaultKind::WrongKind, path)),
    }
}

fn check_listed<'a>(
    alloc: Global,
    listed: &[Member],
    path: &'a Path<'a>,
    members: &'a Map<String, Value>,
) -> Result<(), PointedStop>
    ensures { Finds result (unknown_fault (rows_in listed.now) (pointer_of path.now)
        (members_view members.now.entries)) }
{
    for (name, _) in members.iter() {
        if find_rule(listed, name.as_str()).is_none() {
            return Err(told_at(alloc, FaultKind::UnknownKey, path, name.as_str()));
        }
    }
    Ok(())
}

fn check_present<'a>(
    alloc: Global,
    listed: &[Member],
    path: &'a Path<'a>,
    members: &'a Map<String, Value>,
) -> Result<(), PointedStop>
    ensures { Finds result (absent_fault (rows_in listed.now) (pointer_of path.now)
        (members_view members.now.entries)) }
{
    for row in listed {
        if row.1 && !has_member(members, row.0) {
            return Err(told_at(alloc, FaultKind::MissingKey, path, row.0));
        }
    }
    Ok(())
}

fn check_after<'a>(
    alloc: Global,
    rule: Rule,
    path: &'a Path<'a>,
    members: &'a Map<String, Value>,
) -> Result<(), PointedStop>
    ensures { Finds result
        (after_fault rule (pointer_of path.now) (members_view members.now.entries)) }
{
    if let Rule::Component(_) = rule {
        return check_alone(alloc, path, members);
    }
    Ok(())
}

fn check_alone<'a>(
    alloc: Global,
    path: &'a Path<'a>,
    members: &'a Map<String, Value>,
) -> Result<(), PointedStop>
    ensures { Finds result (count_fault (pointer_of path.now) (members_view members.now.entries)) }
{
    let mut left = members.iter();
    if left.next().is_none() {
        return Err(told_at(alloc, FaultKind::MissingKey, path, "otlpjsonfile"));
    }
    match left.next() {
        Some((second, _)) => Err(told_at(alloc, FaultKind::UnknownKey, path, second.as_str())),
        None => Ok(()),
    }
}

fn has_member(members: &Map<String, Value>, name: &str) -> bool
    ensures { result ≡ is_some (get_member name.now (members_view members.now.entries)) }
{
    members.contains_key(name)
}
