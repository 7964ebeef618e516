//! Statements from their texts, on a resource with the attributes `msg`, `n` and `d` and one log
//! record.

use crate::{Cache, Outcome, run_statement};
use func_text::RegexMaker;
use item_list::ItemList;
use ottl_lex::MAX_TEXT;
use ottl_parse::{Statement, parse_statement};
use ottl_plan::{PlannedStatement, plan_statement};
use pdata_tree::{
    Batch, Context, LogRecord, Place, PlainScene, ResourceNode, ResourceTree, ScopeNode, ScopeTree,
};
use pdata_value::{Pairs, Spelling, Text, Value};
use std::alloc::{AllocError, Global};
use std::test::Fail;

const FIRST: Place = Place {
    resource: 0,
    scope: 0,
    log: 0,
};

fn log(alloc: Global) -> Result<LogRecord, AllocError> {
    Ok(LogRecord {
        time: 0,
        observed: 0,
        severity: 0,
        severity_text: Text::new(alloc),
        body: Value::Text(Text::from_str(alloc, "hi")?),
        attributes: Pairs::new(alloc),
        dropped: 0,
        flags: 0,
        trace_id: [0; 16],
        span_id: [0; 8],
    })
}

fn scope(alloc: Global) -> Result<ScopeTree, AllocError> {
    let node = ScopeNode {
        name: Text::new(alloc),
        version: Text::new(alloc),
        attributes: Pairs::new(alloc),
        dropped: 0,
        schema_url: Text::new(alloc),
    };
    let mut logs = ItemList::new(alloc);
    logs.push(log(alloc)?)?;
    Ok(ScopeTree { node, logs })
}

fn tree(alloc: Global) -> Result<Batch, Fail> {
    let mut attributes = Pairs::new(alloc);
    attributes.put("msg", Value::Text(Text::from_str(alloc, "id=7 token=abc")?))?;
    attributes.put("n", Value::Int(5))?;
    attributes.put("d", Value::Double(Spelling::read(alloc, "1.5")?))?;
    let node = ResourceNode {
        attributes,
        dropped: 0,
        schema_url: Text::new(alloc),
    };
    let mut scopes = ItemList::new(alloc);
    scopes.push(scope(alloc)?)?;
    let mut resources = ItemList::new(alloc);
    resources.push(ResourceTree { node, scopes })?;
    Ok(Batch { resources })
}

fn parsed(alloc: Global, text: &str) -> Result<Statement, Fail> {
    if MAX_TEXT < text.len() {
        return Err(Fail::from("too long"));
    }
    match parse_statement(alloc, text) {
        Ok(statement) => Ok(statement),
        Err(_) => Err(Fail::from("not parsed")),
    }
}

fn planned(alloc: Global, text: &str, context: Context) -> Result<PlannedStatement, Fail> {
    let statement = parsed(alloc, text)?;
    match plan_statement(alloc, &mut RegexMaker::new(), &statement, context) {
        Ok(planned) => Ok(planned),
        Err(_) => Err(Fail::from("not planned")),
    }
}

fn note_value(alloc: Global, value: &Value) -> Result<String, AllocError> {
    match value {
        Value::Text(text) => String::from_str(alloc, text.as_str()),
        Value::Int(int) => Ok(format!(in alloc; "{}", *int)?),
        Value::Double(spelling) => String::from_str(alloc, spelling.as_str()),
        _ => String::from_str(alloc, "?"),
    }
}

// The attributes of the first resource, each key before its value.
fn note_tree(alloc: Global, tree: &Batch) -> Result<String, AllocError> {
    let mut note = String::new(alloc);
    if let Some(resource) = tree.resources.at(0) {
        for pair in resource.node.attributes.as_slice() {
            note.push_str(" ")?;
            note.push_str(pair.0.as_str())?;
            note.push_str("=")?;
            note.push_str(note_value(alloc, &pair.1)?.as_str())?;
        }
    }
    Ok(note)
}

fn note_outcome(alloc: Global, outcome: Outcome) -> Result<String, AllocError> {
    match outcome {
        Outcome::Done => String::from_str(alloc, "Done"),
        Outcome::Skipped => String::from_str(alloc, "Skipped"),
        Outcome::Err(error) => Ok(format!(in alloc; "{}", error)?),
        Outcome::NoMemory => Err(AllocError),
    }
}

// The outcome of a statement, and the attributes that it leaves.
fn run(alloc: Global, text: &str) -> Result<String, Fail> {
    let statement = planned(alloc, text, Context::Resource)?;
    let mut tree = tree(alloc)?;
    let mut cache = Cache::new(alloc);
    let mut scene = PlainScene::new(&mut tree, Context::Resource, FIRST);
    let outcome = run_statement(alloc, &mut scene, &mut cache, &statement);
    let mut note = note_outcome(alloc, outcome)?;
    note.push_str(note_tree(alloc, &tree)?.as_str())?;
    Ok(note)
}

// The outcome of a statement on the log record.
fn run_on_log(alloc: Global, text: &str) -> Result<String, Fail> {
    let statement = planned(alloc, text, Context::Log)?;
    let mut tree = tree(alloc)?;
    let mut cache = Cache::new(alloc);
    let mut scene = PlainScene::new(&mut tree, Context::Log, FIRST);
    let outcome = run_statement(alloc, &mut scene, &mut cache, &statement);
    Ok(note_outcome(alloc, outcome)?)
}

#[test]
fn paths_of_a_record_are_written(rt: HostRuntime) -> Result<(), Fail> {
    for (text, want) in [
        ("set(severity_number, 1 / 0)", "DivideByZero"),
        ("set(flags, 4294967296)", "Range"),
        ("set(body[\"k\"], 1)", "KindOf"),
        ("set(cache[\"k\"], 1)", "Done"),
        ("set(attributes[\"l\"][0], 1)", "KindOf"),
        ("set(body, nil)", "Done"),
        (
            "set(body, \"x\") where IsMatch(body, \"^h\") and flags == 0",
            "Done",
        ),
        (
            "set(body, \"x\") where not IsMatch(body, \"^h\")",
            "Skipped",
        ),
        (
            "set(severity_text, \"X\") where resource.attributes[\"d\"] > 1",
            "Double",
        ),
        (
            "set(severity_text, \"X\") where attributes[\"d\"] == nil",
            "Done",
        ),
    ] {
        assert_eq!(rt; run_on_log(rt.alloc(), text)?.as_str(), want, "{text}");
    }
    Ok(())
}

// What a converter's value leaves under `n`, with the attributes around it.
fn set_to(alloc: Global, value: &str) -> Result<String, Fail> {
    let text = format!(in alloc; "set(attributes[\"n\"], {})", value)?;
    run(alloc, text.as_str())
}

#[test]
fn values_are_converted(rt: HostRuntime) -> Result<(), Fail> {
    let alloc = rt.alloc();
    for (value, want) in [
        (
            "SHA256(\"abc\")",
            "ba7816bf8f01cfea414140de5dae2223b00361a396177a9cb410ff61f20015ad",
        ),
        ("Hex(\"abc\")", "616263"),
        ("Decode(\"aGk=\", \"base64\")", "hi"),
        ("Substring(\"abc\", 1, 2)", "bc"),
        ("Len(ParseJSON(\"[1,2.0]\"))", "2"),
        ("Concat([\"a\", 1, true], \"-\")", "a-1-true"),
        ("FormatTime(0, \"%Y-%m-%d\")", "1970-01-01"),
    ] {
        let want = format!(in alloc; "Done msg=id=7 token=abc n={} d=1.5", want)?;
        assert_eq!(rt; set_to(alloc, value)?.as_str(), want.as_str(), "{value}");
    }
    Ok(())
}

#[test]
fn groups_of_a_pattern_are_merged_in(rt: HostRuntime) -> Result<(), Fail> {
    let text =
        "merge_maps(attributes, ExtractPatterns(\"k=v\", \"(?P<l>.)=(?P<n>.)\"), \"upsert\")";
    let note = run(rt.alloc(), text)?;
    assert_eq!(rt; note.as_str(), "Done msg=id=7 token=abc n=v d=1.5 l=k");
    let note = run(
        rt.alloc(),
        "set(attributes[\"n\"], Substring(\"abc\", 2, 2))",
    )?;
    assert_eq!(rt; note.as_str(), "Range msg=id=7 token=abc n=5 d=1.5");
    Ok(())
}

#[test]
fn texts_are_redacted(rt: HostRuntime) -> Result<(), Fail> {
    let alloc = rt.alloc();
    for (text, want) in [
        (
            "replace_pattern(attributes[\"msg\"], \"token=[a-z]+\", \"token=***\")",
            "Done msg=id=7 token=*** n=5 d=1.5",
        ),
        (
            "replace_all_patterns(attributes, \"value\", \"[0-9]\", \"#\")",
            "Done msg=id=# token=abc n=5 d=1.5",
        ),
        (
            "replace_pattern(attributes[\"n\"], \"5\", \"6\")",
            "Done msg=id=7 token=abc n=5 d=1.5",
        ),
    ] {
        assert_eq!(rt; run(alloc, text)?.as_str(), want, "{text}");
    }
    Ok(())
}

#[test]
fn keys_are_replaced_and_dropped(rt: HostRuntime) -> Result<(), Fail> {
    let alloc = rt.alloc();
    for (text, want) in [
        (
            "replace_all_patterns(attributes, \"key\", \"^(n|d)$\", \"x\")",
            "Done msg=id=7 token=abc x=1.5",
        ),
        ("delete_matching_keys(attributes, \"s\")", "Done n=5 d=1.5"),
        ("keep_keys(attributes, [\"n\"])", "Done n=5"),
        (
            "delete_key(attributes, \"msg\") where attributes[\"n\"] == 5",
            "Done n=5 d=1.5",
        ),
    ] {
        assert_eq!(rt; run(alloc, text)?.as_str(), want, "{text}");
    }
    Ok(())
}

#[test]
fn what_errs_or_does_not_hold_changes_nothing(rt: HostRuntime) -> Result<(), Fail> {
    let alloc = rt.alloc();
    let as_before = " msg=id=7 token=abc n=5 d=1.5";
    for (text, want) in [
        (
            "set(attributes[\"n\"], 6) where attributes[\"d\"] > 1",
            "Double",
        ),
        ("set(attributes[\"n\"], attributes[\"d\"] + 1)", "Double"),
        ("set(attributes[\"n\"], 1 / 0)", "DivideByZero"),
        (
            "set(attributes[\"n\"], 6) where attributes[\"n\"] > 5",
            "Skipped",
        ),
        ("set(attributes[\"n\"], nil)", "Done"),
        ("delete_key(attributes[\"n\"], \"k\")", "KindOf"),
    ] {
        let want = format!(in alloc; "{}{}", want, as_before)?;
        assert_eq!(rt; run(alloc, text)?.as_str(), want.as_str(), "{text}");
    }
    Ok(())
}
