//! Each field in each context, and the steps below fields.

use crate::{
    Batch, Context, Field, Key, Keys, LogRecord, PathTo, Place, PlainScene, ResourceNode,
    ResourceTree, Scene, ScopeNode, ScopeTree, Seen,
};
use item_list::ItemList;
use pdata_value::{Bytes, EvalErr, EvalStop, Pairs, Spelling, Text, Value, Values};
use std::alloc::{AllocError, Global};
use std::test::Fail;

const FIRST: Place = Place {
    resource: 0,
    scope: 0,
    log: 0,
};

const FIELDS: [Field; 19] = [
    Field::Attributes,
    Field::DroppedAttributesCount,
    Field::Name,
    Field::Version,
    Field::ResourceAttributes,
    Field::ResourceDroppedAttributesCount,
    Field::InstrumentationScopeAttributes,
    Field::InstrumentationScopeName,
    Field::InstrumentationScopeVersion,
    Field::Body,
    Field::BodyString,
    Field::SeverityNumber,
    Field::SeverityText,
    Field::Time,
    Field::ObservedTime,
    Field::Flags,
    Field::TraceIdString,
    Field::SpanIdString,
    Field::Cache,
];

// A tree of one resource, one scope and one log record, with nothing in them.
fn one_record(alloc: Global) -> Result<Batch, AllocError> {
    let mut logs = ItemList::new(alloc);
    logs.push(LogRecord {
        time: 0,
        observed: 0,
        severity: 0,
        severity_text: Text::new(alloc),
        body: Value::Empty,
        attributes: Pairs::new(alloc),
        dropped: 0,
        flags: 0,
        trace_id: [0; 16],
        span_id: [0; 8],
    })?;
    let node = ScopeNode {
        name: Text::new(alloc),
        version: Text::new(alloc),
        attributes: Pairs::new(alloc),
        dropped: 0,
        schema_url: Text::new(alloc),
    };
    let mut scopes = ItemList::new(alloc);
    scopes.push(ScopeTree { node, logs })?;
    let node = ResourceNode {
        attributes: Pairs::new(alloc),
        dropped: 0,
        schema_url: Text::new(alloc),
    };
    let mut resources = ItemList::new(alloc);
    resources.push(ResourceTree { node, scopes })?;
    Ok(Batch { resources })
}

// A field and keys, of which one that begins with `#` is an index.
fn path(alloc: Global, field: Field, keys: &[&str]) -> Result<PathTo, AllocError> {
    let mut list: Keys = ItemList::new(alloc);
    for key in keys {
        let index = match key.as_bytes() {
            [b'#', digit] => Some((*digit).wrapping_sub(b'0')),
            _ => None,
        };
        list.push(match index {
            Some(index) => Key::Index(index as u64),
            None => Key::Name(Text::from_str(alloc, key)?),
        })?;
    }
    Ok(PathTo { field, keys: list })
}

fn text(alloc: Global, text: &str) -> Result<Value, AllocError> {
    Ok(Value::Text(Text::from_str(alloc, text)?))
}

// A letter for the kind of a value or for an error.
fn letter(read: Result<Value, EvalStop>) -> char {
    match read {
        Ok(Value::Empty) => 'n',
        Ok(Value::Text(_)) => 't',
        Ok(Value::Truth(_)) => 'b',
        Ok(Value::Int(_)) => 'i',
        Ok(Value::Double(_)) => 'd',
        Ok(Value::Bytes(_)) => 'x',
        Ok(Value::List(_)) => 'l',
        Ok(Value::Map(_)) => 'm',
        Err(EvalStop::Err(error)) => error_letter(error),
        Err(EvalStop::NoMemory) => '!',
    }
}

fn error_letter(error: EvalErr) -> char {
    match error {
        EvalErr::KindOf => 'K',
        EvalErr::Range => 'R',
        EvalErr::BadText => 'T',
        EvalErr::Large => 'L',
        EvalErr::Double => 'D',
        _ => '?',
    }
}

// What a path reads in a context.
fn read_in(batch: &mut Batch, context: Context, path: &PathTo) -> char {
    letter(PlainScene::new(batch, context, FIRST).read(path))
}

// What a write in a context answers: `.` where it is done.
fn write_in(batch: &mut Batch, context: Context, path: &PathTo, value: Value) -> char {
    match PlainScene::new(batch, context, FIRST).write(path, value) {
        Ok(()) => '.',
        Err(stop) => letter(Err(stop)),
    }
}

fn read_field(alloc: Global, context: Context, field: Field) -> Result<char, AllocError> {
    let path = path(alloc, field, &[])?;
    Ok(read_in(&mut one_record(alloc)?, context, &path))
}

fn write_field(
    alloc: Global,
    context: Context,
    field: Field,
    value: Value,
) -> Result<char, AllocError> {
    let path = path(alloc, field, &[])?;
    Ok(write_in(&mut one_record(alloc)?, context, &path, value))
}

// What each field reads in a context.
fn all_read(alloc: Global, context: Context) -> Result<String, AllocError> {
    let mut found = String::new(alloc);
    for field in FIELDS.iter() {
        found.push(read_field(alloc, context, *field)?)?;
    }
    Ok(found)
}

#[test]
fn each_field_is_read_in_its_contexts(rt: HostRuntime) -> Result<(), Fail> {
    let of_resource = all_read(rt.alloc(), Context::Resource)?;
    assert_eq!(rt; of_resource.as_str(), "miKKKKKKKKKKKKKKKKK");
    let of_scope = all_read(rt.alloc(), Context::Scope)?;
    assert_eq!(rt; of_scope.as_str(), "mittmiKKKKKKKKKKKKK");
    let of_log = all_read(rt.alloc(), Context::Log)?;
    assert_eq!(rt; of_log.as_str(), "miKKmimttnnitiiittK");
    Ok(())
}

// A value of another kind than a field takes.
fn other(alloc: Global, field: Field) -> Value {
    match field {
        Field::Attributes | Field::ResourceAttributes | Field::InstrumentationScopeAttributes => {
            Value::Empty
        }
        Field::Name | Field::Version | Field::SeverityText | Field::BodyString => Value::Int(1),
        Field::InstrumentationScopeName | Field::InstrumentationScopeVersion => Value::Int(1),
        Field::TraceIdString | Field::SpanIdString => Value::Int(1),
        Field::Body => Value::Map(Pairs::new(alloc)),
        _ => Value::Truth(true),
    }
}

// A value that a field takes.
fn fitting(alloc: Global, field: Field) -> Result<Value, AllocError> {
    match field {
        Field::Attributes | Field::ResourceAttributes | Field::InstrumentationScopeAttributes => {
            Ok(Value::Map(Pairs::new(alloc)))
        }
        Field::DroppedAttributesCount | Field::ResourceDroppedAttributesCount => Ok(Value::Int(7)),
        Field::SeverityNumber | Field::Time | Field::ObservedTime | Field::Flags => {
            Ok(Value::Int(7))
        }
        Field::TraceIdString => text(alloc, "5B8EFFF798038103D269B633813FC60C"),
        Field::SpanIdString => text(alloc, "eee19b7ec3c1b174"),
        _ => text(alloc, "t"),
    }
}

// What writes of the other and of the fitting value to each field answer.
fn all_written(alloc: Global, context: Context) -> Result<String, AllocError> {
    let mut found = String::new(alloc);
    for field in FIELDS.iter() {
        found.push(write_field(alloc, context, *field, other(alloc, *field))?)?;
        found.push(write_field(alloc, context, *field, fitting(alloc, *field)?)?)?;
    }
    Ok(found)
}

#[test]
fn each_field_is_written_in_its_contexts(rt: HostRuntime) -> Result<(), Fail> {
    let of_resource = all_written(rt.alloc(), Context::Resource)?;
    assert_eq!(rt;
        of_resource.as_str(),
        "K.K.KKKKKKKKKKKKKKKKKKKKKKKKKKKKKKKKKK"
    );
    let of_scope = all_written(rt.alloc(), Context::Scope)?;
    assert_eq!(rt; of_scope.as_str(), "K.K.K.K.K.K.KKKKKKKKKKKKKKKKKKKKKKKKKK");
    let of_log = all_written(rt.alloc(), Context::Log)?;
    assert_eq!(rt; of_log.as_str(), "K.K.KKKKK.K.K.K.K...K.K.K.K.K.K.K.K.KK");
    Ok(())
}

// A record with a map in an attribute and a list in its body.
fn with_children(alloc: Global) -> Result<Batch, AllocError> {
    let mut batch = one_record(alloc)?;
    let inner = path(alloc, Field::Attributes, &["a", "b"])?;
    write_in(&mut batch, Context::Log, &inner, Value::Int(1));
    let mut list = Values::new(alloc);
    list.push(text(alloc, "x")?)?;
    let in_body = path(alloc, Field::Body, &["l"])?;
    write_in(&mut batch, Context::Log, &in_body, Value::List(list));
    Ok(batch)
}

// What keys below a field of that record read.
fn read_keys(alloc: Global, field: Field, keys: &[&str]) -> Result<char, AllocError> {
    let path = path(alloc, field, keys)?;
    Ok(read_in(&mut with_children(alloc)?, Context::Log, &path))
}

// What a write to keys below a field of that record answers, and what they read then.
fn write_keys(alloc: Global, field: Field, keys: &[&str]) -> Result<(char, char), AllocError> {
    let path = path(alloc, field, keys)?;
    let mut batch = with_children(alloc)?;
    let answer = write_in(&mut batch, Context::Log, &path, Value::Truth(true));
    Ok((answer, read_in(&mut batch, Context::Log, &path)))
}

#[test]
fn names_lead_into_maps(rt: HostRuntime) -> Result<(), Fail> {
    let alloc = rt.alloc();
    assert_eq!(rt; read_keys(alloc, Field::Attributes, &["a"])?, 'm');
    assert_eq!(rt; read_keys(alloc, Field::Attributes, &["a", "b"])?, 'i');
    assert_eq!(rt; read_keys(alloc, Field::Attributes, &["a", "x"])?, 'n');
    assert_eq!(rt;
        read_keys(alloc, Field::Attributes, &["x", "y", "#3"])?,
        'n'
    );
    assert_eq!(rt; read_keys(alloc, Field::Attributes, &["a", "b", "c"])?, 'K');
    Ok(())
}

#[test]
fn numbers_lead_into_lists(rt: HostRuntime) -> Result<(), Fail> {
    let alloc = rt.alloc();
    assert_eq!(rt; read_keys(alloc, Field::Body, &["l", "#0"])?, 't');
    assert_eq!(rt; read_keys(alloc, Field::Body, &["l", "#1"])?, 'R');
    assert_eq!(rt; read_keys(alloc, Field::Body, &["l", "k"])?, 'K');
    assert_eq!(rt; read_keys(alloc, Field::Attributes, &["#0"])?, 'K');
    assert_eq!(rt; read_keys(alloc, Field::Flags, &["k"])?, 'K');
    Ok(())
}

// How what keys below a field of that record lead to is seen: `v` and `t` where a value or a text
// is lent, `m` where one is made.
fn look_keys(alloc: Global, field: Field, keys: &[&str]) -> Result<char, AllocError> {
    let path = path(alloc, field, keys)?;
    let mut batch = with_children(alloc)?;
    let scene = PlainScene::new(&mut batch, Context::Log, FIRST);
    Ok(match scene.look(&path) {
        Ok(Seen::Lent(_)) => 'v',
        Ok(Seen::Text(_)) => 't',
        Ok(Seen::Made(_)) => 'm',
        Err(stop) => letter(Err(stop)),
    })
}

#[test]
fn what_is_held_is_lent(rt: HostRuntime) -> Result<(), Fail> {
    let alloc = rt.alloc();
    assert_eq!(rt; look_keys(alloc, Field::Attributes, &["a", "b"])?, 'v');
    assert_eq!(rt; look_keys(alloc, Field::Attributes, &["a", "x"])?, 'm');
    assert_eq!(rt; look_keys(alloc, Field::Body, &["l", "#0"])?, 'v');
    assert_eq!(rt; look_keys(alloc, Field::Body, &["l", "#1"])?, 'R');
    assert_eq!(rt; look_keys(alloc, Field::SeverityText, &[])?, 't');
    assert_eq!(rt;
        look_keys(alloc, Field::InstrumentationScopeName, &[])?,
        't'
    );
    assert_eq!(rt; look_keys(alloc, Field::SeverityNumber, &[])?, 'm');
    assert_eq!(rt; look_keys(alloc, Field::Name, &[])?, 'K');
    Ok(())
}

#[test]
fn values_are_put_under_keys(rt: HostRuntime) -> Result<(), Fail> {
    let alloc = rt.alloc();
    assert_eq!(rt;
        write_keys(alloc, Field::Attributes, &["a", "c"])?,
        ('.', 'b')
    );
    assert_eq!(rt;
        write_keys(alloc, Field::Attributes, &["x", "y"])?,
        ('.', 'b')
    );
    assert_eq!(rt;
        write_keys(alloc, Field::Attributes, &["a", "b", "c"])?,
        ('K', 'K')
    );
    assert_eq!(rt;
        write_keys(alloc, Field::Attributes, &["x", "#0"])?,
        ('K', 'n')
    );
    Ok(())
}

#[test]
fn elements_of_lists_are_replaced(rt: HostRuntime) -> Result<(), Fail> {
    let alloc = rt.alloc();
    assert_eq!(rt; write_keys(alloc, Field::Body, &["l", "#0"])?, ('.', 'b'));
    assert_eq!(rt; write_keys(alloc, Field::Body, &["l", "#1"])?, ('R', 'R'));
    assert_eq!(rt; write_keys(alloc, Field::Body, &["#0"])?, ('K', 'K'));
    assert_eq!(rt; write_keys(alloc, Field::SeverityText, &["k"])?, ('K', 'K'));
    Ok(())
}

#[test]
fn numbers_are_taken_in_their_ranges(rt: HostRuntime) -> Result<(), Fail> {
    let numbers = [
        (Field::Flags, 4_294_967_295, '.'),
        (Field::Flags, 4_294_967_296, 'R'),
        (Field::Flags, -1, 'R'),
        (Field::SeverityNumber, -2_147_483_648, '.'),
        (Field::SeverityNumber, -2_147_483_649, 'R'),
        (Field::SeverityNumber, 2_147_483_647, '.'),
        (Field::SeverityNumber, 2_147_483_648, 'R'),
        (Field::Time, i64::MAX, '.'),
        (Field::Time, -1, 'R'),
    ];
    for (field, number, want) in numbers.iter() {
        let answer = write_field(rt.alloc(), Context::Log, *field, Value::Int(*number))?;
        assert_eq!(rt; answer, *want, "at {number}");
    }
    Ok(())
}

fn write_span_id(alloc: Global, id: &str) -> Result<char, AllocError> {
    write_field(alloc, Context::Log, Field::SpanIdString, text(alloc, id)?)
}

#[test]
fn ids_are_taken_in_their_length(rt: HostRuntime) -> Result<(), Fail> {
    let ids = [
        ("", '.'),
        ("eee19b7ec3c1b17", 'T'),
        ("eee19b7ec3c1b17g", 'T'),
        ("eee19b7ec3c1b1740", 'T'),
        ("EEE19B7EC3C1B174", '.'),
    ];
    for (id, want) in ids.iter() {
        assert_eq!(rt; write_span_id(rt.alloc(), id)?, *want, "at {id}");
    }
    Ok(())
}

// What `body.string` reads of a body.
fn text_letter(alloc: Global, body: Value) -> Result<char, AllocError> {
    let mut batch = one_record(alloc)?;
    write_in(
        &mut batch,
        Context::Log,
        &path(alloc, Field::Body, &[])?,
        body,
    );
    let path = path(alloc, Field::BodyString, &[])?;
    Ok(read_in(&mut batch, Context::Log, &path))
}

#[test]
fn a_body_is_read_as_a_text(rt: HostRuntime) -> Result<(), Fail> {
    let alloc = rt.alloc();
    assert_eq!(rt; text_letter(alloc, Value::Empty)?, 'n');
    assert_eq!(rt; text_letter(alloc, Value::Int(-5))?, 't');
    let double = Value::Double(Spelling::read(alloc, "1.5")?);
    assert_eq!(rt; text_letter(alloc, double)?, 'D');
    assert_eq!(rt; text_letter(alloc, Value::Map(Pairs::new(alloc)))?, 'K');
    Ok(())
}

// Lists in one another, so many.
fn nested(alloc: Global, levels: u32) -> Result<Value, AllocError> {
    let mut value = Value::Empty;
    for _ in 1..levels {
        let mut list = Values::new(alloc);
        list.push(value)?;
        value = Value::List(list);
    }
    Ok(value)
}

// What a write of a value under a key of the attributes answers, and what stands there then.
fn write_under_key(alloc: Global, value: Value) -> Result<(char, char), AllocError> {
    let mut batch = one_record(alloc)?;
    let path = path(alloc, Field::Attributes, &["k"])?;
    let answer = write_in(&mut batch, Context::Log, &path, value);
    Ok((answer, read_in(&mut batch, Context::Log, &path)))
}

#[test]
fn a_field_that_would_not_fit_stays(rt: HostRuntime) -> Result<(), Fail> {
    let alloc = rt.alloc();
    let body = write_field(alloc, Context::Log, Field::Body, nested(alloc, 65)?)?;
    assert_eq!(rt; body, 'L');
    let body = write_field(alloc, Context::Log, Field::Body, nested(alloc, 64)?)?;
    assert_eq!(rt; body, '.');
    assert_eq!(rt; write_under_key(alloc, nested(alloc, 64)?)?, ('L', 'n'));
    assert_eq!(rt; write_under_key(alloc, nested(alloc, 63)?)?, ('.', 'l'));
    Ok(())
}

fn write_heavy(alloc: Global, count: usize) -> Result<(char, char), AllocError> {
    let bytes = Bytes::from_vec(vec![in alloc; 0u8; count]?);
    write_under_key(alloc, Value::Bytes(bytes))
}

#[test]
fn a_field_that_would_be_too_heavy_stays(rt: HostRuntime) -> Result<(), Fail> {
    assert_eq!(rt; write_heavy(rt.alloc(), 16_777_214)?, ('L', 'n'));
    assert_eq!(rt; write_heavy(rt.alloc(), 16_777_213)?, ('.', 'x'));
    Ok(())
}

// The attributes with a key that stands twice, once its value was written.
fn twice_written(alloc: Global) -> Result<Batch, AllocError> {
    let mut twice = Pairs::new(alloc);
    twice.push(Text::from_str(alloc, "k")?, Value::Int(1))?;
    twice.push(Text::from_str(alloc, "k")?, Value::Int(2))?;
    let mut batch = one_record(alloc)?;
    let field = path(alloc, Field::Attributes, &[])?;
    write_in(&mut batch, Context::Log, &field, Value::Map(twice));
    let key = path(alloc, Field::Attributes, &["k"])?;
    write_in(&mut batch, Context::Log, &key, Value::Truth(true));
    Ok(batch)
}

fn first_log(batch: &Batch) -> Option<&LogRecord> {
    batch.resources.at(0)?.scopes.at(0)?.logs.at(0)
}

#[test]
fn of_a_repeated_key_the_first_pair_is_written(rt: HostRuntime) -> Result<(), Fail> {
    let batch = twice_written(rt.alloc())?;
    let Some(log) = first_log(&batch) else {
        return Err(Fail::from("no record"));
    };
    assert_eq!(rt; log.attributes.len(), 2);
    assert!(rt; matches!(log.attributes.at(0), Some((_, Value::Truth(true)))));
    assert!(rt; matches!(log.attributes.at(1), Some((_, Value::Int(2)))));
    Ok(())
}
