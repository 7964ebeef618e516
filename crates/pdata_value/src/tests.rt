//! Each call on its happy path, and values at their limits.

use crate::{
    Bytes, EvalErr, EvalStop, Pairs, Spelling, SpellingStop, Strategy, Text, Value, Values, int_in,
    list_in, made, shown, string, text_in,
};
use std::alloc::{AllocError, Global};
use std::test::Fail;

mod keys;

// A map from keys to integers.
fn map_of(alloc: Global, entries: &[(&str, i64)]) -> Result<Pairs, AllocError> {
    let mut map = Pairs::new(alloc);
    for entry in entries {
        map.push(Text::from_str(alloc, entry.0)?, Value::Int(entry.1))?;
    }
    Ok(map)
}

fn holds(map: &Pairs, entries: &[(&str, i64)]) -> bool {
    for (i, entry) in entries.iter().enumerate() {
        match map.at(i) {
            Some((key, Value::Int(int))) if key == entry.0 && *int == entry.1 => {}
            _ => return false,
        }
    }
    map.len() == entries.len()
}

#[test]
fn texts_and_bytes_are_kept(rt: HostRuntime) -> Result<(), Fail> {
    let text = Text::from_str(rt.alloc(), "häß")?.copy()?;
    assert_eq!(rt; text.len(), 5);
    assert_eq!(rt; text.as_str(), "häß");
    let long = Text::from_str(rt.alloc(), "of more bytes than stand in the value")?.copy()?;
    assert_eq!(rt; long.as_str(), "of more bytes than stand in the value");
    assert_eq!(rt; Text::new(rt.alloc()).len(), 0);
    let bytes = Bytes::from_slice(rt.alloc(), &[255, 0])?.copy()?;
    assert_eq!(rt; bytes.len(), 2);
    assert_eq!(rt; bytes.as_slice(), [255, 0].as_slice());
    assert_eq!(rt; Bytes::from_vec(Vec::new(rt.alloc())).len(), 0);
    Ok(())
}

fn made_again(alloc: Global, spelling: &Spelling) -> Result<Spelling, AllocError> {
    let text = Text::from_str(alloc, spelling.as_str())?;
    Ok(Spelling::from_text(text))
}

#[test]
fn spellings_are_numerals_and_three_words(rt: HostRuntime) -> Result<(), Fail> {
    let good = [
        "0",
        "-0",
        "1e5",
        "10.250E-07",
        "9e+0",
        "NaN",
        "Infinity",
        "-Infinity",
    ];
    for text in good.iter() {
        let spelling = Spelling::read(rt.alloc(), text)?.copy()?;
        assert_eq!(rt; spelling.as_str(), *text);
        assert_eq!(rt; spelling.len(), text.len());
        assert_eq!(rt; made_again(rt.alloc(), &spelling)?.as_str(), *text);
    }
    let bad = [
        "", "-", "01", "1.", ".5", "+1", "1e", "1e+", "1.5.", "0x1", " 1", "1 ", "nan", "inf",
        "-NaN",
    ];
    for text in bad.iter() {
        let stop = Spelling::read(rt.alloc(), text).err();
        assert_eq!(rt; stop, Some(SpellingStop::NotDouble), "at {text}");
    }
    Ok(())
}

#[test]
fn the_first_pair_with_a_key_counts(rt: HostRuntime) -> Result<(), Fail> {
    let alloc = rt.alloc();
    let mut map = map_of(alloc, &[("", 1), ("a", 2), ("", 3)])?;
    assert!(rt; matches!(map.get(""), Some(Value::Int(1))));
    assert!(rt; map.get("b").is_none());
    map.put("", Value::Int(4))?;
    map.put("b", Value::Int(5))?;
    assert!(rt; holds(&map, &[("", 4), ("a", 2), ("", 3), ("b", 5)]));
    assert!(rt; map.remove(""));
    assert!(rt; !map.remove("c"));
    assert!(rt; holds(&map.copy()?, &[("a", 2), ("b", 5)]));
    let keys = [Text::from_str(alloc, "b")?, Text::from_str(alloc, "c")?];
    map.keep(&keys);
    assert!(rt; holds(&map, &[("b", 5)]));
    assert!(rt; matches!(map.replace("b", Value::Int(6)), Ok(Value::Int(5))));
    assert!(rt; matches!(map.replace("c", Value::Int(7)), Err(Value::Int(7))));
    assert!(rt; holds(&map, &[("b", 6)]));
    assert!(rt; map.fits());
    assert!(rt; map.take().is_some());
    assert_eq!(rt; map.as_slice().len(), 0);
    assert!(rt; map.take().is_none());
    Ok(())
}

#[test]
fn each_strategy_takes_its_pairs(rt: HostRuntime) -> Result<(), Fail> {
    let alloc = rt.alloc();
    let more = Pairs::from_list(map_of(alloc, &[("b", 7), ("c", 8), ("c", 9)])?.into_list());
    let mut inserted = map_of(alloc, &[("a", 1), ("b", 2), ("a", 3)])?;
    let mut updated = inserted.copy()?;
    let mut upserted = inserted.copy()?;
    inserted.merge(more.copy()?, Strategy::Insert)?;
    assert!(rt; holds(&inserted, &[("a", 1), ("b", 2), ("a", 3), ("c", 9)]));
    updated.merge(more.copy()?, Strategy::Update)?;
    assert!(rt; holds(&updated, &[("a", 1), ("b", 7), ("a", 3)]));
    upserted.merge(more, Strategy::Upsert)?;
    assert!(rt; holds(&upserted, &[("a", 1), ("b", 7), ("a", 3), ("c", 9)]));
    Ok(())
}

// A list of an integer, a map and values of the other kinds.
fn mixed(alloc: Global, spelling: &str, entries: &[(&str, i64)]) -> Result<Value, Fail> {
    let mut list = Values::new(alloc);
    list.push(Value::Int(-1))?;
    list.push(Value::Map(map_of(alloc, entries)?))?;
    list.push(Value::Double(Spelling::read(alloc, spelling)?))?;
    list.push(Value::Text(Text::from_str(alloc, "t")?))?;
    list.push(Value::Bytes(Bytes::from_slice(alloc, b"t")?))?;
    list.push(Value::Truth(true))?;
    list.push(Value::Empty)?;
    Ok(Value::List(list))
}

#[test]
fn values_are_compared_by_content(rt: HostRuntime) -> Result<(), Fail> {
    let alloc = rt.alloc();
    let value = mixed(alloc, "1e2", &[("a", 1), ("b", 2), ("a", 3)])?;
    assert!(rt; value.same(&value.copy()?));
    assert!(rt; value.same(&mixed(alloc, "1e2", &[("b", 2), ("a", 1)])?));
    assert!(rt; !value.same(&mixed(alloc, "100", &[("b", 2), ("a", 1)])?));
    assert!(rt; !value.same(&mixed(alloc, "1e2", &[("b", 2), ("a", 3)])?));
    assert!(rt; !value.same(&mixed(alloc, "1e2", &[("a", 1)])?));
    assert!(rt; !value.same(&mixed(alloc, "1e2", &[("a", 1), ("b", 2), ("", 0)])?));
    assert!(rt; !Value::Empty.same(&Value::Truth(false)));
    assert!(rt; value.has_double());
    assert!(rt; !Value::Map(map_of(alloc, &[("a", 1)])?).has_double());
    assert!(rt; map_of(alloc, &[("a", 1)])?.same(&map_of(alloc, &[("a", 1), ("a", 2)])?));
    Ok(())
}

#[test]
fn values_fit_up_to_their_limits(rt: HostRuntime) -> Result<(), Fail> {
    let alloc = rt.alloc();
    let mut value = Value::Empty;
    for _ in 1..64u8 {
        let mut list = Values::new(alloc);
        list.push(value)?;
        value = Value::List(Values::from_list(list.into_list()));
    }
    assert!(rt; value.fits());
    let mut list = Values::new(alloc);
    list.push(value)?;
    assert_eq!(rt; list.copy()?.len(), 1);
    assert!(rt; list.at(0).is_some_and(|deepest| deepest.fits()));
    assert_eq!(rt; list.as_slice().len(), 1);
    let mut other = list.copy()?;
    assert!(rt; !Value::List(list).fits());
    assert!(rt; matches!(other.replace(0, Value::Truth(true)), Value::List(_)));
    assert!(rt; Value::List(other).fits());
    for (count, fits) in [(16_777_213usize, true), (16_777_214, false)].iter() {
        let bytes = vec![in alloc; 0u8; *count]?;
        let mut map = Pairs::new(alloc);
        map.put("k", Value::Bytes(Bytes::from_vec(bytes)))?;
        assert_eq!(rt; Value::Map(map).fits(), *fits);
    }
    Ok(())
}

#[test]
fn errors_have_names(rt: HostRuntime) -> Result<(), Fail> {
    assert_eq!(rt;
        format!(in rt.alloc(); "{}", EvalErr::DivideByZero)?.as_str(),
        "DivideByZero"
    );
    assert_eq!(rt; EvalStop::from(AllocError), EvalStop::NoMemory);
    assert_ne!(rt;
        EvalStop::Err(EvalErr::Large),
        EvalStop::Err(EvalErr::Range)
    );
    Ok(())
}

// The text of a value, or why it has none.
fn text_or_name(alloc: Global, value: &Value) -> Result<String, Fail> {
    let text = match shown(alloc, value) {
        Ok(Some(text)) => String::from_str(alloc, text.as_str())?,
        Ok(None) => String::from_str(alloc, "no text")?,
        Err(EvalStop::Err(error)) => format!(in alloc; "{}", error)?,
        Err(EvalStop::NoMemory) => return Err(Fail::from("no memory")),
    };
    Ok(text)
}

#[test]
fn values_have_texts(rt: HostRuntime) -> Result<(), Fail> {
    let alloc = rt.alloc();
    let nil = text_or_name(alloc, &Value::Empty)?;
    assert_eq!(rt; nil.as_str(), "no text");
    let int = text_or_name(alloc, &Value::Int(-12))?;
    assert_eq!(rt; int.as_str(), "-12");
    let bytes = Value::Bytes(Bytes::from_slice(alloc, &[10, 255])?);
    let bytes = text_or_name(alloc, &bytes)?;
    assert_eq!(rt; bytes.as_str(), "0aff");
    let map = text_or_name(alloc, &Value::Map(Pairs::new(alloc)))?;
    assert_eq!(rt; map.as_str(), "KindOf");
    Ok(())
}

#[test]
fn arguments_of_a_kind_are_taken(rt: HostRuntime) -> Result<(), Fail> {
    let truth = string(rt.alloc(), &Value::Truth(true))?;
    let truth = made(truth)?;
    assert_eq!(rt; text_in(&truth)?.as_str(), "true");
    assert_eq!(rt; int_in(&Value::Int(3))?, 3);
    assert_eq!(rt; int_in(&truth), Err(EvalStop::Err(EvalErr::KindOf)));
    let list = Value::List(Values::new(rt.alloc()));
    assert_eq!(rt; list_in(&list)?.len(), 0);
    Ok(())
}
