//! Maps of many keys, against what one call a pair gives.

use crate::{Pairs, Strategy, Text, Value, string, text_in};
use std::alloc::Global;
use std::test::Fail;

// The key of a number.
fn key_of(alloc: Global, number: u32) -> Result<Text, Fail> {
    let value = string(alloc, &Value::Int(i64::from(number)))?;
    Ok(text_in(&value)?.copy()?)
}

// Six hundred pairs whose keys go round three hundred numbers by a step; the values of the second
// round are other ones.
fn rounds(alloc: Global, step: u32) -> Result<Pairs, Fail> {
    let mut map = Pairs::new(alloc);
    for i in 0..600u32 {
        let number = i.wrapping_mul(step) % 300;
        let value = if i < 300 { number } else { i };
        map.push(key_of(alloc, number)?, Value::Int(i64::from(value)))?;
    }
    Ok(map)
}

// The same pairs in the same order.
fn equal(map: &Pairs, other: &Pairs) -> bool {
    for (pair, wanted) in map.as_slice().iter().zip(other.as_slice()) {
        if pair.0.as_str() != wanted.0.as_str() || !pair.1.same(&wanted.1) {
            return false;
        }
    }
    map.len() == other.len()
}

// Whether the map of a round is the same as that of another, with a pair more or a value changed.
fn compared(alloc: Global, more: &str, changed: &str) -> Result<(bool, bool), Fail> {
    let map = rounds(alloc, 7)?;
    let mut other = rounds(alloc, 11)?;
    if !more.is_empty() {
        other.push(Text::from_str(alloc, more)?, Value::Empty)?;
    }
    drop(other.replace(changed, Value::Empty));
    Ok((map.same(&other), other.same(&map)))
}

#[test]
fn many_keys_are_compared(rt: HostRuntime) -> Result<(), Fail> {
    let cases = [
        ("", "", true),
        ("", "0", false),
        ("", "299", false),
        ("299", "", true),
        ("300", "", false),
    ];
    for (more, changed, same) in cases.iter() {
        let found = compared(rt.alloc(), more, changed)?;
        assert_eq!(rt;
            found,
            (*same, *same),
            "with {more} more and {changed} changed"
        );
    }
    Ok(())
}

// What is kept of a round, and what is wanted of it.
fn kept(alloc: Global) -> Result<(Pairs, Pairs), Fail> {
    let mut map = rounds(alloc, 7)?;
    let mut wanted = map.copy()?;
    let mut keys = Vec::new(alloc);
    for i in 0..300u32 {
        let key = key_of(alloc, i)?;
        if i % 2 == 0 || i < 100 {
            keys.push(key)?;
        } else {
            wanted.remove(key.as_str());
        }
    }
    map.keep(keys.as_slice());
    Ok((map, wanted))
}

#[test]
fn many_keys_are_kept(rt: HostRuntime) -> Result<(), Fail> {
    let (map, wanted) = kept(rt.alloc())?;
    assert_eq!(rt; map.len(), 400);
    assert!(rt; equal(&map, &wanted));
    Ok(())
}

// A part of a round merged with another round, and the same by one call a pair.
fn merged(alloc: Global, strategy: Strategy) -> Result<(Pairs, Pairs), Fail> {
    let mut map = rounds(alloc, 11)?;
    for i in 100..200u32 {
        map.remove(key_of(alloc, i)?.as_str());
    }
    let before = map.copy()?;
    let mut wanted = map.copy()?;
    let other = rounds(alloc, 7)?;
    for pair in other.as_slice() {
        let had = before.get(pair.0.as_str()).is_some();
        if strategy == Strategy::Upsert || had == (strategy == Strategy::Update) {
            wanted.put(pair.0.as_str(), pair.1.copy()?)?;
        }
    }
    map.merge(other, strategy)?;
    Ok((map, wanted))
}

#[test]
fn many_pairs_are_merged(rt: HostRuntime) -> Result<(), Fail> {
    let cases = [
        (Strategy::Insert, 500usize),
        (Strategy::Update, 400),
        (Strategy::Upsert, 500),
    ];
    for (strategy, len) in cases.iter() {
        let (map, wanted) = merged(rt.alloc(), *strategy)?;
        assert_eq!(rt; map.len(), *len, "by {strategy:?}");
        assert!(rt; equal(&map, &wanted), "by {strategy:?}");
    }
    Ok(())
}
