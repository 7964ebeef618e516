//! Values and pairs, straight from the text.

ghost use Rattle.std.specs.Prelude.{◌<◌, length, IfOk, OnOk};
ghost use Rattle.otlp_json.specs.Values.{value_in, value_table, pair_in, pair_table, pairs_in};
ghost use Rattle.otlp_json.specs.Values.{values_in, array_in, array_table, map_in, map_table};
ghost use Rattle.otlp_json.specs.Direct.{kind_slot, row_of, Fills, Stands};

use crate::counts::count_value;
use crate::direct::fields::{bytes, double, i64_next, text, truth};
use crate::direct::skip::pass;
use crate::direct::{Bend, Direct, SLOTS, goes, key, opens, same, take};
use item_list::ItemList;
use pdata_value::{Pairs, Text, Value, Values};

/// The value that stands next, where so many levels of values may stand from here on.
#[cycle(direct)]
pub(super) fn value(direct: &mut Direct<'_>, depth: u32, levels: u32) -> Result<Value, Bend>
    ensures stands { IfOk result
        (λ value. Stands (value_in levels) depth direct.old value direct.new) }
    ensures shorter { OnOk result (length direct.new.cursor.left < length direct.old.cursor.left) }
{
    let at = direct.cursor.at();
    count_value(&mut direct.counts, levels, at)?;
    let mut value = Value::Empty;
    let mut taken = [false; SLOTS];
    let mut more = opens(direct, b'{', b'}', depth)?;
    while more {
        let key = key(direct)?;
        let slot = value_member(direct, depth - 1, levels - 1, key, &mut value)?;
        take(&mut taken, slot)?;
        more = goes(direct, b'}')?;
    }
    Ok(value)
}

// Reads the member under this key, and tells its slot: all kinds have one.
#[cycle(direct)]
fn value_member(
    direct: &mut Direct<'_>,
    depth: u32,
    levels: u32,
    key: &str,
    value: &mut Value,
) -> Result<Option<usize>, Bend>
    ensures fills { IfOk result (λ slot. Fills
        (value_table levels (value_in levels)) kind_slot key.now depth
        (direct.old, value.old) slot (direct.new, value.new)) }
    ensures shorter { OnOk result (length direct.new.cursor.left < length direct.old.cursor.left) }
{
    if same(key, "stringValue") {
        *value = Value::Text(text(direct, depth)?);
        return Ok(Some(0));
    }
    if same(key, "boolValue") {
        *value = Value::Truth(truth(direct, depth)?);
        return Ok(Some(0));
    }
    if same(key, "intValue") {
        *value = Value::Int(i64_next(direct, depth)?);
        return Ok(Some(0));
    }
    if same(key, "doubleValue") {
        *value = Value::Double(double(direct, depth)?);
        return Ok(Some(0));
    }
    if same(key, "arrayValue") {
        *value = Value::List(array(direct, depth, levels)?);
        return Ok(Some(0));
    }
    if same(key, "kvlistValue") {
        *value = Value::Map(map(direct, depth, levels)?);
        return Ok(Some(0));
    }
    if same(key, "bytesValue") {
        *value = Value::Bytes(bytes(direct, depth)?);
        return Ok(Some(0));
    }
    pass(direct, depth)?;
    Ok(None)
}

#[cycle(direct)]
fn array(direct: &mut Direct<'_>, depth: u32, levels: u32) -> Result<Values, Bend>
    ensures stands { IfOk result
        (λ list. Stands (array_in levels) depth direct.old list direct.new) }
    ensures shorter { OnOk result (length direct.new.cursor.left < length direct.old.cursor.left) }
{
    let mut list = Values::new(direct.alloc);
    let mut taken = [false; SLOTS];
    let mut more = opens(direct, b'{', b'}', depth)?;
    while more {
        let key = key(direct)?;
        let row = array_member(direct, depth - 1, levels, key, &mut list)?;
        take(&mut taken, row)?;
        more = goes(direct, b'}')?;
    }
    Ok(list)
}

#[cycle(direct)]
fn array_member(
    direct: &mut Direct<'_>,
    depth: u32,
    levels: u32,
    key: &str,
    list: &mut Values,
) -> Result<Option<usize>, Bend>
    ensures fills { IfOk result (λ row. Fills
        (array_table (value_in levels)) (row_of (array_table (value_in levels))) key.now depth
        (direct.old, list.old) row (direct.new, list.new)) }
    ensures shorter { OnOk result (length direct.new.cursor.left < length direct.old.cursor.left) }
{
    if same(key, "values") {
        *list = values(direct, depth, levels)?;
        return Ok(Some(0));
    }
    pass(direct, depth)?;
    Ok(None)
}

#[cycle(direct)]
fn values(direct: &mut Direct<'_>, depth: u32, levels: u32) -> Result<Values, Bend>
    ensures stands { IfOk result
        (λ list. Stands (values_in levels) depth direct.old list direct.new) }
    ensures shorter { OnOk result (length direct.new.cursor.left < length direct.old.cursor.left) }
{
    let mut list = ItemList::new(direct.alloc);
    let mut more = opens(direct, b'[', b']', depth)?;
    while more {
        list.push(value(direct, depth - 1, levels)?)?;
        more = goes(direct, b']')?;
    }
    Ok(Values::from_list(list))
}

#[cycle(direct)]
fn map(direct: &mut Direct<'_>, depth: u32, levels: u32) -> Result<Pairs, Bend>
    ensures stands { IfOk result (λ map. Stands (map_in levels) depth direct.old map direct.new) }
    ensures shorter { OnOk result (length direct.new.cursor.left < length direct.old.cursor.left) }
{
    let mut map = Pairs::new(direct.alloc);
    let mut taken = [false; SLOTS];
    let mut more = opens(direct, b'{', b'}', depth)?;
    while more {
        let key = key(direct)?;
        let row = map_member(direct, depth - 1, levels, key, &mut map)?;
        take(&mut taken, row)?;
        more = goes(direct, b'}')?;
    }
    Ok(map)
}

#[cycle(direct)]
fn map_member(
    direct: &mut Direct<'_>,
    depth: u32,
    levels: u32,
    key: &str,
    map: &mut Pairs,
) -> Result<Option<usize>, Bend>
    ensures fills { IfOk result (λ row. Fills
        (map_table levels (value_in levels)) (row_of (map_table levels (value_in levels)))
        key.now depth
        (direct.old, map.old) row (direct.new, map.new)) }
    ensures shorter { OnOk result (length direct.new.cursor.left < length direct.old.cursor.left) }
{
    if same(key, "values") {
        *map = pairs(direct, depth, levels)?;
        return Ok(Some(0));
    }
    pass(direct, depth)?;
    Ok(None)
}

/// The pairs that stand next, where so many levels of values may stand from here on.
#[cycle(direct)]
pub(super) fn pairs(direct: &mut Direct<'_>, depth: u32, levels: u32) -> Result<Pairs, Bend>
    ensures stands { IfOk result
        (λ pairs. Stands (pairs_in levels) depth direct.old pairs direct.new) }
    ensures shorter { OnOk result (length direct.new.cursor.left < length direct.old.cursor.left) }
{
    let mut list = ItemList::new(direct.alloc);
    let mut more = opens(direct, b'[', b']', depth)?;
    while more {
        list.push(pair(direct, depth - 1, levels)?)?;
        more = goes(direct, b']')?;
    }
    Ok(Pairs::from_list(list))
}

#[cycle(direct)]
fn pair(direct: &mut Direct<'_>, depth: u32, levels: u32) -> Result<(Text, Value), Bend>
    ensures stands { IfOk result
        (λ pair. Stands (pair_in levels) depth direct.old pair direct.new) }
    ensures shorter { OnOk result (length direct.new.cursor.left < length direct.old.cursor.left) }
{
    let at = direct.cursor.at();
    let mut pair = (Text::new(direct.alloc), Value::Empty);
    let mut taken = [false; SLOTS];
    let mut more = opens(direct, b'{', b'}', depth)?;
    while more {
        let key = key(direct)?;
        let row = pair_member(direct, depth - 1, levels, key, &mut pair)?;
        take(&mut taken, row)?;
        more = goes(direct, b'}')?;
    }
    if taken[1] {
        return Ok(pair);
    }
    count_value(&mut direct.counts, levels, at)?;
    Ok(pair)
}

#[cycle(direct)]
fn pair_member(
    direct: &mut Direct<'_>,
    depth: u32,
    levels: u32,
    key: &str,
    pair: &mut (Text, Value),
) -> Result<Option<usize>, Bend>
    ensures fills { IfOk result (λ row. Fills
        (pair_table (value_in levels)) (row_of (pair_table (value_in levels))) key.now depth
        (direct.old, pair.old) row (direct.new, pair.new)) }
    ensures shorter { OnOk result (length direct.new.cursor.left < length direct.old.cursor.left) }
{
    if same(key, "key") {
        pair.0 = text(direct, depth)?;
        return Ok(Some(0));
    }
    if same(key, "value") {
        pair.1 = value(direct, depth, levels)?;
        return Ok(Some(1));
    }
    pass(direct, depth)?;
    Ok(None)
}
