//! The named groups of a match.

ghost use Rattle.std.specs.Prelude.{◌≡◌, ◌++◌, IfOk, OnOk, option_map, string_bytes};
ghost use Rattle.pdata_value.specs.Value.{pairs};
ghost use Rattle.regex.specs.Names.{names_of};
ghost use Rattle.regex.specs.Replace.{bytes_of};
ghost use Rattle.regex.specs.Strings.{captures_span, captures_haystack};
ghost use Rattle.func_text.specs.Patterns.{if_named, named_from};

use pdata_value::{Pairs, Text, Value};
use regex::Captures;
use std::alloc::{AllocError, Global};

// What the group matched, or nothing.
fn held_by(alloc: Global, captures: &Captures<'_, '_>, index: usize) -> Result<Text, AllocError>
    ensures { IfOk result (λ held. held
        ≡ bytes_of (captures_haystack captures.now) (captures_span captures.now index)) }
{
    match captures.get(index) {
        Some(found) => Text::from_str(alloc, found.as_str()),
        None => Ok(Text::new(alloc)),
    }
}

fn push_named(
    alloc: Global,
    groups: &mut Pairs,
    name: &Option<String>,
    captures: &Captures<'_, '_>,
    index: usize,
) -> Result<(), AllocError>
    ensures { OnOk result (pairs groups.new ≡ pairs groups.old
        ++ if_named (option_map string_bytes name.now)
        (bytes_of (captures_haystack captures.now) (captures_span captures.now index))) }
{
    match name {
        Some(name) => {
            let held = held_by(alloc, captures, index)?;
            let name = Text::from_str(alloc, name.as_str())?;
            groups.push(name, Value::Text(held))
        }
        None => Ok(()),
    }
}

/// The groups that have names, in order.
pub(crate) fn named_groups_of(
    alloc: Global,
    names: &[Option<String>],
    captures: &Captures<'_, '_>,
) -> Result<Pairs, AllocError>
    ensures { IfOk result (λ groups. pairs groups ≡ named_from
        (λ n. bytes_of (captures_haystack captures.now) (captures_span captures.now n)) 0
        (names_of names.now)) }
{
    let mut groups = Pairs::new(alloc);
    'names: for index in 0..names.len() {
        push_named(alloc, &mut groups, &names[index], captures, index)?;
    }
    Ok(groups)
}
