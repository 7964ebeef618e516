//! Values of which nothing is read: no list and no object is built of them.

ghost use Rattle.std.specs.Prelude.{◌<◌, length, OnOk};
ghost use Rattle.otlp_json.specs.Direct.{Passes};

use crate::direct::fields::{numeral, text, word};
use crate::direct::{Bend, Direct, goes, key, opens};

/// Passes a value of which nothing is read.
#[cycle(pass)]
pub(super) fn pass(direct: &mut Direct<'_>, depth: u32) -> Result<(), Bend>
    ensures passes { OnOk result (Passes depth direct.old direct.new) }
    ensures shorter { OnOk result (length direct.new.cursor.left < length direct.old.cursor.left) }
{
    let next = direct.cursor.peek();
    if next == b'{' {
        return pass_object(direct, depth);
    }
    if next == b'[' {
        return pass_list(direct, depth);
    }
    pass_scalar(direct, depth)
}

#[cycle(pass)]
fn pass_object(direct: &mut Direct<'_>, depth: u32) -> Result<(), Bend>
    ensures passes { OnOk result (Passes depth direct.old direct.new) }
    ensures shorter { OnOk result (length direct.new.cursor.left < length direct.old.cursor.left) }
{
    let mut more = opens(direct, b'{', b'}', depth)?;
    while more {
        key(direct)?;
        pass(direct, depth - 1)?;
        more = goes(direct, b'}')?;
    }
    Ok(())
}

#[cycle(pass)]
fn pass_list(direct: &mut Direct<'_>, depth: u32) -> Result<(), Bend>
    ensures passes { OnOk result (Passes depth direct.old direct.new) }
    ensures shorter { OnOk result (length direct.new.cursor.left < length direct.old.cursor.left) }
{
    let mut more = opens(direct, b'[', b']', depth)?;
    while more {
        pass(direct, depth - 1)?;
        more = goes(direct, b']')?;
    }
    Ok(())
}

// Passes a text, a literal or a number.
fn pass_scalar(direct: &mut Direct<'_>, depth: u32) -> Result<(), Bend>
    ensures passes { OnOk result (Passes depth direct.old direct.new) }
    ensures shorter { OnOk result (length direct.new.cursor.left < length direct.old.cursor.left) }
{
    let next = direct.cursor.peek();
    if next == b'"' {
        text(direct, depth)?;
        return Ok(());
    }
    if next == b't' {
        return word(direct, b"true");
    }
    if next == b'f' {
        return word(direct, b"false");
    }
    if next == b'n' {
        return word(direct, b"null");
    }
    numeral(direct, depth)?;
    Ok(())
}
