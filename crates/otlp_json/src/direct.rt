//! Reads a payload straight from the text of its line, and bends to the general way where anything
//! in it is unusual.

ghost use Rattle.std.specs.Prelude.{◌≡◌, ◌<◌, ◌≤◌, length, IfOk, OnOk, Ok};
ghost use Rattle.std.specs.Str.{bytes_eq};
ghost use Rattle.json_text.specs.Place.{blanks};
ghost use Rattle.json_text.specs.Reading.{comma_or, document};
ghost use Rattle.otlp_json.specs.Limits.{most_containers};
ghost use Rattle.otlp_json.specs.Payload.{payload_of};
ghost use Rattle.otlp_json.specs.Direct.{key_of, Opens, Takes};

use crate::counts::Counts;
use crate::direct::trees::batch;
use crate::error::PayloadStop;
use crate::reading::CONTAINERS;
use json_text::{Cursor, JsonFault, goes_on, is_closed};
use pdata_tree::Batch;
use std::alloc::{AllocError, Global};

mod fields;
mod skip;
mod trees;
mod values;

/// Why nothing was read.
#[derive(Clone, Copy, Debug, PartialEq, Eq)]
pub(crate) enum Bend {
    /// The text may be a payload or none: the general way tells.
    Unusual,
    NoMemory,
}

impl From<JsonFault> for Bend {
    ghost use Rattle.std.specs.Prelude.{◌≡◌};
    ghost use Rattle.otlp_json.specs.Direct.{bend_of};

    ghost from_gives = { λ fault bend. bend ≡ bend_of fault };

    fn from(fault: JsonFault) -> Bend {
        match fault {
            JsonFault::NoMemory => Bend::NoMemory,
            _ => Bend::Unusual,
        }
    }
}

impl From<PayloadStop> for Bend {
    ghost use Rattle.std.specs.Prelude.{◌≡◌};
    ghost use Rattle.otlp_json.specs.Direct.{bend_of_stop};

    ghost from_gives = { λ stop bend. bend ≡ bend_of_stop stop };

    fn from(stop: PayloadStop) -> Bend {
        match stop {
            PayloadStop::NoMemory => Bend::NoMemory,
            PayloadStop::Fault(_) => Bend::Unusual,
        }
    }
}

impl From<AllocError> for Bend {
    ghost use Rattle.std.specs.Prelude.{◌≡◌};
    ghost use Rattle.otlp_json.specs.declared.direct.Bend.TheVariants.{NoMemory};

    ghost from_gives = { λ _ bend. bend ≡ NoMemory };

    fn from(_: AllocError) -> Bend {
        Bend::NoMemory
    }
}

/// A place in the text of a line, and what was counted before it.
#[derive(Drop)]
pub(crate) struct Direct<'a> {
    pub alloc: Global,
    pub cursor: Cursor<'a>,
    pub counts: Counts,
}

/// An object has at most so many known keys.
pub(crate) const SLOTS: usize = 10;

/// Takes the slot of a known key. A key that comes again is unusual.
pub(crate) fn take(taken: &mut [bool; SLOTS], slot: Option<usize>) -> Result<(), Bend>
    ensures { OnOk result (Takes taken.old slot taken.new) }
{
    if let Some(slot) = slot {
        if slot >= SLOTS || taken[slot] {
            return Err(Bend::Unusual);
        }
        taken[slot] = true;
    }
    Ok(())
}

/// Passes the byte that opens a container, and tells whether something stands behind it; else the
/// closing byte is passed.
pub(crate) fn opens(
    direct: &mut Direct<'_>,
    opening: u8,
    close: u8,
    depth: u32,
) -> Result<bool, Bend>
    requires opening { 0 < opening }
    requires opening_ascii { opening < 128 }
    requires close { 0 < close }
    requires close_ascii { close < 128 }
    ensures opens { IfOk result (λ goes. Opens opening close depth direct.old goes direct.new) }
    ensures deep { OnOk result (0 < depth) }
    ensures shorter { OnOk result (length direct.new.cursor.left < length direct.old.cursor.left) }
{
    if depth == 0 || direct.cursor.peek() != opening {
        return Err(Bend::Unusual);
    }
    direct.cursor.step();
    Ok(!is_closed(&mut direct.cursor, close))
}

/// Passes a comma, or the byte that closes, and tells whether it was the comma.
pub(crate) fn goes(direct: &mut Direct<'_>, close: u8) -> Result<bool, Bend>
    requires some { 0 < close }
    requires ascii { close < 128 }
    ensures comma { IfOk result
        (λ more. comma_or close (blanks direct.old.cursor) ≡ Ok (more, direct.new.cursor)) }
    ensures counts { direct.new.counts ≡ direct.old.counts }
    ensures shorter { OnOk result (length direct.new.cursor.left < length direct.old.cursor.left) }
{
    Ok(goes_on(&mut direct.cursor, close)?)
}

/// Passes a key without escapes, its colon, and the blanks behind them.
pub(crate) fn key<'a>(direct: &mut Direct<'a>) -> Result<&'a str, Bend>
    ensures key { IfOk result (λ key. key_of direct.old.cursor ≡ Ok (key.now, direct.new.cursor)) }
    ensures counts { direct.new.counts ≡ direct.old.counts }
    ensures shorter { OnOk result (length direct.new.cursor.left < length direct.old.cursor.left) }
{
    direct.cursor.expect(b'"')?;
    let key = direct.cursor.plain_run();
    direct.cursor.expect(b'"')?;
    direct.cursor.skip_blanks();
    direct.cursor.expect(b':')?;
    direct.cursor.skip_blanks();
    Ok(key)
}

pub(crate) fn same(key: &str, word: &str) -> bool
    ensures { result ≡ bytes_eq key.now word.now }
{
    key == word
}

/// The payload that the text of a line is.
pub(crate) fn read_direct(alloc: Global, text: &str) -> Result<Batch, Bend>
    requires { length text.now ≤ 16777216 }
    ensures { IfOk result (λ batch. payload_of (document most_containers text.now) ≡ Ok batch) }
{
    let mut direct = Direct {
        alloc,
        cursor: Cursor::new(text),
        counts: Counts::new(),
    };
    direct.cursor.skip_blanks();
    let batch = batch(&mut direct, CONTAINERS)?;
    direct.cursor.skip_blanks();
    if !direct.cursor.is_at_end() {
        return Err(Bend::Unusual);
    }
    Ok(batch)
}
