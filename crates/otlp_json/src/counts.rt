//! How many records, elements and values stand before a place.

ghost use Rattle.std.specs.Prelude.{◌≡◌, ◌<◌, OnOk};
ghost use Rattle.contract_words.specs.Gives.{Gives};
ghost use Rattle.otlp_json.specs.Reads.{fault_of};
ghost use Rattle.otlp_json.specs.Limits.{none_counted, one_record, one_holder, one_value};

use crate::error::{PayloadKind, PayloadStop, stop};

const MOST_RECORDS: u32 = 32_768;

const MOST_HOLDERS: u32 = 32_768;

const MOST_VALUES: u32 = 500_000;

/// What was counted so far. Holders are resource and scope elements.
#[derive(Clone, Copy)]
pub(crate) struct Counts {
    pub records: u32,
    pub holders: u32,
    pub values: u32,
}

impl Counts {
    pub(crate) fn new() -> Counts
        ensures { result ≡ none_counted }
    {
        Counts {
            records: 0,
            holders: 0,
            values: 0,
        }
    }
}

/// Counts a record at a place.
pub(crate) fn count_record(counts: &mut Counts, at: u32) -> Result<(), PayloadStop>
    ensures { Gives (λ _. counts.new) fault_of result (one_record at counts.old) }
{
    if counts.records >= MOST_RECORDS {
        return Err(stop(PayloadKind::TooMany, at));
    }
    counts.records += 1;
    Ok(())
}

/// Counts a resource or scope element at a place.
pub(crate) fn count_holder(counts: &mut Counts, at: u32) -> Result<(), PayloadStop>
    ensures { Gives (λ _. counts.new) fault_of result (one_holder at counts.old) }
{
    if counts.holders >= MOST_HOLDERS {
        return Err(stop(PayloadKind::TooMany, at));
    }
    counts.holders += 1;
    Ok(())
}

/// Counts a value at a place, where so many levels may stand from here on.
pub(crate) fn count_value(counts: &mut Counts, levels: u32, at: u32) -> Result<(), PayloadStop>
    ensures gives { Gives (λ _. counts.new) fault_of result (one_value levels at counts.old) }
    ensures level { OnOk result (0 < levels) }
{
    if counts.values >= MOST_VALUES {
        return Err(stop(PayloadKind::TooMany, at));
    }
    counts.values += 1;
    if levels == 0 {
        return Err(stop(PayloadKind::TooDeep, at));
    }
    Ok(())
}
