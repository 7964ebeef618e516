//! Log records.

ghost use Rattle.std.specs.Prelude.{◌≡◌};
ghost use Rattle.contract_words.specs.Gives.{Gives};
ghost use Rattle.otlp_json.specs.Reads.{fault_of};
ghost use Rattle.otlp_json.specs.Objects.{by_row};
ghost use Rattle.otlp_json.specs.Trees.{record_in, record_table, empty_record};

use crate::counts::{Counts, count_record};
use crate::error::PayloadStop;
use crate::fields::{i32_of, id_of, members_of, text_of, u32_of, u64_of};
use crate::value::{LEVELS, pairs_of, value_of};
use json_text::{Json, Member, stands_under};
use pdata_tree::LogRecord;
use pdata_value::{Pairs, Text, Value};
use std::alloc::Global;

#[tactic(auto, unfolding(crate::specs::Trees::record_table))]
fn read_member(
    alloc: Global,
    counts: &mut Counts,
    member: &Member,
    behind: &[Member],
    log: &mut LogRecord,
) -> Result<(), PayloadStop>
    ensures { Gives (λ _. (log.new, counts.new)) fault_of result
        (by_row record_table member.now behind.now log.old counts.old) }
{
    let json = &member.1;
    if stands_under("timeUnixNano", member, behind) {
        log.time = u64_of(json)?;
    } else if stands_under("observedTimeUnixNano", member, behind) {
        log.observed = u64_of(json)?;
    } else if stands_under("severityNumber", member, behind) {
        log.severity = i32_of(json)?;
    } else if stands_under("severityText", member, behind) {
        log.severity_text = text_of(json)?;
    } else if stands_under("body", member, behind) {
        log.body = value_of(alloc, counts, json, LEVELS)?;
    } else if stands_under("attributes", member, behind) {
        log.attributes = pairs_of(alloc, counts, json, LEVELS)?;
    } else if stands_under("droppedAttributesCount", member, behind) {
        log.dropped = u32_of(json)?;
    } else if stands_under("flags", member, behind) {
        log.flags = u32_of(json)?;
    } else if stands_under("traceId", member, behind) {
        log.trace_id = id_of::<16>(json)?;
    } else if stands_under("spanId", member, behind) {
        log.span_id = id_of::<8>(json)?;
    }
    Ok(())
}

pub(crate) fn empty_record(alloc: Global) -> LogRecord
    ensures { result ≡ empty_record }
{
    LogRecord {
        time: 0,
        observed: 0,
        severity: 0,
        severity_text: Text::new(alloc),
        body: Value::Empty,
        attributes: Pairs::new(alloc),
        dropped: 0,
        flags: 0,
        trace_id: [0; 16],
        span_id: [0; 8],
    }
}

/// The log record that JSON is.
#[tactic(auto, unfolding(crate::specs::Trees::record_in))]
pub(crate) fn record_of(
    alloc: Global,
    counts: &mut Counts,
    json: &Json,
) -> Result<LogRecord, PayloadStop>
    ensures { Gives (λ log. (log, counts.new)) fault_of result (record_in json.now counts.old) }
{
    count_record(counts, json.at)?;
    let mut rest = members_of(json)?;
    let mut log = empty_record(alloc);
    while let [member, behind @ ..] = rest {
        read_member(alloc, counts, member, behind, &mut log)?;
        rest = behind;
    }
    Ok(log)
}
