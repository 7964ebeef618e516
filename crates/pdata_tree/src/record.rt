//! Log records.

ghost use Rattle.std.specs.Prelude.{◌≡◌, IfOk};

use pdata_value::{Pairs, Text, Value};
use std::alloc::AllocError;

/// A log record. Times are nanoseconds since the Unix epoch; an id of zeros alone is the empty id.
#[derive(Drop)]
pub struct LogRecord {
    pub time: u64,
    pub observed: u64,
    pub severity: i32,
    pub severity_text: Text,
    pub body: Value,
    pub attributes: Pairs,
    /// How many attributes were dropped before.
    pub dropped: u32,
    pub flags: u32,
    pub trace_id: [u8; 16],
    pub span_id: [u8; 8],
}

impl LogRecord {
    pub fn copy(&self) -> Result<LogRecord, AllocError>
        ensures { IfOk result (λ copy. copy ≡ self.now) }
    {
        Ok(LogRecord {
            time: self.time,
            observed: self.observed,
            severity: self.severity,
            severity_text: self.severity_text.copy()?,
            body: self.body.copy()?,
            attributes: self.attributes.copy()?,
            dropped: self.dropped,
            flags: self.flags,
            trace_id: self.trace_id,
            span_id: self.span_id,
        })
    }
}
