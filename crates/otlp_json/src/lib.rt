//! OTLP logs payloads in JSON: the payload that a line is, and the one written form of a payload.
#![tactic(auto)]

mod counts;
mod direct;
mod error;
mod fields;
mod laws;
mod number;
mod reading;
mod record;
mod resource;
mod scope;
mod value;
mod writing;

pub use error::{PayloadFault, PayloadKind, PayloadStop};
pub use laws::{cut_lines_are_refused, lines_read_back, payloads_are_within_limits};
pub use reading::read_payload;
pub use writing::{push_line, write_line};

#[cfg(test)]
mod tests;
