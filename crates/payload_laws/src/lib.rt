//! Laws on payloads and on JSON: what is read can be written and read again.
#![tactic(auto)]

mod laws;

pub use laws::{read_json_can_be_written, read_payloads_can_be_written};

#[cfg(test)]
mod tests;
