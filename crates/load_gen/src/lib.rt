//! Payloads that are made from a number, to try a configuration or to measure a run.
#![tactic(auto)]

mod draws;
mod payloads;

pub use payloads::{MAX_PAYLOADS, make_payloads};

#[cfg(test)]
mod tests;
