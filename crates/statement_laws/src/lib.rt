//! Laws on statements and conditions that are parsed.
#![tactic(auto)]

mod laws;

pub use laws::{unexpected_stands_behind_the_longest_prefix, what_is_spelled_is_parsed};

#[cfg(test)]
mod tests;
