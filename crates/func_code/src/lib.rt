//! The functions on codes.
#![tactic(auto)]

mod codes;
mod digest;
mod parsing;

pub use codes::{decode, hex_text, sha256};
pub use parsing::parse_json;

#[cfg(test)]
mod tests;
