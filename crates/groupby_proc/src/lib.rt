//! Log records grouped by attributes.
#![tactic(auto)]

mod code;
mod forest;
mod gathering;
mod grouping;
mod index;
mod key;
mod placing;

pub use forest::apply;
pub use grouping::{apply_plain, regroup};

#[cfg(test)]
mod tests;
