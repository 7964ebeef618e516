//! Laws on printed literals.
#![tactic(auto)]

mod laws;

pub use laws::printed_literals_are_read;

#[cfg(test)]
mod tests;
