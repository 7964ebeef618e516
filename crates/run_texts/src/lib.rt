//! The texts that runs print.
#![tactic(auto)]

mod check;
mod fault;

pub use check::check_text;
pub use fault::fault_note;

#[cfg(test)]
mod tests;
