//! The filter processor: log records on which a condition holds are dropped.
#![tactic(auto)]

mod apply;
mod cursor;
mod laws;
mod stepping;

pub use apply::apply_plain;
pub use cursor::FilterCursor;
pub use laws::steps_add_up;
pub use stepping::advance;

#[cfg(test)]
mod tests;
