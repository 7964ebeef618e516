//! The transform processor: statements on the targets of a tree.
#![tactic(auto)]

mod apply;
mod cursor;
mod laws;
mod stepping;
mod target;

pub use apply::apply_plain;
pub use cursor::TransformCursor;
pub use laws::{statements_keep_targets, steps_add_up};
pub use stepping::advance;

#[cfg(test)]
mod tests;
