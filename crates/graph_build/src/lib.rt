//! The legs of a configuration, and its plan.
#![tactic(auto)]

mod cycle;
mod exits;
mod laws;
mod leg;
mod legs;
mod plan;
mod top;

pub use exits::{Exit, connector_at, find_pipeline};
pub use laws::{cycles_are_short, deeper_looks_find_the_same};
pub use leg::Leg;
pub use legs::is_among;
pub use plan::{Plan, build, check_conf};
pub use top::{MAX_LEGS, MAX_ROOTS, find_legs};

#[cfg(test)]
mod tests;
