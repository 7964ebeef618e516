//! Legs on one thread, each on a tree of its own.
#![tactic(auto)]

mod counting;
mod course;
mod legs;
mod outcome;
mod parts;
mod plan;
mod planning;

pub use legs::run_legs;
pub use outcome::{LegOutcome, NO_COUNTS, run_leg};
pub use parts::{Named, PipelineParts, find_parts};
pub use plan::LegPlan;
pub use planning::plan_legs;
