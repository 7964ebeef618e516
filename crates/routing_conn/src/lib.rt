//! The routing connector: trees for the rows of its table, and the rest.
#![tactic(auto)]

mod forest;
mod judging;
mod parting;
mod routing;
mod rows;
mod selecting;

pub use forest::{RouteStop, Routed, apply, give_up};
pub use routing::{Batches, PlainRouted, apply_plain};

#[cfg(test)]
mod tests;
