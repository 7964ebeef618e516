//! The shape of a configuration: what stands where, and the first fault of what doesn't.
#![tactic(auto)]

mod fault;
mod json;
mod kind;
mod laws;
mod name;
mod path;
mod shape;
mod table;

pub use fault::{PointedFault, PointedStop, told, told_at};
pub use json::read_shape;
pub use kind::FaultKind;
pub use laws::shape_is_right_where_no_fault_stands;
pub use name::type_of;
pub use path::Path;

#[cfg(test)]
mod tests;
