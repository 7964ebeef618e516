//! What components share: the targets of a context, notes of errors, and conditions on a target.
#![tactic(auto)]

mod judging;
mod memory;
mod places;
mod root_places;
mod spot;

pub use judging::{any_holds, any_holds_whole, judge};
pub use memory::{end_of, narrow, one_more, or_stop};
pub use places::list_targets;
pub use root_places::list_targets_of;
pub use spot::{Spot, meet};
