//! Parts of a tree that are kept, copied, or parted from it.
#![tactic(auto)]

mod copying;
mod flags;
mod keeping;
mod splitting;

pub use copying::{copy_records, copy_resources};
pub use keeping::{keep_records, keep_resources};
pub use splitting::{split_records, split_resources};

#[cfg(test)]
mod tests;
