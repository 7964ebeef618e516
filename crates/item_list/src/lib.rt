//! One list type for all crates, seen by contracts as the list of its items.
#![tactic(auto)]

mod items;

pub use items::ItemList;

#[cfg(test)]
mod tests;
