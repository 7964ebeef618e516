//! Items at numbered places, each with a count of those who name it.
#![tactic(auto)]

mod places;
mod slot;

pub use places::Shelf;

#[cfg(test)]
mod tests;
