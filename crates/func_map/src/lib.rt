//! The editors of maps, and `set`.
#![tactic(auto)]

mod keys;
mod matching;
mod merging;
mod replacing;
mod target;

pub use keys::{delete_key, keep_keys};
pub use matching::{
    delete_matching_keys, delete_matching_keys_with, keep_matching_keys, keep_matching_keys_with,
};
pub use merging::merge_maps;
pub use replacing::{replace_all_patterns, replace_all_patterns_with};
pub use target::set;

#[cfg(test)]
mod tests;
