//! The functions on texts, and patterns.
#![tactic(auto)]

mod groups;
mod joining;
mod kinds;
mod matcher;
mod matchers;
mod matching;
mod numbers;
mod pattern;
mod splitting;

pub use joining::concat;
pub use kinds::{is_bool, is_double, is_int, is_list, is_map, is_string};
pub use matcher::PatternMatcher;
pub use matchers::Matchers;
pub use matching::{
    extract_patterns, extract_patterns_with, is_match, is_match_with, replace_pattern,
    replace_pattern_with,
};
pub use numbers::{int, len, spelled_int};
pub use pattern::{MakeStop, Pattern, PatternMaker, RegexMaker};
pub use pdata_value::string;
pub use splitting::{split, substring};

#[cfg(test)]
mod tests;
