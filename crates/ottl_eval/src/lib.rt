//! Running statements: values of expressions, conditions and edits over a scene.
#![tactic(auto)]

mod arithmetic;
mod cache;
mod comparing;
mod converting;
mod editing;
mod laws;
mod matchers;
mod outcome;
mod paths;
mod statements;
mod values;

pub use cache::Cache;
pub use laws::what_is_written_is_read_on_a_tree_of_one_value;
pub use matchers::KeptMatchers;
pub use outcome::Outcome;
pub use statements::{eval, holds, holds_with, run_statement, run_statement_with};
pub use values::eval_with;

#[cfg(test)]
mod tests;
