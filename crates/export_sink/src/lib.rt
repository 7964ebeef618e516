//! What a run writes for each line of an input, and its summary.
#![tactic(auto)]

mod bundle;
mod lines;
mod notes;
mod plan;
mod run_plan;
mod summary;
mod totals;
mod write;

pub use bundle::{Bundle, bundle_line, no_totals};
pub use plan::plan_run;
pub use run_plan::RunPlan;
pub use summary::summary_text;
pub use totals::plus_totals;
pub use write::{ExportStop, create_files, write_bundle};

#[cfg(test)]
mod tests;
