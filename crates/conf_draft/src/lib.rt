//! What a configuration spells, with its statements as texts: components, pipelines, and the first
//! fault among their names and numbers.
#![tactic(auto)]

mod draft;
mod limits;
mod names;
mod reading;
mod references;
mod top;

pub use draft::{
    Action, Connector, Draft, ErrorMode, Exporter, FilterDraft, GroupDraft, Pipeline, Processor,
    ProcessorKind, RowDraft, TransformDraft,
};
pub use limits::{MAX_PIPELINES, MAX_STATEMENTS, check_paths};
pub use top::read_draft;

#[cfg(test)]
mod tests;
