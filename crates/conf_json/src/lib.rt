//! Settings of a configuration, error modes and the account of errors.
#![tactic(auto)]

mod account;
mod fault;
mod planning;
mod settings;
mod top;

pub use account::{Note, NoteBook, Part, PlainStop, StepEnd};
pub use conf_draft::{Action, ErrorMode};
pub use fault::{ConfFault, ConfStop, Inner};
pub use settings::{
    FilterSettings, Group, GroupSettings, Meant, Planned, ProcessorSettings, RouteRow,
    RouteSettings, TransformSettings,
};
pub use top::{MAX_CONF, Settings, read_conf};

#[cfg(test)]
mod tests;
