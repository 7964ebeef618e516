//! Log payloads as plain trees: resources, scopes and log records (the data model of OTLP logs).
#![tactic(auto)]

mod batch;
mod ids;
mod path;
mod place;
mod plain;
mod putting;
mod reading;
mod record;
mod resource;
mod scene;
mod scope;
mod seen;
mod tree_access;
mod walk;
mod writing;

pub use batch::{Batch, Resources};
pub use ids::{id_of, id_text};
pub use path::{Field, Key, Keys, PathTo};
pub use place::{Context, Place};
pub use plain::PlainScene;
pub use reading::{look_log, look_resource, look_scope};
pub use record::LogRecord;
pub use resource::{ResourceNode, ResourceTree, Scopes};
pub use scene::Scene;
pub use scope::{Logs, ScopeNode, ScopeTree};
pub use seen::Seen;
pub use walk::look_map;
pub use writing::{write_log, write_resource, write_scope};

#[cfg(test)]
mod tests;
