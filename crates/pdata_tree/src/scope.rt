//! Scopes, with their log records.

ghost use Rattle.std.specs.Prelude.{◌≡◌, IfOk};

use crate::record::LogRecord;
use item_list::ItemList;
use pdata_value::{Pairs, Text};
use std::alloc::AllocError;

/// What an instrumentation scope holds itself.
#[derive(Drop)]
pub struct ScopeNode {
    pub name: Text,
    pub version: Text,
    pub attributes: Pairs,
    /// How many attributes were dropped before.
    pub dropped: u32,
    pub schema_url: Text,
}

pub type Logs = ItemList<LogRecord>;

/// A scope with its log records.
#[derive(Drop)]
pub struct ScopeTree {
    pub node: ScopeNode,
    pub logs: Logs,
}

impl ScopeNode {
    pub fn copy(&self) -> Result<ScopeNode, AllocError>
        ensures { IfOk result (λ copy. copy ≡ self.now) }
    {
        Ok(ScopeNode {
            name: self.name.copy()?,
            version: self.version.copy()?,
            attributes: self.attributes.copy()?,
            dropped: self.dropped,
            schema_url: self.schema_url.copy()?,
        })
    }
}

impl ScopeTree {
    pub fn copy(&self) -> Result<ScopeTree, AllocError>
        ensures { IfOk result (λ copy. copy ≡ self.now) }
    {
        let mut logs = ItemList::with_capacity(self.logs.allocator(), self.logs.len())?;
        for log in self.logs.as_slice() {
            logs.push(log.copy()?)?;
        }
        let node = self.node.copy()?;
        Ok(ScopeTree { node, logs })
    }
}
