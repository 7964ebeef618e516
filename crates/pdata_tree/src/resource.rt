//! Resources, with their scopes.

ghost use Rattle.std.specs.Prelude.{◌≡◌, IfOk};

use crate::scope::ScopeTree;
use item_list::ItemList;
use pdata_value::{Pairs, Text};
use std::alloc::AllocError;

/// What a resource holds itself.
#[derive(Drop)]
pub struct ResourceNode {
    pub attributes: Pairs,
    /// How many attributes were dropped before.
    pub dropped: u32,
    pub schema_url: Text,
}

pub type Scopes = ItemList<ScopeTree>;

/// A resource with its scopes.
#[derive(Drop)]
pub struct ResourceTree {
    pub node: ResourceNode,
    pub scopes: Scopes,
}

impl ResourceNode {
    pub fn copy(&self) -> Result<ResourceNode, AllocError>
        ensures { IfOk result (λ copy. copy ≡ self.now) }
    {
        Ok(ResourceNode {
            attributes: self.attributes.copy()?,
            dropped: self.dropped,
            schema_url: self.schema_url.copy()?,
        })
    }
}

impl ResourceTree {
    pub fn copy(&self) -> Result<ResourceTree, AllocError>
        ensures { IfOk result (λ copy. copy ≡ self.now) }
    {
        let mut scopes = ItemList::with_capacity(self.scopes.allocator(), self.scopes.len())?;
        for scope in self.scopes.as_slice() {
            scopes.push(scope.copy()?)?;
        }
        let node = self.node.copy()?;
        Ok(ResourceTree { node, scopes })
    }
}
