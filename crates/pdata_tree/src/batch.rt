//! Whole payloads.

ghost use Rattle.std.specs.Prelude.{◌≡◌, ◌^◌, ◌<◌, IfOk};
ghost use Rattle.pdata_tree.specs.Tree.{IsCountable, nodes, nodes_of_scopes, records, records_of_resources, records_of_scopes};

use crate::resource::ResourceTree;
use crate::scope::ScopeTree;
use item_list::ItemList;
use std::alloc::AllocError;

pub type Resources = ItemList<ResourceTree>;

/// The resources of a payload.
#[derive(Drop)]
pub struct Batch {
    pub resources: Resources,
}

impl Batch {
    pub fn copy(&self) -> Result<Batch, AllocError>
        ensures { IfOk result (λ copy. copy ≡ self.now) }
    {
        let mut resources = ItemList::with_capacity(
            self.resources.allocator(),
            self.resources.len(),
        )?;
        for resource in self.resources.as_slice() {
            resources.push(resource.copy()?)?;
        }
        Ok(Batch { resources })
    }

    /// The number of log records.
    #[tactic(auto, using(crate::proofs::Counts::resource_records))]
    pub fn count_records(&self) -> u64
        requires { IsCountable self.now }
        ensures { result ≡ records self.now }
    {
        count_records_in(self.resources.as_slice())
    }

    /// 1 for the payload, and 1 for each resource, scope and log record.
    pub fn count_nodes(&self) -> u64
        requires { IsCountable self.now }
        ensures { result ≡ nodes self.now }
    {
        let mut count = 1;
        for resource in self.resources.as_slice() {
            count += 1 + count_nodes_of(resource.scopes.as_slice());
        }
        count
    }
}

fn count_records_in(resources: &[ResourceTree]) -> u64
    requires { records_of_resources resources.now < 2 ^ 32 }
    ensures { result ≡ records_of_resources resources.now }
{
    let mut count = 0;
    for resource in resources {
        count += count_records_of(resource.scopes.as_slice());
    }
    count
}

fn count_records_of(scopes: &[ScopeTree]) -> u64
    requires { records_of_scopes scopes.now < 2 ^ 32 }
    ensures { result ≡ records_of_scopes scopes.now }
{
    let mut count = 0;
    for scope in scopes {
        count += scope.logs.len() as u64;
    }
    count
}

fn count_nodes_of(scopes: &[ScopeTree]) -> u64
    requires { nodes_of_scopes scopes.now < 2 ^ 32 }
    ensures { result ≡ nodes_of_scopes scopes.now }
{
    let mut count = 0;
    for scope in scopes {
        count += 1 + scope.logs.len() as u64;
    }
    count
}
