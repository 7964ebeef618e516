//! How the nodes of a plain tree come into a forest. Where memory runs out, those that came go
//! again.

ghost use Rattle.std.specs.Prelude.{◌≡◌, ◌<◌, ◌≤◌, ◌+◌, ◌-◌, ◌^◌, [], ◌∷◌, length, map, min, IfOk, IfErr, OnErr, OnOk};
ghost use Rattle.pdata_tree.specs.Tree.{records_of_resources, records_of_scopes};
ghost use Rattle.shelf.specs.Places.{Adds};
ghost use Rattle.share_cow.specs.Levels.{AllCounted};
ghost use Rattle.share_cow.specs.Planting.{Grows, Keeps, Restores, Spent, scopes_of_resources};
ghost use Rattle.share_cow.specs.Store.{IsKept, a_batch, a_log, a_resource, a_scope, batch_level, log_level, resource_level, resource_levels, scope_level, scope_levels};

use crate::lowering::{lower_logs, lower_resources, lower_scopes};
use crate::node::{Children, Node};
use item_list::ItemList;
use pdata_tree::{
    Batch, LogRecord, Logs, ResourceNode, ResourceTree, Resources, ScopeNode, ScopeTree, Scopes,
};
use shelf::Shelf;
use std::alloc::{AllocError, Global};

// A node with these children; where memory runs out, they are handed back.
pub(crate) fn add_node<D: Drop>(
    shelf: &mut Shelf<Node<D>>,
    content: D,
    children: Children,
) -> Result<u64, Children>
    ensures ok { IfOk result (λ place. Adds shelf.old shelf.new place
        (record { content = content; children = children })) }
    ensures err { OnErr result (shelf.new ≡ shelf.old) }
    ensures back { IfErr result (λ back. back ≡ children) }
{
    let empty = ItemList::new(children.allocator());
    match shelf.add(Node {
        content,
        children: empty,
    }) {
        Ok(place) => {
            shelf.get_mut(place).children = children;
            Ok(place)
        }
        Err(_) => Err(children),
    }
}

fn plant_log(
    logs: &mut Shelf<Node<LogRecord>>,
    log: LogRecord,
    alloc: Global,
) -> Result<u64, AllocError>
    requires { IsKept logs.old }
    ensures ok { IfOk result (λ place. Grows (place ∷ []) (a_log log ∷ [])
        (log_level logs.old) (log_level logs.new) [] []) }
    ensures kept { IfOk result (λ place. Keeps 1 logs.old logs.new) }
    ensures err { OnErr result (logs.new ≡ logs.old) }
{
    let children = ItemList::new(alloc);
    let place = logs.add(Node {
        content: log,
        children,
    })?;
    Ok(place)
}

pub(crate) fn plant_logs(
    logs: &mut Shelf<Node<LogRecord>>,
    list: Logs,
) -> Result<Children, AllocError>
    requires { IsKept logs.old }
    ensures ok { IfOk result (λ places. Grows places (map a_log list)
        (log_level logs.old) (log_level logs.new) [] []) }
    ensures logs { OnOk result (Keeps (length list) logs.old logs.new) }
    ensures short { IfOk result (λ places. length places < 2 ^ 64) }
    ensures err { OnErr result (Restores (log_level logs.old ∷ []) (log_level logs.new ∷ [])) }
    ensures err_logs { OnErr result (Spent logs.old logs.new) }
{
    let alloc = list.allocator();
    let mut places = Vec::with_capacity(alloc, list.len())?;
    for log in list.into_vec() {
        match plant_log(logs, log, alloc) {
            Ok(place) => places.push_reserved(place),
            Err(error) => {
                lower_logs(logs, places.as_slice());
                return Err(error);
            }
        }
    }
    Ok(ItemList::from_vec(places))
}

// The nodes of a scope.
fn plant_scope(
    scopes: &mut Shelf<Node<ScopeNode>>,
    logs: &mut Shelf<Node<LogRecord>>,
    tree: ScopeTree,
) -> Result<u64, AllocError>
    requires counts { AllCounted (scope_levels scopes.old logs.old) }
    requires scopes { IsKept scopes.old }
    requires logs { IsKept logs.old }
    ensures ok { IfOk result (λ place. Grows (place ∷ []) (a_scope tree ∷ [])
        (scope_level scopes.old) (scope_level scopes.new)
        (log_level logs.old ∷ [])
        (log_level logs.new ∷ [])) }
    ensures scopes { OnOk result (Keeps 1 scopes.old scopes.new) }
    ensures logs { OnOk result (Keeps (length tree.logs) logs.old logs.new) }
    ensures err { OnErr result (Restores (scope_levels scopes.old logs.old)
        (scope_levels scopes.new logs.new)) }
    ensures err_scopes { OnErr result (Spent scopes.old scopes.new) }
    ensures err_logs { OnErr result (Spent logs.old logs.new) }
{
    let ScopeTree { node, logs: list } = tree;
    let children = plant_logs(logs, list)?;
    match add_node(scopes, node, children) {
        Ok(place) => Ok(place),
        Err(children) => {
            lower_logs(logs, children.as_slice());
            Err(AllocError)
        }
    }
}

pub(crate) fn plant_scopes(
    scopes: &mut Shelf<Node<ScopeNode>>,
    logs: &mut Shelf<Node<LogRecord>>,
    list: Scopes,
) -> Result<Children, AllocError>
    requires counts { AllCounted (scope_levels scopes.old logs.old) }
    requires scopes { IsKept scopes.old }
    requires logs { IsKept logs.old }
    ensures ok { IfOk result (λ places. Grows places (map a_scope list)
        (scope_level scopes.old) (scope_level scopes.new)
        (log_level logs.old ∷ [])
        (log_level logs.new ∷ [])) }
    ensures short { IfOk result (λ places. length places < 2 ^ 64) }
    ensures scopes { OnOk result (Keeps (length list) scopes.old scopes.new) }
    ensures logs { OnOk result (Keeps (records_of_scopes list) logs.old logs.new) }
    ensures err { OnErr result (Restores (scope_levels scopes.old logs.old)
        (scope_levels scopes.new logs.new)) }
    ensures err_scopes { OnErr result (Spent scopes.old scopes.new) }
    ensures err_logs { OnErr result (Spent logs.old logs.new) }
{
    let mut places = Vec::with_capacity(list.allocator(), list.len())?;
    for tree in list.into_vec() {
        match plant_scope(scopes, logs, tree) {
            Ok(place) => places.push_reserved(place),
            Err(error) => {
                lower_scopes(scopes, logs, places.as_slice());
                return Err(error);
            }
        }
    }
    Ok(ItemList::from_vec(places))
}

// The nodes of a resource.
fn plant_resource(
    resources: &mut Shelf<Node<ResourceNode>>,
    scopes: &mut Shelf<Node<ScopeNode>>,
    logs: &mut Shelf<Node<LogRecord>>,
    tree: ResourceTree,
) -> Result<u64, AllocError>
    requires counts { AllCounted (resource_levels resources.old scopes.old logs.old) }
    requires resources { IsKept resources.old }
    requires scopes { IsKept scopes.old }
    requires logs { IsKept logs.old }
    ensures ok { IfOk result (λ place. Grows (place ∷ []) (a_resource tree ∷ [])
        (resource_level resources.old) (resource_level resources.new)
        (scope_levels scopes.old logs.old)
        (scope_levels scopes.new logs.new)) }
    ensures resources { OnOk result (Keeps 1 resources.old resources.new) }
    ensures scopes { OnOk result (Keeps (length tree.scopes) scopes.old scopes.new) }
    ensures logs { OnOk result (Keeps (records_of_scopes tree.scopes) logs.old logs.new) }
    ensures err { OnErr result (Restores (resource_levels resources.old scopes.old logs.old)
        (resource_levels resources.new scopes.new logs.new)) }
    ensures err_resources { OnErr result (Spent resources.old resources.new) }
    ensures err_scopes { OnErr result (Spent scopes.old scopes.new) }
    ensures err_logs { OnErr result (Spent logs.old logs.new) }
{
    let ResourceTree { node, scopes: list } = tree;
    let children = plant_scopes(scopes, logs, list)?;
    match add_node(resources, node, children) {
        Ok(place) => Ok(place),
        Err(children) => {
            lower_scopes(scopes, logs, children.as_slice());
            Err(AllocError)
        }
    }
}

pub(crate) fn plant_resources(
    resources: &mut Shelf<Node<ResourceNode>>,
    scopes: &mut Shelf<Node<ScopeNode>>,
    logs: &mut Shelf<Node<LogRecord>>,
    list: Resources,
) -> Result<Children, AllocError>
    requires counts { AllCounted (resource_levels resources.old scopes.old logs.old) }
    requires resources { IsKept resources.old }
    requires scopes { IsKept scopes.old }
    requires logs { IsKept logs.old }
    ensures ok { IfOk result (λ places. Grows places (map a_resource list)
        (resource_level resources.old) (resource_level resources.new)
        (scope_levels scopes.old logs.old)
        (scope_levels scopes.new logs.new)) }
    ensures short { IfOk result (λ places. length places < 2 ^ 64) }
    ensures resources { OnOk result (Keeps (length list) resources.old resources.new) }
    ensures scopes { OnOk result (Keeps (scopes_of_resources list) scopes.old scopes.new) }
    ensures logs { OnOk result (Keeps (records_of_resources list) logs.old logs.new) }
    ensures err { OnErr result (Restores (resource_levels resources.old scopes.old logs.old)
        (resource_levels resources.new scopes.new logs.new)) }
    ensures err_resources { OnErr result (Spent resources.old resources.new) }
    ensures err_scopes { OnErr result (Spent scopes.old scopes.new) }
    ensures err_logs { OnErr result (Spent logs.old logs.new) }
{
    let mut places = Vec::with_capacity(list.allocator(), list.len())?;
    for tree in list.into_vec() {
        match plant_resource(resources, scopes, logs, tree) {
            Ok(place) => places.push_reserved(place),
            Err(error) => {
                lower_resources(resources, scopes, logs, places.as_slice());
                return Err(error);
            }
        }
    }
    Ok(ItemList::from_vec(places))
}

// The nodes of a whole payload.
pub(crate) fn plant_batch(
    batches: &mut Shelf<Node<()>>,
    resources: &mut Shelf<Node<ResourceNode>>,
    scopes: &mut Shelf<Node<ScopeNode>>,
    logs: &mut Shelf<Node<LogRecord>>,
    tree: Batch,
) -> Result<u64, AllocError>
    requires counts { AllCounted
        (batch_level batches.old ∷ resource_levels resources.old scopes.old logs.old) }
    requires batches { IsKept batches.old }
    requires resources { IsKept resources.old }
    requires scopes { IsKept scopes.old }
    requires logs { IsKept logs.old }
    ensures ok { IfOk result (λ place. Grows (place ∷ []) (a_batch tree ∷ [])
        (batch_level batches.old) (batch_level batches.new)
        (resource_levels resources.old scopes.old logs.old)
        (resource_levels resources.new scopes.new logs.new)) }
    ensures batches { OnOk result (Keeps 1 batches.old batches.new) }
    ensures resources { OnOk result (Keeps (length tree.resources) resources.old resources.new) }
    ensures scopes { OnOk result
        (Keeps (scopes_of_resources tree.resources) scopes.old scopes.new) }
    ensures logs { OnOk result (Keeps (records_of_resources tree.resources) logs.old logs.new) }
    ensures err { OnErr result (Restores
        (batch_level batches.old ∷ resource_levels resources.old scopes.old logs.old)
        (batch_level batches.new ∷ resource_levels resources.new scopes.new logs.new)) }
    ensures err_batches { OnErr result (Spent batches.old batches.new) }
    ensures err_resources { OnErr result (Spent resources.old resources.new) }
    ensures err_scopes { OnErr result (Spent scopes.old scopes.new) }
    ensures err_logs { OnErr result (Spent logs.old logs.new) }
{
    let Batch { resources: list } = tree;
    let children = plant_resources(resources, scopes, logs, list)?;
    match add_node(batches, (), children) {
        Ok(place) => Ok(place),
        Err(children) => {
            lower_resources(resources, scopes, logs, children.as_slice());
            Err(AllocError)
        }
    }
}
