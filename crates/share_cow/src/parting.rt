//! How a part of a tree is made anew. The part shares the nodes of one level with the tree; where
//! memory runs out, the nodes that came go again.

ghost use Rattle.std.specs.Prelude.{◌≡◌, ◌<◌, ◌≤◌, ◌+◌, ◌^◌, ◌++◌, ℕ, [], ◌∷◌, drop, length, map, vec_capacity, vec_len, IfErr, IfOk, IfSome, OnErr, OnOk};
ghost use Rattle.pdata_tree.specs.Selecting.{flagged, kept, kept_in, kept_scopes};
ghost use Rattle.pdata_tree.specs.Tree.{records_of_resources, records_of_scopes};
ghost use Rattle.shelf.specs.Places.{Adds, IsLive, count_at, item_at};
ghost use Rattle.share_cow.specs.Levels.{AllCounted, list_at, times};
ghost use Rattle.share_cow.specs.Lowering.{Holds};
ghost use Rattle.share_cow.specs.Owning.{Raises};
ghost use Rattle.share_cow.specs.Parting.{Parts, below_batch, below_resources, below_scopes, resources_at, scopes_at};
ghost use Rattle.share_cow.specs.Planting.{Keeps, Restores, Spent, scopes_of_resources};
ghost use Rattle.share_cow.specs.Store.{IsKept, a_batch, a_resource, a_scope, batch_level, batch_named, children_of, log_level, resource_level, resource_levels, scope_level, scope_levels};
ghost use Rattle.share_cow.specs.Views.{tree_at};

use crate::looking::children_at;
use crate::lowering::{lower_resources, lower_scopes};
use crate::node::{Children, Node};
use crate::owning::raise_all;
use crate::planting::add_node;
use item_list::ItemList;
use pdata_tree::{LogRecord, ResourceNode, ScopeNode};
use shelf::Shelf;
use std::alloc::{AllocError, Global};

/// The flagged places.
#[tactic(auto, using(crate::proofs::Flagged::taken, crate::proofs::Flagged::left, crate::proofs::Flagged::ended))]
pub(crate) fn flagged_places(
    alloc: Global,
    places: &[u64],
    flags: &[bool],
) -> Result<Children, AllocError>
    ensures { IfOk result (λ kept. kept ≡ flagged flags.now places.now) }
{
    let mut kept = ItemList::new(alloc);
    let mut left = places;
    let mut rest = flags;
    while let [place, others @ ..] = left {
        if let [flag, after @ ..] = rest {
            if *flag {
                kept.push(*place)?;
            }
            rest = after;
        }
        left = others;
    }
    Ok(kept)
}

/// A node that names nodes which are there; each of these counts once more.
pub(crate) fn add_above<D: Drop, E: Drop>(
    shelf: &mut Shelf<Node<D>>,
    below: &mut Shelf<Node<E>>,
    content: D,
    children: Children,
) -> Result<u64, AllocError>
    requires live { (p : ℕ) → 0 < times p children → IsLive below.old p }
    requires room { (p : ℕ) → count_at below.old p + length children < 2 ^ 128 }
    requires kept { IsKept below.old }
    ensures adds { IfOk result (λ place. Adds shelf.old shelf.new place
        (record { content = content; children = children })) }
    ensures raises { OnOk result (Raises children below.old below.new) }
    ensures err { OnErr result (shelf.new ≡ shelf.old) }
    ensures err_below { OnErr result (below.new ≡ below.old) }
{
    let place = shelf.add(Node { content, children })?;
    raise_all(below, children_at(shelf, place));
    Ok(place)
}

// The flags behind so many.
fn behind(flags: &[bool], count: usize) -> &[bool]
    ensures { result.now ≡ drop count flags.now }
{
    if count < flags.len() {
        &flags[count..]
    } else {
        &[]
    }
}

// Appends a place, if there is one.
fn push_part(parts: &mut Vec<u64>, part: Option<u64>)
    requires { vec_len parts.old < vec_capacity parts.old }
    ensures items { parts.new.items ≡ parts.old.items ++ batch_named part }
    ensures len { vec_len parts.new ≤ vec_len parts.old + 1 }
    ensures capacity { vec_capacity parts.new ≡ vec_capacity parts.old }
{
    if let Some(part) = part {
        parts.push_reserved(part);
    }
}

// A scope with its flagged log records, if there are any.
fn part_scope(
    scopes: &mut Shelf<Node<ScopeNode>>,
    logs: &mut Shelf<Node<LogRecord>>,
    place: u64,
    flags: &[bool],
) -> Result<Option<u64>, AllocError>
    requires live { IsLive scopes.old place }
    requires counts { AllCounted (scope_levels scopes.old logs.old) }
    requires scopes { IsKept scopes.old }
    requires logs { IsKept logs.old }
    ensures ok { IfOk result (λ part.
        Parts (below_scopes scopes.old (place ∷ [])) (batch_named part)
        (map a_scope (kept_scopes flags.now (scopes_at scopes.old logs.old (place ∷ []))))
        (scope_level scopes.old) (scope_level scopes.new)
        [] [] (log_level logs.old) (log_level logs.new)) }
    ensures scopes { IfOk result (λ part. Keeps (length (batch_named part)) scopes.old scopes.new) }
    ensures logs { OnOk result (Keeps 0 logs.old logs.new) }
    ensures err { OnErr result (scopes.new ≡ scopes.old) }
    ensures err_logs { OnErr result (logs.new ≡ logs.old) }
{
    let named = &scopes.get(place).children;
    let children = flagged_places(named.allocator(), named.as_slice(), flags)?;
    if children.is_empty() {
        return Ok(None);
    }
    let content = scopes.get(place).content.copy()?;
    let part = add_above(scopes, logs, content, children)?;
    Ok(Some(part))
}

// Scopes with their flagged log records, and the flags behind theirs.
fn part_scopes<'f>(
    alloc: Global,
    scopes: &mut Shelf<Node<ScopeNode>>,
    logs: &mut Shelf<Node<LogRecord>>,
    places: &[u64],
    flags: &'f [bool],
) -> Result<(Children, &'f [bool]), AllocError>
    requires live { Holds places.now (scope_level scopes.old) }
    requires counts { AllCounted (scope_levels scopes.old logs.old) }
    requires scopes { IsKept scopes.old }
    requires logs { IsKept logs.old }
    ensures ok { IfOk result (λ made. Parts (below_scopes scopes.old places.now) made.0
        (map a_scope (kept_scopes flags.now (scopes_at scopes.old logs.old places.now)))
        (scope_level scopes.old) (scope_level scopes.new)
        [] [] (log_level logs.old) (log_level logs.new)) }
    ensures rest { IfOk result (λ made. made.1.now
        ≡ drop (records_of_scopes (scopes_at scopes.old logs.old places.now)) flags.now) }
    ensures short { IfOk result (λ made. length made.0 < 2 ^ 64) }
    ensures scopes { IfOk result (λ made. Keeps (length made.0) scopes.old scopes.new) }
    ensures logs { OnOk result (Keeps 0 logs.old logs.new) }
    ensures err { OnErr result (Restores (scope_levels scopes.old logs.old)
        (scope_levels scopes.new logs.new)) }
    ensures err_scopes { OnErr result (Spent scopes.old scopes.new) }
    ensures err_logs { OnErr result (Spent logs.old logs.new) }
{
    let mut parts = Vec::with_capacity(alloc, places.len())?;
    let mut rest = flags;
    for place in places {
        let after = behind(rest, children_at(scopes, *place).len());
        match part_scope(scopes, logs, *place, rest) {
            Ok(part) => push_part(&mut parts, part),
            Err(error) => {
                lower_scopes(scopes, logs, parts.as_slice());
                return Err(error);
            }
        }
        rest = after;
    }
    Ok((ItemList::from_vec(parts), rest))
}

// A node with what another resource holds itself, and these children; where memory runs out, they
// are handed back.
fn add_like(
    resources: &mut Shelf<Node<ResourceNode>>,
    place: u64,
    children: Children,
) -> Result<u64, Children>
    requires { IsLive resources.old place }
    ensures ok { IfOk result (λ part. IfSome (item_at resources.old place)
        (λ node. Adds resources.old resources.new part (record node { children = children }))) }
    ensures err { OnErr result (resources.new ≡ resources.old) }
    ensures back { IfErr result (λ back. back ≡ children) }
{
    match resources.get(place).content.copy() {
        Ok(content) => add_node(resources, content, children),
        Err(_) => Err(children),
    }
}

// A resource with its flagged log records, if there are any, and the flags behind its own.
fn part_resource<'f>(
    resources: &mut Shelf<Node<ResourceNode>>,
    scopes: &mut Shelf<Node<ScopeNode>>,
    logs: &mut Shelf<Node<LogRecord>>,
    place: u64,
    flags: &'f [bool],
) -> Result<(Option<u64>, &'f [bool]), AllocError>
    requires live { IsLive resources.old place }
    requires counts { AllCounted (resource_levels resources.old scopes.old logs.old) }
    requires resources { IsKept resources.old }
    requires scopes { IsKept scopes.old }
    requires logs { IsKept logs.old }
    ensures ok { IfOk result (λ made.
        Parts (below_resources resources.old scopes.old (place ∷ [])) (batch_named made.0)
        (map a_resource (kept_in flags.now
        (resources_at resources.old scopes.old logs.old (place ∷ []))))
        (resource_level resources.old) (resource_level resources.new)
        (scope_level scopes.old ∷ []) (scope_level scopes.new ∷ [])
        (log_level logs.old) (log_level logs.new)) }
    ensures rest { IfOk result (λ made. made.1.now ≡ drop (records_of_resources
        (resources_at resources.old scopes.old logs.old (place ∷ []))) flags.now) }
    ensures resources { IfOk result
        (λ made. Keeps (length (batch_named made.0)) resources.old resources.new) }
    ensures scopes { OnOk result (Keeps (scopes_of_resources (kept_in flags.now
        (resources_at resources.old scopes.old logs.old (place ∷ [])))) scopes.old scopes.new) }
    ensures logs { OnOk result (Keeps 0 logs.old logs.new) }
    ensures err { OnErr result (Restores (resource_levels resources.old scopes.old logs.old)
        (resource_levels resources.new scopes.new logs.new)) }
    ensures err_resources { OnErr result (Spent resources.old resources.new) }
    ensures err_scopes { OnErr result (Spent scopes.old scopes.new) }
    ensures err_logs { OnErr result (Spent logs.old logs.new) }
{
    let named = &resources.get(place).children;
    let (children, rest) = part_scopes(named.allocator(), scopes, logs, named.as_slice(), flags)?;
    if children.is_empty() {
        return Ok((None, rest));
    }
    match add_like(resources, place, children) {
        Ok(part) => Ok((Some(part), rest)),
        Err(children) => {
            lower_scopes(scopes, logs, children.as_slice());
            Err(AllocError)
        }
    }
}

// Resources with their flagged log records.
fn part_resources(
    alloc: Global,
    resources: &mut Shelf<Node<ResourceNode>>,
    scopes: &mut Shelf<Node<ScopeNode>>,
    logs: &mut Shelf<Node<LogRecord>>,
    places: &[u64],
    flags: &[bool],
) -> Result<Children, AllocError>
    requires live { Holds places.now (resource_level resources.old) }
    requires counts { AllCounted (resource_levels resources.old scopes.old logs.old) }
    requires resources { IsKept resources.old }
    requires scopes { IsKept scopes.old }
    requires logs { IsKept logs.old }
    ensures ok { IfOk result (λ parts.
        Parts (below_resources resources.old scopes.old places.now) parts
        (map a_resource (kept_in flags.now
        (resources_at resources.old scopes.old logs.old places.now)))
        (resource_level resources.old) (resource_level resources.new)
        (scope_level scopes.old ∷ []) (scope_level scopes.new ∷ [])
        (log_level logs.old) (log_level logs.new)) }
    ensures short { IfOk result (λ parts. length parts < 2 ^ 64) }
    ensures resources { IfOk result (λ parts. Keeps (length parts) resources.old resources.new) }
    ensures scopes { OnOk result (Keeps (scopes_of_resources (kept_in flags.now
        (resources_at resources.old scopes.old logs.old places.now))) scopes.old scopes.new) }
    ensures logs { OnOk result (Keeps 0 logs.old logs.new) }
    ensures err { OnErr result (Restores (resource_levels resources.old scopes.old logs.old)
        (resource_levels resources.new scopes.new logs.new)) }
    ensures err_resources { OnErr result (Spent resources.old resources.new) }
    ensures err_scopes { OnErr result (Spent scopes.old scopes.new) }
    ensures err_logs { OnErr result (Spent logs.old logs.new) }
{
    let mut parts = Vec::with_capacity(alloc, places.len())?;
    let mut rest = flags;
    for place in places {
        match part_resource(resources, scopes, logs, *place, rest) {
            Ok((part, after)) => {
                push_part(&mut parts, part);
                rest = after;
            }
            Err(error) => {
                lower_resources(resources, scopes, logs, parts.as_slice());
                return Err(error);
            }
        }
    }
    Ok(ItemList::from_vec(parts))
}

/// A payload with the flagged log records of another one; scopes and resources without any are left
/// out.
pub(crate) fn part_batch(
    batches: &mut Shelf<Node<()>>,
    resources: &mut Shelf<Node<ResourceNode>>,
    scopes: &mut Shelf<Node<ScopeNode>>,
    logs: &mut Shelf<Node<LogRecord>>,
    batch: u64,
    flags: &[bool],
) -> Result<u64, AllocError>
    requires live { IsLive batches.old batch }
    requires counts { AllCounted
        (batch_level batches.old ∷ resource_levels resources.old scopes.old logs.old) }
    requires batches { IsKept batches.old }
    requires resources { IsKept resources.old }
    requires scopes { IsKept scopes.old }
    requires logs { IsKept logs.old }
    ensures ok { IfOk result (λ place.
        Parts (below_batch batches.old resources.old scopes.old batch) (place ∷ [])
        (a_batch (kept flags.now (tree_at
        (batch_level batches.old ∷ resource_levels resources.old scopes.old logs.old) batch)) ∷ [])
        (batch_level batches.old) (batch_level batches.new)
        (resource_level resources.old ∷ scope_level scopes.old ∷ [])
        (resource_level resources.new ∷ scope_level scopes.new ∷ [])
        (log_level logs.old) (log_level logs.new)) }
    ensures batches { OnOk result (Keeps 1 batches.old batches.new) }
    ensures resources { OnOk result (Keeps (length (kept flags.now (tree_at (batch_level batches.old
        ∷ resource_levels resources.old scopes.old logs.old) batch)).resources)
        resources.old resources.new) }
    ensures scopes { OnOk result (Keeps (scopes_of_resources (kept flags.now (tree_at (batch_level
        batches.old ∷ resource_levels resources.old scopes.old logs.old) batch)).resources)
        scopes.old scopes.new) }
    ensures logs { OnOk result (Keeps 0 logs.old logs.new) }
    ensures err { OnErr result (Restores
        (batch_level batches.old ∷ resource_levels resources.old scopes.old logs.old)
        (batch_level batches.new ∷ resource_levels resources.new scopes.new logs.new)) }
    ensures err_batches { OnErr result (Spent batches.old batches.new) }
    ensures err_resources { OnErr result (Spent resources.old resources.new) }
    ensures err_scopes { OnErr result (Spent scopes.old scopes.new) }
    ensures err_logs { OnErr result (Spent logs.old logs.new) }
{
    let named = &batches.get(batch).children;
    let children = part_resources(
        named.allocator(),
        resources,
        scopes,
        logs,
        named.as_slice(),
        flags,
    )?;
    match add_node(batches, (), children) {
        Ok(place) => Ok(place),
        Err(children) => {
            lower_resources(resources, scopes, logs, children.as_slice());
            Err(AllocError)
        }
    }
}
