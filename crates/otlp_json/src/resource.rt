//! Resource elements, with their resources and scope elements.

ghost use Rattle.std.specs.Prelude.{◌≡◌};
ghost use Rattle.contract_words.specs.Gives.{Gives};
ghost use Rattle.otlp_json.specs.Reads.{fault_of};
ghost use Rattle.otlp_json.specs.Objects.{by_row};
ghost use Rattle.otlp_json.specs.Trees as spec;
ghost use Rattle.otlp_json.specs.Trees.{resource_table, resource_in, scopes_in, resource_logs_table, resource_logs_in, with_resource};

use crate::counts::{Counts, count_holder};
use crate::error::PayloadStop;
use crate::fields::{items_of, members_of, text_of, u32_of};
use crate::scope::scope_logs_of;
use crate::value::{LEVELS, pairs_of};
use item_list::ItemList;
use json_text::{Json, Member, stands_under};
use pdata_tree::{ResourceNode, ResourceTree, Scopes};
use pdata_value::{Pairs, Text};
use std::alloc::Global;

pub(crate) fn empty_resource(alloc: Global) -> ResourceNode
    ensures { result ≡ spec.empty_resource }
{
    ResourceNode {
        attributes: Pairs::new(alloc),
        dropped: 0,
        schema_url: Text::new(alloc),
    }
}

#[tactic(auto, unfolding(crate::specs::Trees::resource_table))]
fn read_resource_member(
    alloc: Global,
    counts: &mut Counts,
    member: &Member,
    behind: &[Member],
    resource: &mut ResourceNode,
) -> Result<(), PayloadStop>
    ensures { Gives (λ _. (resource.new, counts.new)) fault_of result
        (by_row resource_table member.now behind.now resource.old counts.old) }
{
    let json = &member.1;
    if stands_under("attributes", member, behind) {
        resource.attributes = pairs_of(alloc, counts, json, LEVELS)?;
    } else if stands_under("droppedAttributesCount", member, behind) {
        resource.dropped = u32_of(json)?;
    }
    Ok(())
}

#[tactic(auto, unfolding(crate::specs::Trees::resource_in))]
fn resource_of(alloc: Global, counts: &mut Counts, json: &Json) -> Result<ResourceNode, PayloadStop>
    ensures { Gives (λ resource. (resource, counts.new)) fault_of result
        (resource_in json.now counts.old) }
{
    let mut rest = members_of(json)?;
    let mut resource = empty_resource(alloc);
    while let [member, behind @ ..] = rest {
        read_resource_member(alloc, counts, member, behind, &mut resource)?;
        rest = behind;
    }
    Ok(resource)
}

#[tactic(auto, unfolding(crate::specs::Trees::scopes_in))]
fn scopes_of(alloc: Global, counts: &mut Counts, json: &Json) -> Result<Scopes, PayloadStop>
    ensures { Gives (λ scopes. (scopes, counts.new)) fault_of result
        (scopes_in json.now counts.old) }
{
    let items = items_of(json)?;
    let mut scopes = ItemList::with_capacity(alloc, items.len())?;
    for item in items {
        scopes.push(scope_logs_of(alloc, counts, item)?)?;
    }
    Ok(scopes)
}

// Gives the element this resource, and leaves its schema.
pub(crate) fn put_resource(element: &mut ResourceTree, resource: ResourceNode)
    ensures { element.new ≡ with_resource element.old resource }
{
    let ResourceNode {
        attributes,
        dropped,
        schema_url: _,
    } = resource;
    element.node.attributes = attributes;
    element.node.dropped = dropped;
}

pub(crate) fn empty_resource_logs(alloc: Global) -> ResourceTree
    ensures { result ≡ spec.empty_resource_logs }
{
    ResourceTree {
        node: empty_resource(alloc),
        scopes: ItemList::new(alloc),
    }
}

#[tactic(auto, unfolding(crate::specs::Trees::resource_logs_table))]
fn read_member(
    alloc: Global,
    counts: &mut Counts,
    member: &Member,
    behind: &[Member],
    element: &mut ResourceTree,
) -> Result<(), PayloadStop>
    ensures { Gives (λ _. (element.new, counts.new)) fault_of result
        (by_row resource_logs_table member.now behind.now element.old counts.old) }
{
    let json = &member.1;
    if stands_under("resource", member, behind) {
        put_resource(element, resource_of(alloc, counts, json)?);
    } else if stands_under("scopeLogs", member, behind) {
        element.scopes = scopes_of(alloc, counts, json)?;
    } else if stands_under("schemaUrl", member, behind) {
        element.node.schema_url = text_of(json)?;
    }
    Ok(())
}

/// The resource element that JSON is.
#[tactic(auto, unfolding(crate::specs::Trees::resource_logs_in))]
pub(crate) fn resource_logs_of(
    alloc: Global,
    counts: &mut Counts,
    json: &Json,
) -> Result<ResourceTree, PayloadStop>
    ensures { Gives (λ element. (element, counts.new)) fault_of result
        (resource_logs_in json.now counts.old) }
{
    count_holder(counts, json.at)?;
    let mut rest = members_of(json)?;
    let mut element = empty_resource_logs(alloc);
    while let [member, behind @ ..] = rest {
        read_member(alloc, counts, member, behind, &mut element)?;
        rest = behind;
    }
    Ok(element)
}
