//! Scope elements, with their scopes and log records.

ghost use Rattle.std.specs.Prelude.{◌≡◌};
ghost use Rattle.contract_words.specs.Gives.{Gives};
ghost use Rattle.otlp_json.specs.Reads.{fault_of};
ghost use Rattle.otlp_json.specs.Objects.{by_row};
ghost use Rattle.otlp_json.specs.Trees as spec;
ghost use Rattle.otlp_json.specs.Trees.{scope_table, scope_in, records_in, scope_logs_table, scope_logs_in, with_scope};

use crate::counts::{Counts, count_holder};
use crate::error::PayloadStop;
use crate::fields::{items_of, members_of, text_of, u32_of};
use crate::record::record_of;
use crate::value::{LEVELS, pairs_of};
use item_list::ItemList;
use json_text::{Json, Member, stands_under};
use pdata_tree::{Logs, ScopeNode, ScopeTree};
use pdata_value::{Pairs, Text};
use std::alloc::Global;

pub(crate) fn empty_scope(alloc: Global) -> ScopeNode
    ensures { result ≡ spec.empty_scope }
{
    ScopeNode {
        name: Text::new(alloc),
        version: Text::new(alloc),
        attributes: Pairs::new(alloc),
        dropped: 0,
        schema_url: Text::new(alloc),
    }
}

#[tactic(auto, unfolding(crate::specs::Trees::scope_table))]
fn read_scope_member(
    alloc: Global,
    counts: &mut Counts,
    member: &Member,
    behind: &[Member],
    scope: &mut ScopeNode,
) -> Result<(), PayloadStop>
    ensures { Gives (λ _. (scope.new, counts.new)) fault_of result
        (by_row scope_table member.now behind.now scope.old counts.old) }
{
    let json = &member.1;
    if stands_under("name", member, behind) {
        scope.name = text_of(json)?;
    } else if stands_under("version", member, behind) {
        scope.version = text_of(json)?;
    } else if stands_under("attributes", member, behind) {
        scope.attributes = pairs_of(alloc, counts, json, LEVELS)?;
    } else if stands_under("droppedAttributesCount", member, behind) {
        scope.dropped = u32_of(json)?;
    }
    Ok(())
}

#[tactic(auto, unfolding(crate::specs::Trees::scope_in))]
fn scope_of(alloc: Global, counts: &mut Counts, json: &Json) -> Result<ScopeNode, PayloadStop>
    ensures { Gives (λ scope. (scope, counts.new)) fault_of result (scope_in json.now counts.old) }
{
    let mut rest = members_of(json)?;
    let mut scope = empty_scope(alloc);
    while let [member, behind @ ..] = rest {
        read_scope_member(alloc, counts, member, behind, &mut scope)?;
        rest = behind;
    }
    Ok(scope)
}

#[tactic(auto, unfolding(crate::specs::Trees::records_in))]
fn records_of(alloc: Global, counts: &mut Counts, json: &Json) -> Result<Logs, PayloadStop>
    ensures { Gives (λ logs. (logs, counts.new)) fault_of result (records_in json.now counts.old) }
{
    let items = items_of(json)?;
    let mut logs = ItemList::with_capacity(alloc, items.len())?;
    for item in items {
        logs.push(record_of(alloc, counts, item)?)?;
    }
    Ok(logs)
}

// Gives the element this scope, and leaves its schema.
pub(crate) fn put_scope(element: &mut ScopeTree, scope: ScopeNode)
    ensures { element.new ≡ with_scope element.old scope }
{
    let ScopeNode {
        name,
        version,
        attributes,
        dropped,
        schema_url: _,
    } = scope;
    element.node.name = name;
    element.node.version = version;
    element.node.attributes = attributes;
    element.node.dropped = dropped;
}

pub(crate) fn empty_scope_logs(alloc: Global) -> ScopeTree
    ensures { result ≡ spec.empty_scope_logs }
{
    ScopeTree {
        node: empty_scope(alloc),
        logs: ItemList::new(alloc),
    }
}

#[tactic(auto, unfolding(crate::specs::Trees::scope_logs_table))]
fn read_member(
    alloc: Global,
    counts: &mut Counts,
    member: &Member,
    behind: &[Member],
    element: &mut ScopeTree,
) -> Result<(), PayloadStop>
    ensures { Gives (λ _. (element.new, counts.new)) fault_of result
        (by_row scope_logs_table member.now behind.now element.old counts.old) }
{
    let json = &member.1;
    if stands_under("scope", member, behind) {
        put_scope(element, scope_of(alloc, counts, json)?);
    } else if stands_under("logRecords", member, behind) {
        element.logs = records_of(alloc, counts, json)?;
    } else if stands_under("schemaUrl", member, behind) {
        element.node.schema_url = text_of(json)?;
    }
    Ok(())
}

/// The scope element that JSON is.
#[tactic(auto, unfolding(crate::specs::Trees::scope_logs_in))]
pub(crate) fn scope_logs_of(
    alloc: Global,
    counts: &mut Counts,
    json: &Json,
) -> Result<ScopeTree, PayloadStop>
    ensures { Gives (λ element. (element, counts.new)) fault_of result
        (scope_logs_in json.now counts.old) }
{
    count_holder(counts, json.at)?;
    let mut rest = members_of(json)?;
    let mut element = empty_scope_logs(alloc);
    while let [member, behind @ ..] = rest {
        read_member(alloc, counts, member, behind, &mut element)?;
        rest = behind;
    }
    Ok(element)
}
