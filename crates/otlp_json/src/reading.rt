//! Reads payloads.

ghost use Rattle.std.specs.Prelude.{◌≤◌, length};
ghost use Rattle.contract_words.specs.Gives.{Gives};
ghost use Rattle.otlp_json.specs.Reads.{fault_of};
ghost use Rattle.otlp_json.specs.Objects.{by_row};
ghost use Rattle.otlp_json.specs.Trees.{batch_table, batch_in, resources_in};
ghost use Rattle.otlp_json.specs.Payload.{payload};

use crate::counts::Counts;
use crate::direct::{Bend, read_direct};
use crate::error::{PayloadKind, PayloadStop, stop};
use crate::fields::items_of;
use crate::resource::resource_logs_of;
use item_list::ItemList;
use json_text::{Json, JsonFault, Member, read, stands_under};
use pdata_tree::{Batch, Resources};
use std::alloc::Global;

/// Lists and objects of a payload nest at most so deep.
pub(crate) const CONTAINERS: u32 = 300;

#[tactic(auto, unfolding(crate::specs::Trees::resources_in))]
fn resources_of(alloc: Global, counts: &mut Counts, json: &Json) -> Result<Resources, PayloadStop>
    ensures { Gives (λ resources. (resources, counts.new)) fault_of result
        (resources_in json.now counts.old) }
{
    let items = items_of(json)?;
    let mut resources = ItemList::with_capacity(alloc, items.len())?;
    for item in items {
        resources.push(resource_logs_of(alloc, counts, item)?)?;
    }
    Ok(resources)
}

#[tactic(auto, unfolding(crate::specs::Trees::batch_table))]
fn read_member(
    alloc: Global,
    counts: &mut Counts,
    member: &Member,
    behind: &[Member],
    batch: &mut Batch,
) -> Result<(), PayloadStop>
    ensures { Gives (λ _. (batch.new, counts.new)) fault_of result
        (by_row batch_table member.now behind.now batch.old counts.old) }
{
    if stands_under("resourceLogs", member, behind) {
        batch.resources = resources_of(alloc, counts, &member.1)?;
    }
    Ok(())
}

#[tactic(auto, unfolding(crate::specs::Trees::batch_in))]
fn batch_of(alloc: Global, counts: &mut Counts, json: &Json) -> Result<Batch, PayloadStop>
    ensures { Gives (λ batch. (batch, counts.new)) fault_of result (batch_in json.now counts.old) }
{
    let mut rest = match json.as_members() {
        Some(members) => members,
        None => return Err(stop(PayloadKind::NotObject, json.at)),
    };
    let mut batch = Batch {
        resources: ItemList::new(alloc),
    };
    while let [member, behind @ ..] = rest {
        read_member(alloc, counts, member, behind, &mut batch)?;
        rest = behind;
    }
    Ok(batch)
}

// The payload that the line is, by the way that takes every line.
#[tactic(auto, unfolding(crate::specs::Payload::payload))]
fn read_general(alloc: Global, line: &[u8]) -> Result<Batch, PayloadStop>
    requires { length line.now ≤ 16777216 }
    ensures { Gives (λ batch. batch) fault_of result (payload line.now) }
{
    let mut counts = Counts::new();
    match read(alloc, line, CONTAINERS) {
        Ok(json) => batch_of(alloc, &mut counts, &json),
        Err(JsonFault::BadUtf8(at)) => Err(stop(PayloadKind::BadUtf8, at)),
        Err(JsonFault::BadJson(at)) => Err(stop(PayloadKind::BadJson, at)),
        Err(JsonFault::TooDeep(at)) => Err(stop(PayloadKind::TooDeep, at)),
        Err(JsonFault::NoMemory) => Err(PayloadStop::NoMemory),
    }
}

/// The payload that the line is. A usual line is read straight into its tree.
pub fn read_payload(alloc: Global, line: &[u8]) -> Result<Batch, PayloadStop>
    requires { length line.now ≤ 16777216 }
    ensures value { Gives (λ batch. batch) fault_of result (payload line.now) }
{
    let text = match str::from_utf8(line) {
        Ok(text) => text,
        Err(_) => return read_general(alloc, line),
    };
    match read_direct(alloc, text) {
        Ok(batch) => Ok(batch),
        Err(Bend::NoMemory) => Err(PayloadStop::NoMemory),
        Err(Bend::Unusual) => read_general(alloc, line),
    }
}
