//! Makes payloads from drawn numbers.

ghost use Rattle.std.specs.Prelude.{◌≡◌, ◌<◌, ◌≤◌, ◌+◌, ◌*◌, ◌++◌, ◌∷◌, [], codes, IfOk, OnOk};
ghost use Rattle.pdata_value.specs.Value.{pairs};
ghost use Rattle.load_gen.specs.Draws.{after};
ghost use Rattle.load_gen.specs.Payloads as spec;
ghost use Rattle.load_gen.specs.Payloads.{Makes};

use crate::draws::Draws;
use item_list::ItemList;
use otlp_json::push_line;
use pdata_tree::{Batch, LogRecord, Logs, ResourceNode, ResourceTree, ScopeNode, ScopeTree};
use pdata_value::{Pairs, Text, Value};
use std::alloc::{AllocError, Global};

/// How many payloads may be made.
pub const MAX_PAYLOADS: u32 = 10_000;

// The first second after the Unix epoch, and the nanoseconds of a second.
const FIRST_SECOND: u64 = 1_700_000_000;

const SECOND: u64 = 1_000_000_000;

// A text with a number behind it.
fn numbered(alloc: Global, front: &str, number: u64) -> Result<Value, AllocError>
    ensures { IfOk result (λ value. value ≡ spec.numbered front.now number) }
{
    let text = format!(in alloc; "{front}{number}")?;
    Ok(Value::Text(Text::from_string(text)))
}

fn push_pair(
    alloc: Global,
    attributes: &mut Pairs,
    key: &str,
    value: Value,
) -> Result<(), AllocError>
    ensures { OnOk result (pairs attributes.new ≡ pairs attributes.old ++ (key.now, value) ∷ []) }
{
    attributes.push(Text::from_str(alloc, key)?, value)
}

fn attributes_of(alloc: Global, draws: &mut Draws) -> Result<Pairs, AllocError>
    ensures value { IfOk result (λ made. made ≡ spec.attributes_of draws.old.state) }
    ensures state { OnOk result (draws.new.state ≡ after 2 draws.old.state) }
{
    let status = 200 + 100 * draws.draw(4) as i64;
    let user = draws.draw(50);
    let mut attributes = Pairs::new(alloc);
    push_pair(alloc, &mut attributes, "http.status", Value::Int(status))?;
    push_pair(alloc, &mut attributes, "user", numbered(alloc, "u", user)?)?;
    Ok(attributes)
}

fn log_of(alloc: Global, draws: &mut Draws, time: u64) -> Result<LogRecord, AllocError>
    ensures value { IfOk result (λ log. log ≡ spec.log_of time draws.old.state) }
    ensures state { OnOk result (draws.new.state ≡ after 4 draws.old.state) }
{
    let severity = 1 + draws.draw(24) as i32;
    let body = numbered(alloc, "event ", draws.draw(1000))?;
    let attributes = attributes_of(alloc, draws)?;
    Ok(LogRecord {
        time,
        observed: 0,
        severity,
        severity_text: Text::new(alloc),
        body,
        attributes,
        dropped: 0,
        flags: 0,
        trace_id: [0; 16],
        span_id: [0; 8],
    })
}

#[tactic(auto, using(crate::proofs::Left::logs_grow))]
fn logs_of(alloc: Global, draws: &mut Draws, payload: u64, count: u64) -> Result<Logs, AllocError>
    requires few { payload ≤ MAX_PAYLOADS }
    requires short { count ≤ 8 }
    ensures { IfOk result (λ logs. Makes draws.new.state logs
        (spec.logs_of payload 0 count draws.old.state)) }
{
    let mut logs = ItemList::new(alloc);
    let mut record = 0;
    let mut left = count;
    while 0 < left {
        let time = FIRST_SECOND * SECOND + payload * SECOND + record;
        logs.push(log_of(alloc, draws, time)?)?;
        record += 1;
        left -= 1;
    }
    Ok(logs)
}

fn scope_of(alloc: Global, logs: Logs) -> Result<ScopeTree, AllocError>
    ensures { IfOk result (λ scope. scope ≡ spec.scope_of logs) }
{
    let node = ScopeNode {
        name: Text::from_str(alloc, "demo")?,
        version: Text::new(alloc),
        attributes: Pairs::new(alloc),
        dropped: 0,
        schema_url: Text::new(alloc),
    };
    Ok(ScopeTree { node, logs })
}

fn resource_of(alloc: Global, service: u64, logs: Logs) -> Result<ResourceTree, AllocError>
    ensures { IfOk result (λ resource. resource ≡ spec.resource_of service logs) }
{
    let mut attributes = Pairs::new(alloc);
    push_pair(
        alloc,
        &mut attributes,
        "service.name",
        numbered(alloc, "svc-", service)?,
    )?;
    let node = ResourceNode {
        attributes,
        dropped: 0,
        schema_url: Text::new(alloc),
    };
    let mut scopes = ItemList::new(alloc);
    scopes.push(scope_of(alloc, logs)?)?;
    Ok(ResourceTree { node, scopes })
}

fn payload_of(alloc: Global, draws: &mut Draws, payload: u64) -> Result<Batch, AllocError>
    requires { payload ≤ MAX_PAYLOADS }
    ensures { IfOk result (λ made. Makes draws.new.state made
        (spec.payload_of payload draws.old.state)) }
{
    let service = draws.draw(4);
    let count = 1 + draws.draw(8);
    let logs = logs_of(alloc, draws, payload, count)?;
    let mut resources = ItemList::new(alloc);
    resources.push(resource_of(alloc, service, logs)?)?;
    Ok(Batch { resources })
}

/// The payloads that a seed gives, each in its written form and with a newline.
#[tactic(auto, using(crate::proofs::Left::lines_grow))]
pub fn make_payloads(alloc: Global, seed: u64, count: u32) -> Result<Vec<u8>, AllocError>
    requires { count ≤ MAX_PAYLOADS }
    ensures { IfOk result (λ lines. lines.items ≡ spec.payloads seed count) }
{
    let mut draws = Draws { state: seed };
    let mut lines = Vec::new(alloc);
    let mut number = 1;
    let mut left = count;
    while 0 < left {
        let payload = payload_of(alloc, &mut draws, number)?;
        push_line(&mut lines, &payload)?;
        lines.push(b'\n')?;
        number += 1;
        left -= 1;
    }
    Ok(lines)
}
