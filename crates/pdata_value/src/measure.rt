//! How deep a value is, and how much it weighs.

ghost use Rattle.std.specs.Prelude.{◌≡◌, ◌+◌, ◌<◌, ◌≤◌, ◌↔◌, IsTrue, MatchOption};
ghost use Rattle.pdata_value.specs.declared.value.Value.TheVariants as variants;
ghost use Rattle.pdata_value.specs.Measure.{depth, weight, depth_of_items, depth_of_pairs, weight_of_items, weight_of_pairs, Fits};

use crate::pairs::Pairs;
use crate::text::Text;
use crate::value::Value;

const MAX_DEPTH: u32 = 64;

const MAX_WEIGHT: u64 = 16_777_216;

impl Value {
    /// Whether the value is at most 64 deep and weighs at most 16,777,216.
    pub fn fits(&self) -> bool
        ensures { IsTrue result ↔ Fits self.now }
    {
        room_after(self, MAX_DEPTH, MAX_WEIGHT).is_some()
    }
}

impl Pairs {
    /// Whether the pairs fit as a map: at most 64 deep, and at most 16,777,216 heavy.
    #[tactic(auto, using(crate::proofs::Measures::depths, crate::proofs::Measures::weights))]
    pub fn fits(&self) -> bool
        ensures { IsTrue result ↔ Fits (variants.Map self.now) }
    {
        room_after_pairs(self.as_slice(), MAX_DEPTH - 1, MAX_WEIGHT - 1).is_some()
    }
}

// What is left of `room` once the value is taken from it; None where it doesn't suffice, or where
// the value is deeper than `levels`. No call goes further down or looks at more values than these
// allow.
#[cycle(room)]
#[tactic(auto, using(crate::proofs::Measures::depths, crate::proofs::Measures::weights, crate::proofs::Measures::floors))]
fn room_after(value: &Value, levels: u32, room: u64) -> Option<u64>
    ensures { MatchOption result (depth value.now ≤ levels → room < weight value.now)
        (λ left. (depth value.now ≤ levels) × (left + weight value.now ≡ room)) }
{
    let levels = levels.checked_sub(1)?;
    let room = room.checked_sub(1)?;
    match value {
        Value::Empty | Value::Truth(_) | Value::Int(_) => Some(room),
        Value::Text(text) => room.checked_sub(text.len() as u64),
        Value::Double(spelling) => room.checked_sub(spelling.len() as u64),
        Value::Bytes(bytes) => room.checked_sub(bytes.len() as u64),
        Value::List(values) => room_after_items(values.as_slice(), levels, room),
        Value::Map(pairs) => room_after_pairs(pairs.as_slice(), levels, room),
    }
}

#[cycle(room)]
fn room_after_items(values: &[Value], levels: u32, room: u64) -> Option<u64>
    ensures { MatchOption result
        (depth_of_items values.now ≤ levels → room < weight_of_items values.now)
        (λ left. (depth_of_items values.now ≤ levels)
        × (left + weight_of_items values.now ≡ room)) }
{
    let mut left = room;
    for value in values {
        left = room_after(value, levels, left)?;
    }
    Some(left)
}

#[cycle(room)]
fn room_after_pairs(pairs: &[(Text, Value)], levels: u32, room: u64) -> Option<u64>
    ensures { MatchOption result
        (depth_of_pairs pairs.now ≤ levels → room < weight_of_pairs pairs.now)
        (λ left. (depth_of_pairs pairs.now ≤ levels) × (left + weight_of_pairs pairs.now ≡ room)) }
{
    let mut left = room;
    for pair in pairs {
        left = left.checked_sub(pair.0.len() as u64)?;
        left = room_after(&pair.1, levels, left)?;
    }
    Some(left)
}
