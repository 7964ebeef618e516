//! Codes of resources and scopes. Those that are the same have the same code.

ghost use Rattle.std.specs.Prelude.{◌≡◌, []};
ghost use Rattle.pdata_value.specs.Pairs as pairs_spec;
ghost use Rattle.pdata_value.specs.Value.{pairs as pairs_of};
ghost use Rattle.groupby_proc.specs.Codes as spec;

use pdata_tree::{ResourceNode, ScopeNode};
use pdata_value::{Pairs, Text, Value};

const FACTOR: u64 = 1099511628211;

// A code with a further number in it.
#[tactic(auto, unfolding(crate::specs::Codes::mixed))]
fn mix(code: u64, more: u64) -> u64
    ensures { result ≡ spec.mixed code more }
{
    code.wrapping_mul(FACTOR).wrapping_add(more)
}

#[tactic(auto, unfolding(crate::specs::Codes::plus))]
fn plus(code: u64, other: u64) -> u64
    ensures { result ≡ spec.plus code other }
{
    code.wrapping_add(other)
}

// A code with bytes in it.
fn with_bytes(code: u64, bytes: &[u8]) -> u64
    ensures { result ≡ spec.with_bytes code bytes.now }
{
    let mut mixed = code;
    for byte in bytes {
        mixed = mix(mixed, u64::from(*byte));
    }
    mixed
}

fn with_text(code: u64, text: &Text) -> u64
    ensures { result ≡ spec.with_bytes code text.now }
{
    with_bytes(code, text.as_str().as_bytes())
}

// What stands in a list or a map doesn't count.
fn value_code(value: &Value) -> u64
    ensures { result ≡ spec.value_code value.now }
{
    match value {
        Value::Empty => 0,
        Value::Text(text) => with_text(3, text),
        Value::Truth(truth) => { if *truth { 1 } else { 2 } }
        Value::Int(int) => mix(4, int.cast_unsigned()),
        Value::Double(spelling) => with_bytes(5, spelling.as_str().as_bytes()),
        Value::Bytes(bytes) => with_bytes(6, bytes.as_slice()),
        Value::List(_) => 7,
        Value::Map(_) => 8,
    }
}

fn pair_code(pair: &(Text, Value)) -> u64
    ensures { result ≡ spec.pair_code pair.now }
{
    mix(with_text(value_code(&pair.1), &pair.0), 1)
}

fn has_key(pairs: &[(Text, Value)], key: &Text) -> bool
    ensures { result ≡ pairs_spec.has_key pairs.now key.now }
{
    for pair in pairs {
        if pair.0.as_str() == key.as_str() {
            return true;
        }
    }
    false
}

// A code with that of a map. The order of the pairs doesn't count.
fn with_pairs(code: u64, pairs: &Pairs) -> u64
    ensures { result ≡ spec.with_pairs code [] (pairs_of pairs.now) }
{
    let list = pairs.as_slice();
    let mut sum = code;
    for (i, pair) in list.iter().enumerate() {
        if !has_key(&list[..i], &pair.0) {
            sum = plus(sum, pair_code(pair));
        }
    }
    sum
}

pub(crate) fn resource_code(resource: &ResourceNode) -> u64
    ensures { result ≡ spec.resource_code resource.now }
{
    let code = with_pairs(u64::from(resource.dropped), &resource.attributes);
    with_text(code, &resource.schema_url)
}

pub(crate) fn scope_code(scope: &ScopeNode) -> u64
    ensures { result ≡ spec.scope_code scope.now }
{
    let code = with_pairs(u64::from(scope.dropped), &scope.attributes);
    let code = with_text(with_text(code, &scope.name), &scope.version);
    with_text(code, &scope.schema_url)
}
