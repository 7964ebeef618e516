//! When two values are the same.

ghost use Rattle.std.specs.Prelude.{◌≡◌, IfSome, Some};
ghost use Rattle.pdata_value.specs.Value.{pairs as pairs_of};
ghost use Rattle.pdata_value.specs.Pairs.{get};
ghost use Rattle.pdata_value.specs.Same.{same, same_items, same_answer, same_keys, same_pairs};
ghost use Rattle.pdata_value.specs.Places.{keys_within};
ghost use Rattle.pdata_value.specs.Index.{Knows};

use crate::index::{has_place, is_first, places_of, value_of};
use crate::pairs::Pairs;
use crate::text::Text;
use crate::value::Value;
use std::collections::BTreeMap;

impl Value {
    /// Whether the values are equal, where doubles are compared by their spelling and maps by the
    /// first value of each key.
    #[cycle(same)]
    #[tactic(auto, using(crate::proofs::Sames::sames))]
    pub fn same(&self, other: &Value) -> bool
        ensures { result ≡ same self.now other.now }
    {
        match self {
            Value::Empty => match other {
                Value::Empty => true,
                _ => false,
            },
            Value::Text(text) => match other {
                Value::Text(other) => text.as_str() == other.as_str(),
                _ => false,
            },
            Value::Truth(truth) => match other {
                Value::Truth(other) => truth == other,
                _ => false,
            },
            Value::Int(int) => match other {
                Value::Int(other) => int == other,
                _ => false,
            },
            Value::Double(spelling) => match other {
                Value::Double(other) => spelling.as_str() == other.as_str(),
                _ => false,
            },
            Value::Bytes(bytes) => match other {
                Value::Bytes(other) => bytes.as_slice() == other.as_slice(),
                _ => false,
            },
            Value::List(values) => match other {
                Value::List(others) => are_same(values.as_slice(), others.as_slice()),
                _ => false,
            },
            Value::Map(pairs) => match other {
                Value::Map(others) => pairs.same(others),
                _ => false,
            },
        }
    }
}

impl Pairs {
    /// Whether both have the same keys, with the same first values.
    #[cycle(same)]
    pub fn same(&self, other: &Pairs) -> bool
        ensures { result ≡ same_pairs (pairs_of self.now) (pairs_of other.now) }
    {
        let alloc = self.items.allocator();
        let ours = self.as_slice();
        let theirs = other.as_slice();
        let places = places_of(alloc, ours, theirs.len());
        let other_places = places_of(alloc, theirs, ours.len());
        are_same_at_keys(ours, &places, theirs, &other_places) && has_keys(ours, &places, theirs)
    }
}

// Element by element.
#[cycle(same)]
fn are_same(values: &[Value], others: &[Value]) -> bool
    ensures { result ≡ same_items values.now others.now }
{
    if values.len() != others.len() {
        return false;
    }
    for (i, value) in values.iter().enumerate() {
        if !value.same(&others[i]) {
            return false;
        }
    }
    true
}

// The first value of each key of `pairs` is the same in both.
#[cycle(same)]
fn are_same_at_keys(
    pairs: &[(Text, Value)],
    index: &Option<BTreeMap<&str, usize>>,
    others: &[(Text, Value)],
    other_index: &Option<BTreeMap<&str, usize>>,
) -> bool
    requires pairs { IfSome index.now (λ places. Knows places pairs.now) }
    requires others { IfSome other_index.now (λ places. Knows places others.now) }
    ensures { result ≡ same_keys pairs.now pairs.now others.now }
{
    for (i, pair) in pairs.iter().enumerate() {
        let key = pair.0.as_str();
        if is_first(pairs, index, i) && !is_same_at_key(&pair.1, key, others, other_index) {
            return false;
        }
    }
    true
}

#[cycle(same)]
fn is_same_at_key(
    value: &Value,
    key: &str,
    others: &[(Text, Value)],
    other_index: &Option<BTreeMap<&str, usize>>,
) -> bool
    requires { IfSome other_index.now (λ places. Knows places others.now) }
    ensures { result ≡ same_answer (Some value.now) (get others.now key.now) }
{
    match value_of(others, other_index, key) {
        Some(other) => value.same(other),
        None => false,
    }
}

// Each key of `others` is a key of `pairs`.
fn has_keys(
    pairs: &[(Text, Value)],
    index: &Option<BTreeMap<&str, usize>>,
    others: &[(Text, Value)],
) -> bool
    requires { IfSome index.now (λ places. Knows places pairs.now) }
    ensures { result ≡ keys_within others.now pairs.now }
{
    for pair in others {
        if !has_place(pairs, index, pair.0.as_str()) {
            return false;
        }
    }
    true
}
