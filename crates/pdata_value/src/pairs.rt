//! Lists of pairs, in which the first pair with a key counts.

ghost use Rattle.std.specs.Prelude.{◌≡◌, ◌++◌, ◌∷◌, [], length, slice_get, ◌↔◌, IsOk, IsSome, Some, IfOk, IfErr, OnOk, OnErr, MatchOption, option_map};
ghost use Rattle.std.specs.Option.{option_copied};
ghost use Rattle.pdata_value.specs.Value.{pairs};
ghost use Rattle.pdata_value.specs.Pairs.{get, has_key, put};
ghost use Rattle.pdata_value.specs.Places.{PutsAt, position};

use crate::text::Text;
use crate::value::Value;
use item_list::ItemList;
use std::alloc::{AllocError, Global};
use std::mem;

/// A list of pairs of a key and a value, in which a key may stand twice.
#[cycle(value)]
#[derive(Drop)]
pub struct Pairs {
    pub(crate) items: ItemList<(Text, Value)>,
}

impl Pairs {
    /// An empty list, which takes no memory.
    pub fn new(alloc: Global) -> Pairs
        ensures { pairs result ≡ [] }
    {
        Pairs {
            items: ItemList::new(alloc),
        }
    }

    pub fn from_list(list: ItemList<(Text, Value)>) -> Pairs
        ensures { pairs result ≡ list }
    {
        Pairs { items: list }
    }

    pub fn into_list(self) -> ItemList<(Text, Value)>
        ensures { result ≡ pairs self }
    {
        self.items
    }

    pub fn len(&self) -> usize
        ensures { result ≡ length (pairs self.now) }
    {
        self.items.len()
    }

    /// The key and the value at a place; None exactly past the end.
    pub fn at(&self, index: usize) -> Option<(&str, &Value)>
        ensures { option_map (λ pair. (pair.0.now, pair.1.now)) result
            ≡ slice_get (pairs self.now) index }
    {
        match self.items.at(index) {
            Some(pair) => Some((pair.0.as_str(), &pair.1)),
            None => None,
        }
    }

    pub fn as_slice(&self) -> &[(Text, Value)]
        ensures { result.now ≡ pairs self.now }
    {
        self.items.as_slice()
    }

    /// Adds a pair at the end, whatever keys there are.
    pub fn push(&mut self, key: Text, value: Value) -> Result<(), AllocError>
        ensures ok { OnOk result (pairs self.new ≡ pairs self.old ++ (key, value) ∷ []) }
        ensures err { OnErr result (self.new ≡ self.old) }
    {
        self.items.push((key, value))
    }

    /// Removes the last pair and answers it; None exactly where the list is empty.
    pub fn take(&mut self) -> Option<(Text, Value)>
        ensures { MatchOption result ((pairs self.old ≡ []) × (pairs self.new ≡ []))
            (λ last. pairs self.old ≡ pairs self.new ++ last ∷ []) }
    {
        self.items.take()
    }

    /// The value of the first pair with the key.
    pub fn get(&self, key: &str) -> Option<&Value>
        ensures { option_copied result ≡ get (pairs self.now) key.now }
    {
        for pair in self.as_slice() {
            if pair.0.as_str() == key {
                return Some(&pair.1);
            }
        }
        None
    }

    /// Gives the first pair with the key this value, or adds a pair at the end.
    pub fn put(&mut self, key: &str, value: Value) -> Result<(), AllocError>
        ensures ok { OnOk result (pairs self.new ≡ put (pairs self.old) key.now value) }
        ensures err { OnErr result (self.new ≡ self.old) }
    {
        match find(self.as_slice(), key) {
            Some(at) => {
                drop(mem::replace(&mut self.items.at_mut(at).1, value));
                Ok(())
            }
            None => {
                let key = Text::from_str(self.items.allocator(), key)?;
                self.items.push((key, value))
            }
        }
    }

    /// Gives the first pair with the key this value, and hands back the one that it had; where no
    /// pair has the key, the value comes back as an Err.
    pub fn replace(&mut self, key: &str, value: Value) -> Result<Value, Value>
        ensures there { IsOk result ↔ IsSome (get (pairs self.old) key.now) }
        ensures new { OnOk result (pairs self.new ≡ put (pairs self.old) key.now value) }
        ensures old { IfOk result (λ was. get (pairs self.old) key.now ≡ Some was) }
        ensures err { IfErr result (λ same. (same ≡ value) × (self.new ≡ self.old)) }
    {
        match find(self.as_slice(), key) {
            Some(at) => Ok(mem::replace(&mut self.items.at_mut(at).1, value)),
            None => Err(value),
        }
    }

    #[cycle(copy)]
    pub fn copy(&self) -> Result<Pairs, AllocError>
        ensures { IfOk result (λ copy. copy ≡ self.now) }
    {
        let mut items = ItemList::with_capacity(self.items.allocator(), self.items.len())?;
        for pair in self.items.as_slice() {
            items.push((pair.0.copy()?, pair.1.copy()?))?;
        }
        Ok(Pairs { items })
    }
}

pub(crate) fn has_key(list: &[(Text, Value)], key: &str) -> bool
    ensures { result ≡ has_key list.now key.now }
{
    for pair in list {
        if pair.0.as_str() == key {
            return true;
        }
    }
    false
}

// Where the first pair with the key stands, which `put` changes.
#[tactic(auto, using(crate::proofs::Positions::puts_at))]
pub(crate) fn find(list: &[(Text, Value)], key: &str) -> Option<usize>
    ensures place { result ≡ position list.now key.now }
    ensures puts { PutsAt list.now key.now result }
{
    first_place(list, key)
}

fn first_place(list: &[(Text, Value)], key: &str) -> Option<usize>
    ensures { result ≡ position list.now key.now }
{
    for (i, pair) in list.iter().enumerate() {
        if pair.0.as_str() == key {
            return Some(i);
        }
    }
    None
}
