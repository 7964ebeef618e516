//! Lists of values.

ghost use Rattle.std.specs.Prelude.{◌≡◌, ◌++◌, ◌∷◌, [], ◌<◌, length, slice_get, slice_set, IfOk, OnOk, OnErr, OnSome, MatchOption, Some};
ghost use Rattle.std.specs.Option.{option_copied};
ghost use Rattle.pdata_value.specs.Value.{items};

use crate::value::Value;
use item_list::ItemList;
use std::alloc::{AllocError, Global};

/// A list of values.
#[cycle(value)]
#[derive(Drop)]
pub struct Values {
    items: ItemList<Value>,
}

impl Values {
    /// An empty list, which takes no memory.
    pub fn new(alloc: Global) -> Values
        ensures { items result ≡ [] }
    {
        Values {
            items: ItemList::new(alloc),
        }
    }

    pub fn from_list(list: ItemList<Value>) -> Values
        ensures { items result ≡ list }
    {
        Values { items: list }
    }

    pub fn into_list(self) -> ItemList<Value>
        ensures { result ≡ items self }
    {
        self.items
    }

    pub fn len(&self) -> usize
        ensures { result ≡ length (items self.now) }
    {
        self.items.len()
    }

    /// The value at a place; None exactly past the end.
    pub fn at(&self, index: usize) -> Option<&Value>
        ensures value { option_copied result ≡ slice_get (items self.now) index }
        ensures within { OnSome result (index < length (items self.now)) }
    {
        self.items.at(index)
    }

    pub fn as_slice(&self) -> &[Value]
        ensures { result.now ≡ items self.now }
    {
        self.items.as_slice()
    }

    pub fn push(&mut self, value: Value) -> Result<(), AllocError>
        ensures ok { OnOk result (items self.new ≡ items self.old ++ value ∷ []) }
        ensures err { OnErr result (self.new ≡ self.old) }
    {
        self.items.push(value)
    }

    /// Removes the last value and answers it; None exactly where the list is empty.
    pub fn take(&mut self) -> Option<Value>
        ensures { MatchOption result ((items self.old ≡ []) × (items self.new ≡ []))
            (λ last. items self.old ≡ items self.new ++ last ∷ []) }
    {
        self.items.take()
    }

    /// Puts a value in a place, and hands back the one that stood there.
    pub fn replace(&mut self, index: usize, value: Value) -> Value
        requires { index < length (items self.old) }
        ensures new { items self.new ≡ slice_set (items self.old) index value }
        ensures old { slice_get (items self.old) index ≡ Some result }
    {
        self.items.replace(index, value)
    }

    #[cycle(copy)]
    pub fn copy(&self) -> Result<Values, AllocError>
        ensures { IfOk result (λ copy. copy ≡ self.now) }
    {
        let mut items = ItemList::with_capacity(self.items.allocator(), self.items.len())?;
        for item in self.items.as_slice() {
            items.push(item.copy()?)?;
        }
        Ok(Values { items })
    }
}
