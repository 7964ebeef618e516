//! Values that are looked at: lent where they stand.

ghost use Rattle.std.specs.Prelude.{◌≡◌, IfOk};
ghost use Rattle.pdata_tree.specs.Seen.{seen};

use pdata_value::{Text, Value};
use std::alloc::AllocError;

/// A value that is looked at: lent, or made where none is held that could be lent.
#[derive(Drop)]
pub enum Seen<'a> {
    Lent(&'a Value),
    /// A text that is held by itself.
    Text(&'a Text),
    Made(Value),
}

impl<'a> Seen<'a> {
    /// The value on its own: one that is lent is copied.
    pub fn into_value(self) -> Result<Value, AllocError>
        ensures { IfOk result (λ value. value ≡ seen self.entry) }
    {
        match self {
            Seen::Lent(value) => value.copy(),
            Seen::Text(text) => Ok(Value::Text(text.copy()?)),
            Seen::Made(value) => Ok(value),
        }
    }
}
