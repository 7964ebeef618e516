//! Values.

ghost use Rattle.std.specs.Prelude.{◌≡◌, IfOk};

use crate::bytes::Bytes;
use crate::pairs::Pairs;
use crate::spelling::Spelling;
use crate::text::Text;
use crate::values::Values;
use std::alloc::AllocError;

/// An attribute value. `Empty` is what OTTL calls nil.
#[cycle(value)]
#[derive(Drop)]
pub enum Value {
    Empty,
    Text(Text),
    Truth(bool),
    Int(i64),
    Double(Spelling),
    Bytes(Bytes),
    List(Values),
    Map(Pairs),
}

impl Value {
    #[cycle(copy)]
    pub fn copy(&self) -> Result<Value, AllocError>
        ensures { IfOk result (λ copy. copy ≡ self.now) }
    {
        match self {
            Value::Empty => Ok(Value::Empty),
            Value::Text(text) => Ok(Value::Text(text.copy()?)),
            Value::Truth(truth) => Ok(Value::Truth(*truth)),
            Value::Int(int) => Ok(Value::Int(*int)),
            Value::Double(spelling) => Ok(Value::Double(spelling.copy()?)),
            Value::Bytes(bytes) => Ok(Value::Bytes(bytes.copy()?)),
            Value::List(values) => Ok(Value::List(values.copy()?)),
            Value::Map(pairs) => Ok(Value::Map(pairs.copy()?)),
        }
    }
}
