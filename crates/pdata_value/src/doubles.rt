//! Whether a double stands in a value.

ghost use Rattle.std.specs.Prelude.{◌≡◌};
ghost use Rattle.pdata_value.specs.Doubles.{has_double, some_has_double, some_pair_has_double};

use crate::text::Text;
use crate::value::Value;

impl Value {
    /// Whether the value is a double, or has one anywhere in it.
    #[cycle(double)]
    #[tactic(auto, using(crate::proofs::DoubleCases::doubles))]
    pub fn has_double(&self) -> bool
        ensures { result ≡ has_double self.now }
    {
        match self {
            Value::Empty | Value::Truth(_) | Value::Int(_) => false,
            Value::Text(_) | Value::Bytes(_) => false,
            Value::Double(_) => true,
            Value::List(values) => some_has_double(values.as_slice()),
            Value::Map(pairs) => some_pair_has_double(pairs.as_slice()),
        }
    }
}

#[cycle(double)]
fn some_has_double(values: &[Value]) -> bool
    ensures { result ≡ some_has_double values.now }
{
    for value in values {
        if value.has_double() {
            return true;
        }
    }
    false
}

#[cycle(double)]
fn some_pair_has_double(pairs: &[(Text, Value)]) -> bool
    ensures { result ≡ some_pair_has_double pairs.now }
{
    for pair in pairs {
        if pair.1.has_double() {
            return true;
        }
    }
    false
}
