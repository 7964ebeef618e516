//! Reads the JSON of a configuration.

ghost use Rattle.std.specs.Prelude.{[]};
ghost use Rattle.contract_words.specs.Gives.{Gives};
ghost use Rattle.serde_json.specs.Read.{read};
ghost use Rattle.serde_json.specs.View.{view};
ghost use Rattle.conf_shape.specs.Fault.{Finds, fault_in};
ghost use Rattle.conf_shape.specs.Shaped.{json_of, shaped, valued};
ghost use Rattle.conf_shape.specs.Shape.{shape_fault};
ghost use Rattle.conf_shape.specs.declared.table.Part.TheVariants.{Top};
ghost use Rattle.conf_shape.specs.declared.table.Rule.TheVariants.{Object};

use crate::fault::{PointedStop, told};
use crate::kind::FaultKind;
use crate::path::Path;
use crate::shape::check;
use crate::table::{Part, Rule};
use serde_json::Value;
use std::alloc::Global;
use std::str;

/// The value of a configuration whose shape is right, or its first fault.
#[tactic(auto, unfolding(crate::specs::Shaped::shaped))]
pub fn read_shape(alloc: Global, bytes: &[u8]) -> Result<Value, PointedStop>
    ensures { Gives view fault_in result (shaped bytes.now) }
{
    let value = read_value(alloc, bytes)?;
    check_value(alloc, &value)?;
    Ok(value)
}

fn check_value(alloc: Global, value: &Value) -> Result<(), PointedStop>
    ensures { Finds result (shape_fault (Object Top) [] (view value.now)) }
{
    check(alloc, Rule::Object(Part::Top), &Path::Top, value)
}

fn read_value(alloc: Global, bytes: &[u8]) -> Result<Value, PointedStop>
    ensures { Gives view fault_in result (valued (json_of bytes.now)) }
{
    let Ok(text) = str::from_utf8(bytes) else {
        return Err(told(alloc, FaultKind::BadJson, &Path::Top));
    };
    read_text(alloc, text)
}

fn read_text(alloc: Global, text: &str) -> Result<Value, PointedStop>
    ensures { Gives view fault_in result (valued (read text.now)) }
{
    match Value::from_str(alloc, text) {
        Ok(value) => Ok(value),
        Err(error) => {
            if error.is_memory() {
                return Err(PointedStop::NoMemory);
            }
            Err(told(alloc, FaultKind::BadJson, &Path::Top))
        }
    }
}
