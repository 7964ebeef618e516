//! The value that an editor changes.

ghost use Rattle.std.specs.Prelude.{◌≡◌, option_map};
ghost use Rattle.contract_words.specs.Gives.{Gives};
ghost use Rattle.pdata_value.specs.Errors.{eval_fault};
ghost use Rattle.pdata_value.specs.Value.{pairs};
ghost use Rattle.pdata_value.specs.Answers.{Answers};
ghost use Rattle.func_text.specs.Matching.{changed};
ghost use Rattle.pdata_value.specs.Wanted.{made, map_of};
ghost use Rattle.func_map.specs.Edits.{set_of, target_in};

use pdata_value::{EvalErr, EvalStop, Pairs, Value, made};

/// The value, which is then written, unless it is nil.
pub fn set(_target: &Value, value: &Value) -> Result<Option<Value>, EvalStop>
    ensures { Answers result (set_of _target.now value.now) }
{
    match value {
        Value::Empty => Ok(None),
        _ => Ok(Some(value.copy()?)),
    }
}

/// The map that a target is; nil is none.
pub(crate) fn target_in(target: &Value) -> Result<Option<&Pairs>, EvalStop>
    ensures { Gives (λ map. option_map (λ map. pairs map.now) map) eval_fault result
        (target_in target.now) }
{
    match target {
        Value::Empty => Ok(None),
        Value::Map(map) => Ok(Some(map)),
        _ => Err(EvalStop::Err(EvalErr::KindOf)),
    }
}

/// The map that an editor makes.
pub(crate) fn new_map(map: Pairs) -> Result<Option<Value>, EvalStop>
    ensures { Answers result (changed (made (map_of (pairs map)))) }
{
    let value = made(Value::Map(map))?;
    Ok(Some(value))
}
