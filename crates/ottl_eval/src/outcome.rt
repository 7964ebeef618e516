//! Outcomes of statements.

ghost use Rattle.std.specs.Prelude.{◌≡◌};
ghost use Rattle.ottl_eval.specs.Statements.{stopped};

use pdata_value::{EvalErr, EvalStop};

/// What became of a statement.
#[derive(Clone, Copy, Debug, PartialEq, Eq)]
pub enum Outcome {
    /// The condition holds, and the edit was made, if there was anything to do.
    Done,
    /// The condition is false.
    Skipped,
    Err(EvalErr),
    NoMemory,
}

// An outcome that changes nothing.
pub(crate) fn stopped(stop: EvalStop) -> Outcome
    ensures { result ≡ stopped stop }
{
    match stop {
        EvalStop::Err(error) => Outcome::Err(error),
        EvalStop::NoMemory => Outcome::NoMemory,
    }
}
