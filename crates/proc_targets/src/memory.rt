//! Want of memory in the work of a component.

ghost use Rattle.std.specs.Prelude.{◌≡◌, Ok, IfOk, IfErr, suc};
ghost use Rattle.proc_targets.specs.Ends.{end_at};

use conf_json::{PlainStop, StepEnd};
use std::alloc::AllocError;

/// The number as places and notes have it. Numbers past 32 bits want more memory than there is.
pub fn narrow(number: usize) -> Result<u32, AllocError>
    ensures { IfOk result (λ narrow. narrow ≡ number) }
{
    match u32::try_from(number) {
        Ok(narrow) => Ok(narrow),
        Err(_) => Err(AllocError),
    }
}

/// What was made, or the stop of a component for want of memory.
pub fn or_stop<T: Drop>(made: Result<T, AllocError>) -> Result<T, PlainStop>
    ensures ok { IfOk result (λ value. made ≡ Ok value) }
    ensures err { IfErr result (λ stop. stop ≡ PlainStop.NoMemory) }
{
    match made {
        Ok(value) => Ok(value),
        Err(_) => Err(PlainStop::NoMemory),
    }
}

/// The number behind a number of steps. Steps past 64 bits want more memory than there is.
pub fn one_more(number: u64) -> Result<u64, AllocError>
    ensures { IfOk result (λ more. more ≡ suc number) }
{
    number.checked_add(1).ok_or(AllocError)
}

/// How a step ends that was stopped.
pub fn end_of(stop: PlainStop) -> StepEnd
    ensures { result ≡ end_at stop }
{
    match stop {
        PlainStop::Failed(note) => StepEnd::Failed(note),
        PlainStop::NoMemory => StepEnd::NoMemory,
    }
}
