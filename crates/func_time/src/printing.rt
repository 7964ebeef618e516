//! From a moment to text, by `jiff`.

ghost use Rattle.std.specs.Prelude.{◌≡◌, true, IfOk, string_bytes};
ghost use Rattle.func_time.specs.Formats.{is_letter, is_format, time_text};
ghost use Rattle.jiff_core.specs.declared.error.Error.TheVariants.{OutOfMemory};

use crate::civil::civil;
use jiff_core::Error;
use jiff_strtime::{BrokenDownTime, Config};
use std::alloc::{AllocError, Global};

// The letter of a directive.
fn is_letter(byte: u8) -> bool
    ensures { result ≡ is_letter byte }
{
    byte == b'Y'
        || byte == b'm'
        || byte == b'd'
        || byte == b'H'
        || byte == b'M'
        || byte == b'S'
        || byte == b'%'
}

/// Whether each `%` of a format begins one of `%Y %m %d %H %M %S %%`.
#[tactic(auto, using(crate::proofs::Runs::only_end, crate::proofs::Runs::only_bad, crate::proofs::Runs::only_after, crate::proofs::Runs::only_before))]
pub fn is_time_format(format: &str) -> bool
    ensures { result ≡ is_format format.now }
{
    let bytes = format.as_bytes();
    let mut after = false;
    for &byte in bytes {
        if after {
            if !is_letter(byte) {
                return false;
            }
            after = false;
        } else {
            after = byte == b'%';
        }
    }
    !after
}

// The only error of a printer that is given such a format.
fn want_of_memory(error: Error) -> AllocError
    requires { error ≡ OutOfMemory }
{
    match error {
        Error::OutOfMemory => AllocError,
        _ => unreachable!(),
    }
}

/// What a format of the seven directives shows of a moment.
pub(crate) fn time_text(alloc: Global, moment: i64, format: &str) -> Result<String, AllocError>
    requires { is_format format.now ≡ true }
    ensures { IfOk result (λ text. string_bytes text ≡ time_text moment format.now) }
{
    let parts = BrokenDownTime::from_datetime(civil(moment));
    match jiff_strtime::to_string(alloc, Config::new(), format.as_bytes(), &parts) {
        Ok(text) => Ok(text),
        Err(error) => Err(want_of_memory(error)),
    }
}
