//! Why a line is no payload.

ghost use Rattle.std.specs.Prelude.{◌≡◌};
ghost use Rattle.otlp_json.specs.declared.error.PayloadStop.TheVariants.{Fault};

use std::alloc::{AllocError, AllocFailed};
use std::fmt;

/// The kind of a fault.
#[derive(Clone, Copy, Debug, PartialEq, Eq)]
pub enum PayloadKind {
    /// The line is not UTF-8.
    BadUtf8,
    /// The line is no text of JSON (RFC 8259).
    BadJson,
    /// A container of JSON below 300 others, or a value below 64 others.
    TooDeep,
    /// The payload is no object.
    NotObject,
    /// A member, or an element of a list, has another kind of JSON than its table says.
    WrongKind,
    /// Not a whole number, or one out of the range of its field; or no double.
    BadNumber,
    /// Not as many hexadecimal digits as the id has.
    BadId,
    /// Not standard base64 with padding (RFC 4648, section 4).
    BadBase64,
    /// A record, an element or a value past the most that a payload may have.
    TooMany,
}

/// The first fault of a line, with its place, counted in bytes from 0. The place of a fault in a
/// field is the first byte of the value of JSON that stands there.
#[derive(Clone, Copy, Debug, PartialEq, Eq)]
pub struct PayloadFault {
    pub kind: PayloadKind,
    pub at: u32,
}

/// Why no payload was read.
#[derive(Clone, Copy, Debug, PartialEq, Eq)]
pub enum PayloadStop {
    Fault(PayloadFault),
    NoMemory,
}

impl fmt::Display for PayloadKind {
    ghost use Rattle.std.specs.Prelude.{Some};
    ghost use Rattle.otlp_json.specs.Names.{kind_name};

    ghost output = { λ kind. Some (kind_name kind) };

    fn fmt<W: fmt::Write>(&self, f: &mut fmt::Formatter<W>) -> fmt::Result {
        f.write_str(match self {
            PayloadKind::BadUtf8 => "BadUtf8",
            PayloadKind::BadJson => "BadJson",
            PayloadKind::TooDeep => "TooDeep",
            PayloadKind::NotObject => "NotObject",
            PayloadKind::WrongKind => "WrongKind",
            PayloadKind::BadNumber => "BadNumber",
            PayloadKind::BadId => "BadId",
            PayloadKind::BadBase64 => "BadBase64",
            PayloadKind::TooMany => "TooMany",
        })
    }
}

impl fmt::Display for PayloadFault {
    ghost use Rattle.std.specs.Prelude.{Some};
    ghost use Rattle.otlp_json.specs.Names.{fault_name};

    ghost output = { λ fault. Some (fault_name fault) };

    #[tactic(auto, unfolding(crate::specs::Names::fault_name))]
    fn fmt<W: fmt::Write>(&self, f: &mut fmt::Formatter<W>) -> fmt::Result {
        let PayloadFault { kind, at } = *self;
        write!(f, "{kind} at {at}")
    }
}

impl From<AllocError> for PayloadStop {
    ghost use Rattle.std.specs.Prelude.{◌≡◌};
    ghost use Rattle.otlp_json.specs.declared.error.PayloadStop.TheVariants.{NoMemory};

    ghost from_gives = { λ _ stop. stop ≡ NoMemory };

    fn from(_: AllocError) -> PayloadStop {
        PayloadStop::NoMemory
    }
}

pub(crate) fn stop(kind: PayloadKind, at: u32) -> PayloadStop
    ensures { result ≡ Fault (record { kind = kind; at = at }) }
{
    PayloadStop::Fault(PayloadFault { kind, at })
}
