//! Faults of a statement's text, and their printed form.

ghost use Rattle.std.specs.Prelude.{◌≡◌, Some};
ghost use Rattle.ottl_lex.specs.declared.fault.SyntaxStop.TheVariants.{Fault, NoMemory};
ghost use Rattle.ottl_lex.specs.Names.{fault_text, kind_name};

use std::alloc::AllocError;
use std::fmt;

/// What is wrong at a place. `lex` answers the first six alone.
#[derive(Clone, Copy, Debug, PartialEq, Eq)]
pub enum SyntaxKind {
    /// No token begins here.
    BadChar,
    /// A text without a closing quote, or with a newline; at its quote.
    OpenText,
    /// An escape that the token table doesn't have; at its backslash.
    BadEscape,
    /// A text that isn't UTF-8 after its escapes; at its quote.
    NotUtf8,
    /// Digits, a point and a digit; at the first digit.
    Fraction,
    /// Digits before a letter or `_`, or `0x` before an odd number of digits or none; at the first
    /// digit.
    BadNumber,
    /// A whole number that isn't within 64 bits signed.
    Wide,
    Unexpected,
    ConditionWanted,
    ValueWanted,
    TooDeep,
}

impl fmt::Display for SyntaxKind {
    ghost output = { λ kind. Some (kind_name kind) };

    fn fmt<W: fmt::Write>(&self, f: &mut fmt::Formatter<W>) -> fmt::Result {
        let name = match self {
            SyntaxKind::BadChar => "BadChar",
            SyntaxKind::OpenText => "OpenText",
            SyntaxKind::BadEscape => "BadEscape",
            SyntaxKind::NotUtf8 => "NotUtf8",
            SyntaxKind::Fraction => "Fraction",
            SyntaxKind::BadNumber => "BadNumber",
            SyntaxKind::Wide => "Wide",
            SyntaxKind::Unexpected => "Unexpected",
            SyntaxKind::ConditionWanted => "ConditionWanted",
            SyntaxKind::ValueWanted => "ValueWanted",
            SyntaxKind::TooDeep => "TooDeep",
        };
        write!(f, "{name}")
    }
}

/// A fault, and the byte at which it stands.
#[derive(Clone, Copy, Debug, PartialEq, Eq)]
pub struct SyntaxFault {
    pub kind: SyntaxKind,
    pub at: u32,
}

impl fmt::Display for SyntaxFault {
    ghost output = { λ fault. Some (fault_text fault) };

    fn fmt<W: fmt::Write>(&self, f: &mut fmt::Formatter<W>) -> fmt::Result {
        let kind = self.kind;
        let at = self.at;
        write!(f, "{kind} at {at}")
    }
}

/// Why a text has no tokens, or no statement.
#[derive(Clone, Copy, Debug, PartialEq, Eq)]
pub enum SyntaxStop {
    Fault(SyntaxFault),
    NoMemory,
}

impl From<AllocError> for SyntaxStop {
    ghost from_gives = { λ _ stop. stop ≡ NoMemory };

    fn from(_: AllocError) -> SyntaxStop {
        SyntaxStop::NoMemory
    }
}

impl From<SyntaxFault> for SyntaxStop {
    ghost from_gives = { λ fault stop. stop ≡ Fault fault };

    fn from(fault: SyntaxFault) -> SyntaxStop {
        SyntaxStop::Fault(fault)
    }
}

pub(crate) fn stop(kind: SyntaxKind, at: u32) -> SyntaxStop
    ensures { result ≡ SyntaxStop.Fault (record { kind = kind; at = at }) }
{
    SyntaxStop::Fault(SyntaxFault { kind, at })
}
