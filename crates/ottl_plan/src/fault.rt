//! Faults of planning.

ghost use Rattle.std.specs.Prelude.{◌≡◌, Some};
ghost use Rattle.ottl_plan.specs.declared.fault.PlanStop.TheVariants.{Fault, NoMemory};
ghost use Rattle.ottl_plan.specs.Faults.{fault_text, kind_name};

use std::alloc::AllocError;
use std::fmt;

/// What is wrong at a place.
#[derive(Clone, Copy, Debug, PartialEq, Eq)]
pub enum PlanKind {
    /// A path that the context doesn't have, or with keys where none may stand.
    UnknownPath,
    UnknownFunction,
    /// An upper name without parentheses that is no name of a severity.
    UnknownEnum,
    WrongArity,
    WrongKind,
    EditorWanted,
    ConverterWanted,
    /// A text that is none of a fixed set.
    BadMode,
    /// A pattern of more than 1,000 bytes.
    PatternLong,
    BadPattern,
    /// A pattern that the maker refused for its size.
    PatternSize,
}

impl fmt::Display for PlanKind {
    ghost output = { λ kind. Some (kind_name kind) };

    fn fmt<W: fmt::Write>(&self, f: &mut fmt::Formatter<W>) -> fmt::Result {
        let name = match self {
            PlanKind::UnknownPath => "UnknownPath",
            PlanKind::UnknownFunction => "UnknownFunction",
            PlanKind::UnknownEnum => "UnknownEnum",
            PlanKind::WrongArity => "WrongArity",
            PlanKind::WrongKind => "WrongKind",
            PlanKind::EditorWanted => "EditorWanted",
            PlanKind::ConverterWanted => "ConverterWanted",
            PlanKind::BadMode => "BadMode",
            PlanKind::PatternLong => "PatternLong",
            PlanKind::BadPattern => "BadPattern",
            PlanKind::PatternSize => "PatternSize",
        };
        write!(f, "{name}")
    }
}

/// A fault, and the byte of the statement's text at which it stands.
#[derive(Clone, Copy, Debug, PartialEq, Eq)]
pub struct PlanFault {
    pub kind: PlanKind,
    pub at: u32,
}

impl fmt::Display for PlanFault {
    ghost output = { λ fault. Some (fault_text fault) };

    fn fmt<W: fmt::Write>(&self, f: &mut fmt::Formatter<W>) -> fmt::Result {
        let kind = self.kind;
        let at = self.at;
        write!(f, "{kind} at {at}")
    }
}

/// Why a statement has no plan.
#[derive(Clone, Copy, Debug, PartialEq, Eq)]
pub enum PlanStop {
    Fault(PlanFault),
    NoMemory,
}

impl From<AllocError> for PlanStop {
    ghost from_gives = { λ _ stop. stop ≡ NoMemory };

    fn from(_: AllocError) -> PlanStop {
        PlanStop::NoMemory
    }
}

impl From<PlanFault> for PlanStop {
    ghost from_gives = { λ fault stop. stop ≡ Fault fault };

    fn from(fault: PlanFault) -> PlanStop {
        PlanStop::Fault(fault)
    }
}

pub(crate) fn stop(kind: PlanKind, at: u32) -> PlanStop
    ensures { result ≡ PlanStop.Fault (record { kind = kind; at = at }) }
{
    PlanStop::Fault(PlanFault { kind, at })
}
