//! What may be wrong in a configuration.

ghost use Rattle.std.specs.Prelude.{◌≡◌, Some};
ghost use Rattle.conf_shape.specs.Kinds.{number_of, name_of};

use std::fmt;

/// The kinds of faults, in the order of their numbers.
#[derive(Clone, Copy, Debug, PartialEq, Eq)]
pub enum FaultKind {
    BadJson,
    WrongKind,
    UnknownKey,
    MissingKey,
    BadName,
    UnknownComponent,
    BadMode,
    Repeated,
    UnknownPipeline,
    NoReceiver,
    NoExporter,
    UnusedConnector,
    TooManyPipelines,
    TooManyStatements,
    SamePath,
    BadStatement,
    CycleOf,
    TooManyRoots,
    TooManyLegs,
}

impl FaultKind {
    /// The number that is printed before the name, from 1.
    pub fn number(self) -> u32
        ensures { result ≡ number_of self }
    {
        match self {
            FaultKind::BadJson => 1,
            FaultKind::WrongKind => 2,
            FaultKind::UnknownKey => 3,
            FaultKind::MissingKey => 4,
            FaultKind::BadName => 5,
            FaultKind::UnknownComponent => 6,
            FaultKind::BadMode => 7,
            FaultKind::Repeated => 8,
            FaultKind::UnknownPipeline => 9,
            FaultKind::NoReceiver => 10,
            FaultKind::NoExporter => 11,
            FaultKind::UnusedConnector => 12,
            FaultKind::TooManyPipelines => 13,
            FaultKind::TooManyStatements => 14,
            FaultKind::SamePath => 15,
            FaultKind::BadStatement => 16,
            FaultKind::CycleOf => 17,
            FaultKind::TooManyRoots => 18,
            FaultKind::TooManyLegs => 19,
        }
    }
}

impl fmt::Display for FaultKind {
    ghost output = { λ kind. Some (name_of kind) };

    fn fmt<W: fmt::Write>(&self, f: &mut fmt::Formatter<W>) -> fmt::Result {
        let name = match self {
            FaultKind::BadJson => "BadJson",
            FaultKind::WrongKind => "WrongKind",
            FaultKind::UnknownKey => "UnknownKey",
            FaultKind::MissingKey => "MissingKey",
            FaultKind::BadName => "BadName",
            FaultKind::UnknownComponent => "UnknownComponent",
            FaultKind::BadMode => "BadMode",
            FaultKind::Repeated => "Repeated",
            FaultKind::UnknownPipeline => "UnknownPipeline",
            FaultKind::NoReceiver => "NoReceiver",
            FaultKind::NoExporter => "NoExporter",
            FaultKind::UnusedConnector => "UnusedConnector",
            FaultKind::TooManyPipelines => "TooManyPipelines",
            FaultKind::TooManyStatements => "TooManyStatements",
            FaultKind::SamePath => "SamePath",
            FaultKind::BadStatement => "BadStatement",
            FaultKind::CycleOf => "CycleOf",
            FaultKind::TooManyRoots => "TooManyRoots",
            FaultKind::TooManyLegs => "TooManyLegs",
        };
        write!(f, "{name}")
    }
}
