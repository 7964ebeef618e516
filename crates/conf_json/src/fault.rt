//! Faults of a configuration.

ghost use Rattle.std.specs.Prelude.{◌≡◌, Some};
ghost use Rattle.conf_json.specs.Fault.{Tells, fault, fault_of, without_inner};
ghost use Rattle.conf_shape.specs.Fault as pointed;
ghost use Rattle.conf_shape.specs.Path.{pointer_of};

use conf_shape::{FaultKind, Path, PointedStop};
use ottl_lex::SyntaxFault;
use ottl_plan::PlanFault;
use pdata_value::Text;
use std::alloc::{AllocError, Global};

/// What is wrong with a statement or a condition.
#[derive(Clone, Copy, Debug, PartialEq, Eq)]
pub enum Inner {
    Syntax(SyntaxFault),
    Plan(PlanFault),
}

/// A fault, and its place as a JSON Pointer (RFC 6901). A `BadStatement` says what is wrong with
/// it.
#[derive(Drop)]
pub struct ConfFault {
    pub kind: FaultKind,
    pub at: Text,
    pub inner: Option<Inner>,
}

/// Why no settings came.
#[derive(Drop)]
pub enum ConfStop {
    Fault(ConfFault),
    NoMemory,
}

impl From<AllocError> for ConfStop {
    ghost use Rattle.conf_json.specs.declared.fault.ConfStop.TheVariants.{NoMemory};

    ghost from_gives = { λ _ stop. stop ≡ NoMemory };

    fn from(_: AllocError) -> ConfStop {
        ConfStop::NoMemory
    }
}

impl From<PointedStop> for ConfStop {
    ghost use Rattle.conf_json.specs.Fault.{from_pointed};

    ghost from_gives = { λ stop mine. mine ≡ from_pointed stop };

    fn from(stop: PointedStop) -> ConfStop {
        match stop {
            PointedStop::Fault(fault) => ConfStop::Fault(ConfFault {
                kind: fault.kind,
                at: fault.at,
                inner: None,
            }),
            PointedStop::NoMemory => ConfStop::NoMemory,
        }
    }
}

/// The statement at the place is wrong in that way.
pub(crate) fn bad_statement<'a>(alloc: Global, path: &'a Path<'a>, inner: Inner) -> ConfStop
    ensures { Tells result (fault (pointer_of path.now) inner) }
{
    match path.text(alloc) {
        Ok(at) => ConfStop::Fault(ConfFault {
            kind: FaultKind::BadStatement,
            at,
            inner: Some(inner),
        }),
        Err(_) => ConfStop::NoMemory,
    }
}
