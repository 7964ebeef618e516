//! Faults of a configuration, and where they stand.

ghost use Rattle.std.specs.Prelude.{◌≡◌};
ghost use Rattle.conf_shape.specs.Path.{pointer_of};
ghost use Rattle.conf_shape.specs.Pointer.{member_of};
ghost use Rattle.conf_shape.specs.Fault.{fault, Tells};

use crate::kind::FaultKind;
use crate::path::Path;
use pdata_value::Text;
use std::alloc::{AllocError, Global};

/// A fault, and its place as a JSON Pointer (RFC 6901).
#[derive(Drop)]
pub struct PointedFault {
    pub kind: FaultKind,
    pub at: Text,
}

/// Why a walk through a configuration ended early.
#[derive(Drop)]
pub enum PointedStop {
    Fault(PointedFault),
    NoMemory,
}

impl From<AllocError> for PointedStop {
    ghost use Rattle.conf_shape.specs.declared.fault.PointedStop.TheVariants.{NoMemory};

    ghost from_gives = { λ _ stop. stop ≡ NoMemory };

    fn from(_: AllocError) -> PointedStop {
        PointedStop::NoMemory
    }
}

/// The fault of that kind at the place.
pub fn told<'a>(alloc: Global, kind: FaultKind, path: &'a Path<'a>) -> PointedStop
    ensures { Tells result (fault kind (pointer_of path.now)) }
{
    match path.text(alloc) {
        Ok(at) => PointedStop::Fault(PointedFault { kind, at }),
        Err(_) => PointedStop::NoMemory,
    }
}

/// The fault of that kind at a member of the object at the place.
pub fn told_at<'a>(alloc: Global, kind: FaultKind, path: &'a Path<'a>, name: &'a str) -> PointedStop
    ensures { Tells result (fault kind (member_of (pointer_of path.now) name.now)) }
{
    told(alloc, kind, &Path::Member(path, name))
}
