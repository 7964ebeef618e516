//! Errors of evaluation.

ghost use Rattle.std.specs.Prelude.{◌≡◌, Some};
ghost use Rattle.pdata_value.specs.Errors.{error_name};
ghost use Rattle.pdata_value.specs.declared.error.EvalStop.TheVariants.{NoMemory};

use std::alloc::{AllocError, AllocFailed};
use std::fmt;

/// Why an expression has no value, or an edit isn't made.
#[derive(Clone, Copy, Debug, PartialEq, Eq)]
pub enum EvalErr {
    /// An argument or an operand is empty.
    NilArgument,
    /// A value is of another kind than is wanted.
    KindOf,
    /// The number of a double is wanted.
    Double,
    /// A number or an index is out of its range.
    Range,
    DivideByZero,
    /// A result is out of 64 bits signed.
    Overflow,
    /// A text has another form than is wanted.
    BadText,
    /// A value is deeper or heavier than is allowed.
    Large,
}

impl fmt::Display for EvalErr {
    ghost output = { λ error. Some (error_name error) };

    fn fmt<W: fmt::Write>(&self, f: &mut fmt::Formatter<W>) -> fmt::Result {
        match self {
            EvalErr::NilArgument => write!(f, "NilArgument"),
            EvalErr::KindOf => write!(f, "KindOf"),
            EvalErr::Double => write!(f, "Double"),
            EvalErr::Range => write!(f, "Range"),
            EvalErr::DivideByZero => write!(f, "DivideByZero"),
            EvalErr::Overflow => write!(f, "Overflow"),
            EvalErr::BadText => write!(f, "BadText"),
            EvalErr::Large => write!(f, "Large"),
        }
    }
}

/// An error of evaluation, or want of memory.
#[derive(Clone, Copy, Debug, PartialEq, Eq)]
pub enum EvalStop {
    Err(EvalErr),
    NoMemory,
}

impl From<AllocError> for EvalStop {
    ghost from_gives = { λ _ stop. stop ≡ NoMemory };

    fn from(_error: AllocError) -> EvalStop {
        EvalStop::NoMemory
    }
}

impl<T: Drop> From<AllocFailed<T>> for EvalStop {
    ghost from_gives = { λ _ stop. stop ≡ NoMemory };

    fn from(_error: AllocFailed<T>) -> EvalStop {
        EvalStop::NoMemory
    }
}
