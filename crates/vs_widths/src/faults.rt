//! Why an expression has no meaning.
ghost use Rattle.std.specs.Prelude.{◌≡◌};
ghost use Rattle.vs_widths.specs.declared.faults.WidthFault.TheVariants as fault;

use std::alloc::{AllocError, AllocFailed};
use thiserror::Error;

/// Why an expression, an assignment or a delay has no meaning.
#[derive(Clone, Copy, PartialEq, Eq, Debug, Error)]
pub enum WidthReason {
    /// A size of more than 64 bits (profile).
    #[error("X1")]
    TooWide,
    /// A name that is neither declared nor an implicit net (IEEE 1364-2005, clauses 4.5 and 12.7).
    #[error("X2")]
    Unknown,
    /// No constant where one is wanted, or one out of its range: a delay that is negative or has an x or z digit, a count of a replication
    /// or the size of a part-select below 1, bounds of a part-select that run against those of the range.
    #[error("X3")]
    NotConstant,
    /// A net that a procedural assignment assigns to, or a variable that a continuous one does; selects that the declaration of the name
    /// doesn't allow; or a name that has no value.
    #[error("X4")]
    WrongKind,
}

/// Why a call on an expression gave nothing.
#[derive(Clone, Copy, PartialEq, Eq, Debug)]
pub enum WidthFault {
    /// A growth was refused.
    Memory,
    /// The expression has this fault.
    Refused(WidthReason),
}

impl From<AllocError> for WidthFault {
    ghost from_gives = { λ _ e. e ≡ fault.Memory };

    fn from(_e: AllocError) -> WidthFault {
        WidthFault::Memory
    }
}

impl<T: Drop> From<AllocFailed<T>> for WidthFault {
    ghost from_gives = { λ _ e. e ≡ fault.Memory };

    fn from(_e: AllocFailed<T>) -> WidthFault {
        WidthFault::Memory
    }
}
