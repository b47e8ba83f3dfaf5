//! Why a format is refused.
ghost use Rattle.std.specs.Prelude.{◌≡◌};
ghost use Rattle.vs_strobe.specs.declared.fault.FormatFault.TheVariants as fault;

use std::alloc::{AllocError, AllocFailed};
use thiserror::Error;

/// What is wrong with a text and its arguments.
#[derive(Clone, Copy, PartialEq, Eq, Debug, Error)]
pub enum FormatReason {
    /// A `%` without a directive behind it (IEEE 1364-2005, clause 17.1.1.2, and profile).
    #[error("F1")]
    BadDirective,
    /// Fewer arguments than the directives take.
    #[error("F2")]
    TooFewArguments,
    /// More arguments than the directives take.
    #[error("F3")]
    TooManyArguments,
}

/// Why a format was not read.
#[derive(Clone, Copy, PartialEq, Eq, Debug)]
pub enum FormatFault {
    /// A growth was refused.
    Memory,
    /// The text or its arguments have this fault.
    Refused(FormatReason),
}

impl From<AllocError> for FormatFault {
    ghost from_gives = { λ _ e. e ≡ fault.Memory };

    fn from(_e: AllocError) -> FormatFault {
        FormatFault::Memory
    }
}

impl<T: Drop> From<AllocFailed<T>> for FormatFault {
    ghost from_gives = { λ _ e. e ≡ fault.Memory };

    fn from(_e: AllocFailed<T>) -> FormatFault {
        FormatFault::Memory
    }
}
