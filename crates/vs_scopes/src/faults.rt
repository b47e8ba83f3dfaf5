//! Why a source and a top define no design.
ghost use Rattle.std.specs.Prelude.{◌≡◌};
ghost use Rattle.vs_scopes.specs.declared.faults.ElabFault.TheVariants as elaboration;
ghost use Rattle.vs_scopes.specs.declared.faults.BodyFault.TheVariants as body;
ghost use Rattle.vs_scopes.specs.declared.faults.ParameterRefusal.TheVariants as parameter;
ghost use Rattle.vs_scopes.specs.scopes_passes.Answers.{body_fault};

use std::alloc::{AllocError, AllocFailed};
use thiserror::Error;
use vs_strobe::FormatReason;
use vs_widths::{WidthFault, WidthReason};

/// Why there is no design, as it is printed.
#[derive(Clone, Copy, PartialEq, Eq, Debug, Error)]
pub enum Reason {
    /// There is no such module.
    #[error("E1")]
    NoModule,
    /// A module is instantiated inside itself.
    #[error("E2")]
    Inside,
    /// Connections don't fit the ports of a module, or a port is none that a module can have.
    #[error("E3")]
    PortMismatch,
    /// Overrides don't fit the parameters of a module.
    #[error("E4")]
    ParameterMismatch,
    /// A scope declares a name twice, or two modules have one name.
    #[error("E5")]
    DeclaredTwice,
    /// A bit of a net is driven twice, by two continuous assignments or by one.
    #[error("E6")]
    DrivenTwice,
    /// More than 65,536 signals, 16,384 instances, 64 levels of them, 65,536 turns of generate loops or 65,536 words of an array, or a delay of 2^62
    /// ticks or more.
    #[error("E7")]
    Limit,
    /// An expression, an assignment or a delay has no meaning.
    #[error("E8 {0}")]
    Width(WidthReason),
    /// A generate loop doesn't end within 65,536 turns.
    #[error("E9")]
    Endless,
    /// An unnamed generate block has no free name of at most 1,024 bytes.
    #[error("E10")]
    Unnamed,
    /// Two directives give different time scales.
    #[error("E11")]
    Timescales,
    /// The text of a `$display` or a `$strobe` has a bad directive, or its directives don't fit its arguments.
    #[error("E12 {0}")]
    Format(FormatReason),
}

/// A refusal.
#[derive(Debug, Drop, Error)]
pub enum ElabFault {
    /// A growth was refused.
    #[error("memory")]
    Memory,
    /// A fault, with the printed path of the scope, the module or the name where it stands.
    #[error("{0}")]
    At(Reason, Vec<u8>),
}

impl From<AllocError> for ElabFault {
    ghost from_gives = { λ _ e. e ≡ elaboration.Memory };

    fn from(_e: AllocError) -> ElabFault {
        ElabFault::Memory
    }
}

impl<T: Drop> From<AllocFailed<T>> for ElabFault {
    ghost from_gives = { λ _ e. e ≡ elaboration.Memory };

    fn from(_e: AllocFailed<T>) -> ElabFault {
        ElabFault::Memory
    }
}

/// Why a part of a scope was refused, its path apart.
#[derive(Clone, Copy)]
pub enum BodyFault {
    /// A growth was refused.
    Memory,
    /// The part has this fault.
    Refused(Reason),
}

impl From<AllocError> for BodyFault {
    ghost from_gives = { λ _ e. e ≡ body.Memory };

    fn from(_e: AllocError) -> BodyFault {
        BodyFault::Memory
    }
}

impl<T: Drop> From<AllocFailed<T>> for BodyFault {
    ghost from_gives = { λ _ e. e ≡ body.Memory };

    fn from(_e: AllocFailed<T>) -> BodyFault {
        BodyFault::Memory
    }
}

impl From<WidthFault> for BodyFault {
    ghost from_gives = { λ fault e. e ≡ body_fault fault };

    fn from(fault: WidthFault) -> BodyFault {
        match fault {
            WidthFault::Memory => BodyFault::Memory,
            WidthFault::Refused(reason) => BodyFault::Refused(Reason::Width(reason)),
        }
    }
}

/// Why the parameters of a module have no values.
#[derive(Clone, Copy)]
pub enum ParameterRefusal {
    /// A growth was refused.
    Memory,
    /// One is overridden that there isn't, or one twice, or too many (IEEE 1364-2005, clause 12.2.2).
    Mismatch,
    /// An expression that overrides one has this fault, in the scope around.
    Outer(WidthReason),
    /// A declaration of the module has this fault.
    Own(WidthReason),
}

impl From<AllocError> for ParameterRefusal {
    ghost from_gives = { λ _ e. e ≡ parameter.Memory };

    fn from(_e: AllocError) -> ParameterRefusal {
        ParameterRefusal::Memory
    }
}

impl<T: Drop> From<AllocFailed<T>> for ParameterRefusal {
    ghost from_gives = { λ _ e. e ≡ parameter.Memory };

    fn from(_e: AllocFailed<T>) -> ParameterRefusal {
        ParameterRefusal::Memory
    }
}
