//! Why statements were refused.
ghost use Rattle.std.specs.Prelude.{◌≡◌};
ghost use Rattle.vs_elab_statements.specs.declared.faults.StatementFault.TheVariants as statement;
ghost use Rattle.vs_elab_statements.specs.passes.Faults.{as_statement_fault, deeper};

use std::alloc::{AllocError, AllocFailed};
use vs_scopes::{BodyFault, Reason};

/// Why a statement was refused.
#[derive(Clone, Copy)]
pub enum StatementFault {
    /// A growth was refused.
    Memory,
    /// The process has more statements than have numbers.
    Overfull,
    /// A part that stands in the statement's own scope has this fault.
    Refused(Reason),
    /// A part that stands in the scope of this place has this fault: that of a named block in the statement.
    Inside(usize, Reason),
}

impl From<AllocError> for StatementFault {
    ghost from_gives = { λ _ e. e ≡ statement.Memory };

    fn from(_e: AllocError) -> StatementFault {
        StatementFault::Memory
    }
}

impl<T: Drop> From<AllocFailed<T>> for StatementFault {
    ghost from_gives = { λ _ e. e ≡ statement.Memory };

    fn from(_e: AllocFailed<T>) -> StatementFault {
        StatementFault::Memory
    }
}

impl From<BodyFault> for StatementFault {
    ghost from_gives = { λ fault e. e ≡ as_statement_fault fault };

    fn from(fault: BodyFault) -> StatementFault {
        match fault {
            BodyFault::Memory => StatementFault::Memory,
            BodyFault::Refused(reason) => StatementFault::Refused(reason),
        }
    }
}

/// A fault of statements of the scope of a place, as one of the statement that they stand in.
pub fn deeper(place: usize, fault: StatementFault) -> StatementFault
    ensures { result ≡ deeper place fault }
{
    match fault {
        StatementFault::Refused(reason) => StatementFault::Inside(place, reason),
        other => other,
    }
}
