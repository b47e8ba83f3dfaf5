//! Why a source is refused.
ghost use Rattle.vs_lexer.specs.declared.fault.LexFault.TheVariants.{Memory};
ghost use Rattle.vs_lexer.specs.Faults.{fault_text};
ghost use Rattle.std.specs.Prelude.{◌≡◌, IfOk};

use crate::Refusal;
use std::alloc::{AllocError, AllocFailed, Global};
use thiserror::Error;

/// Why there are no tokens.
#[derive(Clone, Copy, PartialEq, Eq, Debug, Error)]
pub enum LexFault {
    /// The source is refused, at the place (in bytes) where the offending token begins.
    #[error("{why} at {place}")]
    Refused { why: Refusal, place: usize },
    /// Memory ran out.
    #[error("out of memory")]
    Memory,
}

impl LexFault {
    /// The text that the program prints of the fault: its number and its place.
    pub fn text(&self, alloc: Global) -> Result<Vec<u8>, AllocError>
        ensures { IfOk result (λ t. t.items ≡ fault_text self.now) }
    {
        let line = match self {
            LexFault::Refused { why, place } => format!(in alloc; "{why} at {place}")?,
            LexFault::Memory => format!(in alloc; "memory")?,
        };
        Ok(line.into_bytes())
    }
}

impl From<AllocError> for LexFault {
    ghost from_gives = { λ _ e. e ≡ Memory };

    fn from(_error: AllocError) -> LexFault {
        LexFault::Memory
    }
}

impl<T: Drop> From<AllocFailed<T>> for LexFault {
    ghost from_gives = { λ _ e. e ≡ Memory };

    fn from(_error: AllocFailed<T>) -> LexFault {
        LexFault::Memory
    }
}
