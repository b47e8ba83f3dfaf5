//! How a run ended.
ghost use Rattle.std.specs.Prelude.{◌≡◌};
ghost use Rattle.vs_kernel.specs.WriterFaults.{fault_of};
ghost use Rattle.vs_kernel.specs.declared.outcome.RunFault.TheVariants.{Memory};

use std::alloc::AllocError;
use thiserror::Error;
use vs_vcd_writing::WriterFault;

/// Where a run ended.
#[derive(Clone, Copy, PartialEq, Eq, Debug)]
pub enum Outcome {
    /// The next due time is past the moment that was asked for.
    Reached,
    /// No event is left.
    Quiet,
    /// `$finish` took effect at the end of the slot of this time, in ticks.
    Finished(u64),
    /// All steps were taken in or before the slot of this time, in ticks, and the execution isn't complete.
    StepLimit(u64),
}

/// Why a run gave no outcome.
#[derive(Clone, Copy, PartialEq, Eq, Debug, Error)]
pub enum RunFault {
    /// A growth of memory was refused.
    #[error("S1: out of memory")]
    Memory,
    /// A sink did not take a piece whole.
    #[error("S2: a write failed")]
    Write,
    /// An earlier call failed.
    #[error("S3: the run has failed")]
    Failed,
    /// An earlier call gave an outcome.
    #[error("S4: the run is done")]
    Done,
}

impl From<AllocError> for RunFault {
    ghost from_gives = { λ _ fault. fault ≡ Memory };

    fn from(_error: AllocError) -> RunFault {
        RunFault::Memory
    }
}

impl From<WriterFault> for RunFault {
    ghost from_gives = { λ cause fault. fault ≡ fault_of cause };

    fn from(cause: WriterFault) -> RunFault {
        match cause {
            WriterFault::Memory => RunFault::Memory,
            WriterFault::Write => RunFault::Write,
        }
    }
}
