//! Why a value change dump was not written.
ghost use Rattle.std.specs.Prelude.{◌≡◌};
ghost use Rattle.vs_vcd_writing.specs.declared.fault.WriterFault.TheVariants.{Memory, Write};

use crate::sink::WriteFault;
use std::alloc::AllocError;

/// Why a value change dump was not written.
#[derive(Clone, Copy, PartialEq, Eq, Debug)]
pub enum WriterFault {
    /// A growth of memory was refused.
    Memory,
    /// The sink did not take a piece whole.
    Write,
}

impl From<AllocError> for WriterFault {
    ghost from_gives = { λ _ fault. fault ≡ Memory };

    fn from(_error: AllocError) -> WriterFault {
        WriterFault::Memory
    }
}

impl From<WriteFault> for WriterFault {
    ghost from_gives = { λ _ fault. fault ≡ Write };

    fn from(_fault: WriteFault) -> WriterFault {
        WriterFault::Write
    }
}
