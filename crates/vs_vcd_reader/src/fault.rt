//! Why a text is no value change dump.
ghost use Rattle.std.specs.Prelude.{◌≡◌};
ghost use Rattle.vs_vcd_reader.specs.declared.fault.VcdFault.TheVariants as fault;

use std::alloc::{AllocError, AllocFailed};

/// Why a text is not read as a value change dump of this layout. The lines are ended ones, or the last one without a line feed.
#[derive(Clone, Copy, PartialEq, Eq, Debug)]
pub enum VcdFault {
    /// A growth of memory was refused.
    Memory,
    /// V1: a line before the body that no such text has there.
    Header,
    /// V2: a line of the body that no such text has there, and that is none of the next two.
    Line,
    /// V3: one that has the shape of a change, with a code that no `$var` has.
    Code,
    /// V4: one that begins with `#`.
    Time,
    /// V5: the text ends too early: some text of the layout begins so, but it is none itself.
    Cut,
}

impl From<AllocError> for VcdFault {
    ghost from_gives = { λ _ e. e ≡ fault.Memory };

    fn from(_e: AllocError) -> VcdFault {
        VcdFault::Memory
    }
}

impl<T: Drop> From<AllocFailed<T>> for VcdFault {
    ghost from_gives = { λ _ e. e ≡ fault.Memory };

    fn from(_e: AllocFailed<T>) -> VcdFault {
        VcdFault::Memory
    }
}
