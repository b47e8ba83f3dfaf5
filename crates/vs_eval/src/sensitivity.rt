//! What the changes of a signal may wake.
ghost use Rattle.std.specs.Prelude.{◌≡◌};
ghost use Rattle.vs_design.specs.Listeners.{listeners};
ghost use Rattle.vs_design.specs.Readers.{readers};

use vs_design::{Design, Reader};

/// What the changes of one signal may wake, by the lists that the design keeps. A write looks at those of the signals that it changes, and at no
/// others.
#[derive(Clone, Copy)]
pub struct Sensitivity<'a> {
    /// The continuous assignments that read it, and which of its bits, in design order (IEEE 1364-2005, clause 6.1.2).
    pub readers: &'a [Reader],
    /// The processes of which an event control names it, by their numbers, in design order (clause 9.7.2).
    pub listeners: &'a [usize],
}

impl<'a> Sensitivity<'a> {
    /// That of a signal of a design, by its number; past the end nothing wakes.
    #[inline(always)]
    pub fn of(design: &'a Design, signal: usize) -> Self
        ensures readers { result.readers.now ≡ readers design.entry.now.assigns signal }
        ensures listeners { result.listeners.now ≡ listeners design.entry.now.processes signal }
    {
        Sensitivity {
            readers: design.readers(signal),
            listeners: design.listeners(signal),
        }
    }
}
