//! What there is of a design beside its signals and its outline, while it is made.
ghost use Rattle.std.specs.Prelude.{◌≡◌, ◌++◌, [], OnOk};

use std::alloc::{AllocError, Global};
use vs_design::{Assign, Process};

/// The continuous assignments and the processes of the scopes so far, in design order.
#[derive(Drop)]
pub struct Contents {
    /// The continuous assignments.
    pub assigns: Vec<Assign>,
    /// The processes.
    pub processes: Vec<Process>,
}

/// Moves two lists behind another: the first, and then the second.
fn append_both(
    all: &mut Vec<Assign>,
    first: &mut Vec<Assign>,
    second: &mut Vec<Assign>,
) -> Result<(), AllocError>
    ensures { OnOk result (all.new.items ≡ all.old.items ++ (first.old.items ++ second.old.items)) }
{
    all.append(first)?;
    all.append(second)
}

impl Contents {
    /// Nothing.
    pub fn new(alloc: Global) -> Self
        ensures assigns { result.assigns.items ≡ [] }
        ensures processes { result.processes.items ≡ [] }
    {
        Contents {
            assigns: Vec::new(alloc),
            processes: Vec::new(alloc),
        }
    }

    /// Adds the continuous assignments of a scope: those of its ports, and behind them those of its text (IEEE 1364-2005, clause 12.3.10).
    pub fn add_assigns(
        &mut self,
        ports: &mut Vec<Assign>,
        text: &mut Vec<Assign>,
    ) -> Result<(), AllocError>
        ensures assigns { OnOk result (self.new.assigns.items ≡ self.old.assigns.items ++ (ports.old.items ++ text.old.items)) }
        ensures processes { self.new.processes ≡ self.old.processes }
    {
        append_both(&mut self.assigns, ports, text)
    }
}
