//! The parts of a design that do something.

use vs_design::Design;

/// A process or a continuous assignment of a design, by its number.
#[derive(Clone, Copy, PartialEq, Eq)]
pub enum Part {
    /// A process.
    Process(usize),
    /// A continuous assignment.
    Assign(usize),
}

impl Part {
    /// The name of a part.
    pub fn name<'d>(self, design: &'d Design) -> &'d [u8] {
        match self {
            Part::Process(number) => match design.processes().get(number) {
                Some(process) => &process.name,
                None => &[],
            },
            Part::Assign(number) => match design.assigns().get(number) {
                Some(assign) => &assign.name,
                None => &[],
            },
        }
    }
}
