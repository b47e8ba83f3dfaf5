//! What names are bound to.
ghost use Rattle.std.specs.Prelude.{◌<◌, ◌≤◌, ◌^◌};

use crate::constants::Const;
use crate::shape::Shape;
use vs_design::{Bounds, SignalKind};

/// What the name of a signal means.
#[derive(Clone, Copy)]
pub struct Meaning {
    /// What the signal was declared as.
    pub kind: SignalKind,
    /// Its size and sign; those of each word of an array.
    pub shape: Shape,
    /// The range by which bits of it are selected: the one that it was declared with, and 31 down to 0 for an `integer`. A scalar has none
    /// (IEEE 1364-2005, clauses 4.8 and 5.2.1).
    pub bits: Option<Bounds>,
    /// The range of its words, where it is an array (IEEE 1364-2005, clause 4.9).
    pub words: Option<Bounds>,
    /// How many words it has, from 1 to 65,536: one unless it is an array.
    pub count: u32,
    pub ghost counted: { (0 < count) × (count ≤ 2 ^ 16) },
}

/// What a name is bound to.
#[derive(Clone, Copy)]
pub enum Binding {
    /// A signal: what its name means, and its number in design order.
    Signal(Meaning, usize),
    /// A constant of this value (IEEE 1364-2005, clause 12.2).
    Constant(Const),
    /// A constant whose value isn't known yet where it is asked for.
    Pending,
    /// A genvar, which has a value in the turns of a generate loop alone (clause 12.4.1).
    Genvar,
    /// What has no value: an instance, a generate block or a named block.
    Other,
}
