//! Signals of a design.
ghost use Rattle.std.specs.Prelude.{◌<◌, ◌≤◌, ◌^◌};

/// What a signal was declared as (IEEE 1364-2005, clauses 4.1 and 4.8).
#[derive(Clone, Copy, PartialEq, Eq)]
pub enum SignalKind {
    /// A net of type `wire`.
    Wire,
    /// A variable of type `reg`.
    Reg,
    /// A variable of type `integer`.
    Integer,
}

/// The bounds of a range, as they are written: `[left:right]` (IEEE 1364-2005, clauses 4.3.1 and 4.9).
#[derive(Clone, Copy)]
pub struct Bounds {
    /// The number on the left.
    pub left: i64,
    /// The number on the right.
    pub right: i64,
}

/// A variable or a net.
pub struct Signal {
    /// The name as it is printed: an escaped name that isn't a simple one has its backslash and one space after it.
    pub name: Vec<u8>,
    /// The path from the top, as it is printed: the names of the scopes and then the signal's own, joined by `.`.
    pub path: Vec<u8>,
    /// What the signal was declared as.
    pub kind: SignalKind,
    /// The size in bits, from 1 to 64.
    pub width: u32,
    /// Whether its value is a signed number.
    pub signed: bool,
    /// The range of its bits, where it was declared with one.
    pub range: Option<Bounds>,
    /// The range of its words, where it is an array.
    pub words: Option<Bounds>,
    /// How many words it has, from 1 to 65,536: one unless it is an array.
    pub count: u32,
    pub ghost sized: { (0 < width) × (width ≤ 64) },
    pub ghost counted: { (0 < count) × (count ≤ 2 ^ 16) },
}

impl Drop for Signal {
    fn drop(self) {
        let Self {
            name: _,
            path: _,
            kind: _,
            width: _,
            signed: _,
            range: _,
            words: _,
            count: _,
        } = self;
    }
}
