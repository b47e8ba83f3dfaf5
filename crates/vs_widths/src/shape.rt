//! Sizes and signs.
ghost use Rattle.std.specs.Prelude.{◌<◌, ◌≤◌};

/// The size and sign of a signal or an expression (IEEE 1364-2005, clauses 5.4 and 5.5).
#[derive(Clone, Copy)]
pub struct Shape {
    /// The size in bits.
    pub width: u32,
    /// Whether the value is a signed number.
    pub signed: bool,
    pub ghost sized: { (0 < width) × (width ≤ 64) },
}

/// The size and sign of a truth value.
pub const BIT: Shape = Shape {
    width: 1,
    signed: false,
};
