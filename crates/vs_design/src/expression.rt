//! Expressions with their sizes and signs fixed (IEEE 1364-2005, clauses 5.4 and 5.5).

ghost use Rattle.std.specs.Prelude.{◌<◌, ◌≤◌, ◌^◌};

use vs_logic4::{Binary, Unary, Vec4};

/// The value of a signal where it stands in an expression.
#[derive(Clone, Copy)]
pub struct Operand {
    /// The signal's number in design order.
    pub signal: usize,
    /// The size of the context in bits, to which the value is extended.
    pub width: u32,
    /// Whether the value is extended by its sign.
    pub signed: bool,
    pub ghost sized: { (0 < width) × (width ≤ 64) },
}

/// An operator between the operands on its left and the one on its right.
#[derive(Clone, Copy)]
pub struct Link {
    /// The operator.
    pub operator: Binary,
    /// The size in bits to which both sides are brought (IEEE 1364-2005, clause 5.4.1).
    pub width: u32,
    /// Whether both sides are signed numbers (IEEE 1364-2005, clause 5.5.1).
    pub signed: bool,
    pub ghost sized: { (0 < width) × (width ≤ 64) },
}

/// A size and a sign to which a value is brought (IEEE 1364-2005, clauses 5.4.1 and 5.5.2).
#[derive(Clone, Copy)]
pub struct Extension {
    /// The size in bits.
    pub width: u32,
    /// Whether the value is extended by its sign.
    pub signed: bool,
    pub ghost sized: { (0 < width) × (width ≤ 64) },
}

/// How an index chooses among the elements of a range: bits of a word, or words of an array (IEEE 1364-2005, clauses 4.9 and 5.2). Elements are
/// numbered from 0 on, from the right bound.
#[derive(Clone, Copy)]
pub struct Axis {
    /// The index of the element of number 0: the right bound of the range.
    pub right: i64,
    /// Whether the right bound is the higher one; then the number of an element falls where its index rises.
    pub ascending: bool,
    /// How many elements there are.
    pub length: u32,
    /// How far below the element of the index the lowest chosen element is.
    pub below: u32,
    /// Whether the index is a signed number.
    pub signed: bool,
    pub ghost sized: { length ≤ 2 ^ 16 },
}

/// Bits of a word that constant indices choose (IEEE 1364-2005, clauses 5.2.1 and 5.2.2).
#[derive(Clone, Copy)]
pub struct Slice {
    /// The signal's number in design order.
    pub signal: usize,
    /// The number of the word; past the end where there is no such word.
    pub word: usize,
    /// The number of the lowest bit. It may be out of range, and so may others of the bits.
    pub low: i32,
    /// How many bits there are.
    pub width: u32,
    pub ghost sized: { (0 < width) × (width ≤ 64) },
}

/// Bits of a word where an index isn't constant (IEEE 1364-2005, clauses 5.2.1 and 5.2.2).
#[derive(Clone, Copy)]
pub struct Selection {
    /// The signal's number in design order.
    pub signal: usize,
    /// How the first index chooses the word.
    pub words: Axis,
    /// How the second index chooses the lowest bit.
    pub bits: Axis,
    /// How many bits there are.
    pub width: u32,
    pub ghost sized: { (0 < width) × (width ≤ 64) },
}

/// Bits of a constant where the index isn't one (IEEE 1364-2005, clauses 4.10 and 5.2.1).
#[derive(Clone, Copy)]
pub struct Excerpt {
    /// The constant's digits.
    pub digits: Vec4,
    /// How the index chooses the lowest bit.
    pub bits: Axis,
    /// How many bits there are.
    pub width: u32,
    pub ghost sized: { (0 < width) × (width ≤ 64) },
}

/// How often a replication repeats its operand (IEEE 1364-2005, clause 5.1.14).
#[derive(Clone, Copy)]
pub struct Count {
    /// The number of times.
    pub times: u32,
    pub ghost some: { (0 < times) × (times ≤ 64) },
}

/// An expression whose parts have the size and sign of their context.
pub enum Typed {
    /// A literal at the size of its context.
    Number(Vec4),
    /// A signal at the size of its context.
    Signal(Operand),
    /// Bits of a word by constant indices, at their own size and without a sign.
    Slice(Slice),
    /// Bits of a word by the values of two indices, the word's and the lowest bit's, at their own size and without a sign.
    Select(Selection, Box<Typed>, Box<Typed>),
    /// Bits of a constant by the value of an index, at their own size and without a sign.
    Excerpt(Excerpt, Box<Typed>),
    /// An operator and its operand.
    Unary(Unary, Box<Typed>),
    /// Operands with operators of one level between them, from left to right (IEEE 1364-2005, clause 5.1.2): the first operand, and each other
    /// one with the operator before it. A list, so that an expression of a source is no deeper than its text is nested.
    Chain(Box<Typed>, Vec<(Link, Typed)>),
    /// `c ? v : d ? w : .. : e` (clause 5.1.13): each condition with the operand behind its `?`, and the last operand.
    Choice(Vec<(Typed, Typed)>, Box<Typed>),
    /// `{a, b, ..}` (clause 5.1.14): the first part, which is the highest, and the others in the order of the text.
    Concat(Box<Typed>, Vec<Typed>),
    /// `{n{a}}` (clause 5.1.14).
    Repeat(Count, Box<Typed>),
    /// An operand with a size of its own, brought to that of its context.
    Resized(Extension, Box<Typed>),
}

impl Drop for Typed {
    fn drop(self) {
        match self {
            Self::Number(_)
            | Self::Signal(_)
            | Self::Slice(_)
            | Self::Select(_, _, _)
            | Self::Excerpt(_, _)
            | Self::Unary(_, _)
            | Self::Chain(_, _)
            | Self::Choice(_, _)
            | Self::Concat(_, _)
            | Self::Repeat(_, _)
            | Self::Resized(_, _) => {}
        }
    }
}
