//! Resolved expressions.
ghost use Rattle.std.specs.Prelude.{◌≡◌, ◌<◌, ◌≤◌, ◌+◌, ◌^◌, true};
ghost use Rattle.vs_design.specs.vs_logic4.specs.Operators.{is_even, sizing_of};

use vs_design::vs_logic4::{Binary, Unary};
use vs_design::{Axis, Count, Typed};

/// A value in two planes: a digit is 0, 1, z or x where their bits are 00, 10, 01 or 11.
#[derive(Clone, Copy)]
pub struct Planes {
    /// A bit is set where the digit is 1 or x.
    pub value: u64,
    /// A bit is set where the digit is x or z.
    pub unknown: u64,
}

/// A size in bits.
#[derive(Clone, Copy)]
pub(crate) struct Size {
    pub width: u32,
    pub ghost sized: { (0 < width) × (width ≤ 64) },
}

/// Bits of a word, all in range.
#[derive(Clone, Copy)]
pub(crate) struct Field {
    /// The number of the word.
    pub number: usize,
    /// The place of the lowest bit.
    pub low: u32,
    /// How many bits there are.
    pub width: u32,
    pub ghost inside: { low < 64 },
    pub ghost sized: { (0 < width) × (width ≤ 64) },
}

/// Words of one signal, of which an index chooses one.
#[derive(Clone, Copy)]
pub(crate) struct Array {
    /// The number of the first word.
    pub first: usize,
    /// How many words there are.
    pub count: u32,
    /// The size of each word in bits.
    pub width: u32,
    /// Where the index's value counts the elements: whether it does so from the last one down, and not from the first one up.
    pub falls: bool,
    pub ghost some: { 0 < count },
    pub ghost sized: { (0 < width) × (width ≤ 64) },
    pub ghost inside: { first + count < 2 ^ 64 },
}

/// How an index of this size chooses.
#[derive(Clone, Copy)]
pub(crate) struct Index {
    pub axis: Axis,
    /// The size of the index in bits.
    pub size: u32,
    pub ghost sized: { (0 < size) × (size ≤ 64) },
}

/// How an index chooses so many bits.
#[derive(Clone, Copy)]
pub(crate) struct Range {
    pub index: Index,
    pub width: u32,
    pub ghost sized: { (0 < width) × (width ≤ 64) },
}

/// An operator, and the sizes at which it takes what stands on its left and on its right.
#[derive(Clone, Copy)]
pub(crate) struct Sides {
    pub operator: Binary,
    /// Whether both sides are signed numbers.
    pub signed: bool,
    pub left: u32,
    pub right: u32,
    pub ghost left_sized: { (0 < left) × (left ≤ 64) },
    pub ghost right_sized: { (0 < right) × (right ≤ 64) },
    pub ghost even: { is_even (sizing_of operator) ≡ true → left ≡ right },
}

/// A size and a sign to which a value of another size is brought.
#[derive(Clone, Copy)]
pub(crate) struct Change {
    pub from: u32,
    pub to: u32,
    /// Whether the value is extended by its sign.
    pub signed: bool,
    pub ghost from_sized: { (0 < from) × (from ≤ 64) },
    pub ghost to_sized: { (0 < to) × (to ≤ 64) },
}

/// A resolved expression.
pub(crate) enum Node {
    /// A literal.
    Number(Planes),
    /// The word of a number; at a larger size without a sign it has the same planes. A number counts the words of all signals in design order.
    Word(usize),
    /// Bits of a word.
    Bits(Field),
    /// A word of an array, by an index whose value counts them.
    Element(Array, Box<Node>),
    /// A bit of the first word of an array, by an index whose value counts them.
    Bit(Array, Box<Node>),
    /// A word of an array, by any index.
    Indexed(Array, Box<Index>, Box<Node>),
    /// Bits of the first word of an array, by any index.
    Ranged(Array, Box<Range>, Box<Node>),
    /// An operator and its operand, which has this size.
    Unary(Unary, Size, Box<Node>),
    /// An operator and its operands.
    Two(Sides, Box<Node>, Box<Node>),
    /// Operands with operators between them, from left to right.
    Chain(Box<Node>, Vec<(Sides, Node)>),
    /// `c ? v : e`: the size of the condition, that of both operands, and the three.
    If(Size, Size, Box<Node>, Box<Node>, Box<Node>),
    /// An operand brought to another size.
    Resized(Change, Box<Node>),
    /// `{x, ..}`: the size of the first part, which is the highest, that part, and the others with their sizes.
    Concat(Size, Box<Node>, Vec<(Size, Node)>),
    /// `{n{x}}`: how often an operand of this size is repeated.
    Repeat(Count, Size, Box<Node>),
    /// Any other expression: a copy, so that a node holds no reference.
    Other(Box<Typed>),
}

impl Drop for Node {
    fn drop(self) {
        match self {
            Self::Number(_)
            | Self::Word(_)
            | Self::Bits(_)
            | Self::Element(_, _)
            | Self::Bit(_, _)
            | Self::Indexed(_, _, _)
            | Self::Ranged(_, _, _)
            | Self::Unary(_, _, _)
            | Self::Two(_, _, _)
            | Self::Chain(_, _)
            | Self::If(_, _, _, _, _)
            | Self::Resized(_, _)
            | Self::Concat(_, _, _)
            | Self::Repeat(_, _, _)
            | Self::Other(_) => {}
        }
    }
}
