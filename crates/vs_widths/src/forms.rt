//! Expressions whose parts have the sizes and signs that their context doesn't set.
ghost use Rattle.std.specs.Prelude.{◌≡◌, MatchResult};
ghost use Rattle.vs_widths.specs.declared.forms.Sizable.TheVariants as forms;

use crate::shape::Shape;
use vs_design::vs_logic4::{Binary, Unary, Vec4};
use vs_design::{Count, Excerpt, Link, Selection, Slice};

/// An expression of a source whose names, counts and own sizes are known, and whose context isn't.
pub enum Sizable {
    /// A literal at the size of the context.
    Number(Vec4),
    /// A signal at the size of the context.
    Signal(usize),
    /// Bits of a word by constant indices, at their own size whatever the context.
    Slice(Slice),
    /// Bits of a word by the values of two indices, the word's and the lowest bit's, at their own size whatever the context.
    Select(Box<Selection>, Box<Sizable>, Box<Sizable>),
    /// Bits of a constant by the value of an index, at their own size whatever the context.
    Excerpt(Box<Excerpt>, Box<Sizable>),
    /// An operator and its operand.
    Unary(Unary, Box<Sizable>),
    /// Operands at the size of the context, and shifts' amounts, with operators between them, from left to right.
    Chain(Box<Sizable>, Vec<(Binary, Sizable)>),
    /// Operands with comparisons, `&&` and `||` between them, from left to right, their result brought to the context.
    Tests(Box<Sizable>, Vec<(Link, Sizable)>),
    /// Conditions, each with the operand behind it, and the last operand.
    Choice(Vec<(Sizable, Sizable)>, Box<Sizable>),
    /// Parts, the first of them the highest.
    Concat(Box<Sizable>, Vec<Sizable>),
    /// A part that is repeated.
    Repeat(Count, Box<Sizable>),
    /// A part at a size and sign of its own.
    Own(Shape, Box<Sizable>),
    /// A part at a size and sign of its own, brought to the context.
    Closed(Shape, Box<Sizable>),
}

impl Sizable {
    /// The first operand of a chain, and the others, each with the operator before it; any other form as it is.
    pub fn into_chain(self) -> Result<(Box<Sizable>, Vec<(Binary, Sizable)>), Sizable>
        ensures { MatchResult result (λ parts. self ≡ forms.Chain parts.0 parts.1) (λ other. other ≡ self) }
    {
        match self {
            Sizable::Chain(first, others) => Ok((first, others)),
            other => Err(other),
        }
    }

    /// The first operand of comparisons, `&&` and `||`, and the others, each with the operator before it; any other form as it is.
    pub fn into_tests(self) -> Result<(Box<Sizable>, Vec<(Link, Sizable)>), Sizable>
        ensures { MatchResult result (λ parts. self ≡ forms.Tests parts.0 parts.1) (λ other. other ≡ self) }
    {
        match self {
            Sizable::Tests(first, others) => Ok((first, others)),
            other => Err(other),
        }
    }
}

impl Drop for Sizable {
    fn drop(self) {
        match self {
            Self::Number(_)
            | Self::Signal(_)
            | Self::Slice(_)
            | Self::Select(_, _, _)
            | Self::Excerpt(_, _)
            | Self::Unary(_, _)
            | Self::Chain(_, _)
            | Self::Tests(_, _)
            | Self::Choice(_, _)
            | Self::Concat(_, _)
            | Self::Repeat(_, _)
            | Self::Own(_, _)
            | Self::Closed(_, _) => {}
        }
    }
}

/// An expression with its own size and sign.
#[derive(Drop)]
pub struct Measured {
    /// Its own size and sign.
    pub shape: Shape,
    /// The expression.
    pub form: Sizable,
}
