//! Statements of a design.

ghost use Rattle.std.specs.Prelude.{◌<◌, ◌≤◌, ◌^◌};

use crate::expression::{Selection, Slice, Typed};
use crate::range::BitRange;
use vs_logic4::{CaseKind, Edge};

/// A span of time in ticks, below 2^62. A tick is the precision of the source's time scale (IEEE 1364-2005, clause 19.8).
#[derive(Clone, Copy)]
pub struct Ticks {
    /// How many ticks.
    pub count: u64,
    pub ghost short: { count < 2 ^ 62 },
}

/// One of the places that an assignment writes (IEEE 1364-2005, clauses 6.1 and 9.2).
pub enum Aim {
    /// Bits of a word by constant indices; a whole signal that is no array too.
    Fixed(Slice),
    /// Bits of a word by the values of two indices, the word's and the lowest bit's, in the store before.
    Chosen(Selection, Typed, Typed),
}

impl Drop for Aim {
    fn drop(self) {
        match self {
            Self::Fixed(_) | Self::Chosen(_, _, _) => {}
        }
    }
}

/// The left side of an assignment: one place, or those of a concatenation.
#[derive(Drop)]
pub struct Target {
    /// The places, the lowest first: the last one of a concatenation in the order of the text.
    pub parts: Vec<Aim>,
    /// The size of all of them in bits.
    pub width: u32,
    pub ghost sized: { (0 < width) × (width ≤ 64) },
}

/// A term of an event control (IEEE 1364-2005, clause 9.7.2).
#[derive(Clone, Copy)]
pub struct EventTerm {
    /// Which change it waits for.
    pub edge: Edge,
    /// The bits that it waits for a change of; of an edge the lowest bit alone.
    pub range: BitRange,
}

/// An argument of a `$display` or a `$strobe` behind the text (IEEE 1364-2005, clause 17.1).
pub enum FormatArg {
    /// Whether the value is a signed number, and an expression at its own size.
    Value(bool, Typed),
    /// `$time`: the time in units, 64 bits without a sign (clause 17.7.1).
    Time,
}

impl Drop for FormatArg {
    fn drop(self) {
        match self {
            Self::Value(_, _) | Self::Time => {}
        }
    }
}

/// When the line of a call is made (IEEE 1364-2005, clauses 17.1.1 and 17.1.2).
#[derive(Clone, Copy, PartialEq, Eq)]
pub enum CallKind {
    /// `$display`: when the call runs.
    Display,
    /// `$strobe`: at the end of the time slot in which the call runs.
    Strobe,
}

/// A call of `$display` or `$strobe` (IEEE 1364-2005, clause 17.1).
pub struct Call {
    /// When its line is made.
    pub kind: CallKind,
    /// The bytes of its text, escapes already read; none where it has no text.
    pub text: Vec<u8>,
    /// The arguments behind the text.
    pub args: Vec<FormatArg>,
    /// What `%m` prints: the path of the scope in which the call stands.
    pub path: Vec<u8>,
    /// How many ticks a unit of time is, at most 10^17: 100 s of 1 fs (clause 19.8).
    pub ratio: u64,
    pub ghost scaled: { (0 < ratio) × (ratio ≤ 10 ^ 17) },
}

impl Drop for Call {
    fn drop(self) {
        let Self {
            kind: _,
            text: _,
            args: _,
            path: _,
            ratio: _,
        } = self;
    }
}

/// A statement (IEEE 1364-2005, clause 9), whose names are numbers of signals and whose delays are ticks. Each but a block has its number among
/// the statements of its process that are no blocks, from 0 on, each before those in it: so equal texts at two places are two statements.
/// A `for` is its first assignment and then a `while`, whose body ends with its second assignment (clause 9.6).
pub enum Statement {
    /// `;`
    Null(u32),
    /// A blocking assignment.
    Assign(u32, Target, Typed),
    /// A nonblocking assignment, and in how many ticks its update is due: in none where it has no delay (clause 9.2.2).
    Later(u32, Ticks, Target, Typed),
    /// A call of `$display` or `$strobe` (clause 17.1).
    Call(u32, Call),
    /// A call of `$finish` (clause 17.4.1).
    Finish(u32),
    /// `begin .. end`
    Block(Vec<Statement>),
    /// A delay control, and the statement behind it.
    Delay(u32, Ticks, Box<Statement>),
    /// An event control, its terms, and the statement behind it (clause 9.7.2). `@*` has a term for each range that its statement reads.
    Event(u32, Vec<EventTerm>, Box<Statement>),
    /// `if`: the condition, what runs where it is true, and what runs else; nothing is a block of no statements (clause 9.4).
    If(u32, Typed, Box<Statement>, Box<Statement>),
    /// `case`, `casez` or `casex`: the expression, and the items in the order of the text, each with its expressions; `default` has none (clause 9.5).
    Case(u32, CaseKind, Typed, Vec<(Vec<Typed>, Statement)>),
    /// `while` (clause 9.6).
    While(u32, Typed, Box<Statement>),
    /// `repeat`: whether its count is signed, the count, and the statement (clause 9.6).
    Repeat(u32, bool, Typed, Box<Statement>),
    /// `forever`; the body of an `always` too.
    Forever(u32, Box<Statement>),
}

impl Drop for Statement {
    fn drop(self) {
        match self {
            Self::Null(_)
            | Self::Assign(_, _, _)
            | Self::Later(_, _, _, _)
            | Self::Call(_, _)
            | Self::Finish(_)
            | Self::Block(_)
            | Self::Delay(_, _, _)
            | Self::Event(_, _, _)
            | Self::If(_, _, _, _)
            | Self::Case(_, _, _, _)
            | Self::While(_, _, _)
            | Self::Repeat(_, _, _, _)
            | Self::Forever(_, _) => {}
        }
    }
}
