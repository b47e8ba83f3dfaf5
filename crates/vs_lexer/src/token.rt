//! Tokens: what a source is read as.
ghost use Rattle.std.specs.Prelude.{◌≡◌, ◌≤◌, IfOk};
ghost use Rattle.vs_lexer.specs.Times.{exponent};
ghost use Rattle.vs_lexer.specs.Texts.{text_value};
ghost use Rattle.vs_lexer.specs.Tokens.{name_of, is_left_out};

use crate::resolving::resolve;
use std::alloc::{AllocError, Global};
use vs_logic4::Vec4;

/// A token: what it is, where it begins in the source (in bytes), and the bytes that it is.
#[derive(Clone, Copy, PartialEq, Eq, Debug)]
pub struct Token<'s> {
    pub kind: Kind,
    pub place: usize,
    pub bytes: &'s [u8],
}

impl<'s> Token<'s> {
    /// Of a name: the name's own bytes, which are those of the token, an escaped name's without the
    /// backslash.
    pub fn name(&self) -> &'s [u8]
        ensures { result.now ≡ name_of self.now.bytes.now }
    {
        match self.bytes {
            [b'\\', name @ ..] => name,
            bytes => bytes,
        }
    }

    /// Of a text: the bytes that it stands for, its escapes resolved.
    pub fn text(&self, alloc: Global) -> Result<Vec<u8>, AllocError>
        ensures { IfOk result (λ v. v.items ≡ text_value self.now.bytes.now) }
    {
        resolve(alloc, self.bytes)
    }
}

/// What a token is.
#[derive(Clone, Copy, PartialEq, Eq, Debug)]
pub enum Kind {
    /// A mark or an operator.
    Mark(Mark),
    /// A reserved word of the subset.
    Word(Word),
    /// A reserved word that the subset leaves out.
    LeftOut,
    /// A name, simple or escaped (IEEE 1364-2005, clause 3.7).
    Name,
    /// The name of a system task or function, with its `$` (clause 3.7.3).
    System,
    /// A number (clause 3.5).
    Number(Literal),
    /// A text in quotes (clause 3.6).
    Text,
    /// A directive (clause 19).
    Directive(Directive),
}

/// A mark or an operator.
#[derive(Clone, Copy, PartialEq, Eq, Debug)]
pub enum Mark {
    /// `#`
    Hash,
    /// `(`
    Open,
    /// `)`
    Close,
    /// `;`
    Semicolon,
    /// `,`
    Comma,
    /// `=`
    Assign,
    /// `[`
    OpenBracket,
    /// `]`
    CloseBracket,
    /// `:`
    Colon,
    /// `.`
    Dot,
    /// `@`
    At,
    /// `{`
    OpenBrace,
    /// `}`
    CloseBrace,
    /// `?`
    Question,
    /// `+:`
    PlusColon,
    /// `-:`
    MinusColon,
    /// `+`
    Plus,
    /// `-`
    Minus,
    /// `*`
    Star,
    /// `/`
    Slash,
    /// `%`
    Percent,
    /// `!`
    Not,
    /// `~`
    Tilde,
    /// `&`
    And,
    /// `~&`
    Nand,
    /// `|`
    Or,
    /// `~|`
    Nor,
    /// `^`
    Xor,
    /// `~^`
    Xnor,
    /// `^~`, another spelling of `~^`
    XorNot,
    /// `<<`
    ShiftLeft,
    /// `>>`
    ShiftRight,
    /// `<<<`
    ArithmeticShiftLeft,
    /// `>>>`
    ArithmeticShiftRight,
    /// `<`
    Less,
    /// `<=`, less or equal, or a nonblocking assignment
    LessEqual,
    /// `>`
    Greater,
    /// `>=`
    GreaterEqual,
    /// `==`
    Equal,
    /// `!=`
    NotEqual,
    /// `===`
    CaseEqual,
    /// `!==`
    CaseNotEqual,
    /// `&&`
    LogicalAnd,
    /// `||`
    LogicalOr,
    /// `**`, left out of the subset
    Power,
    /// `->`, left out of the subset
    Trigger,
    /// `=>`, left out of the subset
    ParallelPath,
    /// `*>`, left out of the subset
    FullPath,
    /// `&&&`, left out of the subset
    EventAnd,
}

impl Mark {
    /// Whether the subset leaves this operator out.
    pub fn is_left_out(self) -> bool
        ensures { result ≡ is_left_out self }
    {
        matches!(
            self,
            Mark::Power | Mark::Trigger | Mark::ParallelPath | Mark::FullPath | Mark::EventAnd
        )
    }
}

/// A reserved word of the subset (IEEE 1364-2005, annex B).
#[derive(Clone, Copy, PartialEq, Eq, Debug)]
pub enum Word {
    Always,
    Assign,
    Begin,
    Case,
    Casex,
    Casez,
    Default,
    Else,
    End,
    Endcase,
    Endgenerate,
    Endmodule,
    For,
    Forever,
    Generate,
    Genvar,
    If,
    Initial,
    Input,
    Integer,
    Localparam,
    Module,
    Negedge,
    Or,
    Output,
    Parameter,
    Posedge,
    Reg,
    Repeat,
    Signed,
    While,
    Wire,
}

/// A number: its digits at its size (32 where the text gives none), whether it is signed, and whether
/// it has a base (IEEE 1364-2005, clause 3.5.1).
#[derive(Clone, Copy, PartialEq, Eq, Debug)]
pub struct Literal {
    pub value: Vec4,
    pub signed: bool,
    pub based: bool,
}

/// A directive of the subset (IEEE 1364-2005, clause 19).
#[derive(Clone, Copy, PartialEq, Eq, Debug)]
pub enum Directive {
    /// `` `timescale `` with the unit and the precision; the precision is not coarser than the unit.
    Timescale { unit: Time, precision: Time },
    /// `` `default_nettype ``
    DefaultNettype(ImplicitNet),
}

/// What `` `default_nettype `` says of undeclared names (clause 19.2).
#[derive(Clone, Copy, PartialEq, Eq, Debug)]
pub enum ImplicitNet {
    /// They are wires.
    Wire,
    /// They are refused.
    Forbidden,
}

/// A time of `` `timescale ``: 1, 10 or 100 of a unit (clause 19.8).
#[derive(Clone, Copy, PartialEq, Eq, Debug)]
pub struct Time {
    pub number: TextMagnitude,
    pub unit: TextUnit,
}

impl Time {
    /// The power of ten that this time is in femtoseconds.
    pub fn exponent(self) -> u32
        ensures value { result ≡ exponent self }
        ensures small { result ≤ 17 }
    {
        let unit = match self.unit {
            TextUnit::Seconds => 15,
            TextUnit::Milliseconds => 12,
            TextUnit::Microseconds => 9,
            TextUnit::Nanoseconds => 6,
            TextUnit::Picoseconds => 3,
            TextUnit::Femtoseconds => 0,
        };
        let number = match self.number {
            TextMagnitude::One => 0,
            TextMagnitude::Ten => 1,
            TextMagnitude::Hundred => 2,
        };
        unit + number
    }
}

/// The number of a time.
#[derive(Clone, Copy, PartialEq, Eq, Debug)]
pub enum TextMagnitude {
    One,
    Ten,
    Hundred,
}

/// The unit of a time.
#[derive(Clone, Copy, PartialEq, Eq, Debug)]
pub enum TextUnit {
    Seconds,
    Milliseconds,
    Microseconds,
    Nanoseconds,
    Picoseconds,
    Femtoseconds,
}
