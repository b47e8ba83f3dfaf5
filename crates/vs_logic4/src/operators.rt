//! Operators of expressions (IEEE 1364-2005, clause 5.1).
ghost use Rattle.std.specs.Prelude.{◌≡◌, true, length};
ghost use Rattle.vs_logic4.specs.Operators.{unary, binary, gives_bit, sizing_of, is_even};

use crate::digit::Digit;
use crate::vector::Vec4;

/// An operator of one operand.
#[derive(Clone, Copy, PartialEq, Eq)]
pub enum Unary {
    /// `+` (IEEE 1364-2005, clause 5.1.5)
    Plus,
    /// `-` (IEEE 1364-2005, clause 5.1.5)
    Minus,
    /// `~` (IEEE 1364-2005, clause 5.1.10)
    Not,
    /// `!` (IEEE 1364-2005, clause 5.1.9)
    LogicalNot,
    /// `&` (IEEE 1364-2005, clause 5.1.11)
    ReduceAnd,
    /// `~&` (IEEE 1364-2005, clause 5.1.11)
    ReduceNand,
    /// `|` (IEEE 1364-2005, clause 5.1.11)
    ReduceOr,
    /// `~|` (IEEE 1364-2005, clause 5.1.11)
    ReduceNor,
    /// `^` (IEEE 1364-2005, clause 5.1.11)
    ReduceXor,
    /// `~^` or `^~` (IEEE 1364-2005, clause 5.1.11)
    ReduceXnor,
}

/// An operator of two operands.
#[derive(Clone, Copy, PartialEq, Eq)]
pub enum Binary {
    /// `*` (IEEE 1364-2005, clause 5.1.5)
    Multiply,
    /// `/` (IEEE 1364-2005, clause 5.1.5)
    Divide,
    /// `%` (IEEE 1364-2005, clause 5.1.5)
    Remainder,
    /// `+` (IEEE 1364-2005, clause 5.1.5)
    Add,
    /// `-` (IEEE 1364-2005, clause 5.1.5)
    Subtract,
    /// `<<` (IEEE 1364-2005, clause 5.1.12)
    ShiftLeft,
    /// `>>` (IEEE 1364-2005, clause 5.1.12)
    ShiftRight,
    /// `<<<` (IEEE 1364-2005, clause 5.1.12)
    SignedShiftLeft,
    /// `>>>` (IEEE 1364-2005, clause 5.1.12)
    SignedShiftRight,
    /// `<` (IEEE 1364-2005, clause 5.1.7)
    Less,
    /// `<=` (IEEE 1364-2005, clause 5.1.7)
    LessEqual,
    /// `>` (IEEE 1364-2005, clause 5.1.7)
    Greater,
    /// `>=` (IEEE 1364-2005, clause 5.1.7)
    GreaterEqual,
    /// `==` (IEEE 1364-2005, clause 5.1.8)
    Equal,
    /// `!=` (IEEE 1364-2005, clause 5.1.8)
    NotEqual,
    /// `===` (IEEE 1364-2005, clause 5.1.8)
    CaseEqual,
    /// `!==` (IEEE 1364-2005, clause 5.1.8)
    CaseNotEqual,
    /// `&` (IEEE 1364-2005, clause 5.1.10)
    And,
    /// `^` (IEEE 1364-2005, clause 5.1.10)
    Xor,
    /// `^~` or `~^` (IEEE 1364-2005, clause 5.1.10)
    Xnor,
    /// `|` (IEEE 1364-2005, clause 5.1.10)
    Or,
    /// `&&` (IEEE 1364-2005, clause 5.1.9)
    LogicalAnd,
    /// `||` (IEEE 1364-2005, clause 5.1.9)
    LogicalOr,
}

/// How an operator of two operands sizes them and its result (IEEE 1364-2005, clause 5.4.1).
#[derive(Clone, Copy, PartialEq, Eq, Debug)]
pub enum Sizing {
    /// Operands and result have one size.
    Alike,
    /// The result has the left operand's size; the right operand has its own.
    Shift,
    /// The operands have one size, the result has one bit.
    Comparison,
    /// Each operand has its own size, the result has one bit.
    Logical,
}

impl Unary {
    /// Whether the operator gives one bit of an operand of any size; else it gives as many as its
    /// operand has (IEEE 1364-2005, clause 5.4.1).
    pub fn gives_bit(self) -> bool
        ensures { result ≡ gives_bit self }
    {
        match self {
            Unary::Plus | Unary::Minus | Unary::Not => false,
            _ => true,
        }
    }

    /// What the operator gives of an operand.
    pub fn of(self, operand: Vec4) -> Vec4
        ensures { result ≡ unary self operand }
    {
        match self {
            Unary::Plus => operand.plus(),
            Unary::Minus => operand.neg(),
            Unary::Not => operand.not(),
            Unary::LogicalNot => Vec4::from_digit(operand.truth().not()),
            Unary::ReduceAnd => Vec4::from_digit(operand.reduce_and()),
            Unary::ReduceNand => Vec4::from_digit(operand.reduce_and().not()),
            Unary::ReduceOr => Vec4::from_digit(operand.reduce_or()),
            Unary::ReduceNor => Vec4::from_digit(operand.reduce_or().not()),
            Unary::ReduceXor => Vec4::from_digit(operand.reduce_xor()),
            Unary::ReduceXnor => Vec4::from_digit(operand.reduce_xor().not()),
        }
    }
}

impl Binary {
    /// How the operator sizes its operands and its result (IEEE 1364-2005, clause 5.4.1).
    pub fn sizing(self) -> Sizing
        ensures { result ≡ sizing_of self }
    {
        match self {
            Binary::ShiftLeft
            | Binary::ShiftRight
            | Binary::SignedShiftLeft
            | Binary::SignedShiftRight => Sizing::Shift,
            Binary::Less
            | Binary::LessEqual
            | Binary::Greater
            | Binary::GreaterEqual
            | Binary::Equal
            | Binary::NotEqual
            | Binary::CaseEqual
            | Binary::CaseNotEqual => Sizing::Comparison,
            Binary::LogicalAnd | Binary::LogicalOr => Sizing::Logical,
            _ => Sizing::Alike,
        }
    }

    /// What the operator gives of two operands, which are signed numbers or unsigned ones
    /// (IEEE 1364-2005, clause 5.5.1).
    pub fn of(self, signed: bool, left: Vec4, right: Vec4) -> Vec4
        requires one_size { is_even (sizing_of self) ≡ true → length left ≡ length right }
        ensures { result ≡ binary self signed left right }
    {
        match self {
            Binary::Multiply => left.mul(right),
            Binary::Divide => left.div(right, signed),
            Binary::Remainder => left.rem(right, signed),
            Binary::Add => left.add(right),
            Binary::Subtract => left.sub(right),
            Binary::ShiftLeft | Binary::SignedShiftLeft => left.shift_left(right),
            Binary::ShiftRight => left.shift_right(right, false),
            Binary::SignedShiftRight => left.shift_right(right, signed),
            Binary::Less => Vec4::from_digit(left.less(right, signed)),
            Binary::LessEqual => Vec4::from_digit(right.less(left, signed).not()),
            Binary::Greater => Vec4::from_digit(right.less(left, signed)),
            Binary::GreaterEqual => Vec4::from_digit(left.less(right, signed).not()),
            Binary::Equal => Vec4::from_digit(left.eq(right)),
            Binary::NotEqual => Vec4::from_digit(left.eq(right).not()),
            Binary::CaseEqual => Vec4::from_digit(Digit::from_test(left == right)),
            Binary::CaseNotEqual => Vec4::from_digit(Digit::from_test(left == right).not()),
            Binary::And => left.and(right),
            Binary::Xor => left.xor(right),
            Binary::Xnor => left.xnor(right),
            Binary::Or => left.or(right),
            Binary::LogicalAnd => Vec4::from_digit(left.truth().and(right.truth())),
            Binary::LogicalOr => Vec4::from_digit(left.truth().or(right.truth())),
        }
    }
}
