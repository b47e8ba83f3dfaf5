//! One digit of a vector.
ghost use Rattle.std.specs.Prelude.{◌≡◌, ◌<◌, if◌then◌else◌};
ghost use Rattle.vs_logic4.specs.declared.digit.Digit.TheVariants.{X};
ghost use Rattle.vs_logic4.specs.Tables.{and_digit, or_digit, not_digit, digit_of_test, letter};
ghost use Rattle.vs_logic4.specs.Planes.{digit_of_bits, value_bit, unknown_bit};

/// One of the four values of a bit (IEEE 1364-2005, clause 4.1).
#[derive(Clone, Copy, PartialEq, Eq, Debug)]
pub enum Digit {
    /// Logic zero, or a false condition.
    Zero,
    /// Logic one, or a true condition.
    One,
    /// An unknown value.
    X,
    /// High impedance.
    Z,
}

impl Digit {
    /// And: 0 decides, else an x or z makes x (IEEE 1364-2005, clauses 5.1.9 and 5.1.10).
    pub fn and(self, other: Digit) -> Digit
        ensures { result ≡ and_digit self other }
    {
        match (self, other) {
            (Digit::Zero, _) | (_, Digit::Zero) => Digit::Zero,
            (Digit::One, Digit::One) => Digit::One,
            _ => Digit::X,
        }
    }

    /// Or: 1 decides, else an x or z makes x (IEEE 1364-2005, clauses 5.1.9 and 5.1.10).
    pub fn or(self, other: Digit) -> Digit
        ensures { result ≡ or_digit self other }
    {
        match (self, other) {
            (Digit::One, _) | (_, Digit::One) => Digit::One,
            (Digit::Zero, Digit::Zero) => Digit::Zero,
            _ => Digit::X,
        }
    }

    /// Not: x and z make x (IEEE 1364-2005, clauses 5.1.9 and 5.1.10).
    pub fn not(self) -> Digit
        ensures { result ≡ not_digit self }
    {
        match self {
            Digit::Zero => Digit::One,
            Digit::One => Digit::Zero,
            Digit::X | Digit::Z => Digit::X,
        }
    }

    /// The digit of a truth value.
    pub fn from_test(test: bool) -> Digit
        ensures { result ≡ digit_of_test test }
    {
        if test { Digit::One } else { Digit::Zero }
    }

    /// The letter that stands for this digit: `0`, `1`, `x` or `z` (IEEE 1364-2005, clause 3.5.1).
    pub fn letter(self) -> char
        ensures { result ≡ letter self }
    {
        match self {
            Digit::Zero => '0',
            Digit::One => '1',
            Digit::X => 'x',
            Digit::Z => 'z',
        }
    }

    /// The digit of a truth value where all is `known`, else x.
    pub(crate) fn from_test_if(known: bool, test: bool) -> Digit
        ensures { result ≡ (if known then digit_of_test test else X) }
    {
        if known {
            Digit::from_test(test)
        } else {
            Digit::X
        }
    }

    /// `decided` where something `decides`, else `otherwise` where all is `known`, else x.
    pub(crate) fn decided_or(decides: bool, decided: Digit, known: bool, otherwise: Digit) -> Digit
        ensures { result ≡ (if decides then decided else (if known then otherwise else X)) }
    {
        if decides {
            decided
        } else if known {
            otherwise
        } else {
            Digit::X
        }
    }

    /// The bit of this digit in the value plane.
    pub(crate) fn value_bit(self) -> u64
        ensures is { result ≡ value_bit self }
        ensures bit { result < 2 }
    {
        match self {
            Digit::Zero | Digit::Z => 0,
            Digit::One | Digit::X => 1,
        }
    }

    /// The bit of this digit in the unknown plane.
    pub(crate) fn unknown_bit(self) -> u64
        ensures is { result ≡ unknown_bit self }
        ensures bit { result < 2 }
    {
        match self {
            Digit::Zero | Digit::One => 0,
            Digit::X | Digit::Z => 1,
        }
    }

    /// The digit that has these bits in the value plane and in the unknown plane.
    pub(crate) fn of_bits(value: u64, unknown: u64) -> Digit
        ensures { result ≡ digit_of_bits value unknown }
    {
        match (value == 0, unknown == 0) {
            (true, true) => Digit::Zero,
            (false, true) => Digit::One,
            (true, false) => Digit::Z,
            (false, false) => Digit::X,
        }
    }
}
