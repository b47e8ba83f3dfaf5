//! The digits of a literal, collected from the lowest on.
ghost use Rattle.std.specs.Prelude.{◌≡◌, ℕ, ◌<◌, ◌≤◌, [], ◌∷◌, ◌++◌, List, replicate, nat_lt, ◌&&◌, ◌||◌};
ghost use Rattle.vs_logic4.specs.declared.digit.Digit.{Digit};
ghost use Rattle.vs_logic4.specs.Vectors.{of_number};
ghost use Rattle.vs_lexer.specs.Numbers.{digit_vector, digits_vector, is_lost_freely, filling, fitted};
ghost use Rattle.vs_lexer.specs.Collecting.{Collects};

use crate::base::{digit_number, is_high, is_unknown};
use vs_logic4::{Digit, Vec4};

/// The most digits of a vector.
const WIDTH_LIMIT: usize = 64;

/// The size of a literal without one.
const UNSIZED_WIDTH: usize = 32;

/// The first 64 digits so far, the last one of all, and whether they need no more than 32.
#[derive(Clone, Copy)]
pub(crate) struct Collector {
    digits: [Digit; 64],
    count: usize,
    last: Digit,
    pub fits: bool,
}

/// Whether a digit past the size, above this one, is lost without harm.
fn is_lost_freely(below: Digit, digit: Digit) -> bool
    ensures { result ≡ is_lost_freely below digit }
{
    match (below, digit) {
        (_, Digit::Zero) => true,
        (Digit::X, Digit::X) => true,
        (Digit::Z, Digit::Z) => true,
        _ => false,
    }
}

/// What fills a literal above this digit.
fn filling(digit: Digit) -> Digit
    ensures { result ≡ filling digit }
{
    match digit {
        Digit::X => Digit::X,
        Digit::Z => Digit::Z,
        _ => Digit::Zero,
    }
}

impl Collector {
    /// No digit yet.
    fn new() -> Self
        ensures { Collects result [] }
    {
        Collector {
            digits: [Digit::Zero; 64],
            count: 0,
            last: Digit::Zero,
            fits: true,
        }
    }

    /// Whether the digits need no more than 32 with one more.
    fn fits_with(&self, digit: Digit) -> bool
        ensures { result ≡ (self.now.fits && (nat_lt self.now.count 32 || is_lost_freely self.now.last digit)) }
    {
        self.fits && (self.count < UNSIZED_WIDTH || is_lost_freely(self.last, digit))
    }

    /// One digit more.
    fn push(self, digit: Digit) -> Self
        ensures { (ds : List Digit) → Collects self ds → Collects result (ds ++ digit ∷ []) }
    {
        let fits = self.fits_with(digit);
        let mut digits = self.digits;
        let mut count = self.count;
        if count < WIDTH_LIMIT {
            digits[count] = digit;
            count += 1;
        }
        Collector {
            digits,
            count,
            last: digit,
            fits,
        }
    }

    /// The same digit so many times.
    fn push_same(self, times: usize, digit: Digit) -> Self
        ensures { (ds : List Digit) → Collects self ds → Collects result (ds ++ replicate times digit) }
    {
        if times == 0 {
            return self;
        }
        self.push(digit).push_same(times - 1, digit)
    }

    /// So many bits of a number, the lowest first.
    fn push_number(self, bits: usize, number: u8) -> Self
        ensures { (ds : List Digit) → Collects self ds → Collects result (ds ++ of_number bits number) }
    {
        if bits == 0 {
            return self;
        }
        let digit = if number % 2 == 0 {
            Digit::Zero
        } else {
            Digit::One
        };
        self.push(digit).push_number(bits - 1, number / 2)
    }

    /// The digits of a byte, so many.
    fn push_byte(self, bits: usize, byte: u8) -> Self
        ensures { (ds : List Digit) → Collects self ds → Collects result (ds ++ digit_vector bits byte) }
    {
        if byte == b'_' {
            return self;
        }
        if is_unknown(byte) {
            return self.push_same(bits, Digit::X);
        }
        if is_high(byte) {
            return self.push_same(bits, Digit::Z);
        }
        self.push_number(bits, digit_number(byte))
    }

    /// The digits of a text, so many for each byte.
    pub(crate) fn of_text(bits: usize, text: &[u8]) -> Self
        ensures { Collects result (digits_vector bits text.now) }
    {
        let mut digits = Collector::new();
        for index in (0..text.len()).rev() {
            digits = digits.push_byte(bits, text[index]);
        }
        digits
    }

    /// The vector of these digits at a size.
    pub(crate) fn fitted(self, size: u32) -> Vec4
        requires some { 0 < size }
        requires most { size ≤ 64 }
        requires collected { (ds : List Digit) × Collects self ds }
        ensures { (ds : List Digit) → Collects self ds → result ≡ fitted size ds }
    {
        let filled = self.push_same(WIDTH_LIMIT, filling(self.last));
        Vec4::from_digits(&filled.digits[..size as usize])
    }
}
