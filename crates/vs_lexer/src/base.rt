//! Bases of numbers, and their digits (IEEE 1364-2005, clause 3.5.1).
ghost use Rattle.std.specs.Prelude.{◌≡◌};
ghost use Rattle.vs_lexer.specs.Numbers.{is_unknown, is_high, is_unknown_or_high, is_sign, base_of, has_digit, starts_digits, in_digits, digit_number, digit_bits};

/// The base of a number.
#[derive(Clone, Copy)]
pub enum Base {
    Binary,
    Octal,
    Decimal,
    Hexadecimal,
}

/// Whether the byte is x.
pub(crate) fn is_unknown(byte: u8) -> bool
    ensures { result ≡ is_unknown byte }
{
    byte == b'x' || byte == b'X'
}

/// Whether the byte is z, or `?`.
pub(crate) fn is_high(byte: u8) -> bool
    ensures { result ≡ is_high byte }
{
    byte == b'z' || byte == b'Z' || byte == b'?'
}

/// Whether the byte is x, z or `?`.
pub(crate) fn is_unknown_or_high(byte: u8) -> bool
    ensures { result ≡ is_unknown_or_high byte }
{
    is_unknown(byte) || is_high(byte)
}

/// Whether the byte says that a number is signed.
pub(crate) fn is_sign(byte: u8) -> bool
    ensures { result ≡ is_sign byte }
{
    byte == b's' || byte == b'S'
}

/// The base that this letter stands for.
pub(crate) fn base_of(letter: u8) -> Option<Base>
    ensures { result ≡ base_of letter }
{
    match letter {
        b'b' | b'B' => Some(Base::Binary),
        b'o' | b'O' => Some(Base::Octal),
        b'd' | b'D' => Some(Base::Decimal),
        b'h' | b'H' => Some(Base::Hexadecimal),
        _ => None,
    }
}

/// The number of a digit.
pub(crate) fn digit_number(byte: u8) -> u8
    ensures { result ≡ digit_number byte }
{
    if byte >= b'a' {
        byte - 87
    } else if byte >= b'A' {
        byte - 55
    } else {
        byte.saturating_sub(b'0')
    }
}

impl Base {
    /// Whether the byte is a digit of this base.
    fn has_digit(self, byte: u8) -> bool
        ensures { result ≡ has_digit self byte }
    {
        match self {
            Base::Binary => b'0' <= byte && byte <= b'1',
            Base::Octal => b'0' <= byte && byte <= b'7',
            Base::Decimal => byte.is_ascii_digit(),
            Base::Hexadecimal => byte.is_ascii_hexdigit(),
        }
    }

    /// Whether the digits of a literal may begin with this byte.
    pub(crate) fn starts_digits(self, byte: u8) -> bool
        ensures { result ≡ starts_digits self byte }
    {
        self.has_digit(byte) || is_unknown_or_high(byte)
    }

    /// Whether this byte may be among the digits of a literal.
    pub(crate) fn has_in_digits(self, byte: u8) -> bool
        ensures { result ≡ in_digits self byte }
    {
        self.starts_digits(byte) || byte == b'_'
    }

    /// How many bits a digit has, 0 in decimal.
    pub(crate) fn digit_bits(self) -> usize
        ensures { result ≡ digit_bits self }
    {
        match self {
            Base::Binary => 1,
            Base::Octal => 3,
            Base::Decimal => 0,
            Base::Hexadecimal => 4,
        }
    }
}
