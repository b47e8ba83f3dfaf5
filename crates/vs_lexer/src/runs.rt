//! Classes of bytes, and runs of them.
ghost use Rattle.std.specs.Prelude.{◌≡◌, ◌<◌, [], ◌∷◌, ◌++◌, length, true, false, MatchOption};
ghost use Rattle.std.specs.List.{list_all};
ghost use Rattle.vs_lexer.specs.Bytes.{is_white, starts_name, begins};
ghost use Rattle.vs_lexer.specs.Reading.{in_class};

use crate::base::Base;

/// A class of bytes.
#[derive(Clone, Copy)]
pub enum ByteClass {
    /// White space.
    White,
    /// What a name goes on with.
    Name,
    /// What an escaped name consists of.
    Escaped,
    /// What a decimal number goes on with.
    Decimal,
    /// What stands on a line.
    Line,
    /// What may stand in a comment.
    Comment,
    /// What may stand in an attribute.
    Attribute,
    /// What counts for nothing among digits.
    Filler,
    /// What the digits of a base go on with.
    Digits(Base),
}

/// Whether the byte is white space.
pub fn is_white(byte: u8) -> bool
    ensures { result ≡ is_white byte }
{
    byte == b' ' || byte == b'\t' || byte == b'\n' || byte == 12 || byte == b'\r'
}

/// Whether the byte begins a simple name.
pub fn starts_name(byte: u8) -> bool
    ensures { result ≡ starts_name byte }
{
    byte.is_ascii_alphabetic() || byte == b'_'
}

impl ByteClass {
    /// Whether the byte is of this class.
    pub fn has(self, byte: u8) -> bool
        ensures { result ≡ in_class self byte }
    {
        match self {
            ByteClass::White => is_white(byte),
            ByteClass::Name => byte.is_ascii_alphanumeric() || byte == b'_' || byte == b'$',
            ByteClass::Escaped => 32 < byte && byte < 127,
            ByteClass::Decimal => byte.is_ascii_digit() || byte == b'_',
            ByteClass::Line => byte != b'\n',
            ByteClass::Comment => 32 <= byte || is_white(byte),
            ByteClass::Attribute => (32 <= byte || is_white(byte)) && byte < 128,
            ByteClass::Filler => byte == b'_',
            ByteClass::Digits(base) => base.has_in_digits(byte),
        }
    }

    /// Whether each of the bytes is of this class.
    pub fn has_all(self, bytes: &[u8]) -> bool
        ensures { result ≡ list_all (in_class self) bytes.now }
    {
        bytes.iter().all(|byte| self.has(*byte))
    }
}

/// The bytes of the class at the front, as many as there are, and the bytes after them.
pub fn split_run<'s>(bytes: &'s [u8], class: ByteClass) -> (&'s [u8], &'s [u8])
    ensures splits { bytes.now ≡ result.0.now ++ result.1.now }
    ensures all { list_all (in_class class) result.0.now ≡ true }
    ensures stops { begins (in_class class) result.1.now ≡ false }
{
    let mut count = 0;
    while count < bytes.len() && class.has(bytes[count]) {
        count += 1;
    }
    bytes.split_at(count)
}

/// The first byte, and those after it.
pub fn first_and_rest(bytes: &[u8]) -> Option<(u8, &[u8])>
    ensures { MatchOption result (bytes.now ≡ []) (λ x. bytes.now ≡ x.0 ∷ x.1.now) }
{
    match bytes {
        [first, rest @ ..] => Some((*first, rest)),
        [] => None,
    }
}

/// The first two bytes, and those after them.
pub fn first_two_and_rest(bytes: &[u8]) -> Option<(u8, u8, &[u8])>
    ensures { MatchOption result (length bytes.now < 2) (λ x. bytes.now ≡ x.0 ∷ x.1 ∷ x.2.now) }
{
    let (first, after) = first_and_rest(bytes)?;
    let (second, rest) = first_and_rest(after)?;
    Some((first, second, rest))
}
