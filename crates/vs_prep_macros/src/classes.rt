//! Classes of bytes.
ghost use Rattle.std.specs.Prelude.{◌≡◌};
ghost use Rattle.vs_lexer.specs.Bytes.{starts_name};
ghost use Rattle.vs_prep_macros.specs.Classes.{in_class};

/// A class of bytes.
#[derive(Clone, Copy)]
pub enum Class {
    /// White space, line feeds among it.
    White,
    /// White space that stands on a line.
    Blank,
    /// What stands on a line: each byte but the line feed.
    Line,
    /// What an escaped name goes on with.
    Escaped,
    /// What a name goes on with.
    Name,
    /// What the digits behind a base go on with.
    Digits,
    /// Carriage returns.
    Return,
}

impl Class {
    /// Whether the byte is of this class.
    pub fn has(self, byte: u8) -> bool
        ensures { result ≡ in_class self byte }
    {
        match self {
            Class::White => vs_lexer::is_white(byte),
            Class::Blank => byte != b'\n' && vs_lexer::is_white(byte),
            Class::Line => byte != b'\n',
            Class::Escaped => vs_lexer::ByteClass::Escaped.has(byte),
            Class::Name => vs_lexer::ByteClass::Name.has(byte),
            Class::Return => byte == b'\r',
            Class::Digits => byte == b'?' || vs_lexer::ByteClass::Name.has(byte),
        }
    }
}

/// Whether the byte begins a name.
pub fn starts_name(byte: u8) -> bool
    ensures { result ≡ starts_name byte }
{
    vs_lexer::starts_name(byte)
}
