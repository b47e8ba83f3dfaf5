//! White space, names and reserved words.
ghost use Rattle.std.specs.Prelude.{◌≡◌, []};
ghost use Rattle.vs_lexer.specs.Bytes.{is_white, in_name, in_escaped};
ghost use Rattle.vs_lexer.specs.Forms.{run_of};
ghost use Rattle.vs_lexer.specs.Pieces.{limited, word_or_name, white_piece, name_piece, system_piece, escaped_piece};
ghost use Rattle.vs_lexer.specs.Reading.{Reads};

use crate::reserved::{left_out_to_h, left_out_to_r, left_out_to_x, word};
use crate::{ByteClass, Kind, Lexed, Piece, Refusal, is_white, split_run};

/// The most bytes that a name has.
const NAME_LIMIT: usize = 1024;

/// The token of this kind, unless its name is over the limit.
fn limited(name: &[u8], kind: Kind) -> Piece
    ensures { result ≡ limited name.now kind }
{
    if name.len() > NAME_LIMIT {
        return Piece::Refused(Refusal::TooLong);
    }
    Piece::Token(kind)
}

/// What a simple name is: a reserved word, or a name.
#[tactic(auto, unfolding(crate::specs::Pieces::word_or_name))]
fn word_or_name(text: &[u8]) -> Kind
    ensures { result ≡ word_or_name text.now }
{
    if let Some(kind) = word(text) {
        return kind;
    }
    if let Some(kind) = left_out_to_h(text) {
        return kind;
    }
    if let Some(kind) = left_out_to_r(text) {
        return kind;
    }
    if let Some(kind) = left_out_to_x(text) {
        return kind;
    }
    Kind::Name
}

/// What an escaped name is, its backslash included, where these bytes follow it.
fn escaped_piece(text: &[u8], rest: &[u8]) -> Piece
    ensures { result ≡ escaped_piece text.now rest.now }
{
    let [_, name @ ..] = text else {
        return Piece::Refused(Refusal::BadByte);
    };
    if name.is_empty() {
        return Piece::Refused(Refusal::BadByte);
    }
    if let [next, ..] = rest {
        if !is_white(*next) {
            return Piece::Refused(Refusal::BadByte);
        }
    }
    limited(name, Kind::Name)
}

/// What the name of a system task or function is, its `$` included.
fn system_piece(text: &[u8]) -> Piece
    ensures { result ≡ system_piece text.now [] }
{
    if text.len() > 1 {
        return limited(text, Kind::System);
    }
    Piece::Refused(Refusal::BadByte)
}

/// Reads white space.
pub(crate) fn read_white(bytes: &[u8]) -> Lexed<'_>
    ensures { Reads (run_of is_white white_piece) bytes.now result }
{
    let (_, rest) = split_run(bytes, ByteClass::White);
    Lexed {
        piece: Piece::Skipped,
        rest,
    }
}

/// Reads a simple name.
pub(crate) fn read_name(bytes: &[u8]) -> Lexed<'_>
    ensures { Reads (run_of in_name name_piece) bytes.now result }
{
    let (text, rest) = split_run(bytes, ByteClass::Name);
    let piece = limited(text, word_or_name(text));
    Lexed { piece, rest }
}

/// Reads the name of a system task or function.
pub(crate) fn read_system(bytes: &[u8]) -> Lexed<'_>
    ensures { Reads (run_of in_name system_piece) bytes.now result }
{
    let (text, rest) = split_run(bytes, ByteClass::Name);
    let piece = system_piece(text);
    Lexed { piece, rest }
}

/// Reads an escaped name.
pub(crate) fn read_escaped(bytes: &[u8]) -> Lexed<'_>
    ensures { Reads (run_of in_escaped escaped_piece) bytes.now result }
{
    let (text, rest) = split_run(bytes, ByteClass::Escaped);
    let piece = escaped_piece(text, rest);
    Lexed { piece, rest }
}
