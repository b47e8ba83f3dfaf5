//! A source that goes on behind what is kept of it.
ghost use Rattle.std.specs.Prelude.{◌≡◌, true};
ghost use Rattle.vs_program.specs.Statuses.{refusal_status};

use crate::input::SOURCE_LIMIT;
use vs_sign_off::CertifiedFault;
use vs_sign_off::vs_simulate::SimFault;
use vs_syntax::vs_lexer::{LexFault, Refusal};

// Whether the piece at a place goes on to the end of what is kept: a comment or an attribute does, a string up to the end of its line.
fn goes_on(source: &[u8], place: usize) -> bool {
    match source.get(place..) {
        None => false,
        Some(piece) => !(piece.starts_with(b"\"") && piece.contains(&b'\n')),
    }
}

/// Whether a fault is that of a piece which is open at the end of what is kept of a source, though it may be closed behind that.
pub(crate) fn is_open_at_cut(source: &[u8], fault: &CertifiedFault) -> bool
    ensures { result ≡ true → refusal_status fault.now ≡ 1 }
{
    match fault {
        CertifiedFault::Simulation(SimFault::Lex(LexFault::Refused { why, place })) => {
            *why == Refusal::Unclosed
                && source.len() as u64 == SOURCE_LIMIT
                && goes_on(source, *place)
        }
        _ => false,
    }
}

/// That a source is too long (L6).
pub(crate) fn too_long<'s>() -> CertifiedFault<'s>
    ensures { refusal_status result ≡ 1 }
{
    CertifiedFault::Simulation(SimFault::Lex(LexFault::Refused {
        why: Refusal::TooLong,
        place: 4194304,
    }))
}
