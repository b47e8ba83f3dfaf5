//! Texts cut at a byte.
ghost use Rattle.std.specs.Prelude.{◌≡◌, true, MatchOption};
ghost use Rattle.vs_vcd_lines.specs.Cuts.{lacks, IsCut, IsCutLast};

use memchr::{memchr, memrchr};

/// What stands in a text before the first of a byte, and what stands after it; none where the text has no such byte.
pub fn cut(text: &[u8], byte: u8) -> Option<(&[u8], &[u8])>
    ensures { MatchOption result (lacks byte text.now ≡ true) (λ parts. IsCut byte text.now parts.0.now parts.1.now) }
{
    match memchr(byte, text) {
        Some(place) => Some((&text[..place], &text[place + 1..])),
        None => None,
    }
}

/// What stands in a text before the last of a byte, and what stands after it; none where the text has no such byte.
pub(crate) fn cut_last(text: &[u8], byte: u8) -> Option<(&[u8], &[u8])>
    ensures { MatchOption result (lacks byte text.now ≡ true) (λ parts. IsCutLast byte text.now parts.0.now parts.1.now) }
{
    match memrchr(byte, text) {
        Some(place) => Some((&text[..place], &text[place + 1..])),
        None => None,
    }
}
