//! The lines of a text.
ghost use Rattle.std.specs.Prelude.{◌≡◌, true, MatchOption};
ghost use Rattle.vs_vcd_lines.specs.Cuts.{lacks, IsCut};

use vs_vcd_lines::cut;

/// The first line of a text without its line feed, and what stands after it; none where no line feed stands in the text.
pub(crate) fn first_line(text: &[u8]) -> Option<(&[u8], &[u8])>
    ensures { MatchOption result (lacks 10 text.now ≡ true) (λ parts. IsCut 10 text.now parts.0.now parts.1.now) }
{
    cut(text, b'\n')
}
