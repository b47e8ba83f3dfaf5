//! Beginnings of texts.
ghost use Rattle.std.specs.Prelude.{IsTrue, ◌↔◌};
ghost use Rattle.vs_vcd_lines.specs.Beginnings.{Begins};

/// Whether a text begins another.
pub fn begins(part: &[u8], whole: &[u8]) -> bool
    ensures { IsTrue result ↔ Begins part.now whole.now }
{
    whole.starts_with(part)
}
