//! Texts that begin or end with another.
ghost use Rattle.std.specs.Prelude.{◌≡◌, List, ℕ, ◌++◌, IsTrue, ◌↔◌, MatchOption};

/// What stands in a text after a beginning.
pub fn after<'t>(text: &'t [u8], beginning: &[u8]) -> Option<&'t [u8]>
    ensures { MatchOption result ((rest : List ℕ) → text.now ≡ beginning.now ++ rest → ⊥) (λ rest. text.now ≡ beginning.now ++ rest.now) }
{
    text.strip_prefix(beginning)
}

/// What stands in a text before an end.
pub(crate) fn before<'t>(text: &'t [u8], end: &[u8]) -> Option<&'t [u8]>
    ensures { MatchOption result ((front : List ℕ) → text.now ≡ front ++ end.now → ⊥) (λ front. text.now ≡ front.now ++ end.now) }
{
    text.strip_suffix(end)
}

/// Whether two texts are one.
pub fn is_same(text: &[u8], other: &[u8]) -> bool
    ensures { IsTrue result ↔ (text.now ≡ other.now) }
{
    text == other
}
