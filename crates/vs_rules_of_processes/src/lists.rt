//! Lists of numbers.
ghost use Rattle.std.specs.Prelude.{ℕ, ◌≡◌, ◌↔◌, IsTrue};
ghost use Rattle.std.specs.List.{Contains};

use vs_graph::all_are;

/// Whether all numbers of two lists are one.
pub(crate) fn are_same(a: &[usize], b: &[usize]) -> bool
    ensures { IsTrue result ↔ ((x : ℕ) → Contains a.now x → (y : ℕ) → Contains b.now y → x ≡ y) }
{
    for x in a {
        if !all_are(b, *x) {
            return false;
        }
    }
    true
}
