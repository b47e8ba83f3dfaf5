//! Lists of numbers of signals and of drivers.
ghost use Rattle.std.specs.Prelude.{ℕ, ◌≡◌, ◌↔◌, Some};
ghost use Rattle.std.specs.List.{Contains};
ghost use Rattle.vs_drivers.specs.Copies.{IsOnly};

/// The one number of a list that has it once or more, and no other.
pub fn only(xs: &[usize]) -> Option<usize>
    ensures { (x : ℕ) → (IsOnly (λ y. Contains xs.now y) x ↔ result ≡ Some x) }
{
    if xs.is_empty() {
        return None;
    }
    let first = xs[0];
    for x in xs {
        if *x != first {
            return None;
        }
    }
    Some(first)
}
