//! Rules about things that are numbered, and the least of several that is broken.
ghost use Rattle.std.specs.Prelude.{ℕ, ◌≡◌, ◌<◌, ◌↔◌, IfOk, IsTrue};
ghost use Rattle.vs_graph.specs.Verdicts.{IsFirst, IsLeast};

use std::alloc::{AllocError, Global};

/// A rule about things that are numbered.
pub trait Rule {
    ghost keeps: { Self → ℕ → Type 0 };

    /// Whether a thing keeps it.
    fn test(&self, alloc: Global, i: usize) -> Result<bool, AllocError>
        ensures { IfOk result (λ b. (IsTrue b ↔ keeps self.now i)) };
}

/// The first of the things below a number that breaks the rule.
pub fn first_broken<R: Rule>(alloc: Global, rule: &R, n: usize) -> Result<Option<usize>, AllocError>
    ensures { IfOk result (λ first. IsFirst (R.keeps rule.now) n first) }
{
    for i in 0..n {
        if !rule.test(alloc, i)? {
            return Ok(Some(i));
        }
    }
    Ok(None)
}

/// Whether all things below a number keep the rule.
pub fn all_keep<R: Rule>(alloc: Global, rule: &R, n: usize) -> Result<bool, AllocError>
    ensures { IfOk result (λ b. (IsTrue b ↔ ((i : ℕ) → i < n → R.keeps rule.now i))) }
{
    match first_broken(alloc, rule, n)? {
        Some(_) => Ok(false),
        None => Ok(true),
    }
}

/// Rules in order, about things in order.
pub trait Book {
    ghost rules: { Self → ℕ };

    ghost things: { Self → ℕ };

    ghost keeps: { Self → ℕ → ℕ → Type 0 };

    /// How many rules there are.
    fn rules(&self) -> usize
        ensures { result ≡ rules self.now };

    /// The first of the things that breaks a rule.
    fn first(&self, alloc: Global, rule: usize) -> Result<Option<usize>, AllocError>
        requires { rule < rules self.now }
        ensures { IfOk result (λ first. IsFirst (keeps self.now rule) (things self.now) first) };
}

/// The least rule that is broken, and the first of the things that breaks it.
pub fn judge<B: Book>(alloc: Global, book: &B) -> Result<Option<(usize, usize)>, AllocError>
    ensures { IfOk result (λ least. IsLeast (B.keeps book.now) (B.rules book.now) (B.things book.now) least) }
{
    for k in 0..book.rules() {
        if let Some(i) = book.first(alloc, k)? {
            return Ok(Some((k, i)));
        }
    }
    Ok(None)
}
