//! Policies: which of the enabled events is next.
ghost use Rattle.std.specs.Prelude.{◌≡◌, ◌<◌, ◌-◌};
ghost use Rattle.vs_run_regions.specs.Policies.{listed_choice, other_choices};

use std::marker::Model;

/// A policy: it chooses among the events that are enabled, whose order the standard leaves open
/// (IEEE 1364-2005, clause 11.4.2).
pub trait Pick {
    /// Whether it always chooses the first: then `pick` isn't called.
    const FIRST: bool = false;

    /// One of the first `n` numbers: the place of the chosen event in the list of those that are enabled.
    fn pick(&mut self, n: usize) -> usize
        requires { 0 < n }
        ensures { result < n };
}

/// The policy that always chooses the first.
#[derive(Clone, Copy)]
pub struct Fifo;

impl Pick for Fifo {
    const FIRST: bool = true;

    fn pick(&mut self, n: usize) -> usize
        requires { 0 < n }
        ensures in_range { result < n }
        ensures first { result ≡ 0 }
    {
        let _ = n;
        0
    }
}

/// The policy that always chooses the last.
#[derive(Clone, Copy)]
pub struct Lifo;

impl Pick for Lifo {
    fn pick(&mut self, n: usize) -> usize
        requires { 0 < n }
        ensures in_range { result < n }
        ensures last { result ≡ n - 1 }
    {
        n - 1
    }
}

/// The policy that makes the choices of a list, one after another: among n events that of the number modulo n. After the end of the list it
/// chooses the first.
#[derive(Drop)]
pub struct Listed<'v> {
    left: &'v [usize],
}

impl<'v> Model for Listed<'v> {
    ghost use Rattle.std.specs.Prelude.{List, ℕ};

    ghost Value = { List ℕ };

    ghost view = { λ l. l.left.now };
}

impl<'v> Listed<'v> {
    /// The policy of these choices.
    pub fn new(choices: &'v [usize]) -> Self
        ensures { result ≡ choices.now }
    {
        Listed { left: choices }
    }
}

impl<'v> Pick for Listed<'v> {
    fn pick(&mut self, n: usize) -> usize
        requires { 0 < n }
        ensures in_range { result < n }
        ensures chosen { result ≡ listed_choice self.old n }
        ensures left { self.new ≡ other_choices self.old }
    {
        match self.left.split_first() {
            Some((choice, others)) => {
                self.left = others;
                *choice % n
            }
            None => 0,
        }
    }
}
