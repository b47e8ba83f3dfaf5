//! Lists of numbers in which the first place of one is found by halves.
ghost use Rattle.std.specs.Prelude.{ℕ, ◌≡◌, ◌<◌, IsTrue};
ghost use Rattle.vs_graph.specs.Numbers.{IsPlaceOf, Rise};

use std::marker::Model;

/// A list of numbers. A contract sees the list.
#[derive(Drop)]
pub struct Numbers<'a> {
    all: &'a [u32],
    // Whether each is below the next.
    rise: bool,
}

impl<'a> Model for Numbers<'a> {
    ghost use Rattle.std.specs.Prelude.{ℕ, List, IsTrue};
    ghost use Rattle.vs_graph.specs.Numbers.{Rise};

    ghost Value = { List ℕ };

    ghost view = { λ x. x.all.now };

    ghost invariant = { λ x. IsTrue x.rise → Rise x.all.now };
}

// Whether each number is below the next.
fn rise(numbers: &[u32]) -> bool
    ensures { IsTrue result → Rise numbers.now }
{
    for i in 1..numbers.len() {
        if numbers[i - 1] >= numbers[i] {
            return false;
        }
    }
    true
}

// The first place of a number among numbers that rise, by halves.
fn found(numbers: &[u32], number: u32) -> Option<usize>
    requires { Rise numbers.now }
    ensures { IsPlaceOf numbers.now number result }
{
    match numbers.binary_search(&number) {
        Ok(place) => Some(place),
        Err(_) => None,
    }
}

// The first place of a number among any numbers, by a walk over them.
fn first(numbers: &[u32], number: u32) -> Option<usize>
    ensures { IsPlaceOf numbers.now number result }
{
    for i in 0..numbers.len() {
        if numbers[i] == number {
            return Some(i);
        }
    }
    None
}

impl<'a> Numbers<'a> {
    /// Those of a list. It takes as long as the list is.
    pub fn of(all: &'a [u32]) -> Numbers<'a>
        ensures { result ≡ all.entry.now }
    {
        let rise = rise(all);
        Numbers { all, rise }
    }

    /// The first place of a number, where it is there. It takes as long as the logarithm of how many there are, where they rise.
    pub fn place(&self, number: u32) -> Option<usize>
        ensures { IsPlaceOf self.now number result }
    {
        if self.rise {
            found(self.all, number)
        } else {
            first(self.all, number)
        }
    }
}
