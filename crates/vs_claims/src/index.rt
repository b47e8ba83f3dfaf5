//! Names in order, where each stands first, and how often.
ghost use Rattle.std.specs.Prelude.{◌≡◌, IfOk, length};
ghost use Rattle.std.specs.List.Sorted.{IsSorted};
ghost use Rattle.vs_rules.specs.Claims.{times_in};
ghost use Rattle.vs_claims.specs.Places.{place_in, texts};
ghost use Rattle.vs_claims.specs.passes.Placed.{placed_from, placed_cmp, AreBelow, AreUpTo};

use std::alloc::{AllocError, Global};
use std::marker::Model;

/// Names in order. A contract sees them as a list. A look-up takes as long as the logarithm of how many there are.
#[derive(Drop)]
pub struct Index<'a> {
    names: Vec<&'a [u8]>,
    // The same names in ascending order, each with its place.
    sorted: Vec<(&'a [u8], usize)>,
}

impl<'a> Model for Index<'a> {
    ghost use Rattle.std.specs.Prelude.{List, ℕ};
    ghost use Rattle.vs_claims.specs.Places.{texts};
    ghost use Rattle.vs_claims.specs.passes.Placed.{AreInOrder};

    ghost Value = { List (List ℕ) };

    ghost view = { λ x. texts x.names.items };

    ghost invariant = { λ x. AreInOrder x.names.items x.sorted.items };
}

// The names of a list, each with its place.
fn with_places<'a>(alloc: Global, names: &[&'a [u8]]) -> Result<Vec<(&'a [u8], usize)>, AllocError>
    ensures { IfOk result (λ r. r.items ≡ placed_from 0 names.now) }
{
    let mut found = Vec::new(alloc);
    for i in 0..names.len() {
        found.push((names[i], i))?;
    }
    Ok(found)
}

// How many have a name below this one.
fn below(sorted: &[(&[u8], usize)], name: &[u8]) -> usize
    requires { IsSorted placed_cmp sorted.now }
    ensures { AreBelow sorted.now name.now result }
{
    sorted.partition_point(|m| m.0 < name)
}

// How many have this name, or one below it.
fn up_to(sorted: &[(&[u8], usize)], name: &[u8]) -> usize
    requires { IsSorted placed_cmp sorted.now }
    ensures { AreUpTo sorted.now name.now result }
{
    sorted.partition_point(|m| m.0 <= name)
}

impl<'a> Index<'a> {
    /// The names of a list.
    pub fn of(alloc: Global, names: Vec<&'a [u8]>) -> Result<Index<'a>, AllocError>
        ensures { IfOk result (λ x. x ≡ texts names.entry.items) }
    {
        let mut sorted = with_places(alloc, &names)?;
        sorted.sort_unstable();
        Ok(Index { names, sorted })
    }

    /// How many they are.
    pub fn len(&self) -> usize
        ensures { result ≡ length self.now }
    {
        self.names.len()
    }

    /// The names.
    pub fn names(&self) -> &[&'a [u8]]
        ensures { texts result.now ≡ self.now }
    {
        &self.names
    }

    /// The first place of a name, where it is there.
    pub fn find(&self, name: &[u8]) -> Option<usize>
        ensures { result ≡ place_in self.now name.now }
    {
        let first = below(&self.sorted, name);
        if first >= self.sorted.len() {
            return None;
        }
        let (found, place) = self.sorted[first];
        if found == name { Some(place) } else { None }
    }

    /// How often a name is there.
    pub fn times(&self, name: &[u8]) -> usize
        ensures { result ≡ times_in name.now self.now }
    {
        up_to(&self.sorted, name) - below(&self.sorted, name)
    }
}
