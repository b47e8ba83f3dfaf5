//! The continuous assignments in the order of a certificate.
ghost use Rattle.std.specs.Prelude.{ℕ, ◌≡◌, ◌<◌, length, IfOk, OnOk};
ghost use Rattle.vs_rules.specs.Drivers as drivers;
ghost use Rattle.vs_rules.specs.Rules.{K1_Assign, K4};
ghost use Rattle.vs_rules_of_starts.specs.Settled.{IsInOrder};
ghost use Rattle.vs_rules_of_starts.specs.Order.{IsGrown, IsPut, IsPutWhere, AreAtPlaces};

use std::alloc::{AllocError, Global};
use vs_claims::Facts;

// Lets a table grow by entries of none until it has a place.
fn grow(table: &mut Vec<usize>, place: usize, none: usize) -> Result<(), AllocError>
    ensures grown { OnOk result (IsGrown none table.old.items table.new.items) }
    ensures has { OnOk result (place < length table.new.items) }
{
    while table.len() <= place {
        table.push(none)?;
    }
    Ok(())
}

// Puts a number at a place of a table.
fn put_at(table: &mut Vec<usize>, place: usize, x: usize, none: usize) -> Result<(), AllocError>
    ensures { OnOk result (IsPut place x none table.old.items table.new.items) }
{
    grow(table, place, none)?;
    table[place] = x;
    Ok(())
}

// Puts a number at a place of a table, where there is a place.
fn put_where(
    table: &mut Vec<usize>,
    place: Option<usize>,
    x: usize,
    none: usize,
) -> Result<(), AllocError>
    ensures { OnOk result (IsPutWhere place x none table.old.items table.new.items) }
{
    match place {
        None => Ok(()),
        Some(place) => put_at(table, place, x, none),
    }
}

/// The continuous assignments of a design, each after those that drive what it reads: the order of the certificate, which the rules K1 and K4 make
/// such a one. A place of a process has the number of no assignment. It takes as long as the order.
pub fn in_order(alloc: Global, facts: &Facts) -> Result<Vec<usize>, AllocError>
    requires listed { (j : ℕ) → K1_Assign facts.now.design facts.now.claims j }
    requires ordered { (x : drivers.Driver) → K4 facts.now.design facts.now.claims x }
    ensures { IfOk result (λ order. IsInOrder facts.entry.now.design order.items) }
{
    facts.is_well_formed();
    let count = facts.design().assigns().len();
    let mut table = Vec::new(alloc);
    for j in 0..count {
        put_where(&mut table, facts.assign_place(j), j, count)?;
    }
    Ok(table)
}
