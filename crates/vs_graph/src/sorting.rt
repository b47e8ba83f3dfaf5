//! An order in which each thing stands after those that it needs.
ghost use Rattle.std.specs.Prelude.{ℕ, ◌≡◌, ◌<◌, true, false, length, IfOk, OnOk};
ghost use Rattle.std.specs.List.{Contains};
ghost use Rattle.vs_graph.specs.Order.{IsSorted, Needs};
ghost use Rattle.vs_graph.specs.Sorting.{IsPlaced, AreSorted, LacksOne, IsPlacing, ArePlacing, AreTriedAt, AreUsers};

use crate::families::Family;
use crate::local_walks::is_marked;
use crate::rows::{Rows, index_of};
use std::alloc::{AllocError, Global};

// The lists of what each thing needs.
#[derive(Drop)]
struct Needed<'a> {
    needs: &'a [Vec<usize>],
}

impl<'a> Family for Needed<'a> {
    ghost has = { λ f x y. Needs f.needs.now x y };

    fn put(&self, _alloc: Global, i: usize, out: &mut Vec<usize>) -> Result<(), AllocError> {
        if i >= self.needs.len() {
            return Ok(());
        }
        out.extend_from_slice(&self.needs[i])?;
        Ok(())
    }
}

// For each thing those that need it.
fn users_of(alloc: Global, needs: &[Vec<usize>]) -> Result<Rows<usize>, AllocError>
    ensures { IfOk result (λ users. AreUsers needs.now users) }
{
    let count = needs.len();
    let users = index_of(alloc, &Needed { needs }, count, count)?;
    Ok(users)
}

// Whether all of some things are.
fn are_placed(placed: &[bool], needed: &[usize]) -> bool
    ensures all { result ≡ true → (y : ℕ) → Contains needed.now y → IsPlaced placed.now y }
    ensures lacks { result ≡ false → LacksOne placed.now needed.now }
{
    for y in needed {
        if !is_marked(placed, *y) {
            return false;
        }
    }
    true
}

// Places a thing at the end of an order, where it isn't placed, and all that it needs are.
fn place(
    order: &mut Vec<usize>,
    placed: &mut Vec<bool>,
    needs: &[Vec<usize>],
    x: usize,
) -> Result<(), AllocError>
    requires { AreSorted needs.now order.old.items placed.old.items }
    ensures { OnOk result (IsPlacing needs.now x order.old.items order.new.items placed.new.items) }
{
    if x >= needs.len() || x >= placed.len() || placed[x] {
        return Ok(());
    }
    if are_placed(placed, &needs[x]) {
        order.push(x)?;
        placed[x] = true;
    }
    Ok(())
}

// The same of some things, one after another.
fn place_all(
    order: &mut Vec<usize>,
    placed: &mut Vec<bool>,
    needs: &[Vec<usize>],
    things: &[usize],
) -> Result<(), AllocError>
    requires { AreSorted needs.now order.old.items placed.old.items }
    ensures { OnOk result (ArePlacing needs.now things.now order.old.items order.new.items placed.new.items) }
{
    for x in things {
        place(order, placed, needs, *x)?;
    }
    Ok(())
}

// Places what can be placed before anything else is.
fn place_first(
    order: &mut Vec<usize>,
    placed: &mut Vec<bool>,
    needs: &[Vec<usize>],
) -> Result<(), AllocError>
    requires { AreSorted needs.now order.old.items placed.old.items }
    ensures sorted { OnOk result (AreSorted needs.now order.new.items placed.new.items) }
    ensures tried { OnOk result (AreTriedAt needs.now order.new.items placed.new.items 0) }
{
    for x in 0..needs.len() {
        place(order, placed, needs, x)?;
    }
    Ok(())
}

/// Things, by the lists of those that each needs, in an order in which each stands after those that it needs. Things that can't be ordered so are
/// left out: each of them needs another one that is. For each thing it takes as long as what it needs, as often as it needs one.
pub fn sorted(alloc: Global, needs: &[Vec<usize>]) -> Result<Vec<usize>, AllocError>
    ensures { IfOk result (λ order. IsSorted needs.now order.items) }
{
    let users = users_of(alloc, needs)?;
    let mut placed = vec![in alloc; false; needs.len()]?;
    let mut order = Vec::new(alloc);
    place_first(&mut order, &mut placed, needs)?;
    for i in 0..usize::MAX {
        if i >= order.len() {
            break;
        }
        let x = order[i];
        place_all(&mut order, &mut placed, needs, users.row(x))?;
    }
    Ok(order)
}
