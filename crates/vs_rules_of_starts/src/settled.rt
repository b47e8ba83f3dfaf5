//! The store in which executions begin, with the continuous assignments settled.
ghost use Rattle.std.specs.Prelude.{ℕ, ◌≡◌, ◌↔◌, Some, slice_get, IfOk, OnOk};
ghost use Rattle.vs_design.specs.Stores as stores;
ghost use Rattle.vs_design.specs.Stores.{start_store};
ghost use Rattle.vs_rules.specs.vs_process.specs.Steps.{assignment};
ghost use Rattle.vs_rules.specs.vs_process.specs.BlockDrivers.{IsSettledStart};
ghost use Rattle.vs_rules_of_starts.specs.Settled.{put_all, put_assign, is_idle, are_idle, IsInOrder};

use std::alloc::{AllocError, Global};
use vs_design::{Assign, Design, Store, Write};
use vs_rules::vs_process::vs_eval::{cut_value, write_of};

// The write of a continuous assignment in a store.
fn write_in(alloc: Global, assign: &Assign, store: &Store) -> Result<Write, AllocError>
    ensures { IfOk result (λ w. w ≡ assignment assign.now.target assign.now.source store.now 0) }
{
    let digits = cut_value(&assign.target, &assign.source, store, 0);
    write_of(alloc, &assign.target, digits, store, 0)
}

// Makes a continuous assignment, by its number, where there is one.
fn make(alloc: Global, assigns: &[Assign], j: usize, store: &mut Store) -> Result<(), AllocError>
    ensures { OnOk result (store.new ≡ put_assign (slice_get assigns.now j) store.old) }
{
    if let Some(assign) = assigns.get(j) {
        let write = write_in(alloc, assign, store)?;
        store.put(&write);
    }
    Ok(())
}

/// Makes continuous assignments, by their numbers, one after another; a number past the end is none.
pub fn make_all(
    alloc: Global,
    assigns: &[Assign],
    order: &[usize],
    store: &mut Store,
) -> Result<(), AllocError>
    ensures { OnOk result (store.new ≡ put_all assigns.now order.now store.old) }
{
    for j in order {
        make(alloc, assigns, *j, store)?;
    }
    Ok(())
}

// Whether no continuous assignment would change anything.
fn are_idle(alloc: Global, assigns: &[Assign], store: &Store) -> Result<bool, AllocError>
    ensures { IfOk result (λ b. b ≡ are_idle assigns.now store.now) }
{
    for assign in assigns {
        let write = write_in(alloc, assign, store)?;
        if !store.has(&write) {
            return Ok(false);
        }
    }
    Ok(true)
}

/// The store in which executions of a design begin, with the continuous assignments settled, where there is one: there is one at most. The order
/// has each continuous assignment after those that drive what it reads. It takes as long as the assignments are.
pub fn settled_start<'a>(
    alloc: Global,
    design: &'a Design,
    order: &[usize],
) -> Result<Option<Store<'a>>, AllocError>
    requires order { IsInOrder design.now order.now }
    ensures { IfOk result (λ found. (store : stores.Store) → (IsSettledStart design.entry.now store ↔ found ≡ Some store)) }
{
    design.is_well_formed();
    let mut store = Store::start(alloc, design)?;
    make_all(alloc, design.assigns(), order, &mut store)?;
    let idle = are_idle(alloc, design.assigns(), &store)?;
    if idle { Ok(Some(store)) } else { Ok(None) }
}
