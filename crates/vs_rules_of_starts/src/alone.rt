//! Processes run alone.
ghost use Rattle.std.specs.Prelude.{◌≡◌, IfOk};
ghost use Rattle.vs_rules_of_starts.specs.Alone.{arrival, arrived_if};

use std::alloc::{AllocError, Global};
use vs_design::Store;
use vs_rules::vs_process::{Cursor, Halt};

// Steps of a process alone at time 0, at most so many, to its next event control: whether it arrives there.
pub(crate) fn arrive(
    alloc: Global,
    cursor: &mut Cursor,
    store: &mut Store,
    most: u64,
) -> Result<bool, AllocError>
    ensures { IfOk result (λ b. arrived_if b cursor.new store.new ≡ arrival most cursor.old store.old) }
{
    let mut left = most;
    while left > 0 {
        if cursor.is_empty() {
            return Ok(false);
        }
        left -= 1;
        match cursor.step(alloc, store, 0)? {
            Halt::Nothing => {}
            Halt::Delay(_, _) => return Ok(false),
            Halt::Wait(_, _) => return Ok(true),
        }
    }
    Ok(false)
}
