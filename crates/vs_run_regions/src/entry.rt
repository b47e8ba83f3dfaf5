//! How updates and ends of delays enter the event queue and leave it.
ghost use Rattle.std.specs.Prelude.{ℕ, ◌≡◌, ◌≢◌, ◌++◌, ◌∷◌, [], ◌≤◌, true, map, OnOk, OnErr};
ghost use Rattle.vs_time_wheel.specs.Bag.{IsFrom, SameBag, events_at};
ghost use Rattle.vs_run_regions.specs.declared.item.Due.TheVariants as Due;
ghost use Rattle.vs_run_regions.specs.Items.{wakes, lates};
ghost use Rattle.vs_run_regions.specs.Regions.{what_all};

use crate::item::Due;
use crate::late::{Held, LateUpdate};
use crate::listing::SlotUpdates;
use std::alloc::{AllocError, Global};
use vs_time_wheel::EventQueue;

/// An update of a later slot enters the queue; without room it doesn't. It stands apart, as the result of the queue would be cleared for
/// the others too.
#[inline(never)]
pub(crate) fn enter_queue<Q: EventQueue<Due>>(
    alloc: Global,
    queue: &mut Q,
    update: LateUpdate,
) -> Result<(), AllocError>
    requires { Q.clock queue.old ≤ update.due }
    ensures queued { OnOk result
        (SameBag (Q.bag queue.new) (Q.bag queue.old ++ record { time = update.due; event = Due.Late update } ∷ [])) }
    ensures unqueued { OnErr result (SameBag (Q.bag queue.new) (Q.bag queue.old)) }
    ensures clock { Q.clock queue.new ≡ Q.clock queue.old }
{
    let due = update.due();
    let held = Held::new(alloc, update)?;
    if let Err(_) = queue.schedule(due, Due::Late(held)) {
        return Err(AllocError);
    }
    Ok(())
}

/// An update that is due goes to its list; the answer is whether it found room there. It stands apart, as the update would be cleared for
/// the processes too.
#[inline(never)]
fn place_update(update: Held, updates: &mut SlotUpdates) -> bool
    ensures placed { result ≡ true → updates.new.due ≡ updates.old.due ++ update.what ∷ [] }
    ensures active { updates.new.active ≡ updates.old.active }
    ensures signals { updates.new.signals ≡ updates.old.signals }
    ensures writes { updates.new.writes ≡ updates.old.writes }
{
    updates.push_any(update.take().into_what()).is_ok()
}

/// A process whose delay is over, or an update that is due, goes to its list; the answer is whether it found room there.
#[inline(always)]
fn place(item: Due, updates: &mut SlotUpdates, woken: &mut Vec<usize>) -> bool
    ensures due { result ≡ true → updates.new.due ≡ updates.old.due ++ what_all (lates (item ∷ [])) }
    ensures woken { result ≡ true → woken.new.items ≡ woken.old.items ++ wakes (item ∷ []) }
    ensures active { updates.new.active ≡ updates.old.active }
    ensures signals { updates.new.signals ≡ updates.old.signals }
    ensures writes { updates.new.writes ≡ updates.old.writes }
{
    match item {
        Due::Wake(process) => woken.push(process).is_ok(),
        Due::Late(update) => place_update(update, updates),
    }
}

/// The items of a time go to their lists; the answer is whether all found room there.
#[inline(always)]
pub(crate) fn take_due<Q: EventQueue<Due>>(
    queue: &mut Q,
    updates: &mut SlotUpdates,
    woken: &mut Vec<usize>,
    time: u64,
) -> bool
    requires not_over { Q.clock queue.old ≤ time }
    requires none_before { IsFrom time (Q.bag queue.old) }
    ensures due { result ≡ true → updates.new.due ≡ updates.old.due ++ what_all (lates (events_at time (Q.bag queue.old))) }
    ensures woken { result ≡ true → woken.new.items ≡ woken.old.items ++ wakes (events_at time (Q.bag queue.old)) }
    ensures taken { events_at time (Q.bag queue.new) ≡ [] }
    ensures others { (t : ℕ) → time ≢ t → events_at t (Q.bag queue.new) ≡ events_at t (Q.bag queue.old) }
    ensures clock { Q.clock queue.new ≡ time }
    ensures active { updates.new.active ≡ updates.old.active }
    ensures signals { updates.new.signals ≡ updates.old.signals }
    ensures writes { updates.new.writes ≡ updates.old.writes }
{
    let mut room = true;
    while let Some(item) = queue.take_due(time) {
        if !place(item, updates, woken) {
            room = false;
        }
    }
    room
}
