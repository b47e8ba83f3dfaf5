//! The changes of a slot.
ghost use Rattle.std.specs.Prelude.{◌≡◌, ◌≤◌, ◌<◌, ◌++◌, ℕ, List, ◌^◌, false, OnOk, length, take};
ghost use Rattle.vs_design.specs.Stores.{Store};
ghost use Rattle.vs_vcd_writing.specs.Values.{shown_value};
ghost use Rattle.vs_vcd_writing.specs.Kept.{kept_changes, first_change, later_change, chosen_change, next_changes, AreLater};
ghost use Rattle.vs_vcd_writing.specs.Rooms.{IsRoom, IsCompared, AreCompared};

use crate::kept::{DumpChange, Kept, Written};
use crate::marks::{BLOCK, block_range, next_mark};
use crate::room::{LineRoom, shown};
use std::alloc::AllocError;
use vs_design::Store;

/// Lists the value of a signal, where it has a code.
fn list_value(
    changes: &mut Vec<DumpChange>,
    store: &Store,
    signal: usize,
    kept: Kept,
) -> Result<(), AllocError>
    ensures { OnOk result (changes.new.items ≡ changes.old.items ++ first_change store.now signal kept) }
{
    let Some(number) = kept.code else {
        return Ok(());
    };
    let value = shown(store, signal);
    changes.push(DumpChange {
        signal,
        number,
        value,
    })?;
    Ok(())
}

/// Lists the change of a signal that has a code, where its value isn't the one kept.
fn list_change(
    changes: &mut Vec<DumpChange>,
    room: &LineRoom,
    signal: usize,
    kept: Kept,
) -> Result<(), AllocError>
    requires within { signal < length room.now.words }
    requires room { IsRoom room.now (length room.now.words) }
    ensures { OnOk result ((store : Store) → IsCompared room.now signal kept.value (shown_value store signal)
        → changes.new.items ≡ changes.old.items ++ later_change store signal kept) }
{
    if room.is_same(signal) {
        return Ok(());
    }
    let Some(number) = kept.code else {
        return Ok(());
    };
    let value = room.words.word(signal);
    changes.push(DumpChange {
        signal,
        number,
        value,
    })?;
    Ok(())
}

/// Lists the values of the signals.
fn list_values(
    changes: &mut Vec<DumpChange>,
    store: &Store,
    kept: &Written,
) -> Result<(), AllocError>
    ensures { OnOk result (changes.new.items ≡ changes.old.items ++ kept_changes (first_change store.now) 0 kept.now) }
{
    for signal in 0..kept.len() {
        list_value(changes, store, signal, kept.at(signal))?;
    }
    Ok(())
}

/// Lists the changes of the signals from one number on, below another, that were compared.
fn list_compared(
    changes: &mut Vec<DumpChange>,
    room: &LineRoom,
    kept: &Written,
    from: usize,
    to: usize,
) -> Result<(), AllocError>
    requires order { from ≤ to }
    requires within { to ≤ length kept.now }
    requires room { IsRoom room.now (length kept.now) }
    ensures { OnOk result ((start : List DumpChange) (by : ℕ → Kept → List DumpChange) (store : Store)
        → AreCompared room.now kept.now store from to → AreLater by store from to
        → changes.old.items ≡ start ++ kept_changes by 0 (take from kept.now)
        → changes.new.items ≡ start ++ kept_changes by 0 (take to kept.now)) }
{
    for signal in from..to {
        list_change(changes, room, signal, kept.at(signal))?;
    }
    Ok(())
}

/// Lists the changes of the signals from one number on, below another.
fn list_range(
    changes: &mut Vec<DumpChange>,
    room: &mut LineRoom,
    store: &Store,
    kept: &Written,
    from: usize,
    to: usize,
) -> Result<(), AllocError>
    requires order { from ≤ to }
    requires within { to ≤ length kept.now }
    requires room { IsRoom room.old (length kept.now) }
    ensures room { IsRoom room.new (length kept.now) }
    ensures changes { OnOk result ((start : List DumpChange) (by : ℕ → Kept → List DumpChange) → AreLater by store.now from to
        → changes.old.items ≡ start ++ kept_changes by 0 (take from kept.now)
        → changes.new.items ≡ start ++ kept_changes by 0 (take to kept.now)) }
{
    kept.compare(room, store, from, to);
    list_compared(changes, room, kept, from, to)
}

/// Lists the changes of the signals whose blocks are marked. It looks at these alone.
fn list_marked(
    changes: &mut Vec<DumpChange>,
    room: &mut LineRoom,
    store: &Store,
    kept: &Written,
    marks: &[u64],
) -> Result<(), AllocError>
    requires few { length marks.now ≤ 2 ^ 57 }
    requires room { IsRoom room.old (length kept.now) }
    ensures room { IsRoom room.new (length kept.now) }
    ensures changes { OnOk result (changes.new.items
        ≡ changes.old.items ++ kept_changes (chosen_change false marks.now store.now) 0 kept.now) }
{
    let mut from = 0;
    while from <= kept.len() / BLOCK {
        let Some(block) = next_mark(marks, from) else {
            return Ok(());
        };
        let Some(range) = block_range(block, kept.len()) else {
            return Ok(());
        };
        list_range(changes, room, store, kept, range.from, range.to)?;
        from = block + 1;
    }
    Ok(())
}

/// Lists the changes of the signals: of all, or of those whose blocks are marked.
fn list_later(
    changes: &mut Vec<DumpChange>,
    room: &mut LineRoom,
    store: &Store,
    kept: &Written,
    all: bool,
    marks: &[u64],
) -> Result<(), AllocError>
    requires few { length marks.now ≤ 2 ^ 57 }
    requires room { IsRoom room.old (length kept.now) }
    ensures room { IsRoom room.new (length kept.now) }
    ensures changes { OnOk result (changes.new.items
        ≡ changes.old.items ++ kept_changes (chosen_change all marks.now store.now) 0 kept.now) }
{
    if all {
        list_range(changes, room, store, kept, 0, kept.len())
    } else {
        list_marked(changes, room, store, kept, marks)
    }
}

/// Lists the changes of the next slot, and nothing else: at the first slot the values of all signals, later the changes of
/// all, or of those whose blocks are marked.
pub(crate) fn list_changes(
    changes: &mut Vec<DumpChange>,
    room: &mut LineRoom,
    store: &Store,
    kept: &Written,
    last: Option<u64>,
    all: bool,
    marks: &[u64],
) -> Result<(), AllocError>
    requires few { length marks.now ≤ 2 ^ 57 }
    requires room { IsRoom room.old (length kept.now) }
    ensures room { IsRoom room.new (length kept.now) }
    ensures changes { OnOk result (changes.new.items ≡ next_changes kept.now last all marks.now store.now) }
{
    changes.clear();
    match last {
        None => list_values(changes, store, kept),
        Some(_) => list_later(changes, room, store, kept, all, marks),
    }
}
