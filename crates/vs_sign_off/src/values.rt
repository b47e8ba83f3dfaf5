//! The values that a value change dump gives its variables at a time.
ghost use Rattle.std.specs.Prelude.{◌≡◌, IfOk, IfSome, map};
ghost use Rattle.vs_vcd_reader.specs.Values.{values_after, values_at};
ghost use Rattle.vs_vcd_reader.specs.Layout.{values_of, with_change, written};
ghost use Rattle.vs_vcd_reader.specs.Plain.{plain_moment};

use std::alloc::{AllocError, Global};
use vs_design::vs_logic4::Vec4;
use vs_vcd_reader::{Moment, ValueChange};

// Puts the value of a change into the place of its variable.
#[tactic(auto, using(std::proofs::lemmas::List::set_past))]
fn put_change(values: &mut Vec<Vec4>, change: &ValueChange)
    ensures { values.new.items ≡ with_change values.old.items change.now }
{
    if change.number < values.len() {
        values[change.number] = change.value;
    }
}

// Puts the values of changes into the places of their variables.
fn put_changes(values: &mut Vec<Vec4>, changes: &[ValueChange])
    ensures { values.new.items ≡ written values.old.items changes.now }
{
    for change in changes {
        put_change(values, change);
    }
}

// The values of changes, in their order.
fn values_in(alloc: Global, changes: &[ValueChange]) -> Result<Vec<Vec4>, AllocError>
    ensures { IfOk result (λ values. values.items ≡ values_of changes.now) }
{
    changes.iter().map(|change| change.value).collect(alloc)
}

// Puts the values of later moments, to a time, into the places of their variables.
fn put_later(values: &mut Vec<Vec4>, later: &[Moment], time: u64)
    ensures { values.new.items ≡ values_after time values.old.items (map plain_moment later.now) }
{
    for moment in later {
        if moment.time > time {
            return;
        }
        put_changes(values, &moment.changes);
    }
}

/// The values of all variables of a dump at a time, in ticks, by its moments, in the order of their codes: those written last at or before it; none
/// where no moment is at or before it.
pub(crate) fn values_at(
    alloc: Global,
    moments: &[Moment],
    time: u64,
) -> Result<Option<Vec<Vec4>>, AllocError>
    ensures { IfOk result (λ o. IfSome o (λ values. values.items ≡ values_at time (map plain_moment moments.now))) }
{
    let Some((first, later)) = moments.split_first() else {
        return Ok(None);
    };
    if first.time > time {
        return Ok(None);
    }
    let mut values = values_in(alloc, &first.changes)?;
    put_later(&mut values, later, time);
    Ok(Some(values))
}
