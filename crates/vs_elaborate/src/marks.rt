//! Which bits of nets are driven, as a table: 64 places for each signal.
ghost use Rattle.std.specs.Prelude.{◌≡◌, ◌<◌, ◌≤◌, ◌*◌, [], length, IfOk};
ghost use Rattle.vs_elaborate.specs.Marks.{AreWithin, IsMarked, IsReach, Marks, MarksOne, MarksAll};

use std::alloc::{AllocError, Global};
use vs_design::{BitRange, Bits, Signal};

/// A table without marks.
pub fn no_marks(alloc: Global, signals: &[Signal]) -> Result<Vec<bool>, AllocError>
    requires { length signals.now ≤ 65536 }
    ensures { IfOk result (λ marks. Marks signals.now [] marks.items) }
{
    let marks = vec![in alloc; false; 64 * signals.len()]?;
    Ok(marks)
}

/// Marks the places from one on up to another. The answer is whether one of them was marked before.
fn mark(marks: &mut [bool], from: usize, to: usize) -> bool
    requires ordered { from ≤ to }
    requires inside { to ≤ length marks.old }
    ensures { IsMarked from to marks.old marks.new result }
{
    let mut again = false;
    for place in from..to {
        again = again || marks[place];
        marks[place] = true;
    }
    again
}

/// The first bit of a range below a size, and the one behind the last.
fn reach(bits: Option<Bits>, size: u32) -> (u32, u32)
    ensures { IsReach size bits result }
{
    match bits {
        Some(bits) => (
            bits.low.min(size),
            bits.low.saturating_add(bits.width).min(size),
        ),
        None => (0, size),
    }
}

/// Marks the bits of a range. The answer is whether one of them was marked before.
fn mark_range(signals: &[Signal], range: BitRange, marks: &mut [bool]) -> bool
    requires within { range.signal < length signals.now }
    requires size { length marks.old ≡ 64 * length signals.now }
    ensures { MarksOne signals.now range marks.old marks.new result }
{
    let (from, to) = reach(range.bits, signals[range.signal].width);
    let first = 64 * range.signal;
    mark(marks, first + from as usize, first + to as usize)
}

/// Marks the bits of ranges. The answer is a signal of which a bit was marked before.
pub fn mark_ranges(signals: &[Signal], ranges: &[BitRange], marks: &mut [bool]) -> Option<usize>
    requires within { AreWithin signals.now ranges.now }
    requires size { length marks.old ≡ 64 * length signals.now }
    ensures { MarksAll signals.now ranges.now marks.old marks.new result }
{
    for range in ranges {
        if mark_range(signals, *range, marks) {
            return Some(range.signal);
        }
    }
    None
}
