//! The marks of the blocks of signals that were written since the last slot of the value change dump.
ghost use Rattle.std.specs.Prelude.{◌≡◌, ◌<◌, ◌*◌, ℕ, true, false, length};
ghost use Rattle.vs_vcd_writing.specs.Marks.{is_marked};
ghost use Rattle.vs_run_active.specs.Changes.{MarkWords};

use vs_process::Change;
use vs_vcd_writing::BLOCK;

/// Marks the block of a signal; one past the marks has none.
#[inline(always)]
pub(crate) fn mark(marks: &mut Vec<u64>, signal: usize)
    ensures len { length marks.new.items ≡ length marks.old.items }
    ensures set { signal < 512 * length marks.old.items → is_marked marks.new.items signal ≡ true }
    ensures others { (other : ℕ) → is_marked marks.new.items other ≡ false → is_marked marks.old.items other ≡ false }
{
    let block = signal / BLOCK;
    if let Some(bits) = marks.get_mut(block / 64) {
        *bits |= 1 << (block % 64);
    }
}

/// Marks the signals of the words that a write has changed.
#[inline(always)]
pub(crate) fn mark_signals(marks: &mut Vec<u64>, changes: &Vec<Change>)
    ensures marked { MarkWords marks.old.items marks.new.items changes.now.items }
{
    for change in changes {
        mark(marks, change.signal);
    }
}
