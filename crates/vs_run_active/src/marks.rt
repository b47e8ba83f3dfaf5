//! The marks of the blocks of signals that were written since the last slot of the value change dump.
ghost use Rattle.std.specs.Prelude.{◌≡◌, ◌<◌, ◌≤◌, ◌*◌, ◌^◌, ℕ, false, length, IfOk};
ghost use Rattle.vs_vcd_writing.specs.Marks.{is_marked};

use std::alloc::{AllocError, Global};
use vs_vcd_writing::BLOCK;

/// Marks for so many signals; none is set.
pub fn no_marks(alloc: Global, signals: usize) -> Result<Vec<u64>, AllocError>
    requires { signals < 2 ^ 63 }
    ensures none { IfOk result (λ marks. (signal : ℕ) → is_marked marks.items signal ≡ false) }
    ensures room { IfOk result (λ marks. signals < 512 * length marks.items) }
    ensures few { IfOk result (λ marks. length marks.items ≤ 2 ^ 57) }
{
    let words = signals / BLOCK / 64 + 1;
    let marks = vec![in alloc; 0; words]?;
    Ok(marks)
}

/// Takes all marks away.
pub fn clear(marks: &mut Vec<u64>)
    ensures len { length marks.new.items ≡ length marks.old.items }
    ensures none { (signal : ℕ) → is_marked marks.new.items signal ≡ false }
{
    for word in 0..marks.len() {
        marks[word] = 0;
    }
}
