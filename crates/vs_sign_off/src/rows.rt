//! The rows of a text.
ghost use Rattle.std.specs.Prelude.{◌≡◌, IfOk};
ghost use Rattle.vs_sign_off.specs.Rows.{rows, times};

use std::alloc::{AllocError, Global};

/// How often a row stands in a text: how many pieces of it that end with a line feed are these bytes, without the line feed.
pub fn times_of(alloc: Global, text: &[u8], row: &[u8]) -> Result<u64, AllocError>
    ensures { IfOk result (λ count. count ≡ times row.now (rows text.now)) }
{
    let mut begun = Vec::new(alloc);
    let mut count: u64 = 0;
    for byte in text {
        if *byte == b'\n' {
            if begun.as_slice() == row {
                count += 1;
            }
            begun.clear();
        } else {
            begun.push(*byte)?;
        }
    }
    Ok(count)
}
