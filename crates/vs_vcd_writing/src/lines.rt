//! The lines of slots.
ghost use Rattle.std.specs.Prelude.{◌≡◌, ◌++◌, ◌∷◌, [], None, OnOk};
ghost use Rattle.vs_vcd_writing.specs.Text.{text_of, time_line};
ghost use Rattle.vs_vcd_writing.specs.Kept.{change_texts, slot_lines};

use crate::kept::DumpChange;
use crate::texts::push_texts;
use crate::value::push_change;
use itoa::Buffer;
use std::alloc::AllocError;

/// Appends the line of a time in ticks.
pub(crate) fn push_time(text: &mut Vec<u8>, time: u64) -> Result<(), AllocError>
    ensures { OnOk result (text.new.items ≡ text.old.items ++ text_of (time_line time ∷ [])) }
{
    let mut buffer = Buffer::new();
    push_texts(text, &[b"#", buffer.format(time).as_bytes(), b"\n"])
}

/// Appends the lines of changes.
fn push_changes(text: &mut Vec<u8>, changes: &[DumpChange]) -> Result<(), AllocError>
    ensures { OnOk result (text.new.items ≡ text.old.items ++ text_of (change_texts changes.now)) }
{
    for change in changes {
        push_change(text, change.value, change.number)?;
    }
    Ok(())
}

/// Appends the first slot of a dump.
pub(crate) fn push_first(
    text: &mut Vec<u8>,
    changes: &[DumpChange],
    time: u64,
) -> Result<(), AllocError>
    ensures { OnOk result (text.new.items ≡ text.old.items ++ text_of (slot_lines None time (change_texts changes.now))) }
{
    push_time(text, time)?;
    text.extend_from_slice(b"$dumpvars\n")?;
    push_changes(text, changes)?;
    text.extend_from_slice(b"$end\n")?;
    Ok(())
}

/// Appends changes under their time.
pub(crate) fn push_later(
    text: &mut Vec<u8>,
    changes: &[DumpChange],
    time: u64,
) -> Result<(), AllocError>
    ensures { OnOk result (text.new.items ≡ text.old.items ++ text_of (time_line time ∷ change_texts changes.now)) }
{
    push_time(text, time)?;
    push_changes(text, changes)
}
