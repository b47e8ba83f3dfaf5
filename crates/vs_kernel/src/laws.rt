//! Laws of runs.
ghost use Rattle.vs_kernel.specs.Shows.{DumpsShow};

use vs_run_regions::vs_process::{stores_are_sized, times_rise};
use vs_vcd_writing::shows_values_at_slot_ends;

/// The value change dump of an execution so far shows, of each signal that is no array, at each time, its value at the end of the last slot at
/// or before that time.
pub fn dumps_show_slot_ends()
    ensures { DumpsShow }
{
    shows_values_at_slot_ends();
    times_rise();
    stores_are_sized();
}
