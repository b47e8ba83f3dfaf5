//! Dumps of executions, read back.
ghost use Rattle.vs_vcd_reader.specs.ReadBack.{CompleteRunsEndSlots, DumpsReadBack};

use crate::{dumps_are_one, dumps_give_values, faults_are_of_none, written_dumps_are_read};
use vs_process::{stores_are_sized, times_rise};

/// The value change dump of an execution so far, of which a slot has ended, is of the layout. The values of the variables in it, in the order of
/// their codes, are at each time those that the signals have in the store at the end of the last slot at or before that time. Whatever
/// `read` answers of it by its contract is this dump, and no fault of the text.
pub fn run_dumps_are_read()
    ensures { DumpsReadBack }
{
    written_dumps_are_read();
    dumps_give_values();
    times_rise();
    stores_are_sized();
    dumps_are_one();
    faults_are_of_none();
}

/// Of an execution that is complete to a moment a slot has ended.
pub fn complete_runs_end_slots()
    ensures { CompleteRunsEndSlots }
{}
