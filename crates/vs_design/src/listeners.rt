//! Which processes wait for changes of a signal: a table, made once.
ghost use Rattle.std.specs.Prelude.{◌≡◌, IfOk, OnOk};
ghost use Rattle.vs_design.specs.Stores.{changed_at};
ghost use Rattle.vs_design.specs.Tables.{rows, ends_with, ending_with, all_heard, heard, empty_rows};

use crate::design::Process;
use crate::readers::empty_table;
use crate::statement::EventTerm;
use crate::statement_uses::event_terms;
use std::alloc::{AllocError, Global};

/// Whether a row's last entry is this process.
fn ends_with(row: &[usize], process: usize) -> bool
    ensures { result ≡ ends_with process row.now }
{
    match row.last() {
        Some(last) => *last == process,
        None => false,
    }
}

/// Notes that a process waits for a signal, where it isn't the last one noted; a signal past the end is none of the table.
fn note(table: &mut Vec<Vec<usize>>, process: usize, signal: usize) -> Result<(), AllocError>
    ensures { OnOk result (rows table.new.items ≡ changed_at (ending_with process) signal (rows table.old.items)) }
{
    if let Some(row) = table.get_mut(signal) {
        if !ends_with(row, process) {
            row.push(process)?;
        }
    }
    Ok(())
}

/// Notes all that a process waits for.
fn note_all(
    table: &mut Vec<Vec<usize>>,
    process: usize,
    terms: &[EventTerm],
) -> Result<(), AllocError>
    ensures { OnOk result (rows table.new.items ≡ all_heard process terms.now (rows table.old.items)) }
{
    for term in terms {
        note(table, process, term.range.signal)?;
    }
    Ok(())
}

/// For each of so many signals, which processes have an event control that names it.
pub(crate) fn table_of(
    alloc: Global,
    processes: &[Process],
    signals: usize,
) -> Result<Vec<Vec<usize>>, AllocError>
    ensures { IfOk result (λ table. rows table.items ≡ heard 0 processes.now (empty_rows signals)) }
{
    let mut table = empty_table(alloc, signals)?;
    for i in 0..processes.len() {
        let terms = event_terms(alloc, &processes[i].body)?;
        note_all(&mut table, i, &terms)?;
    }
    Ok(table)
}
