//! The start of a run.
ghost use Rattle.std.specs.Io.KnownBytes.{Appends};
ghost use Rattle.std.specs.Prelude.{◌≡◌, ◌≤◌, ◌^◌, [], None, IfOk, OnOk, OnErr, length, map};
ghost use Rattle.vs_run_active.specs.vs_process.specs.Executions as executions;
ghost use Rattle.vs_run_active.specs.vs_process.specs.States as states;
ghost use Rattle.vs_kernel.specs.Snapshot.{IsSnapshot};
ghost use Rattle.vs_kernel.specs.Scripts.{AreScripts};
ghost use Rattle.vs_run_steps.specs.Runs.{IsRunOf, marks_of, state_of};
ghost use Rattle.vs_run_steps.specs.Recording.{HasNoted, HasRoom};
ghost use Rattle.vs_vcd_writing.specs.Progress.{is_write_fault};
ghost use Rattle.vs_vcd_writing.specs.Sinks.{AppendsPart, failed_after};
ghost use Rattle.vs_vcd_writing.specs.Text.{vcd_header};

use crate::run::Run;
use crate::running_of;
use crate::vs_run_active::no_marks;
use crate::vs_run_regions::vs_time_wheel::EventQueue;
use crate::vs_run_regions::{Agenda, Due};
use crate::vs_run_steps::Forms;
use std::alloc::{AllocError, Global};
use vs_design::{Design, Process};
use vs_process::Script;
use vs_run_active::vs_process::is_combinational;
use vs_run_steps::{Recorder, RunState};
use vs_vcd_writing::{Sink, WriterFault};

/// For each process whether it is a combinational block.
fn blocks_of(alloc: Global, processes: &[Process]) -> Result<Vec<bool>, AllocError>
    ensures { IfOk result (λ blocks. blocks.items ≡ map executions.is_combinational processes.now) }
{
    let mut blocks = Vec::new(alloc);
    for process in processes {
        blocks.push(is_combinational(process))?;
    }
    Ok(blocks)
}

/// Marks for the signals of a design, of which none is set; none where no slots are written.
fn marks_for(alloc: Global, recorder: &Recorder, design: &Design) -> Result<Vec<u64>, AllocError>
    ensures room { IfOk result (λ marks. HasRoom design.now marks.items recorder.now) }
    ensures few { IfOk result (λ marks. length marks.items ≤ 2 ^ 57) }
{
    if recorder.is_writing() {
        let marks = no_marks(alloc, design.signals().len())?;
        return Ok(marks);
    }
    Ok(Vec::new(alloc))
}

/// Of each continuous assignment whether it is silent, and whether it is a copy that may be woken with others as one. Where a policy chooses, none is.
fn silent_and_copies(
    alloc: Global,
    forms: &Forms,
    chooses: bool,
) -> Result<(Vec<bool>, Vec<bool>), AllocError> {
    if chooses {
        return Ok((Vec::new(alloc), Vec::new(alloc)));
    }
    let silent = forms.silent(alloc)?;
    let copies = forms.copies(alloc, &silent)?;
    Ok((silent, copies))
}

/// The list of a policy that chooses, at the start of a run.
fn agenda_of<Q: EventQueue<Due>>(
    alloc: Global,
    design: &Design,
    running: &mut RunState<Q>,
    chooses: bool,
) -> Result<Agenda, AllocError>
    ensures state { state_of running.new ≡ state_of running.old }
    ensures marks { marks_of running.new ≡ marks_of running.old }
    ensures run { IsRunOf design.now running.old → IsRunOf design.now running.new }
{
    let mut agenda = Agenda::new(alloc, design.signals().len(), design.assigns().len())?;
    if chooses {
        let first_process = running.watched.events.first_process;
        agenda.add_woken(&mut running.watched.events.queue, first_process)?;
    }
    Ok(agenda)
}

impl<'a, Q: EventQueue<Due>> Run<'a, Q> {
    /// The start of a run of a design; these are the scripts of its processes, one each in order. The header of the dump is written.
    pub fn start<V: Sink>(
        alloc: Global,
        design: &'a Design,
        scripts: &'a [Script<'a>],
        wheel: Q,
        chooses: bool,
        vcd: &mut V,
    ) -> Result<Self, WriterFault>
    where
        Q: Drop,
        requires empty { Q.bag wheel ≡ [] }
        requires at_zero { Q.clock wheel ≡ 0 }
        requires scripts { AreScripts design.now scripts.now }
        ensures run { IfOk result (λ run. IsSnapshot run) }
        ensures state { IfOk result (λ run. state_of run.running ≡ states.start design.entry.now) }
        ensures design { IfOk result (λ run. run.design ≡ design.entry.now) }
        ensures blocks { IfOk result (λ run. run.blocks ≡ map executions.is_combinational design.entry.now.processes) }
        ensures inside { IfOk result (λ run. run.inside ≡ None) }
        ensures chooses { IfOk result (λ run. run.chooses ≡ chooses) }
        ensures written { IfOk result (λ run. HasNoted run.writer (V.bytes vcd.new) design.entry.now []) }
        ensures bytes { OnOk result (Appends (V.bytes vcd.old) (V.bytes vcd.new) (vcd_header design.entry.now)) }
        ensures part { OnErr result (AppendsPart (V.bytes vcd.old) (V.bytes vcd.new) (vcd_header design.entry.now)) }
        ensures failures { V.failed vcd.new ≡ failed_after (is_write_fault result) (V.failed vcd.old) }
    {
        let blocks = blocks_of(alloc, design.processes())?;
        let forms = Forms::of(alloc, design)?;
        let (silent, copies) = silent_and_copies(alloc, &forms, chooses)?;
        let recorder = Recorder::start(alloc, vcd, design)?;
        let marks = marks_for(alloc, &recorder, design)?;
        let mut running = running_of(alloc, design, scripts, wheel, &copies, silent, marks)?;
        let agenda = agenda_of(alloc, design, &mut running, chooses)?;
        Ok(Run {
            alloc,
            blocks,
            forms,
            running,
            inside: None,
            chooses,
            agenda,
            picked: None,
            chosen: None,
            recorder,
        })
    }
}
