//! The terms of the event controls of a run's processes, by the numbers of these.
ghost use Rattle.std.specs.Prelude.{◌≡◌, ◌++◌, map, IfOk, OnOk};
ghost use Rattle.vs_design.specs.Uses.{joined};
ghost use Rattle.vs_process.specs.Scripts.{instruction_control};
ghost use Rattle.vs_run_active.specs.Terms.{TermsAreFound, control_terms, process_term, terms_from};

use crate::watchers::ProcessTerm;
use std::alloc::{AllocError, Global};
use vs_design::EventTerm;
use vs_process::{Action, Instruction, Script};

/// Adds the terms of an event control of a process.
fn add_terms(
    all: &mut Vec<ProcessTerm>,
    process: usize,
    control: u32,
    terms: &[EventTerm],
) -> Result<(), AllocError>
    ensures { OnOk result (all.new.items ≡ all.old.items ++ map (process_term process control) terms.now) }
{
    for term in terms {
        all.push(ProcessTerm {
            process,
            control,
            term: *term,
        })?;
    }
    Ok(())
}

/// Adds those of an instruction, where it waits at an event control.
fn add_control(
    all: &mut Vec<ProcessTerm>,
    process: usize,
    instruction: &Instruction,
) -> Result<(), AllocError>
    ensures { OnOk result (all.new.items ≡ all.old.items ++ control_terms process (instruction_control instruction.now)) }
{
    match &instruction.action {
        Action::Wait(control, terms) => {
            add_terms(all, process, *control, terms)?;
            Ok(())
        }
        _ => Ok(()),
    }
}

/// Adds those of all instructions of a process.
fn add_controls(
    all: &mut Vec<ProcessTerm>,
    process: usize,
    instructions: &[Instruction],
) -> Result<(), AllocError>
    ensures { OnOk result (all.new.items
        ≡ all.old.items ++ joined (map (control_terms process) (map instruction_control instructions.now))) }
{
    for instruction in instructions {
        add_control(all, process, instruction)?;
    }
    Ok(())
}

/// Those of the processes that have these scripts.
pub fn terms_of(alloc: Global, scripts: &[Script]) -> Result<Vec<ProcessTerm>, AllocError>
    ensures { IfOk result (λ terms. terms.items ≡ terms_from 0 scripts.now) }
{
    let mut terms = Vec::new(alloc);
    for process in 0..scripts.len() {
        let script = &scripts[process];
        let instructions = script.instructions();
        add_controls(&mut terms, process, instructions)?;
    }
    Ok(terms)
}

/// Under the number of each event control its terms are listed.
pub fn terms_are_found()
    ensures { TermsAreFound }
{}
