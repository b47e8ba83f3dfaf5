//! The subjects of the rules.
ghost use Rattle.std.specs.Prelude.{◌≡◌, ◌++◌, map, slice_get, IfOk, OnOk};
ghost use Rattle.vs_claims.specs.vs_rules.specs.Claims.{signal_name, assign_name, process_name};
ghost use Rattle.vs_claims.specs.vs_rules.specs.Verdict.{numbers, subjects, place_of};
ghost use Rattle.vs_claims.specs.vs_rules.specs.Verdict as verdict;
ghost use Rattle.vs_claims.specs.Facts.{seen};
ghost use Rattle.vs_claims.specs.Places.{texts};
ghost use Rattle.vs_claims.specs.Subjects.{subject_view};

use crate::Facts;
use crate::certificate_names::all_names;
use std::alloc::{AllocError, Global};

/// What a rule is about.
#[derive(Clone, Copy)]
pub enum Subject<'a> {
    /// A signal, by its number in design order.
    Signal(usize),
    /// A continuous assignment, by its number in design order.
    Assign(usize),
    /// A process, by its number in design order.
    Process(usize),
    /// A name of one of the certificate's lists.
    Listed(&'a [u8]),
}

// Puts so many signals.
fn push_signals(out: &mut Vec<Subject>, n: usize) -> Result<(), AllocError>
    ensures { OnOk result (map subject_view out.new.items ≡ map subject_view out.old.items ++ map verdict.signal (numbers 0 n)) }
{
    for v in 0..n {
        out.push(Subject::Signal(v))?;
    }
    Ok(())
}

// Puts so many continuous assignments.
fn push_assigns(out: &mut Vec<Subject>, n: usize) -> Result<(), AllocError>
    ensures { OnOk result (map subject_view out.new.items ≡ map subject_view out.old.items ++ map verdict.assign (numbers 0 n)) }
{
    for j in 0..n {
        out.push(Subject::Assign(j))?;
    }
    Ok(())
}

// Puts so many processes.
fn push_processes(out: &mut Vec<Subject>, n: usize) -> Result<(), AllocError>
    ensures { OnOk result (map subject_view out.new.items ≡ map subject_view out.old.items ++ map verdict.process (numbers 0 n)) }
{
    for i in 0..n {
        out.push(Subject::Process(i))?;
    }
    Ok(())
}

// Puts names of lists.
fn push_names<'a>(out: &mut Vec<Subject<'a>>, names: &[&'a [u8]]) -> Result<(), AllocError>
    ensures { OnOk result (map subject_view out.new.items ≡ map subject_view out.old.items ++ map verdict.listed (texts names.entry.now)) }
{
    for name in names {
        out.push(Subject::Listed(name))?;
    }
    Ok(())
}

/// The subjects of the rules in their order: signals, continuous assignments and processes, each in design order, and then the names of the
/// certificate's lists.
pub fn all_subjects<'a>(alloc: Global, facts: &Facts<'a>) -> Result<Vec<Subject<'a>>, AllocError>
    ensures { IfOk result (λ all. map subject_view all.items ≡ subjects facts.now.design facts.now.claims) }
{
    let design = facts.design();
    let names = all_names(alloc, facts)?;
    let mut all = Vec::new(alloc);
    push_signals(&mut all, design.signals().len())?;
    push_assigns(&mut all, design.assigns().len())?;
    push_processes(&mut all, design.processes().len())?;
    push_names(&mut all, &names)?;
    Ok(all)
}

// The name of a signal, where there is one of this number.
pub(crate) fn signal_name<'a>(facts: &Facts<'a>, v: usize) -> Option<&'a [u8]>
    ensures { seen result ≡ signal_name (slice_get facts.now.design.signals v) }
{
    let signals = facts.design().signals();
    if v >= signals.len() {
        return None;
    }
    Some(&signals[v].path)
}

// The name of a continuous assignment, where there is one of this number.
pub(crate) fn assign_name<'a>(facts: &Facts<'a>, j: usize) -> Option<&'a [u8]>
    ensures { seen result ≡ assign_name (slice_get facts.now.design.assigns j) }
{
    let assigns = facts.design().assigns();
    if j >= assigns.len() {
        return None;
    }
    Some(&assigns[j].name)
}

// The name of a process, where there is one of this number.
pub(crate) fn process_name<'a>(facts: &Facts<'a>, i: usize) -> Option<&'a [u8]>
    ensures { seen result ≡ process_name (slice_get facts.now.design.processes i) }
{
    let processes = facts.design().processes();
    if i >= processes.len() {
        return None;
    }
    Some(&processes[i].name)
}

/// The name by which a subject is told, where there is one of its number.
pub fn name_of<'a>(facts: &Facts<'a>, subject: Subject<'a>) -> Option<&'a [u8]>
    ensures { seen result ≡ place_of facts.now.design (subject_view subject.entry) }
{
    match subject {
        Subject::Signal(v) => signal_name(facts, v),
        Subject::Assign(j) => assign_name(facts, j),
        Subject::Process(i) => process_name(facts, i),
        Subject::Listed(name) => Some(name),
    }
}
