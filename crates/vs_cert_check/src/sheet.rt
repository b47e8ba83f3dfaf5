//! The rules of a design and its certificate, by their numbers and subjects.
ghost use Rattle.std.specs.Prelude.{ℕ, ◌≡◌, ◌<◌, ◌↔◌, Some, length, option_map, slice_get, IfOk, IsTrue};
ghost use Rattle.vs_cert_check.specs.Answers.{IsOfDesign};
ghost use Rattle.vs_cert_check.specs.Broken.{name_of};
ghost use Rattle.vs_cert_check.specs.Verdicts.{rule_of};
ghost use Rattle.vs_claims.specs.Subjects.{subject_view};
ghost use Rattle.vs_rules_of_starts.specs.vs_rules.specs.Blocks.{K5};
ghost use Rattle.vs_rules_of_starts.specs.vs_rules.specs.Verdict.{Keeps, k11, subjects};
ghost use Rattle.vs_rules_of_starts.specs.vs_rules.specs.Verdict as verdict;

use std::alloc::{AllocError, Global};
use std::marker::Model;
use vs_cert_blocks::keeps_block;
use vs_cert_roots::vs_drivers::Copies;
use vs_cert_roots::{Entries, FirstWrites, keeps_first_root, keeps_root};
use vs_claims::{
    Subject, keeps_assign_name, keeps_name, keeps_process_name, keeps_signal_name, name_of,
};
use vs_rules_of_processes::vs_drivers::Cones;
use vs_rules_of_processes::vs_slots::Slots;
use vs_rules_of_processes::{FirstSlot, WriteClasses, keeps_delays, keeps_edges, keeps_readings};
use vs_rules_of_signals::vs_claims::Facts;
use vs_rules_of_signals::{keeps_assign_order, keeps_mode, keeps_process_order, keeps_writers};
use vs_rules_of_starts::{Beginning, Starts, keeps_start_by};

/// A design and its certificate, with the tables in which the rules look things up, and the subjects of the rules in their order. A contract sees
/// the design, what the certificate claims of it, and the maps of the texts of the processes.
#[derive(Drop)]
pub(crate) struct Sheet<'a> {
    pub facts: &'a Facts<'a>,
    pub cones: &'a Cones<'a>,
    pub copies: &'a Copies<'a>,
    pub entries: &'a Entries<'a>,
    pub first_writes: &'a FirstWrites<'a>,
    pub slots: &'a Slots<'a>,
    pub classes: &'a WriteClasses<'a>,
    pub first_slot: &'a FirstSlot<'a>,
    pub subjects: &'a [Subject<'a>],
}

impl<'a> Model for Sheet<'a> {
    ghost use Rattle.std.specs.Coded.{codes};
    ghost use Rattle.vs_design.specs.contracts.expression.Typed as expression;
    ghost use Rattle.vs_design.specs.contracts.statement.Statement as statement;
    ghost use Rattle.vs_rules_of_signals.specs.vs_claims.specs.Facts.{Case};
    ghost use Rattle.vs_cert_check.specs.Sheets.{AreTables};

    ghost Value = { Case };

    ghost coded = { Prim.hlevel (codes, statement.the_row.coded, expression.the_row.coded) };

    ghost view = { λ s. s.facts.now };

    ghost invariant = { λ s. AreTables s.facts.now s.cones.now s.copies.now s.entries.now s.first_writes.now s.slots.now
        s.classes.now s.first_slot.now s.subjects.now };
}

impl<'a> Sheet<'a> {
    /// How many subjects there are.
    pub(crate) fn count(&self) -> usize
        ensures { result ≡ length (subjects self.now.design self.now.claims) }
    {
        self.subjects.len()
    }

    /// The subject of a number, where there is one.
    pub(crate) fn subject(&self, i: usize) -> Option<Subject<'a>>
        ensures { option_map subject_view result ≡ slice_get (subjects self.now.design self.now.claims) i }
    {
        if i >= self.subjects.len() {
            return None;
        }
        Some(self.subjects[i])
    }

    /// The name of the subject of a number.
    pub(crate) fn name(&self, i: usize) -> &'a [u8]
        requires { i < length (subjects self.now.design self.now.claims) }
        ensures { Some result.now ≡ name_of self.now.design (slice_get (subjects self.now.design self.now.claims) i) }
    {
        match name_of(self.facts, self.subjects[i]) {
            None => unreachable!(),
            Some(name) => name,
        }
    }
}

// Whether a signal keeps a rule, by the rule's number from 0 on.
fn keeps_of_signal(alloc: Global, sheet: &Sheet, rule: usize, v: usize) -> Result<bool, AllocError>
    requires within { v < length sheet.now.design.signals }
    ensures { IfOk result (λ b. (IsTrue b ↔ Keeps sheet.now.design sheet.now.claims (rule_of rule) (verdict.signal v))) }
{
    match rule {
        0 => Ok(keeps_signal_name(sheet.facts, v)),
        1 => Ok(keeps_writers(sheet.facts, v)),
        2 => Ok(keeps_mode(sheet.facts, v)),
        5 => keeps_root(alloc, sheet.entries, sheet.copies, v),
        9 => keeps_first_root(alloc, sheet.first_writes, v),
        _ => Ok(true),
    }
}

// Whether a continuous assignment does.
fn keeps_of_assign(alloc: Global, sheet: &Sheet, rule: usize, j: usize) -> Result<bool, AllocError>
    ensures { IfOk result (λ b. (IsTrue b ↔ Keeps sheet.now.design sheet.now.claims (rule_of rule) (verdict.assign j))) }
{
    match rule {
        0 => Ok(keeps_assign_name(sheet.facts, j)),
        3 => keeps_assign_order(alloc, sheet.facts, sheet.cones, j),
        _ => Ok(true),
    }
}

// Whether a process does, but for the last rule.
fn keeps_of_process(alloc: Global, sheet: &Sheet, rule: usize, i: usize) -> Result<bool, AllocError>
    requires rule { rule < 10 }
    ensures { IfOk result (λ b. (IsTrue b ↔ Keeps sheet.now.design sheet.now.claims (rule_of rule) (verdict.process i))) }
{
    match rule {
        0 => Ok(keeps_process_name(sheet.facts, i)),
        3 => keeps_process_order(alloc, sheet.facts, sheet.cones, i),
        4 => keeps_block(alloc, sheet.facts, i),
        6 => keeps_edges(alloc, sheet.slots, i),
        7 => keeps_delays(alloc, sheet.slots, i),
        8 => keeps_readings(alloc, sheet.slots, sheet.classes, sheet.cones, i),
        9 => sheet.first_slot.keeps_first_slot(alloc, i),
        _ => Ok(true),
    }
}

// Whether a name of a list does.
fn keeps_rule_of_name(sheet: &Sheet, rule: usize, name: &[u8]) -> bool
    ensures { IsTrue result ↔ Keeps sheet.now.design sheet.now.claims (rule_of rule) (verdict.listed name.now) }
{
    match rule {
        0 => keeps_name(sheet.facts, name),
        _ => true,
    }
}

/// Whether a subject keeps a rule, by the rule's number from 0 on, but for the last rule.
pub(crate) fn keeps(
    alloc: Global,
    sheet: &Sheet,
    rule: usize,
    subject: Subject,
) -> Result<bool, AllocError>
    requires rule { rule < 10 }
    requires of { IsOfDesign sheet.now.design (subject_view subject) }
    ensures { IfOk result (λ b. (IsTrue b ↔ Keeps sheet.now.design sheet.now.claims (rule_of rule) (subject_view subject.entry))) }
{
    match subject {
        Subject::Signal(v) => keeps_of_signal(alloc, sheet, rule, v),
        Subject::Assign(j) => keeps_of_assign(alloc, sheet, rule, j),
        Subject::Process(i) => keeps_of_process(alloc, sheet, rule, i),
        Subject::Listed(name) => Ok(keeps_rule_of_name(sheet, rule, name)),
    }
}

/// Whether a subject keeps the last rule, where it keeps the one on the shape of blocks.
pub(crate) fn starts_well(
    alloc: Global,
    sheet: &Sheet,
    starts: &Starts,
    beginning: &Beginning,
    subject: Subject,
) -> Result<bool, AllocError>
    requires starts { starts.now ≡ sheet.now }
    requires beginning { beginning.now ≡ sheet.now.design }
    requires shape { (i : ℕ) → (K5 sheet.now.design sheet.now.claims i → ⊥) → ⊥ }
    ensures { IfOk result (λ b. (IsTrue b ↔ Keeps sheet.now.design sheet.now.claims k11 (subject_view subject.entry))) }
{
    match subject {
        Subject::Process(i) => {
            if !keeps_block(alloc, sheet.facts, i)? {
                unreachable!();
            }
            keeps_start_by(alloc, starts, sheet.cones, sheet.copies, beginning, i)
        }
        _ => Ok(true),
    }
}
