//! Classes of residues, and the signals that hang on variables which are written at them.
ghost use Rattle.std.specs.Prelude.{ℕ, ◌≡◌, ◌↔◌, false, IfOk, IsTrue};
ghost use Rattle.std.specs.List.{Contains};
ghost use Rattle.vs_drivers.specs.Wires.{IsWiringOf};
ghost use Rattle.vs_rules_of_processes.specs.Classes.{class_of, AreClasses, AreReachedFrom, IsClear, IsWrittenIn};
ghost use Rattle.vs_rules_of_processes.specs.Forward.{AreForward};

use crate::forward::{outs_of, reached, users_of};
use std::alloc::{AllocError, Global};
use std::marker::Model;
use vs_drivers::Cones;
use vs_graph::{Family, Rows, gather, is_marked};
use vs_slots::Slots;

/// How many classes of residues there are.
const CLASSES: usize = 32;

// The class of a residue.
fn class_of(residue: u64) -> usize
    ensures { result ≡ class_of residue }
{
    (residue % CLASSES as u64) as usize
}

// Whether one of some residues is of a class.
fn has_class(residues: &[u64], class: usize) -> bool
    ensures { IsTrue result ↔ ((r : ℕ) × Contains residues.now r × (class_of r ≡ class)) }
{
    for residue in residues {
        if class_of(*residue) == class {
            return true;
        }
    }
    false
}

// The variables that are written in a class.
#[derive(Drop)]
struct InClass<'a> {
    slots: &'a Slots<'a>,
    class: usize,
}

impl<'a> Family for InClass<'a> {
    ghost has = { λ f u v. IsWrittenIn f.slots.now.design f.slots.now.claims f.class u × (u ≡ v) };

    fn put(&self, _alloc: Global, i: usize, out: &mut Vec<usize>) -> Result<(), AllocError> {
        if has_class(self.slots.write_slots(i), self.class) {
            out.push(i)?;
        }
        Ok(())
    }
}

// The signals, and then the drivers, that hang on variables which are written in a class: a mark for each.
fn marks_of<'a>(
    alloc: Global,
    slots: &'a Slots<'a>,
    users: &Rows<usize>,
    outs: &Rows<usize>,
    class: usize,
) -> Result<Vec<bool>, AllocError>
    requires { AreForward slots.now.design slots.now.claims users.now outs.now }
    ensures { IfOk result (λ marks. AreReachedFrom slots.entry.now.design slots.entry.now.claims class marks.items) }
{
    let written = InClass { slots, class };
    let seeds = gather(alloc, &written, users.len())?;
    reached(alloc, users, outs, &seeds)
}

// The marks of all classes.
fn all_marks<'a>(
    alloc: Global,
    slots: &'a Slots<'a>,
    users: &Rows<usize>,
    outs: &Rows<usize>,
) -> Result<Vec<Vec<bool>>, AllocError>
    requires { AreForward slots.now.design slots.now.claims users.now outs.now }
    ensures { IfOk result (λ table. AreClasses slots.entry.now.design slots.entry.now.claims table.items) }
{
    let mut table = Vec::new(alloc);
    for class in 0..CLASSES {
        let marks = marks_of(alloc, &*slots, users, outs, class)?;
        table.push(marks)?;
    }
    Ok(table)
}

/// For each class of residues the signals that hang on variables which are written at a residue of it, by way of drivers: a mark for each. A
/// contract sees the facts of which they are.
#[derive(Drop)]
pub struct WriteClasses<'a> {
    slots: &'a Slots<'a>,
    marks: Vec<Vec<bool>>,
}

impl<'a> Model for WriteClasses<'a> {
    ghost use Rattle.std.specs.Coded.{codes};
    ghost use Rattle.vs_design.specs.contracts.expression.Typed as expression;
    ghost use Rattle.vs_design.specs.contracts.statement.Statement as statement;
    ghost use Rattle.vs_slots.specs.vs_claims.specs.Facts.{Case};
    ghost use Rattle.vs_rules_of_processes.specs.Classes.{AreClasses};

    ghost Value = { Case };

    ghost coded = { Prim.hlevel (codes, statement.the_row.coded, expression.the_row.coded) };

    ghost view = { λ w. w.slots.now };

    ghost invariant = { λ w. AreClasses w.slots.now.design w.slots.now.claims w.marks.items };
}

impl<'a> WriteClasses<'a> {
    /// The classes of the write slots of a design and a certificate. For each class it takes as long as there are signals and drivers, and as what
    /// the variables that are written in it lead through.
    pub fn of<'b>(
        alloc: Global,
        slots: &'a Slots<'a>,
        cones: &'b Cones<'b>,
    ) -> Result<WriteClasses<'a>, AllocError>
        requires { IsWiringOf slots.now.design slots.now.claims cones.now }
        ensures { IfOk result (λ w. w ≡ slots.entry.now) }
    {
        let facts = slots.facts();
        let outs = outs_of(alloc, facts, &*cones)?;
        let users = users_of(alloc, facts, &*cones, &outs)?;
        let marks = all_marks(alloc, &*slots, &users, &outs)?;
        Ok(WriteClasses { slots, marks })
    }

    // Whether a signal is not marked in the class of a residue.
    fn is_clear(&self, v: usize, residue: u64) -> bool
        ensures { IsTrue result → IsClear self.now.design self.now.claims v residue }
    {
        match self.marks.get(class_of(residue)) {
            None => false,
            Some(marks) => !is_marked(marks, v),
        }
    }

    /// Whether a signal is marked in the class of none of some residues: no variable in the cone of a range of it is written at any of them, then.
    /// It takes as long as there are residues.
    pub fn are_clear(&self, v: usize, residues: &[u64]) -> bool
        ensures { IsTrue result → (r : ℕ) → Contains residues.now r → IsClear self.now.design self.now.claims v r }
    {
        for residue in residues {
            if !self.is_clear(v, *residue) {
                return false;
            }
        }
        true
    }
}
