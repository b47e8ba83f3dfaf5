//! A design.
ghost use Rattle.std.specs.Prelude.{◌≡◌, ◌≤◌, IfOk, MatchOption, length};
ghost use Rattle.vs_design.specs.InOrder.{words_before};
ghost use Rattle.vs_design.specs.Listeners.{listeners};
ghost use Rattle.vs_design.specs.Readers.{readers};
ghost use Rattle.vs_design.specs.Tables.{AreExtents};
ghost use Rattle.vs_design.specs.WellFormed.{WellFormed};

use crate::expression::Typed;
use crate::extent::Layout;
use crate::readers::{self, Reader};
use crate::signal::Signal;
use crate::statement::{Statement, Target};
use crate::timescale::Timescale;
use crate::{extents, listeners};
use std::alloc::{AllocError, Global};
use std::marker::Model;

/// A continuous assignment (IEEE 1364-2005, clause 6.1).
pub struct Assign {
    /// The path and the number within its scope, as it is printed: `t#a0`.
    pub name: Vec<u8>,
    /// What it drives.
    pub target: Target,
    /// What it evaluates.
    pub source: Typed,
}

impl Drop for Assign {
    fn drop(self) {
        let Self {
            name: _,
            target: _,
            source: _,
        } = self;
    }
}

/// Whether a process runs once or for ever (IEEE 1364-2005, clause 9.9).
#[derive(Clone, Copy, PartialEq, Eq)]
pub enum ProcessKind {
    /// `initial`, a declaration assignment too.
    Initial,
    /// `always`, whose body is a `forever`.
    Always,
}

/// A process.
pub struct Process {
    /// The path and the number within its scope, as it is printed: `t#p0`.
    pub name: Vec<u8>,
    /// Whether it was written as `initial` or as `always`.
    pub kind: ProcessKind,
    /// What it does.
    pub body: Statement,
}

impl Drop for Process {
    fn drop(self) {
        let Self {
            name: _,
            kind: _,
            body: _,
        } = self;
    }
}

/// What opened a scope.
#[derive(Clone, Copy, PartialEq, Eq)]
pub enum ScopeKind {
    /// The top or an instance.
    Module,
    /// A generate block or a named block.
    Begin,
}

/// One line of a design's outline: its scopes and signals in the order in which a value change dump declares them.
pub enum Entry {
    /// A scope opens, with its name as it is printed.
    Enter(ScopeKind, Vec<u8>),
    /// A signal of the innermost open scope, by its number.
    Declare(usize),
    /// The innermost open scope closes.
    Leave,
}

impl Drop for Entry {
    fn drop(self) {
        match self {
            Self::Enter(_, _) | Self::Declare(_) | Self::Leave => {}
        }
    }
}

/// A design. A contract sees it as what it consists of. Every design is well formed.
pub struct Design {
    timescale: Timescale,
    signals: Vec<Signal>,
    assigns: Vec<Assign>,
    processes: Vec<Process>,
    outline: Vec<Entry>,
    // For each signal, which continuous assignments read it.
    readers: Vec<Vec<Reader>>,
    // For each signal, which processes have an event control that names it.
    listeners: Vec<Vec<usize>>,
    // For each signal, where a store has its words.
    extents: Vec<Layout>,
}

impl Drop for Design {
    fn drop(self) {
        let Self {
            timescale: _,
            signals: _,
            assigns: _,
            processes: _,
            outline: _,
            readers: _,
            listeners: _,
            extents: _,
        } = self;
    }
}

impl Model for Design {
    ghost use Rattle.std.specs.Coded.{codes};
    ghost use Rattle.vs_design.specs.Parts.{Parts};
    ghost use Rattle.vs_design.specs.Tables.{AreReaders, AreListeners, AreExtents};
    ghost use Rattle.vs_design.specs.WellFormed.{WellFormed};
    ghost use Rattle.vs_design.specs.contracts.expression.Typed as expression;
    ghost use Rattle.vs_design.specs.contracts.statement.Statement as statement;

    ghost Value = { Parts };

    ghost coded = { Prim.hlevel (codes, statement.the_row.coded, expression.the_row.coded) };

    ghost view = { λ d. record { timescale = d.timescale; signals = d.signals.items; assigns = d.assigns.items; processes = d.processes.items; outline = d.outline.items } };

    ghost invariant = { λ d. WellFormed (record { timescale = d.timescale; signals = d.signals.items; assigns = d.assigns.items; processes = d.processes.items; outline = d.outline.items }) × AreReaders d.assigns.items d.readers.items × AreListeners d.processes.items d.listeners.items × AreExtents d.signals.items d.extents.items };
}

impl Design {
    /// The design that consists of these parts.
    pub fn new(
        alloc: Global,
        timescale: Timescale,
        signals: Vec<Signal>,
        assigns: Vec<Assign>,
        processes: Vec<Process>,
        outline: Vec<Entry>,
    ) -> Result<Self, AllocError>
        requires well_formed { WellFormed (record {
          timescale = timescale;
          signals = signals.items;
          assigns = assigns.items;
          processes = processes.items;
          outline = outline.items;
        }) }
        ensures parts { IfOk result (λ d. d ≡ record {
          timescale = timescale;
          signals = signals.items;
          assigns = assigns.items;
          processes = processes.items;
          outline = outline.items;
        }) }
    {
        let readers = readers::table_of(alloc, &assigns, signals.len())?;
        let listeners = listeners::table_of(alloc, &processes, signals.len())?;
        let extents = extents::table_of(alloc, &signals)?;
        Ok(Design {
            timescale,
            signals,
            assigns,
            processes,
            outline,
            readers,
            listeners,
            extents,
        })
    }

    /// The unit and the precision in which its times are written.
    pub fn timescale(&self) -> Timescale
        ensures { result ≡ self.now.timescale }
    {
        self.timescale
    }

    /// The signals in design order.
    pub fn signals(&self) -> &[Signal]
        ensures { result.now ≡ self.now.signals }
    {
        &self.signals
    }

    /// The continuous assignments in design order.
    pub fn assigns(&self) -> &[Assign]
        ensures { result.now ≡ self.now.assigns }
    {
        &self.assigns
    }

    /// The processes in design order.
    pub fn processes(&self) -> &[Process]
        ensures { result.now ≡ self.now.processes }
    {
        &self.processes
    }

    /// The scopes and signals in the order in which a value change dump declares them.
    pub fn outline(&self) -> &[Entry]
        ensures { result.now ≡ self.now.outline }
    {
        &self.outline
    }

    /// Which continuous assignments read a signal, and which of its bits, in design order.
    pub fn readers(&self, signal: usize) -> &[Reader]
        ensures { result.now ≡ readers self.now.assigns signal }
    {
        match self.readers.get(signal) {
            Some(row) => row,
            None => &[],
        }
    }

    /// The processes of which an event control names a signal, by their numbers, in design order (IEEE 1364-2005, clause 9.7.2).
    pub fn listeners(&self, signal: usize) -> &[usize]
        ensures { result.now ≡ listeners self.now.processes signal }
    {
        match self.listeners.get(signal) {
            Some(row) => row,
            None => &[],
        }
    }

    /// The number of the first word of a signal, where the words of all signals are counted in design order.
    pub fn first_word(&self, signal: usize) -> Option<usize>
        ensures { MatchOption result (length self.now.signals ≤ signal) (λ n. n ≡ words_before self.now.signals signal) }
    {
        match self.extents.get(signal) {
            Some(extent) => Some(extent.first),
            None => None,
        }
    }

    /// For each signal where a store has its words.
    pub(crate) fn extents(&self) -> &[Layout]
        ensures { AreExtents self.now.signals result.now }
    {
        &self.extents
    }

    /// Every design is well formed: this holds of each, and there is nothing to do.
    pub fn is_well_formed(&self)
        ensures { WellFormed self.now }
    {
        let _ = &self.signals;
    }
}
