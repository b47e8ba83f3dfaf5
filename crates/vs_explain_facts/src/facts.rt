//! What the parts of a design do to its signals.

use crate::lists::{empty_lists, note};
use crate::mark;
use crate::points::{Point, signals_of};
use crate::texts::{TextFacts, TextKind, text_of};
use std::alloc::{AllocError, Global};
use vs_design::vs_logic4::Edge;
use vs_design::{Assign, Design, EventTerm, ProcessKind, SignalKind, reads, writes};
use vs_drivers::Copies;

/// What the parts of a design do to its signals.
#[derive(Drop)]
pub struct Facts<'d> {
    /// The design.
    pub design: &'d Design,
    /// What the text of each process does.
    pub texts: Vec<TextFacts<'d>>,
    /// For each signal the processes that write it, rising.
    writers: Vec<Vec<usize>>,
    /// For each signal the continuous assignments that drive it, rising.
    drivers: Vec<Vec<usize>>,
    /// Which net copies which signal.
    copies: Copies<'d>,
    /// For each signal the combinational block that writes it.
    blocks: Vec<Option<usize>>,
    /// Whether what is claimed of the design is of version 3, in which inverse copies count as copies for edges.
    pub is_third: bool,
}

/// What a signal shows: a root that it copies, itself or by way of nets, or the inverse of one.
#[derive(Clone, Copy)]
pub struct Shown {
    /// The root; the signal itself where it is no copy.
    pub root: usize,
    /// Whether an odd number of the copies are inverse.
    pub is_inverted: bool,
}

/// For each signal the processes that write it.
fn writers_of(
    alloc: Global,
    count: usize,
    texts: &[TextFacts],
) -> Result<Vec<Vec<usize>>, AllocError> {
    let mut writers = empty_lists(alloc, count)?;
    for (number, text) in texts.iter().enumerate() {
        for point in &text.points {
            for signal in &point.writes {
                note(&mut writers, *signal, number)?;
            }
        }
    }
    Ok(writers)
}

/// The signals that an assignment reads.
pub fn read_by(alloc: Global, assign: &Assign) -> Result<Vec<usize>, AllocError> {
    signals_of(alloc, &reads(alloc, &assign.source)?)
}

/// The signals that an assignment drives.
pub fn driven_by(alloc: Global, assign: &Assign) -> Result<Vec<usize>, AllocError> {
    signals_of(alloc, &writes(alloc, &assign.target)?)
}

/// For each signal the continuous assignments that drive it.
fn drivers_of(alloc: Global, design: &Design) -> Result<Vec<Vec<usize>>, AllocError> {
    let mut drivers = empty_lists(alloc, design.signals().len())?;
    for (number, assign) in design.assigns().iter().enumerate() {
        for signal in driven_by(alloc, assign)? {
            note(&mut drivers, signal, number)?;
        }
    }
    Ok(drivers)
}

/// For each signal the first combinational block that writes it.
fn blocks_of(
    alloc: Global,
    writers: &[Vec<usize>],
    texts: &[TextFacts],
) -> Result<Vec<Option<usize>>, AllocError> {
    let mut blocks = Vec::new(alloc);
    for list in writers {
        let mut block = None;
        for number in list {
            if let Some(text) = texts.get(*number) {
                if block.is_none() && text.kind == TextKind::Block {
                    block = Some(*number);
                }
            }
        }
        blocks.push(block)?;
    }
    Ok(blocks)
}

/// The signals on which some depend, by way of assignments and combinational blocks.
#[derive(Drop)]
pub struct Cone {
    /// Which signals these are, those that it begins with among them.
    pub signals: Vec<bool>,
    /// They, in the order in which a walk comes to them: those that it begins with first.
    pub order: Vec<usize>,
    /// For each signal the one that depends on it by which the walk came there; of those that it begins with themselves.
    from: Vec<usize>,
    /// Through which assignments and blocks the walk has gone.
    assigns: Vec<bool>,
    blocks: Vec<bool>,
}

impl Cone {
    /// Comes to a signal.
    fn add_signal(&mut self, signal: usize, from: usize) -> Result<(), AllocError> {
        if mark(&mut self.signals, signal) {
            if let Some(entry) = self.from.get_mut(signal) {
                *entry = from;
            }
            self.order.push(signal)?;
        }
        Ok(())
    }

    /// Comes to signals.
    fn add_signals(&mut self, signals: &[usize], from: usize) -> Result<(), AllocError> {
        for signal in signals {
            self.add_signal(*signal, from)?;
        }
        Ok(())
    }

    /// Goes through the assignments that drive a signal.
    fn go_assigns(
        &mut self,
        alloc: Global,
        facts: &Facts,
        signal: usize,
    ) -> Result<(), AllocError> {
        for number in facts.drivers_of(signal) {
            if mark(&mut self.assigns, *number) {
                if let Some(assign) = facts.design.assigns().get(*number) {
                    self.add_signals(&read_by(alloc, assign)?, signal)?;
                }
            }
        }
        Ok(())
    }

    /// Goes through the block that writes a signal.
    fn go_block(&mut self, facts: &Facts, signal: usize) -> Result<(), AllocError> {
        let Some(number) = facts.block_of(signal) else {
            return Ok(());
        };
        if !mark(&mut self.blocks, number) {
            return Ok(());
        }
        let Some(text) = facts.texts.get(number) else {
            return Ok(());
        };
        for term in &text.terms {
            self.add_signal(term.term.range.signal, signal)?;
        }
        for point in &text.points {
            self.add_signals(&point.reads, signal)?;
        }
        Ok(())
    }

    /// The signal that the walk began with by which it came to one.
    pub fn top(&self, signal: usize) -> usize {
        let mut top = signal;
        for _ in 0..self.order.len() {
            match self.from.get(top) {
                Some(from) if *from != top => top = *from,
                _ => return top,
            }
        }
        top
    }
}

impl<'d> Facts<'d> {
    /// The facts of a design, for claims of version 3 or of another one. They take as long as it is.
    pub fn of(alloc: Global, design: &'d Design, is_third: bool) -> Result<Facts<'d>, AllocError> {
        let mut texts = Vec::new(alloc);
        for process in design.processes() {
            texts.push(text_of(alloc, process, is_third)?)?;
        }
        let writers = writers_of(alloc, design.signals().len(), &texts)?;
        let drivers = drivers_of(alloc, design)?;
        let copies = Copies::of(alloc, design)?;
        let blocks = blocks_of(alloc, &writers, &texts)?;
        Ok(Facts {
            design,
            texts,
            writers,
            drivers,
            copies,
            blocks,
            is_third,
        })
    }

    /// The processes that write a signal.
    pub fn writers_of(&self, signal: usize) -> &[usize] {
        match self.writers.get(signal) {
            Some(list) => list,
            None => &[],
        }
    }

    /// The continuous assignments that drive a signal.
    pub fn drivers_of(&self, signal: usize) -> &[usize] {
        match self.drivers.get(signal) {
            Some(list) => list,
            None => &[],
        }
    }

    /// The combinational block that writes a signal.
    pub fn block_of(&self, signal: usize) -> Option<usize> {
        match self.blocks.get(signal) {
            Some(block) => *block,
            None => None,
        }
    }

    /// The signal that a net copies, itself or by way of other nets; the signal itself where it copies none. Inverse copies don't count.
    pub fn copied(&self, signal: usize) -> usize {
        let mut copied = signal;
        for _ in 0..self.design.signals().len() {
            match self.copies.source(copied) {
                Some(source) => copied = source,
                None => return copied,
            }
        }
        copied
    }

    /// The signal that a net copies, or of which it is an inverse copy where these count, and whether it is that.
    fn copied_signal(&self, net: usize) -> Option<(usize, bool)> {
        if let Some(source) = self.copies.source(net) {
            return Some((source, false));
        }
        if !self.is_third {
            return None;
        }
        match self.copies.inverse_source(net) {
            Some(source) => Some((source, true)),
            None => None,
        }
    }

    /// What a signal shows, as edges have it: in version 3 inverse copies count too.
    pub fn shown(&self, signal: usize) -> Shown {
        let mut shown = Shown {
            root: signal,
            is_inverted: false,
        };
        for _ in 0..self.design.signals().len() {
            match self.copied_signal(shown.root) {
                Some((root, is_inverse)) => {
                    shown = Shown {
                        root,
                        is_inverted: shown.is_inverted != is_inverse,
                    };
                }
                None => return shown,
            }
        }
        shown
    }

    /// The root from which the edges of a signal come; the signal itself where it is no copy.
    pub fn root(&self, signal: usize) -> usize {
        self.shown(signal).root
    }

    /// The edge that the root of a term's signal has where the term's edge comes.
    pub fn edge(&self, term: EventTerm) -> Edge {
        match (term.edge, self.shown(term.range.signal).is_inverted) {
            (Edge::Posedge, true) => Edge::Negedge,
            (Edge::Negedge, true) => Edge::Posedge,
            (edge, _) => edge,
        }
    }

    /// Whether some process waits for edges, or any change, of a signal, or of a net that shows it.
    pub fn is_root(&self, signal: usize) -> bool {
        for text in &self.texts {
            for term in &text.terms {
                if self.root(term.term.range.signal) == signal {
                    return true;
                }
            }
        }
        false
    }

    /// Whether a signal is a net.
    pub fn is_net(&self, signal: usize) -> bool {
        match self.design.signals().get(signal) {
            Some(signal) => signal.kind == SignalKind::Wire,
            None => false,
        }
    }

    /// The path of a signal.
    pub fn path(&self, signal: usize) -> &'d [u8] {
        match self.design.signals().get(signal) {
            Some(signal) => &signal.path,
            None => &[],
        }
    }

    /// The signals on which these depend.
    pub fn cone(&self, alloc: Global, from: &[usize]) -> Result<Cone, AllocError> {
        let mut cone = Cone {
            signals: vec![in alloc; false; self.design.signals().len()]?,
            order: Vec::new(alloc),
            from: vec![in alloc; 0; self.design.signals().len()]?,
            assigns: vec![in alloc; false; self.design.assigns().len()]?,
            blocks: vec![in alloc; false; self.texts.len()]?,
        };
        for signal in from {
            cone.add_signal(*signal, *signal)?;
        }
        for next in 0..self.design.signals().len() {
            let Some(signal) = cone.order.get(next).copied() else {
                break;
            };
            cone.go_assigns(alloc, self, signal)?;
            cone.go_block(self, signal)?;
        }
        Ok(cone)
    }

    /// The number of the signal of a path.
    pub fn signal_named(&self, path: &[u8]) -> Option<usize> {
        for (number, signal) in self.design.signals().iter().enumerate() {
            if signal.path.as_slice() == path {
                return Some(number);
            }
        }
        None
    }

    /// The number of the process of a name.
    pub fn process_named(&self, name: &[u8]) -> Option<usize> {
        for (number, process) in self.design.processes().iter().enumerate() {
            if process.name.as_slice() == name {
                return Some(number);
            }
        }
        None
    }

    /// Whether a process is no `always`.
    pub fn is_initial(&self, process: usize) -> bool {
        match self.design.processes().get(process) {
            Some(process) => process.kind == ProcessKind::Initial,
            None => false,
        }
    }

    /// A statement of a process.
    pub fn point(&self, process: usize, number: usize) -> Option<&Point<'d>> {
        self.texts.get(process)?.points.get(number)
    }
}
