//! Which net copies which signal, or its inverse.
ghost use Rattle.std.specs.Prelude.{ℕ, ◌≡◌, ◌<◌, ◌↔◌, ◌∷◌, [], true, false, Some, length, ◌++◌, IfOk, OnOk, IsTrue};
ghost use Rattle.vs_maps.specs.vs_graph.specs.Reached.{Reached};
ghost use Rattle.vs_maps.specs.vs_graph.specs.Rows.{AreRows};
ghost use Rattle.std.specs.List.{Contains};
ghost use Rattle.vs_slots_constants.specs.Inverted.{AreInverted};
ghost use Rattle.vs_slots_constants.specs.vs_rules.specs.Claims.{HasKind};
ghost use Rattle.vs_slots_constants.specs.vs_rules.specs.Copies.{IsCopy, IsInverseCopy, CopiesRoot};
ghost use Rattle.vs_slots_constants.specs.vs_rules.specs.Blocks.{CopiesWhole};
ghost use Rattle.vs_drivers.specs.Copies.{NamesTarget, AreDrivers, AreSources, IsOf, IsCopyOf, IsCopied, HaveSameWidth, Leads, counted, ends_of, links_of, source_in};

use crate::inverses::inverted_of;
use crate::lists::only;
use std::alloc::{AllocError, Global};
use std::marker::Model;
use vs_design::{Design, SignalKind, Typed, writes};
use vs_maps::push_signals;
use vs_maps::vs_graph::{Family, Graph, Rows, index_of, is_marked, reach};
use vs_slots_constants::{inverts, is_plain, whole, whole_target};

// The signals that continuous assignments name on their left sides.
#[derive(Drop)]
struct Targets<'a> {
    design: &'a Design,
}

impl<'a> Family for Targets<'a> {
    ghost has = { λ f j v. NamesTarget f.design.now j v };

    fn put(&self, alloc: Global, i: usize, out: &mut Vec<usize>) -> Result<(), AllocError> {
        let assigns = self.design.assigns();
        if i >= assigns.len() {
            return Ok(());
        }
        let ranges = writes(alloc, &assigns[i].target)?;
        push_signals(out, &ranges)
    }
}

/// Whether a signal is a net.
pub fn is_net(design: &Design, v: usize) -> bool
    ensures { IsTrue result ↔ HasKind false design.now v }
{
    match design.signals().get(v) {
        None => false,
        Some(signal) => match signal.kind {
            SignalKind::Wire => true,
            SignalKind::Reg | SignalKind::Integer => false,
        },
    }
}

// Whether two signals have one size, where both are there.
fn have_same_width(design: &Design, v: usize, u: usize) -> bool
    ensures { IsTrue result ↔ HaveSameWidth design.now v u }
{
    let signals = design.signals();
    if v >= signals.len() {
        return true;
    }
    if u >= signals.len() {
        return true;
    }
    signals[v].width == signals[u].width
}

// The signal that an expression is the whole of, or of which it is the inverse.
fn signal_of(design: &Design, inverse: bool, e: &Typed) -> Option<usize>
    ensures { (u : ℕ) → (IsOf design.now inverse u e.now ↔ result ≡ Some u) }
{
    if inverse {
        inverts(design, e)
    } else {
        whole(design, e)
    }
}

// The signal that a continuous assignment copies into the whole of a net, or whose inverse it does.
fn copied(design: &Design, inverse: bool, j: usize, v: usize) -> Option<usize>
    requires { j < length design.now.assigns }
    ensures { (u : ℕ) → (IsCopied design.now inverse j v u ↔ result ≡ Some u) }
{
    let assign = &design.assigns()[j];
    match whole_target(design, &assign.target) {
        None => None,
        Some(of) => {
            if of == v {
                signal_of(design, inverse, &assign.source)
            } else {
                None
            }
        }
    }
}

// The signal that a net copies, or whose inverse it does, by the continuous assignments that name it.
fn source_of(design: &Design, inverse: bool, drivers: &[usize], v: usize) -> Option<usize>
    requires { AreDrivers design.now v drivers.now }
    ensures { (u : ℕ) → (IsCopyOf design.now inverse v u ↔ result ≡ Some u) }
{
    if !is_net(design, v) {
        return None;
    }
    let Some(j) = only(drivers) else {
        return None;
    };
    let Some(u) = copied(design, inverse, j, v) else {
        return None;
    };
    if have_same_width(design, v, u) {
        Some(u)
    } else {
        None
    }
}

/// A design, and for each net of it the signal that it copies, and the one whose inverse it copies. A contract sees the design.
#[derive(Drop)]
pub struct Copies<'a> {
    design: &'a Design,
    sources: Vec<Option<usize>>,
    inverses: Vec<Option<usize>>,
}

impl<'a> Model for Copies<'a> {
    ghost use Rattle.std.specs.Prelude.{true, false};
    ghost use Rattle.std.specs.Coded.{codes};
    ghost use Rattle.vs_design.specs.Parts.{Parts};
    ghost use Rattle.vs_design.specs.contracts.expression.Typed as expression;
    ghost use Rattle.vs_design.specs.contracts.statement.Statement as statement;
    ghost use Rattle.vs_drivers.specs.Copies.{AreSources};

    ghost Value = { Parts };

    ghost coded = { Prim.hlevel (codes, statement.the_row.coded, expression.the_row.coded) };

    ghost view = { λ c. c.design.now };

    ghost invariant = { λ c. AreSources c.design.now false c.sources.items × AreSources c.design.now true c.inverses.items };
}

// For each signal, the continuous assignments that name it.
fn drivers_of(alloc: Global, design: &Design) -> Result<Rows<usize>, AllocError>
    ensures { IfOk result (λ drivers. AreRows (NamesTarget design.now) (length design.now.assigns) (length design.now.signals) drivers) }
{
    let assigns = design.assigns().len();
    index_of(alloc, &Targets { design }, assigns, design.signals().len())
}

// For each signal, the one that it copies, or whose inverse it does, by the continuous assignments that name each.
fn sources_of(
    alloc: Global,
    design: &Design,
    inverse: bool,
    drivers: &Rows<usize>,
) -> Result<Vec<Option<usize>>, AllocError>
    requires { AreRows (NamesTarget design.now) (length design.now.assigns) (length design.now.signals) drivers.now }
    ensures { IfOk result (λ sources. AreSources design.now inverse sources.items) }
{
    let mut sources = Vec::new(alloc);
    for v in 0..design.signals().len() {
        sources.push(source_of(design, inverse, drivers.row(v), v))?;
    }
    Ok(sources)
}

// The source of a signal, by a list; past the end there is none.
pub(crate) fn source_in(sources: &[Option<usize>], v: usize) -> Option<usize>
    ensures { result ≡ source_in sources.now v }
{
    if v < sources.len() { sources[v] } else { None }
}

impl<'a> Copies<'a> {
    /// The copies of a design. It takes as long as the texts of its continuous assignments.
    pub fn of(alloc: Global, design: &'a Design) -> Result<Copies<'a>, AllocError>
        ensures { IfOk result (λ c. c ≡ design.entry.now) }
    {
        let drivers = drivers_of(alloc, design)?;
        let sources = sources_of(alloc, design, false, &drivers)?;
        let inverses = sources_of(alloc, design, true, &drivers)?;
        Ok(Copies {
            design,
            sources,
            inverses,
        })
    }

    /// The signal that a net copies, whole and at its own size, where the assignment that does drives it alone.
    pub fn source(&self, v: usize) -> Option<usize>
        ensures { (u : ℕ) → (IsCopy self.now v u ↔ result ≡ Some u) }
    {
        source_in(&self.sources, v)
    }

    /// The signal whose inverse a net copies, `~u` or `!u` of the whole of it, where the assignment that does drives it alone.
    pub fn inverse_source(&self, v: usize) -> Option<usize>
        ensures { (u : ℕ) → (IsInverseCopy self.now v u ↔ result ≡ Some u) }
    {
        source_in(&self.inverses, v)
    }
}

// Signals, and from each net the signal that it copies, and the one whose inverse it does.
#[derive(Drop)]
struct Chains<'a> {
    sources: &'a [Option<usize>],
    inverses: &'a [Option<usize>],
    count: usize,
    ghost within: { (a b : ℕ) → Contains (links_of sources.now inverses.now a) b → b < count },
}

// Puts a source at a list's end, where there is one.
fn put_source(source: Option<usize>, todo: &mut Vec<usize>) -> Result<(), AllocError>
    ensures { OnOk result (todo.new.items ≡ todo.old.items ++ ends_of source) }
{
    match source {
        None => Ok(()),
        Some(u) => Ok(todo.push(u)?),
    }
}

impl<'a> Graph for Chains<'a> {
    ghost count = { λ g. g.count };

    ghost nexts = { λ g a. links_of g.sources.now g.inverses.now a };

    fn count(&self) -> usize {
        self.count
    }

    fn put_nexts(&self, node: usize, todo: &mut Vec<usize>) -> Result<(), AllocError> {
        put_source(source_in(self.sources, node), todo)?;
        put_source(source_in(self.inverses, node), todo)
    }

    ghost inside = { λ g. g.within };
}

// Whether walks from nets to the signals that they copy, or whose inverses they do, lead from a signal to another one.
fn leads_to(
    alloc: Global,
    sources: &[Option<usize>],
    inverses: &[Option<usize>],
    count: usize,
    v: usize,
    g: usize,
) -> Result<bool, AllocError>
    requires within { (a b : ℕ) → Contains (links_of sources.now inverses.now a) b → b < count }
    requires v { v < count }
    ensures { IfOk result (λ b. (IsTrue b ↔ Reached (links_of sources.now inverses.now) (v ∷ []) g)) }
{
    let chains = Chains {
        sources,
        inverses,
        count,
    };
    let marks = reach(alloc, &chains, &[v])?;
    Ok(is_marked(&marks, g))
}

// The inverse sources that count: all or none.
fn counted<'a>(wide: bool, inverses: &'a [Option<usize>]) -> &'a [Option<usize>]
    ensures { result.now ≡ counted wide inverses.entry.now }
{
    if wide { inverses } else { &[] }
}

impl<'a> Copies<'a> {
    // Whether a signal is another one, or a net that copies it, or where inverses count its inverse, itself or by way of other nets.
    fn leads(&self, alloc: Global, wide: bool, g: usize, v: usize) -> Result<bool, AllocError>
        ensures { IfOk result (λ b. (IsTrue b ↔ Leads self.now wide g v)) }
    {
        if g == v {
            return Ok(true);
        }
        let count = self.design.signals().len();
        if v >= count {
            return Ok(false);
        }
        let inverses = counted(wide, &self.inverses);
        leads_to(alloc, &self.sources, inverses, count, v, g)
    }

    /// Whether a signal is another one, or a net that copies it, itself or by way of other nets. It takes as long as there are signals.
    pub fn copies_whole(&self, alloc: Global, g: usize, v: usize) -> Result<bool, AllocError>
        ensures { IfOk result (λ b. (IsTrue b ↔ CopiesWhole self.now g v)) }
    {
        self.leads(alloc, false, g, v)
    }

    /// Whether a signal of one bit is another one, or a net that copies it, itself or by way of other nets, or in version 3 its inverse. It takes as
    /// long as there are signals.
    pub fn copies_root(
        &self,
        alloc: Global,
        wide: bool,
        root: usize,
        v: usize,
    ) -> Result<bool, AllocError>
        ensures { IfOk result (λ b. (IsTrue b ↔ CopiesRoot self.now wide root v)) }
    {
        if is_plain(self.design, root, 1) {
            self.leads(alloc, wide, root, v)
        } else {
            Ok(false)
        }
    }

    /// For each signal, whether it shows a variable inverted: an odd number of inverses stand between them, which count in version 3 alone. It takes
    /// as long as there are signals.
    pub fn inverted(&self, alloc: Global, wide: bool) -> Result<Vec<bool>, AllocError>
        ensures { IfOk result (λ t. AreInverted self.now wide t.items) }
    {
        if wide {
            inverted_of(alloc, self.design, &self.sources, &self.inverses)
        } else {
            Ok(Vec::new(alloc))
        }
    }
}
