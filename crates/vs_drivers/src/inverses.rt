//! Which signals show a variable inverted.
ghost use Rattle.std.specs.Prelude.{ℕ, ◌≡◌, ◌<◌, ◌+◌, ◌^◌, ◌↔◌, ◌++◌, Bool, true, false, Some, length, map, IfOk, OnOk, IsTrue};
ghost use Rattle.std.specs.List.{Contains};
ghost use Rattle.vs_maps.specs.vs_graph.specs.Rows.{row};
ghost use Rattle.vs_slots_constants.specs.Inverted.{AreInverted};
ghost use Rattle.vs_drivers.specs.Copies.{AreSources, source_in};
ghost use Rattle.vs_drivers.specs.Inverses.{IsStart, AreStarts, AreBack, AreWithin, node, copy_nodes, mirrored};

use crate::copies::{is_net, source_in};
use std::alloc::{AllocError, Global};
use vs_design::Design;
use vs_maps::vs_graph::{Family, Graph, Rows, gather, index_of, reach};
use vs_slots_constants::is_plain;

// The numbers of signals, each with the number of its source.
#[derive(Drop)]
struct Sourced<'a> {
    sources: &'a [Option<usize>],
}

impl<'a> Family for Sourced<'a> {
    ghost has = { λ f v u. source_in f.sources.now v ≡ Some u };

    fn put(&self, _alloc: Global, i: usize, out: &mut Vec<usize>) -> Result<(), AllocError> {
        match source_in(self.sources, i) {
            None => Ok(()),
            Some(u) => Ok(out.push(u)?),
        }
    }
}

// The number of a node: a signal that stands behind so many inverters, an odd number of them or an even one. An odd one has the signal's own number,
// an even one a number past all signals.
fn node(count: usize, odd: bool, v: usize) -> usize
    requires small { count < 2 ^ 63 }
    requires within { v < count }
    ensures { result ≡ node count odd v }
{
    if odd { v } else { count + v }
}

// Puts the nodes of signals at a list's end.
fn put_nodes(
    count: usize,
    odd: bool,
    signals: &[usize],
    out: &mut Vec<usize>,
) -> Result<(), AllocError>
    requires small { count < 2 ^ 63 }
    requires within { (v : ℕ) → Contains signals.now v → v < count }
    ensures { OnOk result (out.new.items ≡ out.old.items ++ map (node count odd) signals.now) }
{
    for v in signals {
        out.push(node(count, odd, *v))?;
    }
    Ok(())
}

// Whether a signal is a variable of one bit, that is no array.
fn is_start(design: &Design, v: usize) -> bool
    ensures { IsTrue result ↔ IsStart design.now v }
{
    is_plain(design, v, 1) && !is_net(design, v)
}

// The nodes of the variables of one bit, behind no inverter.
#[derive(Drop)]
struct Starts<'a> {
    design: &'a Design,
    count: usize,
    ghost is: { count ≡ length design.now.signals },
    ghost small: { count < 2 ^ 63 },
}

impl<'a> Family for Starts<'a> {
    ghost has = { λ f v k. IsStart f.design.now v × (node f.count false v ≡ k) };

    fn put(&self, _alloc: Global, i: usize, out: &mut Vec<usize>) -> Result<(), AllocError> {
        if is_start(self.design, i) {
            out.push(node(self.count, false, i))?;
        }
        Ok(())
    }
}

// From each signal, behind inverters, to the nets that copy it, and behind one more to those that copy its inverse.
#[derive(Drop)]
struct Mirrored {
    copies: Rows<usize>,
    inverses: Rows<usize>,
    count: usize,
    ghost small: { count < 2 ^ 63 },
    ghost copied: { AreWithin copies count },
    ghost inverted: { AreWithin inverses count },
    ghost within: { (a b : ℕ) → Contains (mirrored copies inverses count a) b → b < count + count },
}

impl Mirrored {
    // Puts the nodes behind the node of a signal at a list's end.
    fn put_copy_nodes(&self, odd: bool, u: usize, out: &mut Vec<usize>) -> Result<(), AllocError>
        ensures { OnOk result (out.new.items ≡ out.old.items ++ copy_nodes self.now.copies self.now.inverses self.now.count odd u) }
    {
        put_nodes(self.count, odd, self.copies.row(u), out)?;
        put_nodes(self.count, !odd, self.inverses.row(u), out)
    }
}

impl Graph for Mirrored {
    ghost count = { λ g. g.count + g.count };

    ghost nexts = { λ g a. mirrored g.copies g.inverses g.count a };

    fn count(&self) -> usize {
        self.count + self.count
    }

    fn put_nexts(&self, node: usize, todo: &mut Vec<usize>) -> Result<(), AllocError> {
        if node < self.count {
            self.put_copy_nodes(true, node, todo)
        } else {
            self.put_copy_nodes(false, node - self.count, todo)
        }
    }

    ghost inside = { λ g. g.within };
}

// For each signal, the nets that copy it, or its inverse, by the sources of all nets.
fn rows_of(
    alloc: Global,
    design: &Design,
    sources: &[Option<usize>],
) -> Result<Rows<usize>, AllocError>
    ensures { (inverse : Bool) → AreSources design.now inverse sources.now → IfOk result (λ table. AreBack design.now inverse table) }
{
    let count = design.signals().len();
    index_of(alloc, &Sourced { sources }, count, count)
}

// The nodes of the variables of one bit.
fn starts_of(alloc: Global, design: &Design) -> Result<Vec<usize>, AllocError>
    ensures { IfOk result (λ starts. AreStarts design.now starts.items) }
{
    let count = design.signals().len();
    gather(alloc, &Starts { design, count }, count)
}

/// For each signal, whether an odd number of inverters stand between it and a variable, by the signals that nets copy, and those whose inverses they
/// do. It takes as long as there are signals.
pub(crate) fn inverted_of(
    alloc: Global,
    design: &Design,
    sources: &[Option<usize>],
    inverses: &[Option<usize>],
) -> Result<Vec<bool>, AllocError>
    requires sources { AreSources design.now false sources.now }
    requires inverses { AreSources design.now true inverses.now }
    ensures { IfOk result (λ t. AreInverted design.now true t.items) }
{
    let starts = starts_of(alloc, design)?;
    let copies = rows_of(alloc, design, sources)?;
    let inverses = rows_of(alloc, design, inverses)?;
    let count = design.signals().len();
    let graph = Mirrored {
        copies,
        inverses,
        count,
    };
    let mut marks = reach(alloc, &graph, &starts)?;
    marks.truncate(count);
    Ok(marks)
}
