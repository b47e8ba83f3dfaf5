//! The nodes that walks lead to.
ghost use Rattle.std.specs.Prelude.{ℕ, ◌≡◌, ◌<◌, ◌++◌, List, length, IfOk, OnOk};
ghost use Rattle.std.specs.List.{Contains};
ghost use Rattle.std.specs.Bool.{OnTrue, OnFalse};
ghost use Rattle.vs_graph.specs.Reached.{AreReached, AreMarkedNow, IsMarkedNow, WasMarked};

use std::alloc::{AllocError, Global};

/// A graph whose nodes are numbers below a bound.
pub trait Graph {
    ghost count: { Self → ℕ };

    ghost nexts: { Self → ℕ → List ℕ };

    /// The bound.
    fn count(&self) -> usize
        ensures { result ≡ count self.now };

    /// Puts the nodes that an edge leads to at the list's end.
    fn put_nexts(&self, node: usize, todo: &mut Vec<usize>) -> Result<(), AllocError>
        ensures { OnOk result (todo.new.items ≡ todo.old.items ++ nexts self.now node) };

    ghost inside: { (g : Self) (a b : ℕ) → Contains (nexts g a) b → b < count g };
}

/// Marks a node, and answers whether it wasn't marked before.
pub fn mark(marks: &mut Vec<bool>, node: usize) -> bool
    ensures fresh { OnTrue result (IsMarkedNow node marks.old.items marks.new.items) }
    ensures old { OnFalse result (WasMarked node marks.old.items marks.new.items) }
{
    if node < marks.len() && !marks[node] {
        marks[node] = true;
        true
    } else {
        false
    }
}

// Marks nodes, and puts those that weren't marked before at a list's end.
fn mark_all(marks: &mut Vec<bool>, nodes: &[usize], todo: &mut Vec<usize>) -> Result<(), AllocError>
    ensures { OnOk result (AreMarkedNow nodes.now marks.old.items todo.old.items marks.new.items todo.new.items) }
{
    for node in nodes {
        if mark(marks, *node) {
            todo.push(*node)?;
        }
    }
    Ok(())
}

/// The nodes that a walk from one of the seeds leads to. It takes as long as these and their edges, and as much memory as there are nodes and as the
/// edges of one of them.
pub fn reach<G: Graph>(alloc: Global, graph: &G, seeds: &[usize]) -> Result<Vec<bool>, AllocError>
    requires { (s : ℕ) → Contains seeds.now s → s < G.count graph.now }
    ensures len { IfOk result (λ marks. length marks.items ≡ G.count graph.now) }
    ensures exact { IfOk result (λ marks. AreReached (G.nexts graph.now) seeds.now (G.count graph.now) marks.items) }
{
    let mut marks = vec![in alloc; false; graph.count()]?;
    let mut todo = Vec::new(alloc);
    let mut nexts = Vec::new(alloc);
    mark_all(&mut marks, seeds, &mut todo)?;
    while let Some(node) = todo.pop() {
        nexts.clear();
        graph.put_nexts(node, &mut nexts)?;
        mark_all(&mut marks, &nexts, &mut todo)?;
    }
    Ok(marks)
}
