//! The nodes that walks lead to, by marks that are kept from one search to the next.
ghost use Rattle.std.specs.Prelude.{ℕ, ◌≡◌, ◌<◌, ◌↔◌, false, length, slice_index_or, IfOk, OnOk, IsTrue};
ghost use Rattle.std.specs.List.{Contains};
ghost use Rattle.vs_graph.specs.Reached.{Reached};
ghost use Rattle.vs_graph.specs.Clear.{AreClear};

use crate::Graph;
use crate::walks::mark;
use std::alloc::{AllocError, Global};

/// So many marks, none of which is set.
pub fn clear_marks(alloc: Global, n: usize) -> Result<Vec<bool>, AllocError>
    ensures { IfOk result (λ marks. AreClear n marks.items) }
{
    vec![in alloc; false; n]
}

/// Whether a node is marked; one past the end isn't.
pub fn is_marked(marks: &[bool], node: usize) -> bool
    ensures { result ≡ slice_index_or marks.now node false }
{
    node < marks.len() && marks[node]
}

// Takes the mark of a node away.
fn unmark(marks: &mut Vec<bool>, node: usize)
    ensures len { length marks.new.items ≡ length marks.old.items }
    ensures kept { (k : ℕ) → IsTrue (slice_index_or marks.new.items k false) → IsTrue (slice_index_or marks.old.items k false) }
    ensures gone { IsTrue (slice_index_or marks.new.items node false) → ⊥ }
{
    if node < marks.len() {
        marks[node] = false;
    }
}

// Takes the marks of some nodes away.
fn unmark_all(marks: &mut Vec<bool>, nodes: &[usize])
    ensures len { length marks.new.items ≡ length marks.old.items }
    ensures kept { (k : ℕ) → IsTrue (slice_index_or marks.new.items k false) → IsTrue (slice_index_or marks.old.items k false) }
    ensures gone { (k : ℕ) → Contains nodes.now k → IsTrue (slice_index_or marks.new.items k false) → ⊥ }
{
    for node in nodes {
        unmark(marks, *node);
    }
}

/// The nodes that a walk from one of the seeds leads to. It takes as long as they are and their edges: the marks, of which none is set, are as they
/// were at the end.
pub fn walk<G: Graph>(
    alloc: Global,
    graph: &G,
    seeds: &[usize],
    marks: &mut Vec<bool>,
) -> Result<Vec<usize>, AllocError>
    requires seeds { (s : ℕ) → Contains seeds.now s → s < G.count graph.now }
    requires marks { AreClear (G.count graph.now) marks.old.items }
    ensures clear { OnOk result (AreClear (G.count graph.now) marks.new.items) }
    ensures exact { IfOk result (λ found. (k : ℕ) → (Contains found.items k ↔ Reached (G.nexts graph.now) seeds.now k)) }
{
    let mut todo = Vec::from_slice(alloc, seeds)?;
    let mut found = Vec::new(alloc);
    while let Some(node) = todo.pop() {
        if mark(marks, node) {
            found.push(node)?;
            graph.put_nexts(node, &mut todo)?;
        }
    }
    unmark_all(marks, &found);
    Ok(found)
}
