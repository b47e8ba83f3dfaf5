//! Walks on a map from its start that take no time, on which nothing of a sort is done.
ghost use Rattle.std.specs.Prelude.{ℕ, ◌≡◌, ◌<◌, ◌↔◌, false, length, slice_index_or, IfOk, IsTrue};
ghost use Rattle.vs_rules_of_starts.specs.vs_process.specs.Stops.{LeadsIn, statement_view};
ghost use Rattle.vs_drivers.specs.vs_maps.specs.Reaches.{places};
ghost use Rattle.vs_drivers.specs.vs_maps.specs.Walks.{AreMarked};
ghost use Rattle.vs_rules_of_starts.specs.Missing.{MissingAt, IsSure, is_end, is_one, stops_here, unmarked};
ghost use Rattle.vs_rules_of_starts.specs.Inside.{unmarked_in};

use std::alloc::{AllocError, Global};
use vs_design::Statement;
use vs_drivers::vs_maps::{Tables, marks_of, takes_no_time};
use vs_graph::{Graph, Rule, all_keep, is_marked, reach};

// Whether a place is the end of a text.
fn is_end(statement: Option<&Statement>, tos: &[usize]) -> bool
    ensures { result ≡ is_end (statement_view statement.entry) tos.now }
{
    match statement {
        None => tos.len() == 1,
        Some(_) => false,
    }
}

// Whether a walk that takes no time ends at a place.
fn stops_here(tables: &Tables, place: usize) -> bool
    ensures { result ≡ stops_here tables.now place }
{
    if is_end(tables.statement(place), tables.tos(place)) {
        return true;
    }
    !takes_no_time(tables.pause(place))
}

// The places of a map, and where it leads from each in no time, but from those that are marked.
#[derive(Drop)]
struct Unmarked<'a> {
    tables: &'a Tables<'a>,
    marks: &'a [bool],
    ghost within: { LeadsIn (places tables.now) tables.now.stops },
}

impl<'a> Graph for Unmarked<'a> {
    ghost count = { λ g. places g.tables.now };

    ghost nexts = { λ g. unmarked g.marks.now g.tables.now.stops };

    fn count(&self) -> usize {
        self.tables.places()
    }

    fn put_nexts(&self, node: usize, todo: &mut Vec<usize>) -> Result<(), AllocError> {
        if is_marked(self.marks, node) {
            return Ok(());
        }
        if !takes_no_time(self.tables.pause(node)) {
            return Ok(());
        }
        todo.extend_from_slice(self.tables.tos(node))?;
        Ok(())
    }

    ghost inside = { λ g. unmarked_in g.marks.now (places g.tables.now) g.tables.now.stops g.within };
}

// The places that are marked, none of which ends a walk.
#[derive(Drop)]
struct GoOn<'a> {
    tables: &'a Tables<'a>,
    marks: &'a [bool],
}

impl<'a> Rule for GoOn<'a> {
    ghost keeps = { λ f p. IsTrue (slice_index_or f.marks.now p false) → stops_here f.tables.now p ≡ false };

    fn test(&self, _alloc: Global, i: usize) -> Result<bool, AllocError> {
        if is_marked(self.marks, i) {
            Ok(!stops_here(self.tables, i))
        } else {
            Ok(true)
        }
    }
}

/// Whether something of a sort is done on each walk from the start in no time before it ends. It takes as long as there are places and ways.
pub(crate) fn is_sure<'a, R: Rule>(
    alloc: Global,
    tables: &'a Tables<'a>,
    sort: &R,
) -> Result<bool, AllocError>
    ensures { IfOk result (λ b. (IsTrue b ↔ IsSure tables.entry.now (R.keeps sort.now))) }
{
    tables.leads_in();
    let done = marks_of(alloc, sort, tables.places())?;
    let walks = Unmarked {
        tables: &*tables,
        marks: &done,
    };
    let reached = reach(alloc, &walks, &[tables.start()])?;
    let go_on = GoOn {
        tables: &*tables,
        marks: &reached,
    };
    all_keep(alloc, &go_on, reached.len())
}
