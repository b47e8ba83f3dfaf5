//! Which processes are combinational blocks.
ghost use Rattle.std.specs.Prelude.{◌≡◌};
ghost use Rattle.std.specs.List.{list_all};
ghost use Rattle.vs_design.specs.declared.statement.Statement.TheViews.{out-Statement};
ghost use Rattle.vs_process.specs.Executions.{is_level, waits_for_levels, is_block_body, is_combinational};

use vs_design::vs_logic4::Edge;
use vs_design::{EventTerm, Process, ProcessKind, Statement, has_control};

/// Whether a process is a combinational block: an `always` whose statement is one event control of level terms alone before a statement
/// without timing control (IEEE 1364-2005, clauses 9.7 and 9.9.2).
pub fn is_combinational(process: &Process) -> bool
    ensures { result ≡ is_combinational process.now }
{
    match process.kind {
        ProcessKind::Always => is_block_body(&process.body),
        ProcessKind::Initial => false,
    }
}

fn is_block_body(body: &Statement) -> bool
    ensures { result ≡ is_block_body (out-Statement body.now) }
{
    match body {
        Statement::Forever(_, s) => waits_for_levels(s),
        _ => false,
    }
}

fn waits_for_levels(s: &Statement) -> bool
    ensures { result ≡ waits_for_levels (out-Statement s.now) }
{
    match s {
        Statement::Event(_, terms, body) => are_levels(terms) && !has_control(body),
        _ => false,
    }
}

fn is_level(term: EventTerm) -> bool
    ensures { result ≡ is_level term }
{
    match term.edge {
        Edge::Any => true,
        _ => false,
    }
}

fn are_levels(terms: &[EventTerm]) -> bool
    ensures { result ≡ list_all is_level terms.now }
{
    for term in terms {
        if !is_level(*term) {
            return false;
        }
    }
    true
}
