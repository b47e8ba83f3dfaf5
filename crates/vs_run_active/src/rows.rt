//! Where the watchers of each signal stand.
ghost use Rattle.std.specs.Prelude.{◌<◌, ◌^◌, IfOk};
ghost use Rattle.vs_run_active.specs.Groups.{AllAssigns};
ghost use Rattle.vs_run_active.specs.Rows.{RowAdded};

use crate::groups::Groups;
use crate::watchers::{ProcessTerm, Watcher, add_kind};
use std::alloc::AllocError;
use vs_design::vs_logic4::Edge;

/// Where the watchers of a signal stand: the readers, then the controls that wait for any change, for a rise, for a fall.
#[derive(Clone, Copy)]
pub struct Row {
    pub readers: usize,
    pub any: usize,
    pub rising: usize,
    pub falling: usize,
    pub end: usize,
}

/// The watchers of one signal, of which these are those of its readers.
pub(crate) fn add_row(
    groups: &mut Groups,
    watchers: &mut Vec<Watcher>,
    plain: &[Watcher],
    copies: &[bool],
    terms: &[ProcessTerm],
) -> Result<Row, AllocError>
    requires numbers { AllAssigns groups.old.assigns plain.now }
    requires room { groups.old.assigns < 2 ^ 63 }
    ensures { IfOk result (λ row. RowAdded groups.old groups.new watchers.old.items watchers.new.items row plain.now terms.now) }
{
    let readers = watchers.len();
    groups.add(watchers, plain, copies)?;
    let any = watchers.len();
    add_kind(watchers, terms, Edge::Any)?;
    let rising = watchers.len();
    add_kind(watchers, terms, Edge::Posedge)?;
    let falling = watchers.len();
    add_kind(watchers, terms, Edge::Negedge)?;
    let end = watchers.len();
    Ok(Row {
        readers,
        any,
        rising,
        falling,
        end,
    })
}
