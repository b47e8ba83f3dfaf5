//! Designs of sources.
ghost use Rattle.std.specs.Prelude.{◌≡◌, ◌≤◌, false, length, MatchResult, OnOk, IfErr};
ghost use Rattle.std.specs.List.{IsDistinct};
ghost use Rattle.vs_design.specs.WellFormed.{share_a_bit, driven};
ghost use Rattle.vs_elaborate.specs.Timescales.{has_other_timescale};
ghost use Rattle.vs_elaborate.specs.Faults.{Faults};
ghost use Rattle.vs_elaborate.specs.DesignOf.{DesignOf};
ghost use Rattle.vs_elaborate.specs.passes.Filling.{DrivenTwiceOnly};
ghost use Rattle.vs_elaborate.specs.Marks.{AreWithin};

use crate::filling::fill_all;
use crate::timescales::{has_other_timescale, ratio_of, timescale_of};
use crate::{mark_ranges, no_marks};
use std::alloc::Global;
use vs_design::{Assign, Design, Signal, writes};
use vs_elab_hierarchy::open_all;
use vs_elab_statements::vs_elab_signals::fault_at;
use vs_elab_statements::vs_scopes::{ElabFault, PartName, PathName, Reason};
use vs_syntax::Source;

/// Sees that no bit of a net is driven twice.
fn check_drivers(alloc: Global, signals: &[Signal], assigns: &[Assign]) -> Result<(), ElabFault>
    requires within { AreWithin signals.now (driven assigns.now) }
    requires room { length signals.now ≤ 65536 }
    ensures none { OnOk result (IsDistinct (share_a_bit signals.now) (driven assigns.now)) }
    ensures one { IfErr result (DrivenTwiceOnly signals.now assigns.now) }
{
    let mut marks = no_marks(alloc, signals)?;
    for assign in assigns {
        let ranges = writes(alloc, &assign.target)?;
        if let Some(number) = mark_ranges(signals, &ranges, &mut marks) {
            let path = signals[number].path.clone()?;
            return Err(ElabFault::At(Reason::DrivenTwice, path));
        }
    }
    Ok(())
}

/// Sees that no two directives of a source give different time scales (profile).
fn check_timescales(alloc: Global, source: &Source, top: &[u8]) -> Result<(), ElabFault>
    ensures same { OnOk result (has_other_timescale source.now ≡ false) }
    ensures other { IfErr result (Faults source.now top.now) }
{
    if has_other_timescale(source) {
        let top = PathName {
            name: PartName::Text(top),
            turn: None,
        };
        return Err(fault_at(alloc, &[top], Reason::Timescales));
    }
    Ok(())
}

/// The design that a source and the name of its top module define (IEEE 1364-2005, clause 12): the name's own bytes, without
/// the backslash of an escaped one. A refusal has the printed path where its fault stands; where several stand, it names any
/// one of them. `Memory` is answered only where a growth was refused.
pub fn elaborate(alloc: Global, source: &Source, top: &[u8]) -> Result<Design, ElabFault>
    ensures { MatchResult result (DesignOf source.now top.now) (Faults source.now top.now) }
{
    check_timescales(alloc, source, top)?;
    let scale = timescale_of(source);
    let opening = open_all(alloc, &source.modules, top)?;
    let contents = fill_all(alloc, ratio_of(scale), &opening.scopes)?;
    check_drivers(alloc, &opening.signals, &contents.assigns)?;
    let design = Design::new(
        alloc,
        scale,
        opening.signals,
        contents.assigns,
        contents.processes,
        opening.outline,
    )?;
    Ok(design)
}
