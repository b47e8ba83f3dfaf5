//! Names with selects.
ghost use Rattle.std.specs.Prelude.{IfOk, IfErr};
ghost use Rattle.vs_widths.specs.Findings.{Refuses};
ghost use Rattle.vs_widths.specs.Names.{meaning_of};
ghost use Rattle.vs_widths.specs.Expressions.{meant_selects};
ghost use Rattle.vs_widths.specs.Aiming.{IsTarget};
ghost use Rattle.vs_widths.specs.Lefts.{name_aimed};

use crate::WidthFault;
use crate::aiming::named_target;
use crate::kinds::AssignmentKind;
use crate::levels::Levels;
use crate::measuring::measured_selects;
use std::alloc::Global;
use vs_design::Target;
use vs_syntax::{Expr, PartSelect};

/// A name with its selects as a target of a design (IEEE 1364-2005, clauses 6.1, 9.2 and 9.7.2).
pub fn selected_target(
    alloc: Global,
    names: &Levels,
    how: AssignmentKind,
    name: &[u8],
    selects: &[(Expr, Option<(PartSelect, Expr)>)],
) -> Result<Target, WidthFault>
    ensures target { let env = meaning_of names.now in
        IfOk result (IsTarget how env (name_aimed how (env name.now) (meant_selects env selects.now))) }
    ensures fault { let env = meaning_of names.now in
        IfErr result (Refuses (name_aimed how (env name.now) (meant_selects env selects.now)).finding) }
{
    let selects = measured_selects(alloc, names, selects)?;
    named_target(alloc, names, how, name, selects)
}
