//! The ranges that event controls name.
ghost use Rattle.std.specs.Prelude.{◌≡◌, ◌++◌, OnOk};
ghost use Rattle.vs_drivers.specs.Names.{ranges_of_terms};

use std::alloc::AllocError;
use vs_design::{BitRange, EventTerm};

/// Puts the ranges of event terms (IEEE 1364-2005, clause 9.7.2).
pub fn push_ranges(out: &mut Vec<BitRange>, terms: &[EventTerm]) -> Result<(), AllocError>
    ensures { OnOk result (out.new.items ≡ out.old.items ++ ranges_of_terms terms.now) }
{
    for term in terms {
        out.push(term.range)?;
    }
    Ok(())
}
