//! Calls of `$strobe` in a run.
ghost use Rattle.std.specs.Prelude.{◌≡◌};

use std::marker::Model;
use vs_process::vs_strobe::Format;

/// A call of `$strobe` in this slot, and the process that made it (IEEE 1364-2005, clause 17.1.2).
#[derive(Drop)]
pub struct Called<'a> {
    pub(crate) by: usize,
    pub(crate) format: &'a Format<'a>,
}

impl<'a> Model for Called<'a> {
    ghost use Rattle.std.specs.Coded.{codes};
    ghost use Rattle.vs_design.specs.contracts.expression.Typed as expression;
    ghost use Rattle.vs_run_active.specs.vs_process.specs.States as states;

    ghost Value = { states.Called };

    ghost coded = { Prim.hlevel (codes, expression.the_row.coded) };

    ghost view = { λ c. record { by = c.by; call = c.format.now } };
}

impl<'a> Called<'a> {
    /// The format of its line.
    pub fn format(&self) -> &Format<'a>
        ensures { result.now ≡ self.now.call }
    {
        self.format
    }
}
