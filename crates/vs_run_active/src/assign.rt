//! Continuous assignments in a run.
ghost use Rattle.std.specs.Prelude.{◌≡◌, not};
ghost use Rattle.vs_run_active.specs.Left.{valued};
ghost use Rattle.vs_run_active.specs.Touches.{is_left, woken};
ghost use Rattle.vs_run_active.specs.vs_process.specs.States as states;

use std::marker::Model;
use vs_design::vs_logic4::Vec4;
use vs_design::{Assign, Target, Typed};

/// A continuous assignment: what it drives and evaluates, whether it has to be evaluated, and the value that waits to be
/// written (IEEE 1364-2005, clause 6.1).
#[derive(Drop)]
pub struct AssignState<'a> {
    target: &'a Target,
    source: &'a Typed,
    needs: bool,
    pending: Option<Vec4>,
}

impl<'a> Model for AssignState<'a> {
    ghost use Rattle.std.specs.Coded.{codes};
    ghost use Rattle.vs_design.specs.contracts.expression.Typed as expression;
    ghost use Rattle.vs_run_active.specs.vs_process.specs.States as states;

    ghost Value = { states.AssignState };

    ghost coded = { Prim.hlevel (codes, expression.the_row.coded) };

    ghost view = { λ x. record { target = x.target.now; source = x.source.now; needs = x.needs; pending = x.pending } };
}

impl<'a> AssignState<'a> {
    /// The assignment at the start of a run: it has to be evaluated.
    pub(crate) fn start(assign: &'a Assign) -> Self
        ensures { result ≡ states.start_assign assign.entry.now }
    {
        AssignState {
            target: &assign.target,
            source: &assign.source,
            needs: true,
            pending: None,
        }
    }

    /// Whether it has to be evaluated.
    #[inline(always)]
    pub fn needs(&self) -> bool
        ensures { result ≡ self.now.needs }
    {
        self.needs
    }

    /// Whether it has to be evaluated or has a value that waits to be written.
    #[inline(always)]
    pub(crate) fn is_left(&self) -> bool
        ensures { result ≡ is_left self.now }
    {
        self.needs || self.pending.is_some()
    }

    /// What it drives.
    #[inline(always)]
    pub fn target(&self) -> &'a Target
        ensures { result.now ≡ self.now.target }
    {
        self.target
    }

    /// What it evaluates.
    #[inline(always)]
    pub fn source(&self) -> &'a Typed
        ensures { result.now ≡ self.now.source }
    {
        self.source
    }

    /// An evaluation of it ends: this value waits to be written now, or none.
    #[inline(always)]
    pub(crate) fn leave(&mut self, value: Option<Vec4>)
        ensures { self.new ≡ valued value self.old }
    {
        self.needs = false;
        self.pending = value;
    }

    /// The value that waits to be written.
    #[inline(always)]
    pub fn pending(&self) -> Option<Vec4>
        ensures { result ≡ self.now.pending }
    {
        self.pending
    }

    /// Leaves nothing pending.
    #[inline(always)]
    pub(crate) fn settle(&mut self)
        ensures { self.new ≡ states.settled self.old }
    {
        self.pending = None;
    }

    /// It has to be evaluated; the answer is whether that is new.
    #[inline(always)]
    pub(crate) fn wake(&mut self) -> bool
        ensures woken { self.new ≡ woken self.old }
        ensures new { result ≡ not self.old.needs }
    {
        let new = !self.needs;
        self.needs = true;
        new
    }
}
