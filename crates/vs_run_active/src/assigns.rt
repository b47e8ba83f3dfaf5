//! The continuous assignments of a run.
ghost use Rattle.std.specs.Prelude.{◌≡◌, Some, None, length, map, slice_get, IfOk, MatchOption};
ghost use Rattle.std.specs.List.{list_any};
ghost use Rattle.vs_design.specs.Stores.{changed_at};
ghost use Rattle.vs_run_active.specs.vs_process.specs.States as states;
ghost use Rattle.vs_run_active.specs.Left.{valued};
ghost use Rattle.vs_run_active.specs.Touches.{is_left, woken_in};

use crate::assign::AssignState;
use crate::recount;
use std::alloc::{AllocError, Global};
use std::marker::Model;
use vs_design::Assign;
use vs_design::vs_logic4::Vec4;

/// The continuous assignments, and how many of these have to be evaluated or have a value that waits to be written. A contract sees the
/// assignments.
#[derive(Drop)]
pub struct Assigns<'a> {
    items: Vec<AssignState<'a>>,
    left: usize,
}

impl<'a> Model for Assigns<'a> {
    ghost use Rattle.std.specs.Prelude.{◌≡◌, List};
    ghost use Rattle.std.specs.Coded.{codes};
    ghost use Rattle.vs_design.specs.contracts.expression.Typed as expression;
    ghost use Rattle.vs_run_active.specs.vs_process.specs.States as states;
    ghost use Rattle.vs_run_active.specs.ListCounts.{count};
    ghost use Rattle.vs_run_active.specs.Touches.{is_left};

    ghost Value = { List states.AssignState };

    ghost coded = { Prim.hlevel (codes, expression.the_row.coded) };

    ghost view = { λ a. a.items.items };

    ghost invariant = { λ a. a.left ≡ count is_left a.items.items };
}

fn start_assigns<'a>(
    alloc: Global,
    assigns: &'a [Assign],
) -> Result<Vec<AssignState<'a>>, AllocError>
    ensures { IfOk result (λ all. all.items ≡ map states.start_assign assigns.entry.now) }
{
    let mut all = Vec::new(alloc);
    for assign in assigns {
        all.push(AssignState::start(assign))?;
    }
    Ok(all)
}

impl<'a> Assigns<'a> {
    /// The continuous assignments of a design at the start of a run.
    pub fn start(alloc: Global, assigns: &'a [Assign]) -> Result<Self, AllocError>
        ensures { IfOk result (λ all. all ≡ map states.start_assign assigns.entry.now) }
    {
        let items = start_assigns(alloc, assigns)?;
        let left = items.len();
        Ok(Assigns { items, left })
    }

    /// How many there are.
    pub fn len(&self) -> usize
        ensures { result ≡ length self.now }
    {
        self.items.len()
    }

    /// A continuous assignment.
    #[inline(always)]
    pub fn get(&self, assign: usize) -> Option<&AssignState<'a>>
        ensures { MatchOption result (slice_get self.now assign ≡ None) (λ x. slice_get self.now assign ≡ Some x.now) }
    {
        self.items.get(assign)
    }

    /// Whether one has to be evaluated or has a value that waits to be written.
    #[inline(always)]
    pub fn has_left(&self) -> bool
        ensures { result ≡ list_any is_left self.now }
    {
        self.left > 0
    }

    /// One has to be evaluated, and the answer is whether that is new; one past the end is none.
    #[inline(always)]
    pub(crate) fn wake(&mut self, assign: usize) -> bool
        ensures { self.new ≡ woken_in assign self.old }
    {
        let Some(x) = self.items.get_mut(assign) else {
            return false;
        };
        let was = x.is_left();
        let new = x.wake();
        self.left = recount(self.left, was, x.is_left());
        new
    }

    /// An evaluation of one ends: this value waits to be written now, or none; one past the end is none.
    #[inline(always)]
    pub fn leave(&mut self, assign: usize, value: Option<Vec4>)
        ensures { self.new ≡ changed_at (valued value) assign self.old }
    {
        let Some(x) = self.items.get_mut(assign) else {
            return;
        };
        let was = x.is_left();
        x.leave(value);
        self.left = recount(self.left, was, x.is_left());
    }

    /// Leaves nothing pending of one; one past the end is none.
    #[inline(always)]
    pub fn settle(&mut self, assign: usize)
        ensures { self.new ≡ changed_at states.settled assign self.old }
    {
        let Some(x) = self.items.get_mut(assign) else {
            return;
        };
        let was = x.is_left();
        x.settle();
        self.left = recount(self.left, was, x.is_left());
    }
}
