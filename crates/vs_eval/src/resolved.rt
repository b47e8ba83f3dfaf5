//! Expressions of a design, resolved once.
ghost use Rattle.std.specs.Prelude.{◌≡◌, ◌<◌, ◌≤◌, IfOk, false};
ghost use Rattle.vs_design.specs.vs_logic4.specs.Vectors.{resized};
ghost use Rattle.vs_eval.specs.Values.{value_of};
ghost use Rattle.vs_design.specs.InOrder.{IsStoreOf};

use crate::evaluate::{quick_planes, vector};
use crate::node::{Node, Size};
use crate::resolve::resolve;
use crate::value;
use std::alloc::{AllocError, Global};
use std::marker::Model;
use vs_design::vs_logic4::Vec4;
use vs_design::{Design, Store, Typed};

/// An expression of a design, resolved. A contract sees it as the expression with the design's signals.
pub struct Resolved<'a> {
    design: &'a Design,
    expression: &'a Typed,
    // The expression resolved; `None` where the expression itself is evaluated.
    made: Option<(Node, Size)>,
}

impl<'a> Drop for Resolved<'a> {
    fn drop(self) {
        let Self {
            design: _,
            expression: _,
            made: _,
        } = self;
    }
}

impl<'a> Model for Resolved<'a> {
    ghost use Rattle.std.specs.Prelude.{IfSome};
    ghost use Rattle.std.specs.Coded.{codes};
    ghost use Rattle.vs_design.specs.contracts.expression.Typed as typed;
    ghost use Rattle.vs_eval.specs.Meant.{Meaning, IsMeant};

    ghost Value = { Meaning };

    ghost coded = { Prim.hlevel (codes, typed.the_row.coded) };

    ghost view = { λ r. record { signals = r.design.now.signals; expression = r.expression.now } };

    ghost invariant = { λ r. IfSome r.made (λ s. IsMeant r.design.now.signals r.expression.now s.0 s.1.width) };
}

impl<'a> Resolved<'a> {
    /// An expression of a design, resolved. One whose operands haven't the sizes that those of every design have is evaluated as it is.
    pub fn new(alloc: Global, design: &'a Design, expression: &'a Typed) -> Result<Self, AllocError>
        ensures { IfOk result (λ r. r ≡ record { signals = design.entry.now.signals; expression = expression.entry.now }) }
    {
        let made = resolve(alloc, design, expression)?;
        Ok(Resolved {
            design,
            expression,
            made,
        })
    }

    /// The value in a store of its design at a time in ticks, at the size and with the sign of its context.
    #[inline(always)]
    pub fn value(&self, store: &Store, time: u64) -> Vec4
        requires { IsStoreOf self.now.signals store.now }
        ensures { result ≡ value_of self.now.expression store.now time }
    {
        match &self.made {
            Some((node, size)) => vector(size.width, quick_planes(node, store, time)),
            None => value(self.expression, store, time),
        }
    }

    /// The value cut to a size, or extended to it without a sign: what a target of this size gets (IEEE 1364-2005, clause 5.4.1).
    #[inline(always)]
    pub fn cut_value(&self, width: u32, store: &Store, time: u64) -> Vec4
        requires some { 0 < width }
        requires most { width ≤ 64 }
        requires store { IsStoreOf self.now.signals store.now }
        ensures { result ≡ resized false width (value_of self.now.expression store.now time) }
    {
        match &self.made {
            Some((node, _)) => vector(width, quick_planes(node, store, time)),
            None => {
                let digits = value(self.expression, store, time);
                let made = digits.resize(width, false);
                made
            }
        }
    }
}
