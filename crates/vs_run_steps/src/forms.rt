//! How the continuous assignments of a design are evaluated and driven.
ghost use Rattle.std.specs.Prelude.{◌≡◌, true, slice_get, Some, None, IfOk, IfSome, MatchOption};
ghost use Rattle.vs_design.specs.declared.design.Assign as design_assign;
ghost use Rattle.vs_run_steps.specs.Forms.{IsCopy, IsForm, IsPlaceOf, IsSized};

use crate::silent::silent_of;
use std::alloc::{AllocError, Global};
use std::marker::Model;
use vs_design::{Assign, Design, Typed};
use vs_eval::Resolved;
use vs_run_active::vs_process::{Spot, spot_of};

/// How a continuous assignment is evaluated and driven.
#[derive(Drop)]
pub(crate) enum Form<'a> {
    /// A net that has the value of another whole signal of its size, whose word has this number.
    Copy(Spot, usize),
    /// One fixed place.
    Fixed(Spot, Resolved<'a>),
    /// Any other.
    Other,
}

/// The forms of the continuous assignments of a design, by their numbers. A contract sees the design.
#[derive(Drop)]
pub struct Forms<'a> {
    design: &'a Design,
    items: Vec<Form<'a>>,
}

impl<'a> Model for Forms<'a> {
    ghost use Rattle.std.specs.Coded.{codes};
    ghost use Rattle.vs_design.specs.contracts.expression.Typed as expression;
    ghost use Rattle.vs_design.specs.contracts.statement.Statement as statement;
    ghost use Rattle.vs_design.specs.Parts.{Parts};

    ghost Value = { Parts };

    ghost coded = { Prim.hlevel (codes, statement.the_row.coded, expression.the_row.coded) };

    ghost use Rattle.vs_run_steps.specs.Forms.{AreForms};

    ghost view = { λ f. f.design.now };

    ghost invariant = { λ f. AreForms f.design.now f.items.items };
}

/// Whether a signal is one word of a size.
pub(crate) fn is_whole(design: &Design, signal: usize, width: u32) -> bool
    ensures { result ≡ true → IsSized design.now.signals signal width }
{
    match design.signals().get(signal) {
        Some(s) => s.width == width && s.words.is_none(),
        None => false,
    }
}

/// The number of the word that a continuous assignment copies, where it copies a whole signal to a whole net of its size.
fn copied_word(design: &Design, assign: &Assign, spot: Spot) -> Option<usize>
    requires { IsPlaceOf design.now.signals assign.now.target spot }
    ensures { IfSome result (λ from. IsCopy design.now.signals assign.now spot from) }
{
    let Typed::Signal(o) = &assign.source else {
        return None;
    };
    if o.width != spot.width {
        return None;
    }
    if !is_whole(design, spot.signal, spot.width) {
        return None;
    }
    if !is_whole(design, o.signal, spot.width) {
        return None;
    }
    let from = design.first_word(o.signal)?;
    Some(from)
}

/// The form of a continuous assignment.
fn form_of<'a>(
    alloc: Global,
    design: &'a Design,
    assign: &'a Assign,
) -> Result<Form<'a>, AllocError>
    ensures { IfOk result (λ form. IsForm design.entry.now.signals assign.entry.now form) }
{
    let Some(spot) = spot_of(design, &assign.target) else {
        return Ok(Form::Other);
    };
    if spot.width != assign.target.width {
        return Ok(Form::Other);
    }
    if let Some(from) = copied_word(design, assign, spot) {
        return Ok(Form::Copy(spot, from));
    }
    let source = Resolved::new(alloc, design, &assign.source)?;
    Ok(Form::Fixed(spot, source))
}

impl<'a> Forms<'a> {
    /// Those of a design.
    pub fn of(alloc: Global, design: &'a Design) -> Result<Self, AllocError>
        ensures { IfOk result (λ forms. forms ≡ design.entry.now) }
    {
        let mut items = Vec::new(alloc);
        for assign in design.assigns() {
            let form = form_of(alloc, design, assign)?;
            items.push(form)?;
        }
        Ok(Forms { design, items })
    }

    /// A continuous assignment.
    #[inline(always)]
    pub(crate) fn assign(&self, assign: usize) -> Option<&'a Assign>
        ensures { MatchOption result (slice_get self.now.assigns assign ≡ None) (λ a. slice_get self.now.assigns assign ≡ Some a.now) }
    {
        let design = self.design;
        design.assigns().get(assign)
    }

    /// The form of one; past the end there is none.
    #[inline(always)]
    pub(crate) fn get(&self, assign: usize) -> Option<&Form<'a>>
        ensures { IfSome result (λ form. (a : design_assign.Assign) → slice_get self.now.assigns assign ≡ Some a
            → IsForm self.now.signals a form.now) }
    {
        self.items.get(assign)
    }

    /// The fixed place of one, where it has one.
    #[inline(always)]
    pub(crate) fn place(&self, assign: usize) -> Option<&Spot>
        ensures { IfSome result (λ spot. (a : design_assign.Assign) → slice_get self.now.assigns assign ≡ Some a
            → IsPlaceOf self.now.signals a.target spot.now) }
    {
        let form = self.get(assign)?;
        match form {
            Form::Copy(spot, _) | Form::Fixed(spot, _) => Some(spot),
            Form::Other => None,
        }
    }

    /// Of each whether it is silent: a copy that nothing sees before a wave of updates is over.
    pub fn silent(&self, alloc: Global) -> Result<Vec<bool>, AllocError> {
        if !self
            .items
            .iter()
            .any(|form| matches!(form, Form::Copy(_, _)))
        {
            return Ok(Vec::new(alloc));
        }
        silent_of(alloc, self.design, &self.items)
    }

    /// Of each whether it is a copy that may be woken with others as one: so those that aren't silent.
    pub fn copies(&self, alloc: Global, silent: &[bool]) -> Result<Vec<bool>, AllocError> {
        let mut copies = Vec::new(alloc);
        for (number, form) in self.items.iter().enumerate() {
            let copy = match form {
                Form::Copy(_, _) => !matches!(silent.get(number), Some(true)),
                Form::Fixed(_, _) => false,
                Form::Other => false,
            };
            copies.push(copy)?;
        }
        Ok(copies)
    }
}
