//! The values of parameters.
ghost use Rattle.std.specs.Prelude.{◌≡◌, ◌++◌, ◌∷◌, [], Bool, false, IfOk, IfErr, OnOk, map};
ghost use Rattle.vs_scopes.specs.Pieces.{pieces_of};
ghost use Rattle.vs_scopes.specs.Reads.{read_piece};
ghost use Rattle.vs_scopes.specs.vs_widths.specs.Constants.{constant_finding};
ghost use Rattle.vs_scopes.specs.vs_widths.specs.Findings.{Finding, Lacks, Refuses, has_width_fault};
ghost use Rattle.vs_scopes.specs.vs_widths.specs.declared.faults.WidthReason.{WidthReason};
ghost use Rattle.vs_widths.specs.Names.{meaning_of, nested_names, by_bytes, Binds};
ghost use Rattle.vs_widths.specs.Expressions.{meant};
ghost use Rattle.vs_scopes.specs.Parameters.{vector_takes, takes_by, takes_fault, outer_fault, own_fault};
ghost use Rattle.vs_scopes.specs.Ports.{ports_of};
ghost use Rattle.vs_scopes.specs.scopes_passes.Answers.{Refuses as RefusesBody};
ghost use Rattle.vs_scopes.specs.scopes_passes.Parts.{read_end, read_given, read_port};
ghost use Rattle.vs_scopes.specs.scopes_passes.Sizes.{width_faults};
ghost use Rattle.vs_elab_constants.specs.declared.evaluating.Taking.TheVariants.{Shaped};
ghost use Rattle.vs_elab_constants.specs.passes.Values.{IsTaking, IsGivenBy, RefusesValues, IsGiven, BindsConstants, AreValues, AreNoValues, AreBlockValues, block_faults};

use crate::early::{SignalNames, early_names};
use crate::finding::add_constants;
use std::alloc::{AllocError, Global};
use vs_scopes::vs_widths::{Binding, Const, Shape, WidthFault};
use vs_scopes::{
    BodyFault, Given, INTEGER, ModulePort, ParameterRefusal, Reason, ScopePiece, Size,
    block_parameters, declared_size, given_alone, given_to, module_parameters,
};
use vs_syntax::{Connections, Expr, Form, Module, ParameterForm};
use vs_widths::{Levels, Names, constant, constant_at, shape_of};

/// The values of the parameters of a scope.
#[derive(Drop)]
pub struct ParameterValues<'s> {
    /// The constants that they are, each by its name; before them the genvar of the turn that a block is.
    pub constants: Vec<(&'s [u8], Const)>,
    /// What the scope's own names are bound to in its constant expressions.
    pub known: Names<'s, Binding>,
}

/// What a parameter takes of its value (IEEE 1364-2005, clause 12.2).
#[derive(Clone, Copy)]
pub enum Taking {
    /// Its size, and its sign, or whether it is signed whatever it is.
    TheSize(bool),
    /// Neither: the parameter has a size and sign of its own, and bits of it may be selected by its range.
    Shaped(Size),
}

/// A fault of an expression of the module.
fn own(fault: WidthFault) -> ParameterRefusal
    ensures { (found : Finding) → Refuses found fault
        → RefusesValues false (λ w. false) (λ w. has_width_fault w found) result }
{
    match fault {
        WidthFault::Memory => ParameterRefusal::Memory,
        WidthFault::Refused(reason) => ParameterRefusal::Own(reason),
    }
}

/// A fault of an expression of the scope around.
fn outer(fault: WidthFault) -> ParameterRefusal
    ensures { (found : Finding) → Refuses found fault
        → RefusesValues false (λ w. has_width_fault w found) (λ w. false) result }
{
    match fault {
        WidthFault::Memory => ParameterRefusal::Memory,
        WidthFault::Refused(reason) => ParameterRefusal::Outer(reason),
    }
}

/// A fault of a size in the module; a size has no other faults than those of expressions.
fn own_size(fault: BodyFault) -> ParameterRefusal
    ensures { (faults : WidthReason → Bool) → RefusesBody (width_faults faults) fault
        → RefusesValues false (λ w. false) faults result }
{
    match fault {
        BodyFault::Memory => ParameterRefusal::Memory,
        BodyFault::Refused(Reason::Width(reason)) => ParameterRefusal::Own(reason),
        BodyFault::Refused(_) => ParameterRefusal::Mismatch,
    }
}

/// What a parameter takes of its value by a sign and a range.
fn vector_taking(alloc: Global, known: &Levels, form: &Form) -> Result<Taking, ParameterRefusal>
    ensures ok { IfOk result (IsTaking (vector_takes (meaning_of known.now) form.now.signed form.now.range)) }
    ensures fault { IfErr result (RefusesValues false (λ w. false)
        (λ w. takes_fault w (vector_takes (meaning_of known.now) form.now.signed form.now.range))) }
{
    if form.range.is_none() {
        return Ok(Taking::TheSize(form.signed));
    }
    match declared_size(alloc, known, form) {
        Ok(size) => Ok(Taking::Shaped(size)),
        Err(fault) => Err(own_size(fault)),
    }
}

/// What a parameter takes of its value by what is said of it (IEEE 1364-2005, clause 12.2).
fn taking_by(
    alloc: Global,
    known: &Levels,
    form: Option<&ParameterForm>,
) -> Result<Taking, ParameterRefusal>
    ensures ok { IfOk result (IsTaking (takes_by (meaning_of known.now) (read_end form.entry))) }
    ensures fault { IfErr result (RefusesValues false (λ w. false)
        (λ w. takes_fault w (takes_by (meaning_of known.now) (read_end form.entry)))) }
{
    match form {
        None => Ok(Taking::TheSize(false)),
        Some(ParameterForm::Integer) => Ok(Taking::Shaped(INTEGER)),
        Some(ParameterForm::Vector(form)) => vector_taking(alloc, known, form),
    }
}

/// The constant that an expression gives a parameter of this size and sign, as an assignment does (IEEE 1364-2005, clause 5.4.1).
fn shaped(alloc: Global, names: &Levels, size: Size, e: &Expr) -> Result<Const, WidthFault>
    ensures ok { IfOk result (IsGivenBy (Shaped size) (meant (meaning_of names.now) e.now)) }
    ensures fault { IfErr result (Refuses (constant_finding (meant (meaning_of names.now) e.now))) }
{
    let found = shape_of(alloc, names, e)?;
    let shape = size.shape;
    let width = shape.width.max(found.width);
    let signed = found.signed;
    let value = constant_at(alloc, names, Shape { width, signed }, e)?;
    let value = value.resize(shape.width, false);
    Ok(Const::new(value, shape.signed, size.bounds))
}

/// The constant that an expression gives a parameter (IEEE 1364-2005, clauses 5.4.1 and 12.2).
fn valued(alloc: Global, names: &Levels, taking: Taking, e: &Expr) -> Result<Const, WidthFault>
    ensures ok { IfOk result (IsGivenBy taking (meant (meaning_of names.now) e.now)) }
    ensures fault { IfErr result (Refuses (constant_finding (meant (meaning_of names.now) e.now))) }
{
    match taking {
        Taking::TheSize(signed) => {
            let found = constant(alloc, names, e)?;
            Ok(Const::new(found.value, signed || found.signed, None))
        }
        Taking::Shaped(size) => shaped(alloc, names, size, e),
    }
}

/// The constant that a parameter is: its value is an expression of the module, or of the scope around (IEEE 1364-2005, clause 12.2).
pub(crate) fn constant_given(
    alloc: Global,
    around: &Levels,
    known: &Levels,
    given: &Given,
) -> Result<Const, ParameterRefusal>
    ensures ok { IfOk result (IsGiven (meaning_of around.now) (meaning_of known.now) (read_given given.now)) }
    ensures fault { IfErr result (RefusesValues false
        (λ w. outer_fault w (meaning_of around.now) (read_given given.now))
        (λ w. own_fault w (meaning_of known.now) (read_given given.now))) }
{
    let taking = taking_by(alloc, known, given.parameter.form)?;
    match given.over {
        None => match valued(alloc, known, taking, given.parameter.value) {
            Ok(constant) => Ok(constant),
            Err(fault) => Err(own(fault)),
        },
        Some(e) => match valued(alloc, around, taking, e) {
            Ok(constant) => Ok(constant),
            Err(fault) => Err(outer(fault)),
        },
    }
}

/// Binds a name, whatever it was bound to.
pub(crate) fn bind<'s>(
    name: &'s [u8],
    binding: Binding,
    names: &mut Names<'s, Binding>,
) -> Result<(), AllocError>
    ensures { OnOk result (Binds names.old names.new name.entry.now binding) }
{
    match names.bind(name, binding) {
        Ok(()) => Ok(()),
        Err(_) => Err(AllocError),
    }
}

/// Appends a constant under a name.
pub(crate) fn push_constant<'s>(
    name: &'s [u8],
    constant: &Const,
    list: &mut Vec<(&'s [u8], Const)>,
) -> Result<(), AllocError>
    ensures { OnOk result (by_bytes list.new.items ≡ by_bytes list.old.items ++ (name.entry.now, constant.now) ∷ []) }
{
    match list.push((name, *constant)) {
        Ok(()) => Ok(()),
        Err(_) => Err(AllocError),
    }
}

/// Adds constants that are known.
fn bind_constants<'s>(
    constants: &[(&'s [u8], Const)],
    values: &mut ParameterValues<'s>,
) -> Result<(), AllocError>
    ensures { OnOk result (BindsConstants (by_bytes constants.now) values.old values.new) }
{
    for (name, constant) in constants {
        bind(*name, Binding::Constant(*constant), &mut values.known)?;
        push_constant(*name, constant, &mut values.constants)?;
    }
    Ok(())
}

/// The values of the parameters of a module with these ports and pieces, of which some are overridden; `around` are the names of the
/// scope around (IEEE 1364-2005, clause 12.2).
pub fn values<'s>(
    alloc: Global,
    around: &Levels,
    module: &'s Module,
    ports: &[ModulePort<'s>],
    pieces: &[ScopePiece<'s>],
    overrides: Option<&'s Connections>,
) -> Result<ParameterValues<'s>, ParameterRefusal>
    requires ports { map read_port ports.now ≡ ports_of «module».now }
    requires pieces { map read_piece pieces.now ≡ pieces_of «module».now.items.items }
    ensures ok { IfOk result (AreValues (meaning_of around.now) (read_end overrides.entry) «module».entry.now) }
    ensures fault { IfErr result (AreNoValues (meaning_of around.now) (read_end overrides.entry) «module».entry.now) }
{
    let parameters = module_parameters(alloc, module, pieces)?;
    let Some(list) = given_to(alloc, &parameters, overrides)? else {
        return Err(ParameterRefusal::Mismatch);
    };
    let mut values = ParameterValues {
        constants: Vec::new(alloc),
        known: early_names(alloc, SignalNames::Valueless, &parameters, ports, pieces)?,
    };
    match add_constants(alloc, around, &[], &list, &mut values) {
        Ok(()) => Ok(values),
        Err(refusal) => Err(refusal),
    }
}

/// A fault of a value of a parameter of a block, which nothing overrides.
fn block_refusal(refusal: ParameterRefusal) -> WidthFault
    requires { (faults : WidthReason → Bool) × RefusesValues false (λ w. false) faults refusal }
    ensures { (faults : WidthReason → Bool) → RefusesValues false (λ w. false) faults refusal
        → Refuses (Lacks faults) result }
{
    match refusal {
        ParameterRefusal::Own(reason) => WidthFault::Refused(reason),
        ParameterRefusal::Memory => WidthFault::Memory,
        ParameterRefusal::Mismatch => unreachable!(),
        ParameterRefusal::Outer(_) => unreachable!(),
    }
}

/// The values of the parameters of a generate block or a named block of these pieces, where the genvar of a turn is a constant; `outer` are
/// the names of the scopes around, the innermost first (IEEE 1364-2005, clauses 4.10.2, 9.8.3 and 12.4).
pub fn block_values<'s>(
    alloc: Global,
    outer: &[&Names<'s, Binding>],
    constants: &[(&'s [u8], Const)],
    pieces: &[ScopePiece<'s>],
) -> Result<ParameterValues<'s>, WidthFault>
    ensures ok { IfOk result (AreBlockValues (nested_names outer.now) (by_bytes constants.now) (map read_piece pieces.now)) }
    ensures fault { IfErr result (Refuses (Lacks
        (block_faults (nested_names outer.now) (by_bytes constants.now) (map read_piece pieces.now)))) }
{
    let parameters = block_parameters(alloc, pieces)?;
    let list = given_alone(alloc, &parameters)?;
    let mut values = ParameterValues {
        constants: Vec::new(alloc),
        known: early_names(alloc, SignalNames::Valueless, &parameters, &[], pieces)?,
    };
    bind_constants(constants, &mut values)?;
    let nothing = Names::new(alloc);
    let nowhere = Levels::alone(&nothing);
    match add_constants(alloc, &nowhere, outer, &list, &mut values) {
        Ok(()) => Ok(values),
        Err(refusal) => Err(block_refusal(refusal)),
    }
}
