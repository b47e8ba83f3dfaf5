//! The parameters of a module, and what overrides them.
ghost use Rattle.std.specs.Prelude.{◌≡◌, ◌++◌, [], None, drop, map, IfOk, OnOk};
ghost use Rattle.vs_scopes.specs.Reads.{read_piece};
ghost use Rattle.vs_scopes.specs.Overrides.{header_parameters, item_parameter, parameters_in, parameters_among, overridable, given_from, first_end};
ghost use Rattle.vs_scopes.specs.passes.Ends.{borrowed, read_end, read_ends, read_parameter, read_given, AreOverrides, AreGiven};

use crate::ScopePiece;
use crate::connections::ends;
use crate::forms::said;
use std::alloc::{AllocError, Global};
use vs_syntax::{Connections, Constant, Expr, HeaderParameter, Item, Module, ParameterForm};

/// A parameter as the text declares it (IEEE 1364-2005, clauses 4.10 and 12.2).
#[derive(Clone, Copy)]
pub struct Parameter<'s> {
    /// Whether nothing may override it.
    pub fixed: bool,
    /// What is said of it.
    pub form: Option<&'s ParameterForm>,
    /// The bytes of its name.
    pub name: &'s [u8],
    /// Its value, where nothing overrides it.
    pub value: &'s Expr,
}

/// A parameter, with the expression that overrides it, where there is one.
#[derive(Clone, Copy)]
pub struct Given<'s> {
    /// The parameter.
    pub parameter: Parameter<'s>,
    /// What overrides it.
    pub over: Option<&'s Expr>,
}

/// The parameters of a header (IEEE 1364-2005, clause 12.2).
fn header_parameters<'s>(
    alloc: Global,
    header: &'s [HeaderParameter],
) -> Result<Vec<Parameter<'s>>, AllocError>
    ensures { IfOk result (λ v. map read_parameter v.items ≡ header_parameters None header.entry.now) }
{
    let mut list = Vec::new(alloc);
    let mut before = None;
    for parameter in header {
        before = said(before, &parameter.form);
        list.push(Parameter {
            fixed: false,
            form: before,
            name: &parameter.name,
            value: &parameter.value,
        })?;
    }
    Ok(list)
}

/// Appends the parameters of a declaration.
fn push_constants<'s>(
    fixed: bool,
    form: &'s ParameterForm,
    constants: &'s [Constant],
    list: &mut Vec<Parameter<'s>>,
) -> Result<(), AllocError>
    ensures { OnOk result (map read_parameter list.new.items
        ≡ map read_parameter list.old.items ++ map (item_parameter fixed form.entry.now) constants.entry.now) }
{
    for constant in constants {
        list.push(Parameter {
            fixed,
            form: Some(form),
            name: &constant.name,
            value: &constant.value,
        })?;
    }
    Ok(())
}

/// Appends the parameters that an item declares (IEEE 1364-2005, clause 4.10).
fn push_parameters<'s>(item: &'s Item, list: &mut Vec<Parameter<'s>>) -> Result<(), AllocError>
    ensures { OnOk result (map read_parameter list.new.items
        ≡ map read_parameter list.old.items ++ parameters_in item.entry.now) }
{
    match item {
        Item::Parameter(form, constants) => push_constants(false, form, constants, list),
        Item::Localparam(form, constants) => push_constants(true, form, constants, list),
        _ => Ok(()),
    }
}

/// Appends the parameters that pieces declare, in the order of the text.
fn push_among<'s>(
    pieces: &[ScopePiece<'s>],
    list: &mut Vec<Parameter<'s>>,
) -> Result<(), AllocError>
    ensures { OnOk result (map read_parameter list.new.items
        ≡ map read_parameter list.old.items ++ parameters_among (map read_piece pieces.now)) }
{
    for piece in pieces {
        let ScopePiece::Plain(item) = *piece else {
            continue;
        };
        push_parameters(item, list)?;
    }
    Ok(())
}

/// The parameters of a module of these pieces in the order of the text, those of its header first.
pub fn module_parameters<'s>(
    alloc: Global,
    module: &'s Module,
    pieces: &[ScopePiece<'s>],
) -> Result<Vec<Parameter<'s>>, AllocError>
    ensures { IfOk result (λ v. map read_parameter v.items
        ≡ header_parameters None «module».entry.now.parameters.items ++ parameters_among (map read_piece pieces.now)) }
{
    let mut list = header_parameters(alloc, &module.parameters)?;
    push_among(pieces, &mut list)?;
    Ok(list)
}

/// The parameters of a generate block or a named block of these pieces (IEEE 1364-2005, clause 4.10.2).
pub fn block_parameters<'s>(
    alloc: Global,
    pieces: &[ScopePiece<'s>],
) -> Result<Vec<Parameter<'s>>, AllocError>
    ensures { IfOk result (λ v. map read_parameter v.items ≡ parameters_among (map read_piece pieces.now)) }
{
    let mut list = Vec::new(alloc);
    push_among(pieces, &mut list)?;
    Ok(list)
}

/// The names of parameters that may be overridden, in the order of the text.
fn overridable_names<'s>(
    alloc: Global,
    parameters: &[Parameter<'s>],
) -> Result<Vec<&'s [u8]>, AllocError>
    ensures { IfOk result (λ v. borrowed v.items ≡ overridable (map read_parameter parameters.now)) }
{
    let mut names = Vec::new(alloc);
    for parameter in parameters {
        if parameter.fixed {
            continue;
        }
        names.push(parameter.name)?;
    }
    Ok(names)
}

/// The expressions that override parameters, in the order of those; nothing where they don't fit them (IEEE 1364-2005, clause 12.2.2).
fn overrides_of<'s>(
    alloc: Global,
    parameters: &[Parameter<'s>],
    overrides: Option<&'s Connections>,
) -> Result<Option<Vec<Option<&'s Expr>>>, AllocError>
    ensures { IfOk result (AreOverrides (read_end overrides.entry) (map read_parameter parameters.now)) }
{
    let Some(overrides) = overrides else {
        return Ok(Some(Vec::new(alloc)));
    };
    let names = overridable_names(alloc, parameters)?;
    ends(alloc, overrides, &names)
}

/// What stands at a place among what overrides parameters; the last ones may have none.
fn end_at<'s>(ends: &[Option<&'s Expr>], place: usize) -> Option<&'s Expr>
    ensures { read_end result ≡ first_end (drop place (read_ends ends.now)) }
{
    if place < ends.len() {
        ends[place]
    } else {
        None
    }
}

/// Parameters with what overrides them, one for each that may be overridden.
fn given_parameters<'s>(
    alloc: Global,
    parameters: &[Parameter<'s>],
    ends: &[Option<&'s Expr>],
) -> Result<Vec<Given<'s>>, AllocError>
    ensures { IfOk result (λ v. map read_given v.items
        ≡ given_from (map read_parameter parameters.now) (read_ends ends.now)) }
{
    let mut list = Vec::new(alloc);
    let mut place = 0;
    for parameter in parameters {
        if parameter.fixed {
            list.push(Given {
                parameter: *parameter,
                over: None,
            })?;
            continue;
        }
        list.push(Given {
            parameter: *parameter,
            over: end_at(ends, place),
        })?;
        place += 1;
    }
    Ok(list)
}

/// Parameters with what overrides them; nothing where that doesn't fit them (IEEE 1364-2005, clause 12.2.2).
pub fn given_to<'s>(
    alloc: Global,
    parameters: &[Parameter<'s>],
    overrides: Option<&'s Connections>,
) -> Result<Option<Vec<Given<'s>>>, AllocError>
    ensures { IfOk result (AreGiven (read_end overrides.entry) (map read_parameter parameters.now)) }
{
    match overrides_of(alloc, parameters, overrides)? {
        Some(ends) => Ok(Some(given_parameters(alloc, parameters, &ends)?)),
        None => Ok(None),
    }
}

/// The parameters of a block, which nothing overrides (IEEE 1364-2005, clause 4.10.2).
pub fn given_alone<'s>(
    alloc: Global,
    parameters: &[Parameter<'s>],
) -> Result<Vec<Given<'s>>, AllocError>
    ensures { IfOk result (λ v. map read_given v.items ≡ given_from (map read_parameter parameters.now) []) }
{
    given_parameters(alloc, parameters, &[])
}
