//! Names of a scope, each bound once.
ghost use Rattle.std.specs.Prelude.{◌<◌, ◌∷◌, [], length, IfOk};
ghost use Rattle.vs_elab_signals.specs.vs_widths.specs.Names.{by_bytes, Declares};
ghost use Rattle.vs_scopes.specs.Declarations.{bound_to};
ghost use Rattle.vs_scopes.specs.Scopes.{constant_names};
ghost use Rattle.vs_scopes.specs.scopes_passes.Answers.{borrowed, Grows};
ghost use Rattle.vs_scopes.specs.scopes_passes.Names.{read_path};
ghost use Rattle.vs_elab_signals.specs.signal_passes.Naming.{BoundAfter, BoundNot};

use crate::telling::member_fault;
use crate::vs_widths::Names;
use std::alloc::{AllocError, Global};
use vs_scopes::vs_widths::{Binding, Const};
use vs_scopes::{ElabFault, PathName, Reason};

/// Declares a name, unless it is declared already.
pub fn declare_once<'s>(
    names: &mut Names<'s, Binding>,
    name: &'s [u8],
    binding: Binding,
) -> Result<bool, AllocError>
    ensures { IfOk result (λ fresh. Declares fresh names.old names.new name.entry.now binding) }
{
    match names.declare(name, binding) {
        Ok(fresh) => Ok(fresh),
        Err(_) => Err(AllocError),
    }
}

/// Binds a name of the scope of a path.
fn bind<'s>(
    alloc: Global,
    path: &[PathName],
    name: &'s [u8],
    binding: Binding,
    names: &mut Names<'s, Binding>,
) -> Result<(), ElabFault>
    requires { 0 < length path.now }
    ensures { Grows (BoundAfter names.old) (BoundAfter names.new) (BoundNot (read_path path.now))
        ((name.entry.now, binding) ∷ []) result }
{
    if declare_once(names, name, binding)? {
        Ok(())
    } else {
        Err(member_fault(alloc, path, name, Reason::DeclaredTwice))
    }
}

/// Binds the parameters of a scope to their values (IEEE 1364-2005, clause 12.2), and the genvar of a turn to its own.
pub fn bind_constants<'s>(
    alloc: Global,
    path: &[PathName],
    constants: &[(&'s [u8], Const)],
    names: &mut Names<'s, Binding>,
) -> Result<(), ElabFault>
    requires { 0 < length path.now }
    ensures { Grows (BoundAfter names.old) (BoundAfter names.new) (BoundNot (read_path path.now))
        (constant_names (by_bytes constants.now)) result }
{
    for constant in constants {
        bind(
            alloc,
            path,
            constant.0,
            Binding::Constant(constant.1),
            names,
        )?;
    }
    Ok(())
}

/// Binds names alike.
pub fn bind_all<'s>(
    alloc: Global,
    path: &[PathName],
    list: &[&'s [u8]],
    binding: Binding,
    names: &mut Names<'s, Binding>,
) -> Result<(), ElabFault>
    requires { 0 < length path.now }
    ensures { Grows (BoundAfter names.old) (BoundAfter names.new) (BoundNot (read_path path.now))
        (bound_to binding (borrowed list.now)) result }
{
    for name in list {
        let one = binding;
        bind(alloc, path, *name, one, names)?;
    }
    Ok(())
}
