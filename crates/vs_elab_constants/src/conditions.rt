//! The conditions of generate constructs.
ghost use Rattle.std.specs.Prelude.{◌≡◌};
ghost use Rattle.std.specs.List.{list_any};
ghost use Rattle.vs_design.specs.vs_logic4.specs.declared.digit.Digit.TheVariants as d;
ghost use Rattle.vs_design.specs.vs_logic4.specs.Vectors.{same_digit};
ghost use Rattle.vs_widths.specs.Names.{meaning_of};
ghost use Rattle.vs_scopes.specs.Generate.{holds, condition_fault};
ghost use Rattle.vs_scopes.specs.scopes_passes.Answers.{Elaborates};
ghost use Rattle.vs_scopes.specs.scopes_passes.Sizes.{width_faults};

use std::alloc::Global;
use vs_design::vs_logic4::{Digit, Vec4};
use vs_scopes::BodyFault;
use vs_syntax::Expr;
use vs_widths::{Levels, constant};

/// Whether some digit is 1.
fn has_one(value: Vec4) -> bool
    ensures { result ≡ list_any (same_digit d.One) value }
{
    match value.truth() {
        Digit::One => true,
        Digit::Zero => false,
        Digit::X => false,
        Digit::Z => false,
    }
}

/// Whether the condition of a generate construct holds: some bit of its value is 1 (IEEE 1364-2005, clauses 12.4.1 and 12.4.2).
#[inline(never)]
pub fn holds(alloc: Global, names: &Levels, e: &Expr) -> Result<bool, BodyFault>
    ensures { let env = meaning_of names.now in
        Elaborates (width_faults (condition_fault env e.now)) (λ b. b ≡ holds env e.now) result }
{
    let found = constant(alloc, names, e)?;
    Ok(has_one(found.value))
}
