//! Places of a target: names with their selects.
ghost use Rattle.std.specs.Prelude.{◌≡◌, ◌∷◌, true, [], Some, IfOk};
ghost use Rattle.std.specs.List.{All};
ghost use Rattle.vs_design.specs.WellFormed.{aim_width};
ghost use Rattle.vs_widths.specs.Selects.{Named};
ghost use Rattle.vs_widths.specs.select_passes.Places.{selects_meaning, IsFlexibleSelect, IsPlaced};
ghost use Rattle.vs_widths.specs.Names.{meaning_of};
ghost use Rattle.vs_widths.specs.Lefts.{takes_bound, name_aimed};
ghost use Rattle.vs_widths.specs.passes.Aims.{takes_aim, IsAim, AimsAt, AreWithin, Aims};

use crate::kinds::{AssignmentKind, takes_kind};
use crate::levels::Levels;
use crate::{
    Binding, ChosenBits, Measured, WidthFault, WidthReason, fitted, fixed, named, selection,
};
use std::alloc::{AllocError, Global};
use vs_design::{Aim, Target};
use vs_syntax::PartSelect;

/// What a name with its selects names, as a place of a target.
fn aim(alloc: Global, chosen_bits: &ChosenBits) -> Result<Aim, AllocError>
    ensures { IfOk result (λ a. (n : Named) → IsPlaced n chosen_bits.now → IsAim n a) }
{
    match fixed(alloc, chosen_bits)? {
        Some(slice) => Ok(Aim::Fixed(slice)),
        None => {
            let index = &chosen_bits.extent.index;
            let word = fitted(alloc, &chosen_bits.word.form, chosen_bits.word.shape)?;
            let low = fitted(alloc, &index.form, index.shape)?;
            Ok(Aim::Chosen(selection(chosen_bits), word, low))
        }
    }
}

/// Whether the target of an assignment of a kind may have such a chosen_bits: that of a continuous one has constant indices alone
/// (IEEE 1364-2005, clause 6.1).
fn takes_aim(how: AssignmentKind, aim: &Aim) -> bool
    ensures { result ≡ takes_aim how aim.now }
{
    match aim {
        Aim::Fixed(_) => true,
        Aim::Chosen(_, _, _) => how == AssignmentKind::Procedural,
    }
}

/// Whether an assignment of a kind may assign to what a name is bound to: to a signal of the right kind alone
/// (IEEE 1364-2005, clauses 6.1 and 9.2).
fn takes_bound(how: AssignmentKind, binding: Binding) -> bool
    ensures { result ≡ takes_bound how (Some binding) }
{
    match binding {
        Binding::Signal(meaning, _) => takes_kind(how, meaning.kind),
        Binding::Constant(_) => false,
        Binding::Pending => false,
        Binding::Other => false,
        Binding::Genvar => false,
    }
}

/// What is bound to a name, with selects behind the name, as a place of a target, where an assignment of the kind takes it.
fn bound_aim(
    alloc: Global,
    how: AssignmentKind,
    binding: Binding,
    selects: Vec<(Measured, Option<(PartSelect, Measured)>)>,
) -> Result<Aim, WidthFault>
    requires taken { takes_bound how (Some binding) ≡ true }
    requires flexible { All IsFlexibleSelect selects.items }
    ensures { AimsAt how binding (selects_meaning selects.items) result }
{
    let place = named(alloc, Some(binding), selects)?;
    let aim = aim(alloc, &place)?;
    if !takes_aim(how, &aim) {
        return Err(WidthFault::Refused(WidthReason::NotConstant));
    }
    Ok(aim)
}

/// How many bits a place has.
fn aim_width(aim: &Aim) -> u32
    ensures { result ≡ aim_width aim.now }
{
    match aim {
        Aim::Fixed(slice) => slice.width,
        Aim::Chosen(selection, _, _) => selection.width,
    }
}

/// The target of one place.
fn alone(alloc: Global, aim: Aim) -> Result<Target, AllocError>
    ensures parts { IfOk result (λ t. t.parts.items ≡ aim ∷ []) }
    ensures width { IfOk result (λ t. t.width ≡ aim_width aim) }
{
    let width = aim_width(&aim);
    let parts = vec![in alloc; aim]?;
    Ok(Target { parts, width })
}

/// A name with selects as a target.
pub fn named_target(
    alloc: Global,
    names: &Levels,
    how: AssignmentKind,
    name: &[u8],
    selects: Vec<(Measured, Option<(PartSelect, Measured)>)>,
) -> Result<Target, WidthFault>
    requires flexible { All IsFlexibleSelect selects.items }
    requires within { AreWithin (meaning_of names.now) (selects_meaning selects.items) }
    ensures { Aims how (meaning_of names.now) (name_aimed how (meaning_of names.now name.now) (selects_meaning selects.items)) result }
{
    match names.find(name) {
        Some(binding) => {
            if !takes_bound(how, binding) {
                return Err(WidthFault::Refused(WidthReason::WrongKind));
            }
            let aim = bound_aim(alloc, how, binding, selects)?;
            Ok(alone(alloc, aim)?)
        }
        None => Err(WidthFault::Refused(WidthReason::Unknown)),
    }
}
