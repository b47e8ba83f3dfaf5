//! Places that no store changes.
ghost use Rattle.std.specs.Prelude.{◌≡◌, IfOk};
ghost use Rattle.vs_widths.specs.Selects.{Named, Span, operand_meant, excerpt_meant};
ghost use Rattle.vs_widths.specs.select_passes.Measures.{IsMeasured, IsOwnPart};
ghost use Rattle.vs_widths.specs.select_passes.Places.{Fixes, IsExtent, IsPlaced, IsChosen, IsExcerpt, HasConstantValue};

use crate::constants::{reads_nothing, value_alone};
use crate::fitting::fitted;
use crate::forms::{Measured, Sizable};
use crate::places::{ChosenBits, Extent};
use std::alloc::{AllocError, Global};
use vs_design::vs_logic4::Vec4;
use vs_design::{Excerpt, Selection, Slice};
use vs_eval::{place_of, reads_hold, word_place};

/// The value of an index, where it reads nothing.
fn alone(alloc: Global, x: &Measured) -> Result<Option<Vec4>, AllocError>
    ensures { IfOk result (λ v. HasConstantValue x.now v) }
{
    let y = fitted(alloc, &x.form, x.shape)?;
    let is_constant = reads_nothing(alloc, &y)?;
    if is_constant {
        reads_hold();
        Ok(Some(value_alone(alloc, &y)))
    } else {
        Ok(None)
    }
}

/// The bits of a place whose indices read nothing.
pub fn fixed(alloc: Global, chosen_bits: &ChosenBits) -> Result<Option<Slice>, AllocError>
    ensures { IfOk result (λ s. Fixes chosen_bits.now s) }
{
    let extent = &chosen_bits.extent;
    let Some(word) = alone(alloc, &chosen_bits.word)? else {
        return Ok(None);
    };
    let Some(low) = alone(alloc, &extent.index)? else {
        return Ok(None);
    };
    let width = extent.shape.width;
    Ok(Some(Slice {
        signal: chosen_bits.signal,
        word: word_place(chosen_bits.words, word),
        low: place_of(extent.axis, width, low) as i32,
        width,
    }))
}

/// The bits of a chosen_bits whose indices aren't constant.
pub fn selection(chosen_bits: &ChosenBits) -> Selection
    ensures signal { result.signal ≡ chosen_bits.now.signal }
    ensures words { result.words ≡ chosen_bits.now.words }
    ensures bits { result.bits ≡ chosen_bits.now.extent.axis }
    ensures width { result.width ≡ chosen_bits.now.extent.shape.width }
{
    Selection {
        signal: chosen_bits.signal,
        words: chosen_bits.words,
        bits: chosen_bits.extent.axis,
        width: chosen_bits.extent.shape.width,
    }
}

/// An index at its own size and sign, whatever the context.
fn own(alloc: Global, x: Measured) -> Result<Box<Sizable>, AllocError>
    ensures { IfOk result (λ y. IsOwnPart x y.value) }
{
    let form = Sizable::Own(x.shape, Box::new(alloc, x.form)?);
    Ok(Box::new(alloc, form)?)
}

/// The bits of a place, before they are brought to a context.
fn chosen(alloc: Global, chosen_bits: ChosenBits) -> Result<Sizable, AllocError>
    ensures { IfOk result (λ y. (n : Named) → IsPlaced n chosen_bits → IsChosen n y) }
{
    match fixed(alloc, &chosen_bits)? {
        Some(slice) => Ok(Sizable::Slice(slice)),
        None => {
            let selection = selection(&chosen_bits);
            let word = own(alloc, chosen_bits.word)?;
            let low = own(alloc, chosen_bits.extent.index)?;
            let selection = Box::new(alloc, selection)?;
            Ok(Sizable::Select(selection, word, low))
        }
    }
}

/// The bits of a chosen_bits as an operand.
pub fn operand(alloc: Global, chosen_bits: ChosenBits) -> Result<Measured, AllocError>
    ensures { IfOk result (λ y. (n : Named) → IsPlaced n chosen_bits → IsMeasured (operand_meant n) y) }
{
    let shape = chosen_bits.extent.shape;
    let form = chosen(alloc, chosen_bits)?;
    Ok(Measured {
        shape,
        form: Sizable::Closed(shape, Box::new(alloc, form)?),
    })
}

/// Chosen bits of digits, before they are brought to a context.
fn cut(alloc: Global, digits: Vec4, extent: Extent) -> Result<Sizable, AllocError>
    ensures { IfOk result (λ y. (s : Span) → IsExtent s extent → IsExcerpt digits s extent.shape y) }
{
    let width = extent.shape.width;
    match alone(alloc, &extent.index)? {
        Some(low) => {
            let place = place_of(extent.axis, width, low);
            Ok(Sizable::Number(digits.select(place, width)))
        }
        None => {
            let excerpt = Excerpt {
                digits,
                bits: extent.axis,
                width,
            };
            let low = own(alloc, extent.index)?;
            let excerpt = Box::new(alloc, excerpt)?;
            Ok(Sizable::Excerpt(excerpt, low))
        }
    }
}

/// Chosen bits of digits as an operand.
pub fn excerpt(alloc: Global, digits: Vec4, extent: Extent) -> Result<Measured, AllocError>
    ensures { IfOk result (λ y. (s : Span) → IsExtent s extent → IsMeasured (excerpt_meant digits s) y) }
{
    let shape = extent.shape;
    let form = cut(alloc, digits, extent)?;
    Ok(Measured {
        shape,
        form: Sizable::Closed(shape, Box::new(alloc, form)?),
    })
}
