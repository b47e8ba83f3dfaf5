//! Values in decimal.
ghost use Rattle.std.specs.Prelude.{◌≡◌, ◌<◌, ◌≤◌, ◌-◌, ◌^◌, ◌++◌, Some, None, IfSome, unsigned_abs, length, if◌then◌else◌, replicate, OnOk};
ghost use Rattle.vs_design.specs.vs_logic4.specs.Comparisons.{is_known};
ghost use Rattle.vs_design.specs.vs_logic4.specs.Arithmetic.{integer};
ghost use Rattle.vs_strobe.specs.Values.{decimal_places, room, justified, number_text};

use crate::digits::unknown_letter;
use itoa::Buffer;
use std::alloc::AllocError;
use vs_design::vs_logic4::Vec4;

/// The number of a value, where all digits are known.
fn integer(signed: bool, value: Vec4) -> Option<i128>
    ensures is { result ≡ (if is_known value then Some (integer signed value) else None) }
    ensures most { IfSome result (λ n. unsigned_abs n ≤ 2 ^ 64) }
{
    if signed {
        Some(value.to_signed()? as i128)
    } else {
        Some(value.to_number()? as i128)
    }
}

/// The greatest number of a size.
fn greatest(width: u32) -> u64
    requires some { 0 < width }
    requires most { width ≤ 64 }
    ensures { result ≡ 2 ^ width - 1 }
{
    u64::MAX >> (64 - width)
}

/// How many places the greatest number of a size has, with one for the sign of a signed one.
pub(crate) fn decimal_places(signed: bool, width: u32) -> usize
    requires some { 0 < width }
    requires most { width ≤ 64 }
    ensures { result ≡ decimal_places signed width }
{
    let mut buffer = Buffer::new();
    if signed {
        buffer.format(1u64 << (width - 1)).len() + 1
    } else {
        buffer.format(greatest(width)).len()
    }
}

/// The places that a directive asks for: none behind a `%0`.
pub(crate) fn room(bare: bool, places: usize) -> usize
    ensures { result ≡ room bare places }
{
    if bare { 0 } else { places }
}

/// Appends so many spaces.
fn push_spaces(text: &mut Vec<u8>, count: usize) -> Result<(), AllocError>
    ensures { OnOk result (text.new.items ≡ text.old.items ++ replicate count 32) }
{
    for _ in 0..count {
        text.push(b' ')?;
    }
    Ok(())
}

/// Appends a text, right-justified in so many places.
fn push_justified(text: &mut Vec<u8>, places: usize, piece: &[u8]) -> Result<(), AllocError>
    ensures { OnOk result (text.new.items ≡ text.old.items ++ justified places piece.now) }
{
    push_spaces(text, places.saturating_sub(piece.len()))?;
    text.extend_from_slice(piece)?;
    Ok(())
}

/// Appends the number of a value times a factor, in decimal, right-justified in so many places.
pub(crate) fn push_number(
    text: &mut Vec<u8>,
    places: usize,
    factor: u64,
    signed: bool,
    value: Vec4,
) -> Result<(), AllocError>
    requires { factor ≤ 10 ^ 17 }
    ensures { OnOk result (text.new.items ≡ text.old.items ++ justified places (number_text factor signed value)) }
{
    let mut buffer = Buffer::new();
    match integer(signed, value) {
        Some(number) => {
            push_justified(
                text,
                places,
                buffer.format(number * factor as i128).as_bytes(),
            )
        }
        None => push_justified(text, places, &[unknown_letter(value)]),
    }
}
