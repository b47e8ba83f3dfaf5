//! Lines.
ghost use Rattle.std.specs.Prelude.{◌≡◌, ◌<◌, ◌≤◌, ◌^◌, ◌++◌, OnOk, IfOk, [], ◌∷◌};
ghost use Rattle.vs_strobe.specs.Values.{shown_text};
ghost use Rattle.vs_strobe.specs.Lines.{line_text, full_line, is_signed, arg_value};

use crate::argument::{arg_value, is_signed};
use crate::decimals::{decimal_places, push_number, room};
use crate::digits::{push_base, push_bytes, push_character};
use crate::format::Format;
use crate::piece::{FormatPiece, Show};
use std::alloc::{AllocError, Global};
use vs_design::vs_logic4::Vec4;
use vs_design::{FormatArg, Store};

/// Appends what a directive shows of a value.
fn push_shown(
    text: &mut Vec<u8>,
    show: Show,
    bare: bool,
    ratio: u64,
    signed: bool,
    value: Vec4,
) -> Result<(), AllocError>
    requires { ratio ≤ 10 ^ 17 }
    ensures { OnOk result (text.new.items ≡ text.old.items ++ shown_text show bare ratio signed value) }
{
    match show {
        Show::Binary => push_base(text, bare, 1, value),
        Show::Octal => push_base(text, bare, 3, value),
        Show::Hex => push_base(text, bare, 4, value),
        Show::Decimal => {
            let places = room(bare, decimal_places(signed, value.width()));
            push_number(text, places, 1, signed, value)
        }
        Show::Time => push_number(text, room(bare, 20), ratio, signed, value),
        Show::Character => push_character(text, value),
        Show::Text => push_bytes(text, value),
    }
}

/// Appends what a directive shows of an argument.
fn push_arg(
    text: &mut Vec<u8>,
    show: Show,
    bare: bool,
    ratio: u64,
    arg: &FormatArg,
    store: &Store,
    time: u64,
) -> Result<(), AllocError>
    requires some { 0 < ratio }
    requires most { ratio ≤ 10 ^ 17 }
    ensures { OnOk result (text.new.items ≡ text.old.items
        ++ shown_text show bare ratio (is_signed arg.now) (arg_value ratio arg.now store.now time)) }
{
    let value = arg_value(ratio, arg, store, time);
    push_shown(text, show, bare, ratio, is_signed(arg), value)
}

/// The line of a format in a store at a time in ticks (IEEE 1364-2005, clause 17.1), without the line feed that ends it: whoever writes the
/// line adds that.
pub fn line(
    alloc: Global,
    format: &Format<'_>,
    store: &Store,
    time: u64,
) -> Result<Vec<u8>, AllocError>
    ensures { IfOk result (λ text. text.items ≡ line_text format.now store.now time) }
{
    let mut text = Vec::new(alloc);
    let mut next = 0;
    for piece in &format.pieces {
        match *piece {
            FormatPiece::Byte(byte) => text.push(byte)?,
            FormatPiece::Path => text.extend_from_slice(format.path)?,
            FormatPiece::Shown(show, bare) => {
                if let Some(arg) = format.args.get(next) {
                    push_arg(&mut text, show, bare, format.ratio, arg, store, time)?;
                    next += 1;
                }
            }
        }
    }
    Ok(text)
}

/// The same with the line feed that ends it.
pub fn full_line(
    alloc: Global,
    format: &Format<'_>,
    store: &Store,
    time: u64,
) -> Result<Vec<u8>, AllocError>
    ensures { IfOk result (λ text. text.items ≡ full_line format.now store.now time) }
{
    let mut text = line(alloc, format, store, time)?;
    text.push(b'\n')?;
    Ok(text)
}
