//! The values of changes.
ghost use Rattle.std.specs.Prelude.{◌≡◌, ℕ, ◌-◌, ◌<◌, ◌≤◌, Some, List, length, slice_get, reverse, false, MatchOption};
ghost use Rattle.vs_design.specs.vs_logic4.specs.declared.digit.Digit.{Digit};
ghost use Rattle.vs_design.specs.vs_logic4.specs.Vectors.{extension_digit};
ghost use Rattle.vs_vcd_writing.specs.Shown.{extended, left_digit};
ghost use Rattle.vs_vcd_writing.specs.Values.{digit_character, is_extension, shortened};
ghost use Rattle.vs_vcd_lines.specs.Lines.{IsValue};
ghost use Rattle.vs_vcd_lines.specs.Parts.{IsSpelled};

use vs_design::vs_logic4::{Digit, Vec4};

/// The digit that a character stands for.
pub fn digit_of(byte: u8) -> Option<Digit>
    ensures { MatchOption result ((d : Digit) → byte ≡ digit_character d → ⊥) (λ d. byte ≡ digit_character d) }
{
    match byte {
        b'0' => Some(Digit::Zero),
        b'1' => Some(Digit::One),
        b'x' => Some(Digit::X),
        b'z' => Some(Digit::Z),
        _ => None,
    }
}

/// The vector of the digits that characters stand for, the highest first.
fn digits_of(text: &[u8]) -> Option<Vec4>
    requires { length text.now ≤ 64 }
    ensures { MatchOption result ((ds : List Digit) → IsSpelled text.now ds → ⊥)
        (λ v. (length v ≡ length text.now) × IsSpelled text.now (reverse v)) }
{
    let [first, rest @ ..] = text else {
        return None;
    };
    let Some(digit) = digit_of(*first) else {
        return None;
    };
    let high = Vec4::from_digit(digit);
    if text.len() == 1 {
        return Some(high);
    }
    match digits_of(rest) {
        Some(low) => Some(high.concat(low)),
        None => None,
    }
}

/// Whether extending gives the first digit back where it stands before the second.
fn is_extension(high: Digit, low: Digit) -> bool
    ensures { result ≡ is_extension high low }
{
    match high {
        Digit::Zero => matches!(low, Digit::Zero | Digit::One),
        Digit::One => false,
        Digit::X => matches!(low, Digit::X),
        Digit::Z => matches!(low, Digit::Z),
    }
}

/// Whether extending gives the highest digit back where it is left out.
fn gives_first_back(value: Vec4) -> bool
    ensures kept { result ≡ false → shortened (reverse value) ≡ reverse value }
    ensures given { shortened (reverse value) ≡ reverse value → result ≡ false }
{
    let width = value.width();
    if width == 1 {
        return false;
    }
    let high = value.digit(width - 1);
    let low = value.digit(width - 2);
    is_extension(high, low)
}

/// Whether a digit extends by itself: x and z do, 0 and 1 by 0.
#[tactic(auto, using(crate::proofs::ValueLemmas::top_itself))]
fn extends_by_itself(top: Digit) -> bool
    ensures { (ds : List Digit) → slice_get ds (length ds - 1) ≡ Some top → extension_digit result ds ≡ left_digit top }
{
    matches!(top, Digit::X | Digit::Z)
}

/// A value extended on the left to a size.
fn extend(value: Vec4, width: u32) -> Vec4
    requires least { length value ≤ width }
    requires most { width ≤ 64 }
    ensures wide { length result ≡ width }
    ensures digits { reverse result ≡ extended width (reverse value) }
{
    let last = value.width() - 1;
    let top = value.digit(last);
    let by_itself = extends_by_itself(top);
    value.resize(width, by_itself)
}

/// The value of a size that a text writes without the left digits that extending gives back.
pub fn value_of(width: u32, text: &[u8]) -> Option<Vec4>
    requires some { 0 < width }
    requires most { width ≤ 64 }
    ensures { MatchOption result ((v : List Digit) → IsValue text.now width v → ⊥) (λ v. IsValue text.now width v) }
{
    let most = width as usize;
    if text.len() > most {
        return None;
    }
    let Some(value) = digits_of(text) else {
        return None;
    };
    let longer = gives_first_back(value);
    if longer {
        return None;
    }
    Some(extend(value, width))
}
