//! Beginnings of identifier codes.
ghost use Rattle.std.specs.Prelude.{◌≡◌, IsTrue, ◌↔◌};
ghost use Rattle.vs_vcd_lines.specs.vs_vcd_writing.specs.Codes.{code};
ghost use Rattle.vs_vcd_lines.specs.Beginnings.{Begins};

/// Whether a text begins the identifier code of this number.
pub(crate) fn begins_code(part: &[u8], number: usize) -> bool
    ensures { IsTrue result ↔ Begins part.now (code number) }
{
    let [first, rest @ ..] = part else {
        return true;
    };
    let character = *first as usize;
    if number < 94 {
        return character == 33 + number && rest.is_empty();
    }
    character == 33 + number % 94 && begins_code(rest, number / 94 - 1)
}

/// Whether a text is the identifier code of this number.
pub(crate) fn is_code(text: &[u8], number: usize) -> bool
    ensures { IsTrue result ↔ (text.now ≡ code number) }
{
    let [first, rest @ ..] = text else {
        return false;
    };
    let character = *first as usize;
    if number < 94 {
        return character == 33 + number && rest.is_empty();
    }
    character == 33 + number % 94 && is_code(rest, number / 94 - 1)
}
