//! Strings where none is read.

use crate::refused::Refused;
use vs_explain_outline::Page;
use vs_syntax::vs_lexer::Kind;

/// The most bytes of a string whose number has 64 bits.
const LENGTH_LIMIT: usize = 8;

/// The hexadecimal digit of a number below 16.
fn digit(number: u8) -> u8 {
    let letter = b"0123456789abcdef".get(usize::from(number)).copied();
    letter.unwrap_or(b'0')
}

/// Puts the number that a string is as a value.
fn put_number(page: &mut Page, bytes: &[u8]) {
    page.put_shown(bytes.len().saturating_mul(8));
    page.put("'h");
    for byte in bytes {
        page.put_bytes(&[digit(*byte / 16), digit(*byte % 16)]);
    }
}

/// Says what to write in place of a string that stands as a value.
fn put_value(page: &mut Page, bytes: &[u8]) {
    page.put("A string is read as the first argument of `$display` and `$strobe` alone");
    if bytes.is_empty() || bytes.len() > LENGTH_LIMIT {
        page.put(". A value has at most 64 bits, which are 8 letters.\n");
        return;
    }
    page.put(": as a value write `");
    put_number(page, bytes);
    page.put("`.\n");
}

/// Says what a refused string is. Whether a string is refused.
pub(crate) fn put_string(page: &mut Page, refused: &Refused) -> bool {
    if refused.kind(refused.at) != Some(Kind::Text) {
        return false;
    }
    let task = refused.system_task();
    if task == b"$display".as_slice() || task == b"$strobe".as_slice() {
        page.put("A call has one string, its first argument: write both as one.\n");
        return true;
    }
    match refused.string(page.alloc()) {
        Ok(bytes) => put_value(page, &bytes),
        Err(_) => page.leave_out(),
    }
    true
}
