//! Where a certificate has a name.

use json::{Reader, Scratch, Token};
use std::alloc::{AllocError, Global};
use vs_explain_outline::Page;

/// Whether a member of this name has a word, and no name of the design.
fn has_word(member: &str) -> bool {
    matches!(member.as_bytes(), b"grain" | b"kind" | b"mode" | b"start")
}

/// The place of the first name in a text that is this one.
fn place_in(alloc: Global, text: &str, name: &[u8]) -> Result<Option<usize>, AllocError> {
    let mut scratch = Scratch::new(alloc);
    let mut reader = Reader::new(text, &mut scratch)?;
    let mut is_word = false;
    for _ in 0..text.len() {
        let place = reader.offset();
        match reader.next() {
            Some(Token::Key(member)) => is_word = has_word(member),
            Some(Token::String(other)) => {
                if !is_word && other.as_bytes() == name {
                    return Ok(Some(place));
                }
            }
            Some(_) => {}
            None => break,
        }
    }
    Ok(None)
}

/// The place of a name in a certificate, where that has it.
fn place_of(page: &mut Page, certificate: &[u8], name: &[u8]) -> Option<usize> {
    let text = str::from_utf8(certificate).ok()?;
    match place_in(page.alloc(), text, name) {
        Ok(place) => place,
        Err(_) => {
            page.leave_out();
            None
        }
    }
}

/// Puts the place of a name in a certificate, where that has it, with its line and a mark.
pub fn put_name_in(page: &mut Page, certificate: &[u8], name: &[u8]) {
    if let Some(place) = place_of(page, certificate, name) {
        page.put_name(name);
        page.put(" in the certificate, at ");
        page.put_certificate_place(place);
    }
}

/// Puts a name, and its line and column in a certificate where that has it.
pub fn put_named_in(page: &mut Page, certificate: &[u8], name: &[u8]) {
    page.put_name(name);
    if let Some(place) = place_of(page, certificate, name) {
        page.put(" (");
        page.put_certificate_spot(place);
        page.put(" of the certificate)");
    }
}
