//! Where the parts of a design stand in the text.

use crate::{Page, SourceText, last_name, ordinal_of, scope_of};
use std::alloc::{AllocError, Global};

/// The token of a signal, a process or an assignment of a design.
fn token_of(alloc: Global, text: &SourceText, name: &[u8]) -> Result<Option<usize>, AllocError> {
    match ordinal_of(name) {
        Some((path, b'i', _)) => {
            let marked = text.regions_at(alloc, scope_of(path))?;
            let instance = text.instance_in(&marked, last_name(path));
            Ok(instance.map(|instance| instance.token))
        }
        Some(_) => text.numbered(alloc, name),
        None => {
            let marked = text.regions_at(alloc, scope_of(name))?;
            let declared = text.declaration_in(&marked, last_name(name));
            Ok(declared.map(|declared| declared.token))
        }
    }
}

/// What was found; nothing where there was no room for it, which the page remembers.
pub fn found<T: Drop>(page: &mut Page, searched: Result<T, AllocError>) -> Option<T> {
    match searched {
        Ok(value) => Some(value),
        Err(_) => {
            page.leave_out();
            None
        }
    }
}

/// The place of a name in the text, where it has one.
pub fn place_of(page: &mut Page, text: &SourceText, name: &[u8]) -> Option<usize> {
    let token = token_of(page.alloc(), text, name);
    match found(page, token) {
        Some(Some(token)) => Some(text.place_at(token)),
        _ => None,
    }
}

/// Puts a name, and its line and column where the text has it.
pub fn put_named(page: &mut Page, text: &SourceText, name: &[u8]) {
    page.put_name(name);
    if let Some(place) = place_of(page, text, name) {
        page.put(" (");
        page.put_spot(place);
        page.put(")");
    }
}

/// Puts the line of the text with a mark under the place of a name. Whether the text has it.
pub fn put_marked(page: &mut Page, text: &SourceText, name: &[u8]) -> bool {
    let place = place_of(page, text, name);
    if let Some(place) = place {
        page.put_name(name);
        page.put(" at ");
        page.put_place(place);
    }
    place.is_some()
}
