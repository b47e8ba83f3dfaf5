//! The place of what has no better one: the scope in which it is.

use std::alloc::{AllocError, Global};
use vs_explain_outline::{Page, SourceText, scope_of};

/// Where the first marked region begins.
fn first_place(text: &SourceText, marked: &[bool]) -> Option<usize> {
    for (region, mark) in text.outline.regions.iter().zip(marked) {
        if *mark {
            return Some(text.place_at(region.first));
        }
    }
    None
}

/// Where the innermost scope of a path begins that the text has; of none the first module.
fn scope_place(alloc: Global, text: &SourceText, path: &[u8]) -> Result<Option<usize>, AllocError> {
    let mut scope = path;
    for _ in 0..path.len() {
        let marked = text.regions_at(alloc, scope)?;
        let place = first_place(text, &marked);
        if place.is_some() {
            return Ok(place);
        }
        scope = scope_of(scope);
    }
    Ok(
        text.outline
            .regions
            .first()
            .map(|region| text.place_at(region.first)),
    )
}

/// Puts where the scope of a path begins, where the page has no line and column yet; of a text without modules, where it ends.
pub(crate) fn put_scope(page: &mut Page, text: &SourceText, path: &[u8]) {
    if page.has_place() {
        return;
    }
    match scope_place(page.alloc(), text, path) {
        Ok(Some(place)) => {
            page.put("The scope begins at ");
            page.put_place(place);
        }
        Ok(None) => {
            page.put("The source ends at ");
            page.put_place(text.bytes.len());
        }
        Err(_) => page.leave_out(),
    }
}
