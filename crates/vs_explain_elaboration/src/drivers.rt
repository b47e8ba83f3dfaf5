//! Nets with two drivers.

use crate::names::{put_instance, put_region, regions_of};
use std::alloc::{AllocError, Global};
use vs_explain_outline::{
    Landmark, LandmarkKind, Page, SourceText, UseRole, is_marked, last_name, scope_of,
};

/// How many drivers are told.
const REPORT_LIMIT: usize = 4;

/// Whether a landmark may drive a net of this name in a module.
fn may_drive(text: &SourceText, landmark: &Landmark, modules: &[bool], name: &[u8]) -> bool {
    let drives = match landmark.kind {
        LandmarkKind::Used(UseRole::Driven) | LandmarkKind::Used(UseRole::Connected) => true,
        LandmarkKind::Assign => text.name_at(landmark.token) == name,
        _ => false,
    };
    drives
        && text.name_at(landmark.token) == name
        && is_marked(modules, text.module_of(landmark.region))
}

/// The tokens at which a net of this name may be driven in the modules of marked regions, each once.
fn driven_at(
    alloc: Global,
    text: &SourceText,
    marked: &[bool],
    name: &[u8],
) -> Result<Vec<usize>, AllocError> {
    let mut modules = Vec::new(alloc);
    for _ in 0..text.outline.regions.len() {
        modules.push(false)?;
    }
    for (region, mark) in marked.iter().enumerate() {
        if *mark {
            if let Some(module) = modules.get_mut(text.module_of(region)) {
                *module = true;
            }
        }
    }
    let mut tokens: Vec<usize> = Vec::new(alloc);
    for landmark in &text.outline.landmarks {
        let is_new = tokens.last() != Some(&landmark.token);
        if is_new && may_drive(text, landmark, &modules, name) {
            tokens.push(landmark.token)?;
        }
    }
    Ok(tokens)
}

/// A bit of a net is driven twice.
pub(crate) fn driven_twice(page: &mut Page, text: &SourceText, path: &[u8]) {
    let name = last_name(path);
    let marked = regions_of(page, text, scope_of(path));
    let Ok(tokens) = driven_at(page.alloc(), text, &marked, name) else {
        return page.leave_out();
    };
    for (index, token) in tokens.iter().enumerate() {
        if index < REPORT_LIMIT {
            page.put_place(text.place_at(*token));
        }
    }
    let through_port = tokens.len() < 2 && put_instance(page, text, scope_of(path));
    if tokens.is_empty() && !through_port && !put_region(page, text, scope_of(path)) {
        return;
    }
    page.put("A bit of the net ");
    page.put_name(name);
    page.put(match (tokens.len() > 1, through_port) {
        (true, _) => " has two drivers among these places, or one of these writes it twice.",
        (false, true) => " is driven inside the instance, and through the connection of its port.",
        (false, false) => " has two drivers.",
    });
    page.put(" Give each bit one driver: join them by an operator or by `? :`.\n");
}
