//! Names of modules and names that aren't declared.

use crate::declared::{Visible, implicit_in, may_declare};
use crate::nearest::Nearest;
use vs_explain_outline::{
    Landmark, LandmarkKind, Page, Region, RegionKind, SourceText, first_part, is_marked, last_name,
    scope_of,
};

/// How many names are compared for the nearest one, and how many modules are told.
const COMPARED: usize = 2000;

const REPORT_LIMIT: usize = 8;

/// The regions that a path may mean; none where there is no room for them, which the page remembers.
pub(crate) fn regions_of(page: &mut Page, text: &SourceText, path: &[u8]) -> Vec<bool> {
    let alloc = page.alloc();
    match text.regions_at(alloc, path) {
        Ok(marked) => marked,
        Err(_) => {
            page.leave_out();
            Vec::new(alloc)
        }
    }
}

/// The instance that a path leads to.
pub(crate) fn instance_of(page: &mut Page, text: &SourceText, path: &[u8]) -> Option<Landmark> {
    let marked = regions_of(page, text, scope_of(path));
    text.instance_in(&marked, last_name(path))
}

/// Puts the place of an instance, where its path leads to one. Whether it does.
pub(crate) fn put_instance(page: &mut Page, text: &SourceText, path: &[u8]) -> bool {
    match instance_of(page, text, path) {
        Some(instance) => {
            page.put_place(text.place_at(instance.token));
            true
        }
        None => false,
    }
}

/// Puts the place of the first region that a path may mean. Whether there is one.
pub(crate) fn put_region(page: &mut Page, text: &SourceText, path: &[u8]) -> bool {
    let marked = regions_of(page, text, path);
    for (number, mark) in marked.iter().enumerate() {
        if *mark {
            if let Some(region) = text.region(number) {
                page.put_place(text.place_at(region.first));
                return true;
            }
        }
    }
    false
}

/// Whether a region is a module.
fn is_module(region: &Region) -> bool {
    region.kind == RegionKind::Module
}

/// Puts the modules of a source.
fn put_modules(page: &mut Page, text: &SourceText) {
    let mut count = 0usize;
    page.put("The source has ");
    for region in &text.outline.regions {
        if is_module(region) {
            if count < REPORT_LIMIT {
                page.put(if count == 0 { "the modules " } else { ", " });
                page.put_name(text.region_name(region));
            }
            count = count.saturating_add(1);
        }
    }
    page.put(match count {
        0 => "no module",
        count if count > REPORT_LIMIT => ", and more",
        _ => "",
    });
    page.put(".");
}

/// The module whose name is nearest.
fn nearest_module<'n>(page: &mut Page, text: &SourceText<'n>, name: &'n [u8]) -> Nearest<'n> {
    let mut nearest = Nearest::to(page.alloc(), name);
    let mut count = 0usize;
    for region in &text.outline.regions {
        if is_module(region) {
            if count < COMPARED && nearest.look_at(text.region_name(region)).is_err() {
                page.leave_out();
            }
            count = count.saturating_add(1);
        }
    }
    nearest
}

/// Puts the nearest name, where there is one.
pub(crate) fn put_nearest(page: &mut Page, nearest: &Nearest) {
    if let Some(name) = nearest.found() {
        page.put(" The nearest name is ");
        page.put_name(name);
        page.put(".");
    }
}

/// Puts the place of the module of this name; of none that of the first module, and where there is no module that of the end. The words that say which.
fn put_meant(page: &mut Page, text: &SourceText, name: Option<&[u8]>) -> &'static str {
    let meant = match name {
        Some(name) => text.module_named(name),
        None => None,
    };
    let first = text.region(meant.unwrap_or(0));
    let place = match first {
        Some(region) => text.place_at(region.name.unwrap_or(region.first)),
        None => text.bytes.len(),
    };
    page.put_place(place);
    match (meant.is_some(), first.is_some()) {
        (true, _) => " The mark shows it.",
        (false, true) => " The mark shows the first one.",
        (false, false) => " The mark shows where it ends.",
    }
}

/// There is no module of the top's or of an instance's name.
pub(crate) fn no_module(page: &mut Page, text: &SourceText, path: &[u8]) {
    let instance = if scope_of(path).is_empty() {
        None
    } else {
        instance_of(page, text, path)
    };
    let name = match instance {
        Some(instance) => text.name_at(instance.of),
        None => last_name(path),
    };
    let nearest = nearest_module(page, text, name);
    let shown = match instance {
        Some(instance) => {
            page.put_place(text.place_at(instance.of));
            ""
        }
        None => put_meant(page, text, nearest.found()),
    };
    page.put("There is no module ");
    page.put_name(name);
    page.put(". ");
    put_modules(page, text);
    put_nearest(page, &nearest);
    page.put(shown);
    page.put("\n");
}

/// A module is instantiated inside itself.
pub(crate) fn inside_itself(page: &mut Page, text: &SourceText, path: &[u8]) {
    let Some(instance) = instance_of(page, text, path) else {
        return;
    };
    page.put_place(text.place_at(instance.token));
    let name = text.name_at(instance.of);
    page.put("This is an instance of ");
    page.put_name(name);
    page.put(" inside an instance of the same module");
    if let Some(region) = text
        .module_named(name)
        .and_then(|number| text.region(number))
    {
        page.put(", which begins at ");
        page.put_spot(text.place_at(region.first));
    }
    page.put(", so there would be no end of them.\n");
}

/// The first use in a region of a name that can't be seen there.
fn unseen_use(text: &SourceText, region: usize, visible: &Visible) -> Option<usize> {
    let implicit = implicit_in(text, region);
    for landmark in &text.outline.landmarks {
        let used = matches!(landmark.kind, LandmarkKind::Used(_));
        let declares = implicit && may_declare(landmark.kind);
        if landmark.region == region && used && !declares {
            if !visible.has(text.name_at(landmark.token)) {
                return Some(landmark.token);
            }
        }
    }
    None
}

/// Says that a name isn't declared, and which is the nearest that is.
fn put_unseen(page: &mut Page, text: &SourceText, token: usize, visible: &Visible) {
    let name = text.name_at(token);
    let mut nearest = Nearest::to(page.alloc(), name);
    for (index, (other, _)) in visible.names().iter().enumerate() {
        if index < COMPARED && nearest.look_at(other).is_err() {
            page.leave_out();
        }
    }
    page.put_place(text.place_at(token));
    page.put_name(name);
    page.put(" isn't declared here, nor in a scope around.");
    put_nearest(page, &nearest);
    page.put("\n");
}

/// A name isn't declared.
pub(crate) fn unknown_name(page: &mut Page, text: &SourceText, path: &[u8]) {
    let marked = regions_of(page, text, path);
    for region in 0..text.outline.regions.len() {
        if is_marked(&marked, region) {
            let visible = Visible::seen_from(page, text, region);
            if let Some(token) = unseen_use(text, region, &visible) {
                return put_unseen(page, text, token, &visible);
            }
        }
    }
    if put_region(page, text, path) {
        page.put("In the scope that begins here a name is used that isn't declared.\n");
    }
}

/// The first part of a path alone.
pub(crate) fn is_top(path: &[u8]) -> bool {
    match first_part(path) {
        Some(part) => part.rest.is_empty(),
        None => true,
    }
}
