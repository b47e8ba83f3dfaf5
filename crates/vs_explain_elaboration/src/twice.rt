//! What is declared twice.

use crate::declared::may_declare;
use crate::names::{is_top, put_region, regions_of};
use std::alloc::{AllocError, Global};
use vs_explain_outline::{
    Landmark, LandmarkKind, Page, RegionKind, SourceText, is_marked, last_name, scope_of,
};

/// The tokens of the modules of a name.
fn modules_named(alloc: Global, text: &SourceText, name: &[u8]) -> Result<Vec<usize>, AllocError> {
    let mut tokens = Vec::new(alloc);
    for region in &text.outline.regions {
        if region.kind == RegionKind::Module && text.region_name(region) == name {
            tokens.push(region.name.unwrap_or(region.first))?;
        }
    }
    Ok(tokens)
}

/// The tokens that declare a name in marked regions, of blocks and instances too.
fn declared_at(
    alloc: Global,
    text: &SourceText,
    marked: &[bool],
    name: &[u8],
) -> Result<Vec<usize>, AllocError> {
    let mut tokens = Vec::new(alloc);
    for landmark in &text.outline.landmarks {
        let declares = matches!(
            landmark.kind,
            LandmarkKind::Declared(_) | LandmarkKind::Instance
        );
        if declares && is_marked(marked, landmark.region) && text.name_at(landmark.token) == name {
            tokens.push(landmark.token)?;
        }
    }
    for region in &text.outline.regions {
        let inside = match region.around {
            Some(around) => is_marked(marked, around),
            None => false,
        };
        if let Some(token) = region.name {
            if inside && text.name_at(token) == name {
                tokens.push(token)?;
            }
        }
    }
    Ok(tokens)
}

/// Puts the places of two tokens, and what is said of both.
fn put_two(page: &mut Page, text: &SourceText, tokens: &[usize], words: &str) {
    let Some(last) = tokens.last() else {
        return;
    };
    for token in tokens {
        if *token != *last {
            page.put_place(text.place_at(*token));
        }
    }
    page.put_place(text.place_at(*last));
    page.put_name(text.name_at(*last));
    page.put(words);
}

/// The two `default` of one `case` in marked regions.
fn two_defaults(text: &SourceText, marked: &[bool]) -> Option<(usize, usize)> {
    let mut before: Option<Landmark> = None;
    for landmark in &text.outline.landmarks {
        if landmark.kind == LandmarkKind::Default && is_marked(marked, landmark.region) {
            if let Some(other) = before {
                if other.of == landmark.of {
                    return Some((other.token, landmark.token));
                }
            }
            before = Some(*landmark);
        }
    }
    None
}

/// The first use of a name that would make a net of it, before it is declared.
fn early_use(text: &SourceText, name: &[u8], declared: usize) -> Option<usize> {
    let module = match text
        .outline
        .landmarks
        .iter()
        .find(|mark| mark.token == declared)
    {
        Some(mark) => text.module_of(mark.region),
        None => return None,
    };
    for landmark in &text.outline.landmarks {
        if landmark.token < declared
            && may_declare(landmark.kind)
            && text.name_at(landmark.token) == name
            && text.module_of(landmark.region) == module
        {
            return Some(landmark.token);
        }
    }
    None
}

/// A name that is declared in a scope.
fn declared_in_scope(page: &mut Page, text: &SourceText, path: &[u8]) -> bool {
    let name = last_name(path);
    let marked = regions_of(page, text, scope_of(path));
    let Ok(tokens) = declared_at(page.alloc(), text, &marked, name) else {
        page.leave_out();
        return true;
    };
    let Some(first) = tokens.first() else {
        return false;
    };
    if let (Some(token), true) = (early_use(text, name, *first), tokens.len() == 1) {
        page.put_place(text.place_at(token));
        page.put_place(text.place_at(*first));
        page.put_name(name);
        page.put(
            " is used at the first place, where an undeclared name is a net, and declared at the second. Declare it before.\n",
        );
        return true;
    }
    if tokens.len() < 2 {
        return false;
    }
    put_two(
        page,
        text,
        &tokens,
        " is declared at each of these places, in one scope. Rename one.\n",
    );
    true
}

/// A name of several modules. Whether there are several.
fn several_modules(page: &mut Page, text: &SourceText, name: &[u8]) -> bool {
    let Ok(modules) = modules_named(page.alloc(), text, name) else {
        page.leave_out();
        return true;
    };
    if modules.len() < 2 {
        return false;
    }
    put_two(
        page,
        text,
        &modules,
        " is the name of several modules. Rename one.\n",
    );
    true
}

/// A scope, or the source, declares a name twice.
pub(crate) fn declared_twice(page: &mut Page, text: &SourceText, path: &[u8]) {
    let name = last_name(path);
    if is_top(path) && several_modules(page, text, name) || declared_in_scope(page, text, path) {
        return;
    }
    let marked = regions_of(page, text, path);
    if let Some((first, second)) = two_defaults(text, &marked) {
        page.put_place(text.place_at(first));
        page.put_place(text.place_at(second));
        page.put("Both are `default` of one `case`. Leave one out.\n");
    } else if put_region(page, text, scope_of(path)) {
        page.put("In the scope that begins here ");
        page.put_name(name);
        page.put(" is declared twice.\n");
    }
}
