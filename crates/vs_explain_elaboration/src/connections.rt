//! Connections and overrides of instances.

use crate::declared::word_of;
use crate::names::{instance_of, put_nearest, put_region};
use crate::nearest::Nearest;
use std::alloc::{AllocError, Global};
use vs_explain_outline::{DeclaredKind, Landmark, LandmarkKind, Page, SourceText};
use vs_syntax::vs_lexer::{Kind, Mark, Word};

/// What stands in the parentheses of an instance.
#[derive(Drop)]
struct Given {
    /// The tokens of the names that are given, where it is given by name.
    names: Vec<usize>,
    /// How many ends are given in order.
    ordered: usize,
}

/// Whether a declaration is of a port.
fn is_port(kind: LandmarkKind) -> bool {
    matches!(
        kind,
        LandmarkKind::Declared(DeclaredKind::NetPort)
            | LandmarkKind::Declared(DeclaredKind::VariablePort)
    )
}

/// Whether a declaration is of a parameter that may be overridden.
fn is_parameter(text: &SourceText, landmark: &Landmark) -> bool {
    landmark.kind == LandmarkKind::Declared(DeclaredKind::Constant)
        && !matches!(word_of(text, landmark.token), Some((Word::Localparam, _)))
}

/// Of each name, the number of the first one that is the same.
fn firsts_of(alloc: Global, names: &[&[u8]]) -> Result<Vec<usize>, AllocError> {
    let mut sorted: Vec<(&[u8], usize)> = Vec::new(alloc);
    for (number, name) in names.iter().enumerate() {
        sorted.push((*name, number))?;
    }
    sorted.sort()?;
    let mut firsts = vec![in alloc; 0; names.len()]?;
    let mut first: Option<(&[u8], usize)> = None;
    for (name, number) in &sorted {
        let of = match first {
            Some((same, number)) if same == *name => number,
            _ => *number,
        };
        first = Some((*name, of));
        if let Some(place) = firsts.get_mut(*number) {
            *place = of;
        }
    }
    Ok(firsts)
}

/// The names of the ports of a module, or of the parameters that may be overridden, each once.
fn names_of<'s>(
    alloc: Global,
    text: &SourceText<'s>,
    module: usize,
    ports: bool,
) -> Result<Vec<&'s [u8]>, AllocError> {
    let mut all: Vec<&'s [u8]> = Vec::new(alloc);
    for landmark in &text.outline.landmarks {
        let wanted = if ports {
            is_port(landmark.kind)
        } else {
            is_parameter(text, landmark)
        };
        if wanted && landmark.region == module {
            all.push(text.name_at(landmark.token))?;
        }
    }
    let mut names: Vec<&'s [u8]> = Vec::new(alloc);
    for (number, first) in firsts_of(alloc, &all)?.iter().enumerate() {
        if *first == number {
            if let Some(name) = all.get(number) {
                names.push(*name)?;
            }
        }
    }
    Ok(names)
}

/// How a mark changes the depth of parentheses, brackets and braces.
fn depth_after(depth: usize, kind: Kind) -> usize {
    match kind {
        Kind::Mark(Mark::Open) | Kind::Mark(Mark::OpenBracket) | Kind::Mark(Mark::OpenBrace) => {
            depth.saturating_add(1)
        }
        Kind::Mark(Mark::Close) | Kind::Mark(Mark::CloseBracket) | Kind::Mark(Mark::CloseBrace) => {
            depth.saturating_sub(1)
        }
        _ => depth,
    }
}

/// What stands in the parentheses that open at a token.
fn given_at(alloc: Global, text: &SourceText, open: usize) -> Result<Given, AllocError> {
    let mut names = Vec::new(alloc);
    let mut commas = 0usize;
    let mut depth = 0usize;
    let empty = text.is_mark(open.saturating_add(1), Mark::Close);
    for index in open..text.tokens.len() {
        let Some(token) = text.tokens.get(index) else {
            break;
        };
        depth = depth_after(depth, token.kind);
        if depth == 0 {
            break;
        }
        if depth == 1 && token.kind == Kind::Mark(Mark::Dot) {
            names.push(index.saturating_add(1))?;
        }
        if depth == 1 && token.kind == Kind::Mark(Mark::Comma) {
            commas = commas.saturating_add(1);
        }
    }
    let ordered = if !names.is_empty() || empty {
        0
    } else {
        commas.saturating_add(1)
    };
    Ok(Given { names, ordered })
}

/// Puts a list of names.
fn put_names(page: &mut Page, names: &[&[u8]]) {
    for (index, name) in names.iter().enumerate() {
        if index > 0 {
            page.put(", ");
        }
        page.put_name(name);
    }
    page.put(if names.is_empty() { "none.\n" } else { ".\n" });
}

/// Puts a name that is given and that there isn't, and the nearest one.
fn put_missing<'s>(page: &mut Page, text: &SourceText<'s>, token: usize, names: &[&'s [u8]]) {
    let name = text.name_at(token);
    let mut nearest = Nearest::to(page.alloc(), name);
    for other in names {
        if nearest.look_at(*other).is_err() {
            page.leave_out();
        }
    }
    page.put_place(text.place_at(token));
    page.put("There is no ");
    page.put_name(name);
    page.put(" in its module.");
    put_nearest(page, &nearest);
    page.put("\n");
}

/// Puts the first name that is given and that there isn't, or that is given twice. Whether there is one.
fn put_wrong_name<'s>(
    page: &mut Page,
    text: &SourceText<'s>,
    given: &Given,
    names: &[&'s [u8]],
) -> Result<bool, AllocError> {
    let alloc = page.alloc();
    // The names that there are, and then those that are given.
    let mut all: Vec<&'s [u8]> = Vec::new(alloc);
    for name in names {
        all.push(*name)?;
    }
    for token in &given.names {
        all.push(text.name_at(*token))?;
    }
    let firsts = firsts_of(alloc, &all)?;
    // Of each name that there is, the token at which it is given.
    let mut tokens: Vec<Option<usize>> = vec![in alloc; None; names.len()]?;
    for (index, token) in given.names.iter().enumerate() {
        let first = firsts.get(names.len().saturating_add(index));
        let Some(place) = first.and_then(|first| tokens.get_mut(*first)) else {
            put_missing(page, text, *token, names);
            return Ok(true);
        };
        if let Some(earlier) = *place {
            page.put_place(text.place_at(earlier));
            page.put_place(text.place_at(*token));
            page.put_name(text.name_at(*token));
            page.put(" is given at both places. Leave one out.\n");
            return Ok(true);
        }
        *place = Some(*token);
    }
    Ok(false)
}

/// Puts what may be wrong with an instance whose names are right.
fn put_unfit(page: &mut Page, ordered: usize, count: usize, ports: bool) {
    if ordered > count {
        page.put_shown(ordered);
        page.put(" are given in order, and its module has ");
        page.put_shown(count);
        page.put(".\n");
    } else {
        page.put(if ports {
            "Its ports don't fit: an output drives what can't be driven, or its module declares a port badly. An output drives a net, bits of one, or a concatenation of these; an input is no variable.\n"
        } else {
            "Its overrides don't fit, or a `parameter` stands in a generate block of its module: write `localparam` there.\n"
        });
    }
}

/// Puts what differs between what an instance gives at a token and the names of its module.
fn put_given(page: &mut Page, text: &SourceText, instance: &Landmark, open: usize, ports: bool) {
    let alloc = page.alloc();
    let Some(module) = text.module_named(text.name_at(instance.of)) else {
        return;
    };
    let (Ok(names), Ok(given)) = (
        names_of(alloc, text, module, ports),
        given_at(alloc, text, open),
    ) else {
        return page.leave_out();
    };
    let Ok(wrong) = put_wrong_name(page, text, &given, &names) else {
        return page.leave_out();
    };
    if !wrong {
        page.put_place(text.place_at(instance.token));
        put_unfit(page, given.ordered, names.len(), ports);
    }
    page.put(if ports {
        "The ports of "
    } else {
        "The parameters of "
    });
    page.put_name(text.name_at(instance.of));
    page.put(" are ");
    put_names(page, &names);
}

/// Connections don't fit the ports of a module, or its ports are badly declared.
pub(crate) fn ports_differ(page: &mut Page, text: &SourceText, path: &[u8]) {
    if let Some(instance) = instance_of(page, text, path) {
        let open = instance.token.saturating_add(1);
        put_given(page, text, &instance, open, true);
    } else if put_region(page, text, path) {
        page.put(
            "The ports of this module are badly declared: one in the header without a direction, one that the header lacks, or an input that is a variable.\n",
        );
    }
}

/// Overrides don't fit the parameters of a module, or a parameter stands in a generate block.
pub(crate) fn parameters_differ(page: &mut Page, text: &SourceText, path: &[u8]) {
    if let Some(instance) = instance_of(page, text, path) {
        let open = instance.of.saturating_add(2);
        put_given(page, text, &instance, open, false);
    } else if put_region(page, text, path) {
        page.put(
            "A `parameter` stands in a generate block of this module: write `localparam` there.\n",
        );
    }
}
