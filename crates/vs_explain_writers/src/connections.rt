//! Where the connections of ports stand in the source.

use std::alloc::{AllocError, Global};
use vs_explain_outline::vs_lexer::{Kind, Mark};
use vs_explain_outline::{DeclaredKind, LandmarkKind, SourceText, last_name, ordinal_of, scope_of};

/// What comes behind the last colon of a name.
fn after_colon(name: &[u8]) -> &[u8] {
    match name.iter().rposition(|byte| *byte == b':') {
        Some(at) => name.get(at.saturating_add(1)..).unwrap_or(&[]),
        None => &[],
    }
}

/// The number of a port among those of a module, by the token of the module's name.
fn port_number(text: &SourceText, module: usize, port: &[u8]) -> Option<usize> {
    let region = text.module_named(text.name_at(module))?;
    let mut number = 0usize;
    for landmark in &text.outline.landmarks {
        let is_port = matches!(
            landmark.kind,
            LandmarkKind::Declared(DeclaredKind::NetPort | DeclaredKind::VariablePort)
        );
        if is_port && landmark.region == region {
            if text.name_at(landmark.token) == port {
                return Some(number);
            }
            number = number.saturating_add(1);
        }
    }
    None
}

/// The token at which the connection of a port by its name begins, in a list that begins at a token.
fn named_in(text: &SourceText, first: usize, port: &[u8]) -> Option<usize> {
    for (index, token) in text.tokens.iter().enumerate().skip(first) {
        let name = index.saturating_add(1);
        if token.kind == Kind::Mark(Mark::Dot) && text.name_at(name) == port {
            return Some(index.saturating_add(3));
        }
        if token.kind == Kind::Mark(Mark::Semicolon) {
            return None;
        }
    }
    None
}

/// The token at which a connection by its place begins, in a list that begins at a token.
fn ordered_in(text: &SourceText, first: usize, number: usize) -> Option<usize> {
    let mut depth = 0usize;
    let mut left = number;
    for (index, token) in text.tokens.iter().enumerate().skip(first) {
        if left == 0 {
            return Some(index);
        }
        let Kind::Mark(mark) = token.kind else {
            continue;
        };
        match mark {
            Mark::Open | Mark::OpenBracket | Mark::OpenBrace => depth = depth.saturating_add(1),
            Mark::Close | Mark::CloseBracket | Mark::CloseBrace => depth = depth.saturating_sub(1),
            Mark::Comma if depth == 0 => left = left.saturating_sub(1),
            Mark::Semicolon => return None,
            _ => {}
        }
    }
    None
}

/// The token at which the connection begins that an assignment of a port stands for, `t.u#io:clk`; of another assignment there is none.
pub(crate) fn connection_of(
    alloc: Global,
    text: &SourceText,
    name: &[u8],
) -> Result<Option<usize>, AllocError> {
    let Some((path, b'i', _)) = ordinal_of(name) else {
        return Ok(None);
    };
    let marked = text.regions_at(alloc, scope_of(path))?;
    let Some(instance) = text.instance_in(&marked, last_name(path)) else {
        return Ok(None);
    };
    let port = after_colon(name);
    let first = instance.token.saturating_add(2);
    if text.is_mark(first, Mark::Dot) {
        return Ok(named_in(text, first, port));
    }
    Ok(match port_number(text, instance.of, port) {
        Some(number) => ordered_in(text, first, number),
        None => None,
    })
}
