//! What is answered of a source text.

use crate::elaborate::showing::{show_assigns, show_outline, show_processes, show_signals};
use vs_design::Design;
use vs_elaborate::{elaborate, fault_text};
use vs_parser::parse;
use vs_row_files::Text;
use vs_syntax::Source;
use vs_syntax::vs_lexer::lex;

/// What is asked of a source.
#[derive(Clone, Copy)]
pub enum Asked {
    /// Whether it defines a design, or its fault.
    Told,
    /// The signals of its design.
    Signals,
    /// The continuous assignments of its design.
    Assigns,
    /// The processes of its design.
    Processes,
    /// The outline of its design.
    Outline,
}

/// Puts the part of a design that is asked for.
fn show(asked: Asked, design: &Design, text: &mut Text) {
    match asked {
        Asked::Told => text.put(b"a design"),
        Asked::Signals => show_signals(design, text),
        Asked::Assigns => show_assigns(design, text),
        Asked::Processes => show_processes(design, text),
        Asked::Outline => show_outline(design, text),
    }
}

/// Puts what is answered of a tree with this top.
fn answer_of_tree(asked: Asked, top: &str, tree: &Source, text: &mut Text) {
    let alloc = text.alloc();
    match elaborate(alloc, tree, top.as_bytes()) {
        Ok(design) => show(asked, &design, text),
        Err(fault) => text.put_made(fault_text(alloc, &fault)),
    }
}

/// Puts what is answered of a source text with this top.
pub fn answer_of(asked: Asked, top: &str, source: &[u8], text: &mut Text) {
    let alloc = text.alloc();
    let Ok(tokens) = lex(alloc, source) else {
        return text.put(b"no tokens");
    };
    match parse(alloc, &tokens) {
        Ok(tree) => answer_of_tree(asked, top, &tree, text),
        Err(_) => text.put(b"no source"),
    }
}
