//! Sources as text: directives, items and generate constructs.
use crate::parser::trees::{
    form_shown, item_shown, name_shown, put_headed, range_shown, shown_between,
};
use vs_row_files::Text;
use vs_syntax::vs_lexer::{Directive, ImplicitNet};
use vs_syntax::{Local, LocalDeclaration, LoopHeader, ModuleItem, Source};

/// Names of a declaration in a block, each with the range of its words.
fn local_names_shown(names: &[Local], text: &mut Text) {
    for name in names {
        name_shown(&name.name, text);
        range_shown(&name.words, text);
    }
    text.put(b";");
}

/// The declarations in a block.
pub(crate) fn locals_shown(locals: &[LocalDeclaration], text: &mut Text) {
    for local in locals {
        match local {
            LocalDeclaration::Reg(form, names) => {
                text.put(b" reg");
                form_shown(form, text);
                local_names_shown(names, text);
            }
            LocalDeclaration::Integer(names) => {
                text.put(b" integer");
                local_names_shown(names, text);
            }
        }
    }
}

/// The header of a generate loop.
fn header_shown(header: &LoopHeader, text: &mut Text) {
    text.put(&header.name);
    put_headed(b" = ", &header.first, text);
    shown_between(b"; ", &header.condition, b"; ", text);
    text.put(&header.next);
    put_headed(b" = ", &header.step, text);
}

/// An item in one line, a block in parentheses, each generate construct in brackets.
#[cycle(module_item)]
pub(crate) fn module_item_shown(item: &ModuleItem, text: &mut Text) {
    match item {
        ModuleItem::Plain(plain) => item_shown(plain, text),
        ModuleItem::Region(items) => {
            text.put(b"[generate");
            items_shown(items, b"]", text);
        }
        ModuleItem::For(header, inner) => {
            text.put(b"[for ");
            header_shown(header, text);
            text.put(b" do ");
            module_item_shown(inner, text);
            text.put(b"]");
        }
        ModuleItem::If(condition, inner, other) => {
            shown_between(b"[if ", condition, b" then ", text);
            module_item_shown(inner, text);
            if let Some(other) = other {
                text.put(b" else ");
                module_item_shown(other, text);
            }
            text.put(b"]");
        }
        ModuleItem::Null => text.put(b";"),
        ModuleItem::Block(name, items) => {
            text.put(b"(");
            if let Some(name) = name {
                text.put(b":");
                text.put(name);
            }
            items_shown(items, b")", text);
        }
    }
}

/// Items, each behind a space, and a word behind them.
#[cycle(module_item)]
fn items_shown(items: &[ModuleItem], behind: &[u8], text: &mut Text) {
    for item in items {
        text.put(b" ");
        module_item_shown(item, text);
    }
    text.put(behind);
}

/// Directives, each behind a space; a unit and a precision as powers of ten in femtoseconds.
fn directives_shown(directives: &[Directive], text: &mut Text) {
    for directive in directives {
        match directive {
            Directive::DefaultNettype(ImplicitNet::Wire) => text.put(b" wire"),
            Directive::DefaultNettype(ImplicitNet::Forbidden) => text.put(b" none"),
            Directive::Timescale { unit, precision } => {
                text.put(b" ");
                text.put_shown(unit.exponent());
                text.put(b"/");
                text.put_shown(precision.exponent());
            }
        }
    }
}

/// Modules with their items, and the directives between them, in one line.
pub(crate) fn source_shown(source: &Source, text: &mut Text) {
    for module in &source.modules {
        directives_shown(&module.directives, text);
        text.put(b" module ");
        text.put(&module.name);
        items_shown(&module.items, b";", text);
    }
    directives_shown(&source.directives, text);
}
