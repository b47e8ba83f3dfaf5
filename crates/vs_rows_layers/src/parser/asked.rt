//! What is answered of a source text.

use crate::parser::generated::{module_item_shown, source_shown};
use crate::parser::instances::header_shown;
use crate::parser::statements::statement_shown;
use crate::parser::trees::{left_shown, shown};
use vs_parser::parse;
use vs_row_files::Text;
use vs_syntax::vs_lexer::lex;
use vs_syntax::{Item, ModuleItem, Source, Stmt};

/// What is asked of a source text.
#[derive(Clone, Copy)]
pub(crate) enum Asked {
    /// Its fault, or whether it is read.
    Fault,
    /// Its only item.
    Item,
    /// Its only statement.
    Statement,
    /// The left side of its only statement, an assignment.
    Left,
    /// The value of its only statement, a blocking assignment.
    Value,
    /// The header of its only module.
    Header,
    /// All of it.
    Source,
}

/// What is asked of the only statement of a source.
fn statement_asked(asked: Asked, statement: &Stmt, text: &mut Text) {
    match (asked, statement) {
        (Asked::Left, Stmt::Assign(left, _) | Stmt::Later(left, _, _)) => left_shown(left, text),
        (Asked::Value, Stmt::Assign(_, value)) => shown(value, text),
        _ => statement_shown(statement, text),
    }
}

/// What is asked of the only item of a source.
fn item_asked(asked: Asked, item: &ModuleItem, text: &mut Text) {
    match (asked, item) {
        (Asked::Item, _) => module_item_shown(item, text),
        (_, ModuleItem::Plain(Item::Initial(statement))) => statement_asked(asked, statement, text),
        _ => text.put(b"another item"),
    }
}

/// What is asked of a tree.
fn tree_asked(asked: Asked, tree: &Source, text: &mut Text) {
    match (asked, tree.modules.as_slice()) {
        (Asked::Fault, _) => text.put(b"read"),
        (Asked::Source, _) => source_shown(tree, text),
        (Asked::Header, [module]) => header_shown(module, text),
        (_, [module]) => match module.items.as_slice() {
            [item] => item_asked(asked, item, text),
            _ => text.put(b"several items"),
        },
        _ => text.put(b"several modules"),
    }
}

/// Puts what is answered of a source text: what is asked of its tree, or the text of its fault.
pub(crate) fn answer_of(asked: Asked, source: &[u8], text: &mut Text) {
    let alloc = text.alloc();
    match lex(alloc, source) {
        Ok(tokens) => match parse(alloc, &tokens) {
            Ok(tree) => tree_asked(asked, &tree, text),
            Err(fault) => text.put_made(fault.text(alloc)),
        },
        Err(fault) => text.put_made(fault.text(alloc)),
    }
}
