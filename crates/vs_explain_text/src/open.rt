//! What is open at the end of some tokens.

use std::alloc::{AllocError, Global};
use vs_syntax::vs_lexer::{Kind, Mark, Token, Word};

/// Whether a token opens something.
fn opens(token: &Token) -> bool {
    matches!(
        token.kind,
        Kind::Mark(Mark::Open)
            | Kind::Mark(Mark::OpenBracket)
            | Kind::Mark(Mark::OpenBrace)
            | Kind::Word(Word::Module)
            | Kind::Word(Word::Begin)
            | Kind::Word(Word::Case)
            | Kind::Word(Word::Casex)
            | Kind::Word(Word::Casez)
            | Kind::Word(Word::Generate)
    )
}

/// Whether a token closes something.
fn closes(token: &Token) -> bool {
    matches!(
        token.kind,
        Kind::Mark(Mark::Close)
            | Kind::Mark(Mark::CloseBracket)
            | Kind::Mark(Mark::CloseBrace)
            | Kind::Word(Word::Endmodule)
            | Kind::Word(Word::End)
            | Kind::Word(Word::Endcase)
            | Kind::Word(Word::Endgenerate)
    )
}

/// Of tokens that begin a source, the last one that opens what isn't closed.
pub(crate) fn last_open(alloc: Global, tokens: &[Token]) -> Result<Option<usize>, AllocError> {
    let mut open = Vec::new(alloc);
    for (index, token) in tokens.iter().enumerate() {
        if opens(token) {
            open.push(index)?;
        } else if closes(token) {
            let _closed = open.pop();
        }
    }
    Ok(open.pop())
}
