//! A token that the grammar refuses, and what stands around it.

use crate::possible::can_follow;
use std::alloc::{AllocError, Global};
use vs_syntax::vs_lexer::{Kind, Mark, Token, Word};

/// How many tokens are looked back for the beginning of an item or a statement.
const LOOKED_BACK: usize = 4096;

/// A token that the grammar refuses, and the tokens around it.
#[derive(Clone, Copy)]
pub(crate) struct Refused<'t, 's> {
    source: &'s [u8],
    tokens: &'t [Token<'s>],
    /// The `module` before it.
    module: usize,
    /// The token itself.
    pub(crate) at: usize,
    /// The first token of the item or the statement in which it stands.
    pub(crate) first: usize,
}

/// Whether what begins after a token isn't in one item or statement with it.
fn parts(kind: Kind) -> bool {
    matches!(
        kind,
        Kind::Mark(Mark::Semicolon)
            | Kind::Word(Word::Begin)
            | Kind::Word(Word::End)
            | Kind::Word(Word::Else)
            | Kind::Word(Word::Endcase)
            | Kind::Word(Word::Generate)
            | Kind::Word(Word::Endgenerate)
            | Kind::Word(Word::Endmodule)
            | Kind::Word(Word::Initial)
            | Kind::Word(Word::Always)
            | Kind::Word(Word::Forever)
    )
}

/// The first token after the last one before this one that parts items or statements.
fn first_of(tokens: &[Token], at: usize) -> usize {
    let mut first = at;
    for _ in 0..LOOKED_BACK {
        let Some(index) = first.checked_sub(1) else {
            return first;
        };
        match tokens.get(index) {
            Some(token) if !parts(token.kind) => first = index,
            _ => return first,
        }
    }
    first
}

impl<'t, 's> Refused<'t, 's> {
    /// The token of this number, which stands after this `module`.
    pub(crate) fn new(
        source: &'s [u8],
        tokens: &'t [Token<'s>],
        module: usize,
        at: usize,
    ) -> Refused<'t, 's> {
        Refused {
            source,
            tokens,
            module,
            at,
            first: first_of(tokens, at),
        }
    }

    /// The number of the token so many before the refused one; where there is none, a number that no token has.
    pub(crate) fn before(&self, count: usize) -> usize {
        self.at.checked_sub(count).unwrap_or(self.tokens.len())
    }

    /// What a token is.
    pub(crate) fn kind(&self, index: usize) -> Option<Kind> {
        self.tokens.get(index).map(|token| token.kind)
    }

    /// The bytes of a token.
    pub(crate) fn bytes(&self, index: usize) -> &'s [u8] {
        match self.tokens.get(index) {
            Some(token) => token.bytes,
            None => &[],
        }
    }

    /// The bytes of the string that the refused token is.
    pub(crate) fn string(&self, alloc: Global) -> Result<Vec<u8>, AllocError> {
        match self.tokens.get(self.at) {
            Some(token) => token.text(alloc),
            None => Ok(Vec::new(alloc)),
        }
    }

    /// What stands in the source from a token to another one, both among it.
    pub(crate) fn span(&self, from: usize, to: usize) -> &'s [u8] {
        match (self.tokens.get(from), self.tokens.get(to)) {
            (Some(first), Some(last)) => {
                let end = last.place.saturating_add(last.bytes.len());
                self.source.get(first.place..end).unwrap_or(&[])
            }
            _ => &[],
        }
    }

    /// Whether a token is a name.
    pub(crate) fn is_name(&self, index: usize) -> bool {
        self.kind(index) == Some(Kind::Name)
    }

    /// Whether a token is this mark.
    pub(crate) fn is_mark(&self, index: usize, mark: Mark) -> bool {
        self.kind(index) == Some(Kind::Mark(mark))
    }

    /// Whether a token is this word.
    pub(crate) fn is_word(&self, index: usize, word: Word) -> bool {
        self.kind(index) == Some(Kind::Word(word))
    }

    /// Whether nothing stands between a token and the next one.
    pub(crate) fn touches(&self, index: usize) -> bool {
        match (
            self.tokens.get(index),
            self.tokens.get(index.saturating_add(1)),
        ) {
            (Some(token), Some(next)) => token.place.saturating_add(token.bytes.len())
                == next.place,
            _ => false,
        }
    }

    /// Whether the token of a text may come in place of a token.
    pub(crate) fn may_replace(
        &self,
        alloc: Global,
        index: usize,
        text: &'static [u8],
    ) -> Result<bool, AllocError> {
        match self.tokens.get(self.module..index) {
            Some(tokens) => can_follow(alloc, tokens, text),
            None => Ok(false),
        }
    }

    /// Whether an item may begin at a token.
    pub(crate) fn is_item(&self, alloc: Global, index: usize) -> Result<bool, AllocError> {
        self.may_replace(alloc, index, b"assign")
    }

    /// Whether a statement may begin at a token.
    pub(crate) fn is_statement(&self, alloc: Global, index: usize) -> Result<bool, AllocError> {
        self.may_replace(alloc, index, b"forever")
    }

    /// Whether the refused token stands in the header of its module.
    pub(crate) fn in_header(&self) -> bool {
        match self.tokens.get(self.module..self.at) {
            Some([first, rest @ ..]) => {
                first.kind == Kind::Word(Word::Module)
                    && !rest
                        .iter()
                        .any(|token| token.kind == Kind::Mark(Mark::Semicolon))
            }
            _ => false,
        }
    }

    /// The last word before the refused token that says what is declared there.
    pub(crate) fn declares(&self) -> Option<Word> {
        if !self.in_header() {
            return match self.kind(self.first) {
                Some(Kind::Word(word)) => Some(word),
                _ => None,
            };
        }
        for count in 1..LOOKED_BACK {
            match self.kind(self.before(count)) {
                Some(Kind::Word(Word::Signed)) => {}
                Some(Kind::Word(word)) => return Some(word),
                Some(_) => {}
                None => return None,
            }
        }
        None
    }

    /// The name of the last system task that the item or the statement has before the refused token.
    pub(crate) fn system_task(&self) -> &'s [u8] {
        let mut task = self.tokens.len();
        for index in self.first..self.at {
            if matches!(self.kind(index), Some(Kind::System)) {
                task = index;
            }
        }
        self.bytes(task)
    }

    /// The bracket that is closed by the last token before the refused one.
    pub(crate) fn opening(&self) -> usize {
        let mut depth = 0usize;
        for count in 1..LOOKED_BACK {
            let index = self.before(count);
            match self.kind(index) {
                Some(Kind::Mark(Mark::CloseBracket)) => depth = depth.saturating_add(1),
                Some(Kind::Mark(Mark::OpenBracket)) => depth = depth.saturating_sub(1),
                _ => {}
            }
            if depth == 0 {
                return index;
            }
        }
        self.tokens.len()
    }

    /// Whether the word at a token is declared as a variable before the refused one.
    pub(crate) fn is_declared(&self, index: usize) -> bool {
        let word = self.bytes(index);
        let mut after_type = false;
        for token in self.tokens.get(self.module..self.at).unwrap_or(&[]) {
            if after_type && token.bytes == word {
                return true;
            }
            after_type = matches!(
                token.kind,
                Kind::Word(Word::Reg)
                    | Kind::Word(Word::Integer)
                    | Kind::Word(Word::Genvar)
                    | Kind::Word(Word::Signed)
                    | Kind::Mark(Mark::CloseBracket)
            );
        }
        false
    }
}
