//! Which piece of a source has a fault of elaboration: it is elaborated again with other pieces left out.

use std::alloc::{AllocError, Global};
use vs_explain_elaboration::vs_scopes::Reason;
use vs_explain_outline::{Piece, PieceKind, SourceText, is_marked};
use vs_explain_text::vs_parser::{ParseFault, parse};
use vs_simulate::vs_elaborate::{ElabFault, elaborate};
use vs_syntax::vs_lexer::{Kind, Mark, Token, Word, lex};

/// The most tokens of a source that is elaborated several times.
const TOKENS_LIMIT: usize = 200000;

/// What stands in place of a piece that is left out: a value, and the word of a condition.
const FILLING: &[u8] = b"0 if";

/// A source that is elaborated again, and the fault that is looked for.
#[derive(Clone, Copy)]
struct Search<'t, 's> {
    text: &'t SourceText<'s>,
    /// The tokens that stand in place of what is left out.
    filling: &'t [Token<'s>],
    top: &'t [u8],
    reason: Reason,
    path: &'t [u8],
}

/// What comes of a source with pieces left out.
#[derive(Clone, Copy, PartialEq, Eq)]
enum Outcome {
    /// The fault that is looked for.
    Same,
    /// Another fault.
    Other,
    /// A design.
    Design,
}

/// Adds a copy of a token.
fn add<'s>(tokens: &mut Vec<Token<'s>>, token: &Token<'s>) -> Result<(), AllocError> {
    let kind = token.kind;
    let place = token.place;
    let bytes = token.bytes;
    tokens.extend_from_slice(&[Token { kind, place, bytes }])
}

/// The first parenthesis of a piece.
fn opening(tokens: &[Token], piece: &Piece) -> usize {
    for index in piece.first..piece.last {
        if let Some(token) = tokens.get(index) {
            if token.kind == Kind::Mark(Mark::Open) {
                return index;
            }
        }
    }
    piece.last
}

/// Whether a word has a condition after it.
fn has_condition(word: Word) -> bool {
    matches!(
        word,
        Word::If | Word::While | Word::Repeat | Word::Case | Word::Casex | Word::Casez | Word::For
    )
}

impl<'t, 's> Search<'t, 's> {
    /// Adds the filling of this number.
    fn fill(&self, tokens: &mut Vec<Token<'s>>, number: usize) -> Result<(), AllocError> {
        match self.filling.get(number) {
            Some(token) => add(tokens, token),
            None => Ok(()),
        }
    }

    /// Adds what stands in place of a header: of a condition one that is 0, of any other nothing.
    fn fill_header(&self, tokens: &mut Vec<Token<'s>>, piece: &Piece) -> Result<(), AllocError> {
        let open = opening(&self.text.tokens, piece);
        let word = match (open.checked_sub(1), self.text.tokens.get(open)) {
            (Some(before), Some(_)) if before >= piece.first => self.text.tokens.get(before),
            _ => None,
        };
        let Some(word) = word else {
            return Ok(());
        };
        match word.kind {
            Kind::Word(Word::For) => self.fill(tokens, 1)?,
            Kind::Word(kind) if has_condition(kind) => add(tokens, word)?,
            _ => return Ok(()),
        }
        if let Some(token) = self.text.tokens.get(open) {
            add(tokens, token)?;
        }
        self.fill(tokens, 0)?;
        match self.text.tokens.get(piece.last) {
            Some(token) => add(tokens, token),
            None => Ok(()),
        }
    }

    /// Adds what stands in place of a piece.
    fn fill_piece(&self, tokens: &mut Vec<Token<'s>>, piece: &Piece) -> Result<(), AllocError> {
        match piece.kind {
            PieceKind::Statement => match self.text.tokens.get(piece.last) {
                Some(token) => add(tokens, token),
                None => Ok(()),
            },
            PieceKind::Header => self.fill_header(tokens, piece),
            PieceKind::Label | PieceKind::Value => self.fill(tokens, 0),
            PieceKind::Connections => Ok(()),
        }
    }

    /// The tokens of the source without these pieces, which stand in the order of the text.
    fn without(&self, alloc: Global, pieces: &[Piece]) -> Result<Vec<Token<'s>>, AllocError> {
        let mut tokens = Vec::new(alloc);
        let mut left = pieces;
        for (index, token) in self.text.tokens.iter().enumerate() {
            match left {
                [piece, rest @ ..] if index >= piece.first => {
                    if index == piece.first {
                        self.fill_piece(&mut tokens, piece)?;
                    }
                    if index >= piece.last {
                        left = rest;
                    }
                }
                _ => add(&mut tokens, token)?,
            }
        }
        Ok(tokens)
    }

    /// What comes of the source without these pieces.
    fn outcome(&self, alloc: Global, pieces: &[Piece]) -> Result<Outcome, AllocError> {
        let tokens = self.without(alloc, pieces)?;
        let tree = match parse(alloc, &tokens) {
            Ok(tree) => tree,
            Err(ParseFault::Memory) => return Err(AllocError),
            Err(_) => return Ok(Outcome::Other),
        };
        match elaborate(alloc, &tree, self.top) {
            Ok(_) => Ok(Outcome::Design),
            Err(ElabFault::Memory) => Err(AllocError),
            Err(ElabFault::At(reason, path)) => {
                let is_same = reason == self.reason && path.as_slice() == self.path;
                Ok(if is_same {
                    Outcome::Same
                } else {
                    Outcome::Other
                })
            }
        }
    }

    /// The first piece up to which the source has the fault when those after it are left out.
    fn search(&self, alloc: Global, pieces: &[Piece]) -> Result<Option<Piece>, AllocError> {
        let mut low = 0usize;
        let mut high = pieces.len();
        if high == 0 || self.outcome(alloc, pieces)? == Outcome::Same {
            return Ok(None);
        }
        for _ in 0..64 {
            if high.saturating_sub(low) <= 1 {
                break;
            }
            let middle = low.saturating_add(high.saturating_sub(low) / 2);
            let rest = pieces.get(middle..).unwrap_or(&[]);
            if self.outcome(alloc, rest)? == Outcome::Same {
                high = middle;
            } else {
                low = middle;
            }
        }
        let Some(piece) = pieces.get(low) else {
            return Ok(None);
        };
        // Another fault without it alone may be one that comes of leaving it out, as where it makes a net of a name.
        Ok(match self.outcome(alloc, &[*piece])? {
            Outcome::Other => None,
            _ => Some(*piece),
        })
    }
}

/// The pieces of marked regions.
fn pieces_in(alloc: Global, text: &SourceText, marked: &[bool]) -> Result<Vec<Piece>, AllocError> {
    let mut pieces = Vec::new(alloc);
    for piece in &text.outline.pieces {
        if is_marked(marked, piece.region) {
            pieces.push(*piece)?;
        }
    }
    Ok(pieces)
}

/// The piece of the scope of a path that has a fault, where some piece has it: with this one and those before it the source has the fault, and with those
/// before it alone it hasn't.
pub(crate) fn faulty_piece(
    alloc: Global,
    text: &SourceText,
    top: &[u8],
    reason: Reason,
    path: &[u8],
) -> Result<Option<Piece>, AllocError> {
    if text.tokens.len() > TOKENS_LIMIT {
        return Ok(None);
    }
    let Ok(filling) = lex(alloc, FILLING) else {
        return Err(AllocError);
    };
    let marked = text.regions_at(alloc, path)?;
    let pieces = pieces_in(alloc, text, &marked)?;
    let search = Search {
        text,
        filling: &filling,
        top,
        reason,
        path,
    };
    search.search(alloc, &pieces)
}
