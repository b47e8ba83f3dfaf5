//! How items begin.
ghost use Rattle.std.specs.Prelude.{◌≡◌, false, MatchOption};
ghost use Rattle.vs_syntax.specs.Symbols.{a_word, the_word, class_of};
ghost use Rattle.vs_syntax.specs.Grammar.{part, an_item};
ghost use Rattle.vs_syntax.specs.Tables.{need, among, fronts_of, goes};
ghost use Rattle.vs_parser.specs.vs_parse_expressions.specs.Answers.{seen};
ghost use Rattle.vs_parser.specs.ItemsHeads.{BeginsItem, symbol_of, plain_symbol};

use crate::vs_parse_expressions::next;
use vs_syntax::Direction;
use vs_syntax::vs_lexer::{Kind, Token, Word};

/// What an item begins with.
#[derive(Clone, Copy)]
pub(crate) enum ItemHead<'s> {
    /// An item that is no generate construct.
    Plain(PlainHead<'s>),
    /// The word of a generate construct.
    Generate(GenerateWord),
}

/// The word that a generate construct begins with.
#[derive(Clone, Copy)]
pub(crate) enum GenerateWord {
    /// `generate`
    Region,
    /// `for`
    For,
    /// `if`
    If,
}

/// What an item that is no generate construct begins with.
#[derive(Clone, Copy)]
pub(crate) enum PlainHead<'s> {
    /// The name of a module, by its bytes.
    Name(&'s [u8]),
    /// The word of a declaration.
    Declaration(DeclarationWord),
    /// `assign`
    Assign,
    /// `initial`
    Initial,
    /// `always`
    Always,
}

/// The word that a declaration begins with.
#[derive(Clone, Copy)]
pub(crate) enum DeclarationWord {
    /// `input` or `output`
    Port(Direction),
    /// `genvar`
    Genvar,
    /// `wire`
    Wire,
    /// `reg`
    Reg,
    /// `integer`
    Integer,
    /// `parameter`
    Parameter,
    /// `localparam`
    Localparam,
}

/// How the item begins that is next, if one is, and the tokens behind its first one.
pub(crate) fn item_head<'t, 's>(tokens: &'t [Token<'s>]) -> Option<(ItemHead<'s>, &'t [Token<'s>])>
    ensures { MatchOption result (goes (part an_item) (seen tokens.now) ≡ false)
        (λ x. BeginsItem (seen tokens.now) x.0 (seen x.1.now)) }
{
    let (first, rest) = next(tokens)?;
    match first.kind {
        Kind::Name => Some((ItemHead::Plain(PlainHead::Name(first.name())), rest)),
        Kind::Word(word) => {
            let head = word_head(word)?;
            Some((head, rest))
        }
        _ => None,
    }
}

/// How an item begins with the word, if one does.
fn word_head<'s>(word: Word) -> Option<ItemHead<'s>>
    ensures { MatchOption result (among (the_word word) (fronts_of an_item) ≡ false)
        (λ head. a_word word ≡ symbol_of head) }
{
    match word {
        Word::Generate => Some(ItemHead::Generate(GenerateWord::Region)),
        Word::For => Some(ItemHead::Generate(GenerateWord::For)),
        Word::If => Some(ItemHead::Generate(GenerateWord::If)),
        Word::Assign => Some(ItemHead::Plain(PlainHead::Assign)),
        Word::Initial => Some(ItemHead::Plain(PlainHead::Initial)),
        Word::Always => Some(ItemHead::Plain(PlainHead::Always)),
        Word::Input => Some(ItemHead::Plain(PlainHead::Declaration(DeclarationWord::Port(
            Direction::Input,
        )))),
        Word::Output => Some(ItemHead::Plain(PlainHead::Declaration(DeclarationWord::Port(
            Direction::Output,
        )))),
        Word::Genvar => Some(ItemHead::Plain(PlainHead::Declaration(DeclarationWord::Genvar))),
        Word::Wire => Some(ItemHead::Plain(PlainHead::Declaration(DeclarationWord::Wire))),
        Word::Reg => Some(ItemHead::Plain(PlainHead::Declaration(DeclarationWord::Reg))),
        Word::Integer => Some(ItemHead::Plain(PlainHead::Declaration(DeclarationWord::Integer))),
        Word::Parameter => Some(ItemHead::Plain(PlainHead::Declaration(
            DeclarationWord::Parameter,
        ))),
        Word::Localparam => Some(ItemHead::Plain(PlainHead::Declaration(
            DeclarationWord::Localparam,
        ))),
        _ => None,
    }
}

/// The least nesting of an item that begins so, in nodes.
pub(crate) fn least_item(head: ItemHead) -> u32
    ensures { result ≡ need (class_of (symbol_of head.entry)) (fronts_of an_item) }
{
    match head {
        ItemHead::Plain(plain) => least_plain(plain),
        ItemHead::Generate(_) => 1,
    }
}

/// The least nesting of an item that is no generate construct and begins so, in nodes.
pub(crate) fn least_plain(head: PlainHead) -> u32
    ensures { result ≡ need (class_of (plain_symbol head.entry)) (fronts_of an_item) }
{
    match head {
        PlainHead::Name(_) => 1,
        PlainHead::Declaration(_) => 1,
        PlainHead::Assign => 2,
        PlainHead::Initial => 2,
        PlainHead::Always => 2,
    }
}
