//! How statements and their parts begin.
ghost use Rattle.std.specs.Prelude.{◌≡◌, ◌<◌, ◌∷◌, ℕ, false, MatchOption};
ghost use Rattle.vs_syntax.specs.vs_lexer.specs.declared.token.Mark.TheVariants as m;
ghost use Rattle.vs_syntax.specs.vs_lexer.specs.declared.token.Word.TheVariants as w;
ghost use Rattle.vs_syntax.specs.Symbols.{a_mark, class_of};
ghost use Rattle.vs_syntax.specs.Grammar.{◌or◌, mark, word, part, delay, event, a_stmt, a_case_item};
ghost use Rattle.vs_syntax.specs.Tables.{need, fronts_of, goes};
ghost use Rattle.vs_syntax.specs.Reading.{Gets};
ghost use Rattle.vs_syntax.specs.Views.{edge_tree};
ghost use Rattle.vs_parse_expressions.specs.Answers.{seen};
ghost use Rattle.vs_parser.specs.Heads.{symbol_of, BeginsStatement, class_of_statement, BeginsDelay, BeginsEvent, separator_symbol, edge_word};

use vs_parse_expressions::{SystemName, begins_expr, next, system_name, word_at};
use vs_syntax::vs_lexer::{Kind, Mark, Token, Word};
use vs_syntax::vs_logic4::Edge;
use vs_syntax::{DumpTask, PrintTask, Separator};

/// The word, the mark or the system name that a statement of its own form begins with.
#[derive(Clone, Copy)]
pub(crate) enum StatementWord {
    /// `;`
    Null,
    /// `begin`
    Block,
    /// `if`
    If,
    /// `case`
    Case,
    /// `casez`
    Casez,
    /// `casex`
    Casex,
    /// `for`
    For,
    /// `while`
    While,
    /// `repeat`
    Repeat,
    /// `forever`
    Forever,
    /// `#`
    Delay,
    /// `@`
    Event,
    /// `$display` or `$strobe`
    Print(PrintTask),
    /// `$finish`
    Finish,
    /// `$dumpfile` or `$dumpvars`
    Dump(DumpTask),
}

/// What a statement begins with.
#[derive(Clone, Copy)]
pub(crate) enum StatementHead {
    /// A name, with which the left side of an assignment begins.
    Name,
    /// `{`, with which the left side of an assignment begins.
    Brace,
    /// A word or a mark of a form of its own.
    Word(StatementWord),
}

/// What a delay begins with.
#[derive(Clone, Copy)]
pub(crate) enum DelayHead {
    /// A number.
    Number,
    /// A name.
    Name,
    /// `(`
    Open,
}

/// What stands behind the `@` of an event control first.
#[derive(Clone, Copy)]
pub(crate) enum EventHead {
    /// `*`
    Star,
    /// A name.
    Name,
    /// `(`
    Open,
}

/// How the statement begins that is next, if one is, and the tokens behind its first one.
pub(crate) fn statement_head<'t, 's>(
    tokens: &'t [Token<'s>],
) -> Option<(StatementHead, &'t [Token<'s>])>
    ensures { MatchOption result (goes (part a_stmt) (seen tokens.now) ≡ false)
        (λ x. BeginsStatement (seen tokens.now) x.0 (seen x.1.now)) }
{
    let (first, rest) = next(tokens)?;
    match first.kind {
        Kind::Name => Some((StatementHead::Name, rest)),
        Kind::Mark(mark) => match mark {
            Mark::OpenBrace => Some((StatementHead::Brace, rest)),
            Mark::Semicolon => Some((StatementHead::Word(StatementWord::Null), rest)),
            Mark::Hash => Some((StatementHead::Word(StatementWord::Delay), rest)),
            Mark::At => Some((StatementHead::Word(StatementWord::Event), rest)),
            _ => None,
        },
        Kind::Word(word) => match word {
            Word::Begin => Some((StatementHead::Word(StatementWord::Block), rest)),
            Word::If => Some((StatementHead::Word(StatementWord::If), rest)),
            Word::Case => Some((StatementHead::Word(StatementWord::Case), rest)),
            Word::Casez => Some((StatementHead::Word(StatementWord::Casez), rest)),
            Word::Casex => Some((StatementHead::Word(StatementWord::Casex), rest)),
            Word::For => Some((StatementHead::Word(StatementWord::For), rest)),
            Word::While => Some((StatementHead::Word(StatementWord::While), rest)),
            Word::Repeat => Some((StatementHead::Word(StatementWord::Repeat), rest)),
            Word::Forever => Some((StatementHead::Word(StatementWord::Forever), rest)),
            _ => None,
        },
        Kind::System => match system_name(first.bytes) {
            Some(SystemName::Print(task)) => {
                Some((StatementHead::Word(StatementWord::Print(task)), rest))
            }
            Some(SystemName::Finish) => Some((StatementHead::Word(StatementWord::Finish), rest)),
            Some(SystemName::Dump(task)) => {
                Some((StatementHead::Word(StatementWord::Dump(task)), rest))
            }
            _ => None,
        },
        _ => None,
    }
}

/// The least nesting of a statement that begins so, in nodes.
pub(crate) fn least_statement(head: StatementHead) -> u32
    ensures need { result ≡ need (class_of_statement head) (fronts_of a_stmt) }
    ensures some { 0 < result }
{
    match head {
        StatementHead::Name => 2,
        StatementHead::Brace => 3,
        StatementHead::Word(word) => nesting_after(word),
    }
}

/// The least nesting of a statement that begins with the word or the mark, in nodes.
pub(crate) fn nesting_after(word: StatementWord) -> u32
    ensures need { result ≡ need (class_of (symbol_of word)) (fronts_of a_stmt) }
    ensures some { 0 < result }
{
    match word {
        StatementWord::Null => 1,
        StatementWord::Block => 1,
        StatementWord::Print(_) => 1,
        StatementWord::Finish => 1,
        StatementWord::Dump(_) => 1,
        _ => 2,
    }
}

/// Whether an item of a `case` statement is next.
pub(crate) fn begins_case_item(tokens: &[Token]) -> bool
    ensures { result ≡ goes (part a_case_item) (seen tokens.now) }
{
    match word_at(tokens, Word::Default) {
        Some(_) => true,
        None => begins_expr(tokens),
    }
}

/// How the delay begins that is next, if one is, and the tokens behind its first one.
pub(crate) fn delay_head<'t, 's>(tokens: &'t [Token<'s>]) -> Option<(DelayHead, &'t [Token<'s>])>
    ensures { MatchOption result (goes delay (seen tokens.now) ≡ false)
        (λ x. BeginsDelay (seen tokens.now) x.0 (seen x.1.now)) }
{
    let (first, rest) = next(tokens)?;
    match first.kind {
        Kind::Number(_) => Some((DelayHead::Number, rest)),
        Kind::Name => Some((DelayHead::Name, rest)),
        Kind::Mark(mark) => match mark {
            Mark::Open => Some((DelayHead::Open, rest)),
            _ => None,
        },
        _ => None,
    }
}

/// How what an event control waits for begins, if that is next, and the tokens behind its first one.
pub(crate) fn event_head<'t, 's>(tokens: &'t [Token<'s>]) -> Option<(EventHead, &'t [Token<'s>])>
    ensures { MatchOption result (goes event (seen tokens.now) ≡ false)
        (λ x. BeginsEvent (seen tokens.now) x.0 (seen x.1.now)) }
{
    let (first, rest) = next(tokens)?;
    match first.kind {
        Kind::Name => Some((EventHead::Name, rest)),
        Kind::Mark(mark) => match mark {
            Mark::Star => Some((EventHead::Star, rest)),
            Mark::Open => Some((EventHead::Open, rest)),
            _ => None,
        },
        _ => None,
    }
}

/// What stands between two terms of an event control, if it is next, and the tokens behind it.
pub(crate) fn separator_at<'t, 's>(tokens: &'t [Token<'s>]) -> Option<(Separator, &'t [Token<'s>])>
    ensures { MatchOption result (goes (word w.Or or mark m.Comma) (seen tokens.now) ≡ false)
        (λ x. seen tokens.now ≡ separator_symbol x.0 ∷ seen x.1.now) }
{
    let (first, rest) = next(tokens)?;
    match first.kind {
        Kind::Word(word) => match word {
            Word::Or => Some((Separator::Or, rest)),
            _ => None,
        },
        Kind::Mark(mark) => match mark {
            Mark::Comma => Some((Separator::Comma, rest)),
            _ => None,
        },
        _ => None,
    }
}

/// Which edge a term of an event control waits for, and the tokens behind its word.
pub(crate) fn edge_at<'t, 's>(tokens: &'t [Token<'s>]) -> (Edge, &'t [Token<'s>])
    ensures { (depth : ℕ) → Gets edge_word depth (seen tokens.now) (edge_tree result.0) (seen result.1.now) }
{
    match word_at(tokens, Word::Posedge) {
        Some(rest) => (Edge::Posedge, rest),
        None => match word_at(tokens, Word::Negedge) {
            Some(rest) => (Edge::Negedge, rest),
            None => (Edge::Any, tokens),
        },
    }
}
