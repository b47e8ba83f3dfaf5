//! Reading single tokens.
ghost use Rattle.std.specs.Prelude.{◌≡◌, ℕ, List, [], ◌∷◌, false, MatchOption};
ghost use Rattle.vs_syntax.specs.vs_lexer.specs.declared.token.Kind.TheVariants as k;
ghost use Rattle.vs_syntax.specs.vs_lexer.specs.declared.token.Mark.{Mark};
ghost use Rattle.vs_syntax.specs.Symbols.{a_mark, a_word, spelled, system_symbol};
ghost use Rattle.vs_syntax.specs.Grammar.{mark, word, name, part_marks};
ghost use Rattle.vs_syntax.specs.Tables.{goes};
ghost use Rattle.vs_syntax.specs.Derivation.{leaf};
ghost use Rattle.vs_syntax.specs.Views.{name_tree, part_mark};
ghost use Rattle.vs_parse_expressions.specs.Answers.{seen, Answers};
ghost use Rattle.vs_parse_expressions.specs.Heads.{NoNumber, system_spelled};

use crate::reading::ReadFault;
use std::alloc::Global;
use vs_syntax::vs_lexer::{Kind, Literal, Mark, Token, Word};
use vs_syntax::{DumpTask, PartSelect, PrintTask};

/// The name of the conversion to signed (IEEE 1364-2005, clause 5.5).
const SIGNED: &[u8] = b"$signed";

/// The name of the conversion to unsigned (IEEE 1364-2005, clause 5.5).
const UNSIGNED: &[u8] = b"$unsigned";

/// The name of the task that prints at once (IEEE 1364-2005, clause 17.1.1).
const DISPLAY: &[u8] = b"$display";

/// The name of the task that prints at the end of the time slot (IEEE 1364-2005, clause 17.1.2).
const STROBE: &[u8] = b"$strobe";

/// The name of the task that ends the run (IEEE 1364-2005, clause 17.4.1).
const FINISH: &[u8] = b"$finish";

/// The name of the task that names the dump (IEEE 1364-2005, clause 18.1.1).
const DUMP_FILE: &[u8] = b"$dumpfile";

/// The name of the task that begins the dump (IEEE 1364-2005, clause 18.1.2).
const DUMP_VARS: &[u8] = b"$dumpvars";

/// The name of the function of the time (IEEE 1364-2005, clause 17.7.1).
const TIME: &[u8] = b"$time";

/// The next token and those behind it.
pub fn next<'t, 's>(tokens: &'t [Token<'s>]) -> Option<(&'t Token<'s>, &'t [Token<'s>])>
    ensures { MatchOption result (tokens.now ≡ []) (λ x. tokens.now ≡ x.0.now ∷ x.1.now) }
{
    tokens.split_first()
}

/// The mark that an operator is written by: `^~` is another spelling of `~^`.
pub(crate) fn spelled(mark: Mark) -> Mark
    ensures { result ≡ spelled mark }
{
    match mark {
        Mark::XorNot => Mark::Xnor,
        _ => mark,
    }
}

/// The mark that is next, if one is, and the tokens behind it.
pub(crate) fn next_mark<'t, 's>(tokens: &'t [Token<'s>]) -> Option<(Mark, &'t [Token<'s>])>
    ensures { MatchOption result ((x : Mark) → goes (mark x) (seen tokens.now) ≡ false)
        (λ x. seen tokens.now ≡ a_mark x.0 ∷ seen x.1.now) }
{
    let (first, rest) = next(tokens)?;
    match first.kind {
        Kind::Mark(found) => Some((spelled(found), rest)),
        _ => None,
    }
}

/// The tokens behind the mark, if it is next.
pub fn mark_at<'t, 's>(tokens: &'t [Token<'s>], wanted: Mark) -> Option<&'t [Token<'s>]>
    ensures { MatchOption result (goes (mark wanted) (seen tokens.now) ≡ false)
        (λ rest. seen tokens.now ≡ a_mark wanted ∷ seen rest.now) }
{
    let (found, rest) = next_mark(tokens)?;
    if found == wanted { Some(rest) } else { None }
}

/// What stands between the two expressions of a part-select, if it is next, and the tokens behind it.
pub(crate) fn part_select_at<'t, 's>(
    tokens: &'t [Token<'s>],
) -> Option<(PartSelect, &'t [Token<'s>])>
    ensures { MatchOption result (goes part_marks (seen tokens.now) ≡ false)
        (λ x. seen tokens.now ≡ a_mark (part_mark x.0) ∷ seen x.1.now) }
{
    let (found, rest) = next_mark(tokens)?;
    match found {
        Mark::Colon => Some((PartSelect::Bounds, rest)),
        Mark::PlusColon => Some((PartSelect::Upward, rest)),
        Mark::MinusColon => Some((PartSelect::Downward, rest)),
        _ => None,
    }
}

/// The tokens behind the reserved word, if it is next.
pub fn word_at<'t, 's>(tokens: &'t [Token<'s>], wanted: Word) -> Option<&'t [Token<'s>]>
    ensures { MatchOption result (goes (word wanted) (seen tokens.now) ≡ false)
        (λ rest. seen tokens.now ≡ a_word wanted ∷ seen rest.now) }
{
    let (first, rest) = next(tokens)?;
    match first.kind {
        Kind::Word(found) => { if found == wanted { Some(rest) } else { None } }
        _ => None,
    }
}

/// Reads a mark: the tokens behind it.
pub fn expect_mark<'t, 's>(
    tokens: &'t [Token<'s>],
    wanted: Mark,
) -> Result<&'t [Token<'s>], ReadFault<'t, 's>>
    ensures { (depth : ℕ) → Answers (mark wanted) depth (seen tokens.now)
        (λ _. leaf (a_mark wanted)) (λ rest. seen rest.now) result }
{
    match mark_at(tokens, wanted) {
        Some(rest) => Ok(rest),
        None => Err(ReadFault::Unexpected(tokens)),
    }
}

/// Reads a reserved word: the tokens behind it.
pub fn expect_word<'t, 's>(
    tokens: &'t [Token<'s>],
    wanted: Word,
) -> Result<&'t [Token<'s>], ReadFault<'t, 's>>
    ensures { (depth : ℕ) → Answers (word wanted) depth (seen tokens.now)
        (λ _. leaf (a_word wanted)) (λ rest. seen rest.now) result }
{
    match word_at(tokens, wanted) {
        Some(rest) => Ok(rest),
        None => Err(ReadFault::Unexpected(tokens)),
    }
}

/// Reads a name: a copy of its bytes, and the tokens behind it.
pub fn expect_name<'t, 's>(
    alloc: Global,
    tokens: &'t [Token<'s>],
) -> Result<(Vec<u8>, &'t [Token<'s>]), ReadFault<'t, 's>>
    ensures { (depth : ℕ) → Answers name depth (seen tokens.now)
        (λ x. name_tree x.0.items) (λ x. seen x.1.now) result }
{
    let Some((first, rest)) = next(tokens) else {
        return Err(ReadFault::Unexpected(tokens));
    };
    match first.kind {
        Kind::Name => Ok((Vec::from_slice(alloc, first.name())?, rest)),
        _ => Err(ReadFault::Unexpected(tokens)),
    }
}

/// The number that the token is, if it is one.
pub fn literal(kind: Kind) -> Option<Literal>
    ensures { MatchOption result ((bytes : List ℕ) → NoNumber kind bytes) (λ l. kind ≡ k.Number l) }
{
    match kind {
        Kind::Number(found) => Some(found),
        _ => None,
    }
}

/// The system names of the grammar.
#[derive(Clone, Copy)]
pub enum SystemName {
    /// `$signed`, else `$unsigned` (IEEE 1364-2005, clause 5.5).
    Cast(bool),
    /// A system task that prints (clause 17.1).
    Print(PrintTask),
    /// `$finish` (clause 17.4.1).
    Finish,
    /// A system task that says what is dumped (clause 18.1).
    Dump(DumpTask),
    /// `$time` (clause 17.7.1).
    Time,
}

/// The system name of these bytes, if it is one of the grammar.
pub fn system_name(name: &[u8]) -> Option<SystemName>
    ensures { system_spelled result ≡ system_symbol name.now }
{
    if SIGNED == name {
        Some(SystemName::Cast(true))
    } else if UNSIGNED == name {
        Some(SystemName::Cast(false))
    } else if DISPLAY == name {
        Some(SystemName::Print(PrintTask::Display))
    } else if STROBE == name {
        Some(SystemName::Print(PrintTask::Strobe))
    } else if FINISH == name {
        Some(SystemName::Finish)
    } else if DUMP_FILE == name {
        Some(SystemName::Dump(DumpTask::File))
    } else if DUMP_VARS == name {
        Some(SystemName::Dump(DumpTask::Vars))
    } else if TIME == name {
        Some(SystemName::Time)
    } else {
        None
    }
}
