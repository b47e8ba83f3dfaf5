//! Reading what stands behind system tasks (IEEE 1364-2005, clause A.6.9).
ghost use Rattle.std.specs.Prelude.{◌≡◌, ◌∷◌, ℕ, false, MatchOption};
ghost use Rattle.vs_syntax.specs.vs_lexer.specs.declared.token.Mark.TheVariants as m;
ghost use Rattle.vs_syntax.specs.Symbols.{a_number, a_mark, a_text, a_print, a_finish, a_dump, a_time, any_text, the_time};
ghost use Rattle.vs_syntax.specs.Grammar.{Grammar, ◌·◌, token, part, mark, number, print_arguments, finish_argument, dump_arguments, an_argument, a_dump_argument};
ghost use Rattle.vs_syntax.specs.Tables.{goes};
ghost use Rattle.vs_syntax.specs.Derivation.{both, leaf};
ghost use Rattle.vs_syntax.specs.Views.{argument_tree, print_tree, finish_tree, dump_argument_tree, dump_tree, stmt_tree};
ghost use Rattle.vs_parse_expressions.specs.Answers.{seen, Answers, ReadsTree};
ghost use Rattle.vs_parse_expressions.specs.Parts.{ReadsWithin, headed, marked};
ghost use Rattle.vs_parse_expressions.specs.Tasks.{printed, dumped};

use crate::list::{Element, ended, others};
use crate::{
    Parsed, ReadFault, SystemName, expect_mark, expr, literal, mark_at, next, system_name,
};
use std::alloc::Global;
use vs_syntax::vs_lexer::{Kind, Literal, Mark, Token};
use vs_syntax::{Argument, DumpArgument, DumpTask, PrintArguments, PrintTask, Stmt};

/// An argument of `$display` or `$strobe` in a list of them.
struct Printed;

impl Element for Printed {
    type Syntax = Argument;

    ghost grammar = { part an_argument };

    ghost tree_of = { argument_tree };

    fn read<'t, 's>(
        alloc: Global,
        depth: u32,
        tokens: &'t [Token<'s>],
    ) -> Result<Parsed<'t, 's, Argument>, ReadFault<'t, 's>> {
        match time_at(tokens) {
            Some(rest) => Ok(Parsed {
                tree: Argument::Time,
                rest,
            }),
            None => {
                let value = expr(alloc, depth, tokens)?;
                Ok(Parsed {
                    tree: Argument::Value(value.tree),
                    rest: value.rest,
                })
            }
        }
    }
}

/// An argument of `$dumpfile` or `$dumpvars` in a list of them.
struct Dumped;

impl Element for Dumped {
    type Syntax = DumpArgument;

    ghost grammar = { part a_dump_argument };

    ghost tree_of = { dump_argument_tree };

    fn read<'t, 's>(
        alloc: Global,
        depth: u32,
        tokens: &'t [Token<'s>],
    ) -> Result<Parsed<'t, 's, DumpArgument>, ReadFault<'t, 's>> {
        if begins_text(tokens) {
            let (text, rest) = expect_text(alloc, tokens)?;
            return Ok(Parsed {
                tree: DumpArgument::Text(text),
                rest,
            });
        }
        let value = expr(alloc, depth, tokens)?;
        let inner = Box::new(alloc, value.tree)?;
        Ok(Parsed {
            tree: DumpArgument::Value(inner),
            rest: value.rest,
        })
    }
}

/// Whether a text is next.
fn begins_text(tokens: &[Token]) -> bool
    ensures { result ≡ goes (token any_text) (seen tokens.now) }
{
    match next(tokens) {
        Some((first, _)) => match first.kind {
            Kind::Text => true,
            _ => false,
        },
        None => false,
    }
}

/// Reads a text, by its own bytes.
fn expect_text<'t, 's>(
    alloc: Global,
    tokens: &'t [Token<'s>],
) -> Result<(Vec<u8>, &'t [Token<'s>]), ReadFault<'t, 's>>
    ensures { (depth : ℕ) → Answers (token any_text) depth (seen tokens.now)
        (λ x. leaf (a_text x.0.items)) (λ x. seen x.1.now) result }
{
    let Some((first, rest)) = next(tokens) else {
        return Err(ReadFault::Unexpected(tokens));
    };
    match first.kind {
        Kind::Text => Ok((first.text(alloc)?, rest)),
        _ => Err(ReadFault::Unexpected(tokens)),
    }
}

/// The tokens behind a `$time`, if it is next.
fn time_at<'t, 's>(tokens: &'t [Token<'s>]) -> Option<&'t [Token<'s>]>
    ensures { MatchOption result (goes (token the_time) (seen tokens.now) ≡ false) (λ rest. seen tokens.now ≡ a_time ∷ seen rest.now) }
{
    let (first, rest) = next(tokens)?;
    match first.kind {
        Kind::System => match system_name(first.bytes) {
            Some(SystemName::Time) => Some(rest),
            _ => None,
        },
        _ => None,
    }
}

/// Reads what stands in the parentheses of `$display` or `$strobe`, and the second one.
fn print_list<'t, 's>(
    alloc: Global,
    depth: u32,
    tokens: &'t [Token<'s>],
) -> Result<Parsed<'t, 's, PrintArguments>, ReadFault<'t, 's>>
    ensures { ReadsWithin print_tree (marked m.Open) printed depth tokens.now result }
{
    if begins_text(tokens) {
        let (text, after) = expect_text(alloc, tokens)?;
        let all = others::<Printed>(alloc, depth, after, Vec::new(alloc))?;
        let arguments = Parsed {
            tree: PrintArguments::Text(text, all.tree),
            rest: all.rest,
        };
        return ended(arguments, Mark::Close);
    }
    let none = Parsed {
        tree: PrintArguments::Empty,
        rest: tokens,
    };
    ended(none, Mark::Close)
}

/// Reads what stands behind `$display` or `$strobe`.
fn print_arguments<'t, 's>(
    alloc: Global,
    depth: u32,
    tokens: &'t [Token<'s>],
) -> Result<Parsed<'t, 's, PrintArguments>, ReadFault<'t, 's>>
    ensures { ReadsTree print_arguments depth tokens.now print_tree result }
{
    let Some(inside) = mark_at(tokens, Mark::Open) else {
        return Ok(Parsed {
            tree: PrintArguments::Missing,
            rest: tokens,
        });
    };
    print_list(alloc, depth, inside)
}

/// Reads what stands behind `$display` or `$strobe`, and the semicolon.
#[inline(never)]
pub fn print_stmt<'t, 's>(
    alloc: Global,
    depth: u32,
    tokens: &'t [Token<'s>],
    task: PrintTask,
) -> Result<Parsed<'t, 's, Stmt>, ReadFault<'t, 's>>
    ensures { ReadsWithin stmt_tree (headed (a_print task)) (print_arguments · mark m.Semicolon) depth tokens.now result }
{
    let arguments = print_arguments(alloc, depth, tokens)?;
    let stmt = Parsed {
        tree: Stmt::Print(task, arguments.tree),
        rest: arguments.rest,
    };
    ended(stmt, Mark::Semicolon)
}

/// Reads the semicolon behind a `$finish` with this number, or without one.
fn finished<'t, 's>(
    tokens: &'t [Token<'s>],
    number: Option<Literal>,
) -> Result<Parsed<'t, 's, Stmt>, ReadFault<'t, 's>>
    ensures { (depth : ℕ) → ReadsWithin stmt_tree (λ y. headed a_finish (both (finish_tree number) y)) (mark m.Semicolon)
        depth tokens.now result }
{
    let stmt = Parsed {
        tree: Stmt::Finish(number),
        rest: tokens,
    };
    ended(stmt, Mark::Semicolon)
}

/// Reads what stands behind `$finish`, and the semicolon.
#[inline(never)]
pub fn finish_stmt<'t, 's>(
    tokens: &'t [Token<'s>],
) -> Result<Parsed<'t, 's, Stmt>, ReadFault<'t, 's>>
    ensures { (depth : ℕ) → ReadsWithin stmt_tree (headed a_finish) (finish_argument · mark m.Semicolon) depth tokens.now result }
{
    let Some(inside) = mark_at(tokens, Mark::Open) else {
        return finished(tokens, None);
    };
    let Some((first, after)) = next(inside) else {
        return Err(ReadFault::Unexpected(inside));
    };
    let Some(found) = literal(first.kind) else {
        return Err(ReadFault::Unexpected(inside));
    };
    let rest = expect_mark(after, Mark::Close)?;
    finished(rest, Some(found))
}

/// Reads what stands in the parentheses of `$dumpfile` or `$dumpvars`, and the second one.
fn dump_list<'t, 's>(
    alloc: Global,
    depth: u32,
    tokens: &'t [Token<'s>],
) -> Result<Parsed<'t, 's, Option<(DumpArgument, Vec<DumpArgument>)>>, ReadFault<'t, 's>>
    ensures { ReadsWithin dump_tree (marked m.Open) dumped depth tokens.now result }
{
    let first = Dumped::read(alloc, depth, tokens)?;
    let all = others::<Dumped>(alloc, depth, first.rest, Vec::new(alloc))?;
    let arguments = Parsed {
        tree: Some((first.tree, all.tree)),
        rest: all.rest,
    };
    ended(arguments, Mark::Close)
}

/// Reads what stands behind `$dumpfile` or `$dumpvars`.
fn dump_arguments<'t, 's>(
    alloc: Global,
    depth: u32,
    tokens: &'t [Token<'s>],
) -> Result<Parsed<'t, 's, Option<(DumpArgument, Vec<DumpArgument>)>>, ReadFault<'t, 's>>
    ensures { ReadsTree dump_arguments depth tokens.now dump_tree result }
{
    let Some(inside) = mark_at(tokens, Mark::Open) else {
        return Ok(Parsed {
            tree: None,
            rest: tokens,
        });
    };
    dump_list(alloc, depth, inside)
}

/// Reads what stands behind `$dumpfile` or `$dumpvars`, and the semicolon.
#[inline(never)]
pub fn dump_stmt<'t, 's>(
    alloc: Global,
    depth: u32,
    tokens: &'t [Token<'s>],
    task: DumpTask,
) -> Result<Parsed<'t, 's, Stmt>, ReadFault<'t, 's>>
    ensures { ReadsWithin stmt_tree (headed (a_dump task)) (dump_arguments · mark m.Semicolon) depth tokens.now result }
{
    let arguments = dump_arguments(alloc, depth, tokens)?;
    let stmt = Parsed {
        tree: Stmt::Dump(task, arguments.tree),
        rest: arguments.rest,
    };
    ended(stmt, Mark::Semicolon)
}
