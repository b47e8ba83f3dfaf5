//! Reading statements. What one form of them needs is never inlined, so that a level of nesting takes little stack.
ghost use Rattle.std.specs.Prelude.{◌≡◌, ◌≤◌, map};
ghost use Rattle.vs_syntax.specs.vs_lexer.specs.declared.token.Mark.TheVariants as m;
ghost use Rattle.vs_syntax.specs.vs_lexer.specs.declared.token.Word.TheVariants as w;
ghost use Rattle.vs_syntax.specs.Symbols.{a_mark, a_word};
ghost use Rattle.vs_syntax.specs.Grammar.{◌·◌, part, many, word, block_head, guarded, branches, case_items, for_parts, delay, event, a_stmt};
ghost use Rattle.vs_syntax.specs.Tables.{low};
ghost use Rattle.vs_syntax.specs.Derivation.{leaf, both};
ghost use Rattle.vs_syntax.specs.Views.{row_of, some_tree, case_word, expr_tree, guarded_tree, stmt_tree};
ghost use Rattle.vs_parse_expressions.specs.Answers.{seen, ReadsTree};
ghost use Rattle.vs_parse_expressions.specs.Blocks.{naming_tree};
ghost use Rattle.vs_parser.specs.Heads.{BeginsStatement, symbol_of, grammar_after, loop_word};
ghost use Rattle.vs_parse_expressions.specs.Parts.{ReadsWithin, headed, boxed_tree, labelled_stmt_tree};

use crate::assignment::{assigned_stmt, for_header, guard};
use crate::control::{delay_value, event_control};
use crate::head::{
    StatementHead, StatementWord, begins_case_item, least_statement, statement_head,
};
use std::alloc::Global;
use vs_parse_expressions::{
    BlockName, Parsed, ReadFault, case_label, dump_stmt, expect_word, finish_stmt, naming,
    print_stmt, word_at,
};
use vs_syntax::vs_lexer::{Token, Word};
use vs_syntax::vs_logic4::CaseKind;
use vs_syntax::{CaseLabel, Expr, Stmt};

/// Reads a statement, in at most `depth` nodes below one another.
#[cycle(stmt)]
pub fn stmt<'t, 's>(
    alloc: Global,
    depth: u32,
    tokens: &'t [Token<'s>],
) -> Result<Parsed<'t, 's, Stmt>, ReadFault<'t, 's>>
    ensures { ReadsTree (part a_stmt) depth tokens.now stmt_tree result }
{
    let Some((head, after)) = statement_head(tokens) else {
        return Err(ReadFault::Unexpected(tokens));
    };
    headed(alloc, depth, tokens, head, after)
}

/// Reads a statement that begins as `head` says, behind whose first token `after` stands.
#[cycle(stmt)]
fn headed<'t, 's>(
    alloc: Global,
    depth: u32,
    tokens: &'t [Token<'s>],
    head: StatementHead,
    after: &'t [Token<'s>],
) -> Result<Parsed<'t, 's, Stmt>, ReadFault<'t, 's>>
    requires { BeginsStatement (seen tokens.now) head (seen after.now) }
    ensures { ReadsTree (part a_stmt) depth tokens.now stmt_tree result }
{
    if depth < least_statement(head) {
        return Err(ReadFault::TooDeep(tokens));
    }
    match head {
        StatementHead::Name => assigned_stmt(alloc, depth, tokens),
        StatementHead::Brace => assigned_stmt(alloc, depth, tokens),
        StatementHead::Word(word) => statement_rest(alloc, depth - 1, after, word),
    }
}

/// Reads a statement behind the word, the mark or the system name that it begins with.
#[cycle(stmt)]
fn statement_rest<'t, 's>(
    alloc: Global,
    depth: u32,
    tokens: &'t [Token<'s>],
    word: StatementWord,
) -> Result<Parsed<'t, 's, Stmt>, ReadFault<'t, 's>>
    requires { low (grammar_after word) ≤ depth }
    ensures { ReadsWithin stmt_tree (headed (symbol_of word)) (grammar_after word) depth tokens.now result }
{
    match word {
        StatementWord::Null => Ok(Parsed {
            tree: Stmt::Null,
            rest: tokens,
        }),
        StatementWord::Block => block(alloc, depth, tokens),
        StatementWord::If => conditional(alloc, depth, tokens),
        StatementWord::Case => case_stmt(alloc, depth, tokens, CaseKind::Case),
        StatementWord::Casez => case_stmt(alloc, depth, tokens, CaseKind::Casez),
        StatementWord::Casex => case_stmt(alloc, depth, tokens, CaseKind::Casex),
        StatementWord::For => for_stmt(alloc, depth, tokens),
        StatementWord::While => loop_stmt(alloc, depth, tokens, false),
        StatementWord::Repeat => loop_stmt(alloc, depth, tokens, true),
        StatementWord::Forever => forever_stmt(alloc, depth, tokens),
        StatementWord::Delay => delayed_stmt(alloc, depth, tokens),
        StatementWord::Event => event_stmt(alloc, depth, tokens),
        StatementWord::Print(task) => print_stmt(alloc, depth, tokens, task),
        StatementWord::Finish => finish_stmt(tokens),
        StatementWord::Dump(task) => dump_stmt(alloc, depth, tokens, task),
    }
}

/// Reads a statement into a box.
#[cycle(stmt)]
#[inline(never)]
fn boxed<'t, 's>(
    alloc: Global,
    depth: u32,
    tokens: &'t [Token<'s>],
) -> Result<Parsed<'t, 's, Box<Stmt>>, ReadFault<'t, 's>>
    ensures { ReadsTree (part a_stmt) depth tokens.now boxed_tree result }
{
    let inner = stmt(alloc, depth, tokens)?;
    let rest = inner.rest;
    let tree = Box::new(alloc, inner.tree)?;
    Ok(Parsed { tree, rest })
}

/// Reads what stands behind the `begin` of a block: its name and declarations, where it has a name, its statements, and `end`.
#[cycle(stmt)]
#[inline(never)]
fn block<'t, 's>(
    alloc: Global,
    depth: u32,
    tokens: &'t [Token<'s>],
) -> Result<Parsed<'t, 's, Stmt>, ReadFault<'t, 's>>
    ensures { ReadsWithin stmt_tree (headed (a_word w.Begin)) (block_head · many (part a_stmt) · word w.End) depth tokens.now result }
{
    let naming = naming(alloc, depth, tokens)?;
    let mut tree = Vec::new(alloc);
    // All of them, but from a call: so the borrow checker can join it with what the loop sets.
    let (_none, mut rest) = naming.rest.split_at(0);
    while let Some((head, after)) = statement_head(rest) {
        let inner = headed(alloc, depth, rest, head, after)?;
        rest = inner.rest;
        tree.push(inner.tree)?;
    }
    let behind = expect_word(rest, Word::End)?;
    Ok(Parsed {
        tree: named(naming.tree, tree),
        rest: behind,
    })
}

/// The block of the statements, with the name and the declarations where there are some.
#[inline(never)]
fn named(naming: Option<BlockName>, statements: Vec<Stmt>) -> Stmt
    ensures { stmt_tree result ≡ headed (a_word w.Begin)
        (both (naming_tree naming) (both (row_of (map stmt_tree statements.items)) (leaf (a_word w.End)))) }
{
    match naming {
        None => Stmt::Block(statements),
        Some(found) => Stmt::Named(found.name, found.locals, statements),
    }
}

/// Reads what stands behind `if`: the condition, the statement, and the one behind `else`, where that is next.
#[cycle(stmt)]
#[inline(never)]
fn conditional<'t, 's>(
    alloc: Global,
    depth: u32,
    tokens: &'t [Token<'s>],
) -> Result<Parsed<'t, 's, Stmt>, ReadFault<'t, 's>>
    requires { 1 ≤ depth }
    ensures { ReadsWithin stmt_tree (headed (a_word w.If)) (guarded branches) depth tokens.now result }
{
    let condition = guard(alloc, depth, tokens)?;
    let inner = boxed(alloc, depth, condition.rest)?;
    let test = Box::new(alloc, condition.tree)?;
    let Some(after) = word_at(inner.rest, Word::Else) else {
        return Ok(Parsed {
            tree: Stmt::If(test, inner.tree, None),
            rest: inner.rest,
        });
    };
    let other = boxed(alloc, depth, after)?;
    Ok(Parsed {
        tree: Stmt::If(test, inner.tree, Some(other.tree)),
        rest: other.rest,
    })
}

/// Reads what stands behind the word of a `case` statement of a kind: the expression, the items, and `endcase`.
#[cycle(stmt)]
#[inline(never)]
fn case_stmt<'t, 's>(
    alloc: Global,
    depth: u32,
    tokens: &'t [Token<'s>],
    kind: CaseKind,
) -> Result<Parsed<'t, 's, Stmt>, ReadFault<'t, 's>>
    requires { 1 ≤ depth }
    ensures { ReadsWithin stmt_tree (headed (a_word (case_word kind))) (guarded case_items) depth tokens.now result }
{
    let subject = guard(alloc, depth, tokens)?;
    let items = items(alloc, depth, subject.rest)?;
    let operand = Box::new(alloc, subject.tree)?;
    Ok(Parsed {
        tree: Stmt::Case(kind, operand, items.tree),
        rest: items.rest,
    })
}

/// Reads the items of a `case` statement, and `endcase`.
#[cycle(stmt)]
#[inline(never)]
fn items<'t, 's>(
    alloc: Global,
    depth: u32,
    tokens: &'t [Token<'s>],
) -> Result<Parsed<'t, 's, Vec<(CaseLabel, Stmt)>>, ReadFault<'t, 's>>
    requires { 1 ≤ depth }
    ensures { ReadsTree case_items depth tokens.now
        (λ xs. both (some_tree (map labelled_stmt_tree xs.items)) (leaf (a_word w.Endcase))) result }
{
    if !begins_case_item(tokens) {
        return Err(ReadFault::Unexpected(tokens));
    }
    let mut tree = Vec::new(alloc);
    // All of them, but from a call: so the borrow checker can join it with what the loop sets.
    let (_none, mut rest) = tokens.split_at(0);
    while begins_case_item(rest) {
        let label = case_label(alloc, depth, rest)?;
        let inner = stmt(alloc, depth, label.rest)?;
        rest = inner.rest;
        tree.push((label.tree, inner.tree))?;
    }
    let after = expect_word(rest, Word::Endcase)?;
    Ok(Parsed { tree, rest: after })
}

/// Reads what stands behind `for`.
#[cycle(stmt)]
#[inline(never)]
fn for_stmt<'t, 's>(
    alloc: Global,
    depth: u32,
    tokens: &'t [Token<'s>],
) -> Result<Parsed<'t, 's, Stmt>, ReadFault<'t, 's>>
    ensures { ReadsWithin stmt_tree (headed (a_word w.For)) for_parts depth tokens.now result }
{
    let read = for_header(alloc, depth, tokens)?;
    let inner = boxed(alloc, depth, read.rest)?;
    let header = Box::new(alloc, read.tree)?;
    Ok(Parsed {
        tree: Stmt::For(header, inner.tree),
        rest: inner.rest,
    })
}

/// Reads what stands behind `repeat`, else behind `while`: an expression in parentheses and a statement.
#[cycle(stmt)]
#[inline(never)]
fn loop_stmt<'t, 's>(
    alloc: Global,
    depth: u32,
    tokens: &'t [Token<'s>],
    counted: bool,
) -> Result<Parsed<'t, 's, Stmt>, ReadFault<'t, 's>>
    ensures { ReadsWithin stmt_tree (headed (a_word (loop_word counted))) (guarded (part a_stmt)) depth tokens.now result }
{
    let condition = guard(alloc, depth, tokens)?;
    let inner = boxed(alloc, depth, condition.rest)?;
    Ok(Parsed {
        tree: looped(counted, condition.tree, inner.tree),
        rest: inner.rest,
    })
}

/// The `repeat` statement of the expression and the statement, else the `while` statement.
#[inline(never)]
fn looped(counted: bool, condition: Expr, body: Box<Stmt>) -> Stmt
    ensures { stmt_tree result ≡ headed (a_word (loop_word counted)) (guarded_tree (expr_tree condition) (boxed_tree body)) }
{
    if counted {
        Stmt::Repeat(condition, body)
    } else {
        Stmt::While(condition, body)
    }
}

/// Reads what stands behind `forever`.
#[cycle(stmt)]
#[inline(never)]
fn forever_stmt<'t, 's>(
    alloc: Global,
    depth: u32,
    tokens: &'t [Token<'s>],
) -> Result<Parsed<'t, 's, Stmt>, ReadFault<'t, 's>>
    ensures { ReadsWithin stmt_tree (headed (a_word w.Forever)) (part a_stmt) depth tokens.now result }
{
    let inner = boxed(alloc, depth, tokens)?;
    Ok(Parsed {
        tree: Stmt::Forever(inner.tree),
        rest: inner.rest,
    })
}

/// Reads what stands behind the `#` of a delay: the time, and the statement.
#[cycle(stmt)]
#[inline(never)]
fn delayed_stmt<'t, 's>(
    alloc: Global,
    depth: u32,
    tokens: &'t [Token<'s>],
) -> Result<Parsed<'t, 's, Stmt>, ReadFault<'t, 's>>
    ensures { ReadsWithin stmt_tree (headed (a_mark m.Hash)) (delay · part a_stmt) depth tokens.now result }
{
    let time = delay_value(alloc, depth, tokens)?;
    let inner = boxed(alloc, depth, time.rest)?;
    Ok(Parsed {
        tree: Stmt::Delay(time.tree, inner.tree),
        rest: inner.rest,
    })
}

/// Reads what stands behind the `@` of an event control: what it waits for, and the statement.
#[cycle(stmt)]
#[inline(never)]
fn event_stmt<'t, 's>(
    alloc: Global,
    depth: u32,
    tokens: &'t [Token<'s>],
) -> Result<Parsed<'t, 's, Stmt>, ReadFault<'t, 's>>
    ensures { ReadsWithin stmt_tree (headed (a_mark m.At)) (event · part a_stmt) depth tokens.now result }
{
    let control = event_control(alloc, depth, tokens)?;
    let inner = boxed(alloc, depth, control.rest)?;
    Ok(Parsed {
        tree: Stmt::Event(control.tree, inner.tree),
        rest: inner.rest,
    })
}
