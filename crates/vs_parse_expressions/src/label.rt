//! Reading what stands before the statements of `case` items.
ghost use Rattle.std.specs.Prelude.{◌≡◌, ◌≤◌, ◌∷◌, ℕ, false};
ghost use Rattle.vs_syntax.specs.vs_lexer.specs.declared.token.Word.TheVariants as w;
ghost use Rattle.vs_syntax.specs.Symbols.{a_word};
ghost use Rattle.vs_syntax.specs.Grammar.{part, word, a_stmt, a_case_item, an_expr};
ghost use Rattle.vs_syntax.specs.Tables.{goes};
ghost use Rattle.vs_syntax.specs.Views.{expr_tree, labelled_tree};
ghost use Rattle.vs_parse_expressions.specs.Answers.{seen, ReadsTree};
ghost use Rattle.vs_parse_expressions.specs.Parts.{Beyond, Leads};

use crate::list::{Element, ended, others};
use crate::{Parsed, ReadFault, expr, mark_at, word_at};
use std::alloc::Global;
use vs_syntax::vs_lexer::{Mark, Token, Word};
use vs_syntax::{CaseLabel, Expr};

/// An expression in a list of them.
struct CaseItem;

impl Element for CaseItem {
    type Syntax = Expr;

    ghost grammar = { part an_expr };

    ghost tree_of = { expr_tree };

    fn read<'t, 's>(
        alloc: Global,
        depth: u32,
        tokens: &'t [Token<'s>],
    ) -> Result<Parsed<'t, 's, Expr>, ReadFault<'t, 's>> {
        expr(alloc, depth, tokens)
    }
}

/// Reads what stands before the statement of a `case` item.
pub fn case_label<'t, 's>(
    alloc: Global,
    depth: u32,
    tokens: &'t [Token<'s>],
) -> Result<Parsed<'t, 's, CaseLabel>, ReadFault<'t, 's>>
    requires { 1 ≤ depth }
    ensures { Leads (part a_stmt) (part a_case_item) labelled_tree depth tokens.now result }
{
    match word_at(tokens, Word::Default) {
        Some(after) => Ok(default_label(tokens, after)),
        None => choices(alloc, depth, tokens),
    }
}

/// The label `default`, behind whose word `after` stands, with its colon, where that is next.
fn default_label<'t, 's>(
    tokens: &'t [Token<'s>],
    after: &'t [Token<'s>],
) -> Parsed<'t, 's, CaseLabel>
    requires { seen tokens.now ≡ a_word w.Default ∷ seen after.now }
    ensures { (depth : ℕ) → 1 ≤ depth → Beyond (part a_stmt) (part a_case_item) (labelled_tree result.tree) depth
        (seen tokens.now) (seen result.rest.now) }
{
    match mark_at(after, Mark::Colon) {
        Some(rest) => Parsed {
            tree: CaseLabel::Default(true),
            rest,
        },
        None => Parsed {
            tree: CaseLabel::Default(false),
            rest: after,
        },
    }
}

/// Reads the expressions before the statement of a `case` item, and the colon behind them.
fn choices<'t, 's>(
    alloc: Global,
    depth: u32,
    tokens: &'t [Token<'s>],
) -> Result<Parsed<'t, 's, CaseLabel>, ReadFault<'t, 's>>
    requires depth { 1 ≤ depth }
    requires first { goes (word w.Default) (seen tokens.now) ≡ false }
    ensures { Leads (part a_stmt) (part a_case_item) labelled_tree depth tokens.now result }
{
    let first = expr(alloc, depth, tokens)?;
    let all = others::<CaseItem>(alloc, depth, first.rest, Vec::new(alloc))?;
    let label = Parsed {
        tree: CaseLabel::Expressions(first.tree, all.tree),
        rest: all.rest,
    };
    ended(label, Mark::Colon)
}
