//! Reading what declarations say of their names.
ghost use Rattle.std.specs.Prelude.{ℕ, ◌≤◌, map};
ghost use Rattle.vs_syntax.specs.vs_lexer.specs.declared.token.Mark.TheVariants as m;
ghost use Rattle.vs_syntax.specs.vs_lexer.specs.declared.token.Word.TheVariants as w;
ghost use Rattle.vs_syntax.specs.Grammar.{nothing, mark, word, ◌·◌, ◌or◌, form, range};
ghost use Rattle.vs_syntax.specs.Tables.{low};
ghost use Rattle.vs_syntax.specs.Derivation.{both};
ghost use Rattle.vs_syntax.specs.Views.{comma_list_tree, signed_tree, range_tree, form_tree};
ghost use Rattle.vs_syntax.specs.Reading.{Gets};
ghost use Rattle.vs_parse_expressions.specs.Answers.{seen, ReadsTree};
ghost use Rattle.vs_parse_expressions.specs.Lists.{comma_tail};

use crate::list::{Element, comma_list, ended};
use crate::{Parsed, ReadFault, expect_mark, expr, mark_at, word_at};
use std::alloc::Global;
use vs_syntax::vs_lexer::{Mark, Token, Word};
use vs_syntax::{Form, Range};

/// Reads what a declaration says of its names, and they, and the semicolon behind them, in at most `depth`
/// nodes below one another.
pub fn declared<'t, 's, T: Element>(
    alloc: Global,
    depth: u32,
    tokens: &'t [Token<'s>],
) -> Result<Parsed<'t, 's, (Form, Vec<T::Syntax>)>, ReadFault<'t, 's>>
    requires { low T.grammar ≤ depth }
    ensures { ReadsTree (form · T.grammar · comma_tail T.grammar · mark m.Semicolon) depth tokens.now
        (λ x. both (form_tree x.0) (comma_list_tree (map T.tree_of x.1.items))) result }
{
    let said = declared_form(alloc, depth, tokens)?;
    let names = comma_list::<T>(alloc, depth, said.rest)?;
    Ok(Parsed {
        tree: (said.tree, names.tree),
        rest: names.rest,
    })
}

/// Reads what a declaration says of its names.
pub fn declared_form<'t, 's>(
    alloc: Global,
    depth: u32,
    tokens: &'t [Token<'s>],
) -> Result<Parsed<'t, 's, Form>, ReadFault<'t, 's>>
    ensures { ReadsTree form depth tokens.now form_tree result }
{
    let (signed, after) = signed_at(tokens);
    let range = declared_range(alloc, depth, after)?;
    Ok(Parsed {
        tree: Form {
            signed,
            range: range.tree,
        },
        rest: range.rest,
    })
}

/// Whether the word `signed` is next, and the tokens behind it.
fn signed_at<'t, 's>(tokens: &'t [Token<'s>]) -> (bool, &'t [Token<'s>])
    ensures { (depth : ℕ) → Gets (word w.Signed or nothing) depth (seen tokens.now)
        (signed_tree result.0) (seen result.1.now) }
{
    match word_at(tokens, Word::Signed) {
        Some(rest) => (true, rest),
        None => (false, tokens),
    }
}

/// Reads the range that is next, if one is.
pub fn declared_range<'t, 's>(
    alloc: Global,
    depth: u32,
    tokens: &'t [Token<'s>],
) -> Result<Parsed<'t, 's, Option<Range>>, ReadFault<'t, 's>>
    ensures { ReadsTree (range or nothing) depth tokens.now range_tree result }
{
    let Some(after) = mark_at(tokens, Mark::OpenBracket) else {
        return Ok(Parsed {
            tree: None,
            rest: tokens,
        });
    };
    let left = expr(alloc, depth, after)?;
    let middle = expect_mark(left.rest, Mark::Colon)?;
    let right = expr(alloc, depth, middle)?;
    let range = Parsed {
        tree: Some(Range {
            left: left.tree,
            right: right.tree,
        }),
        rest: right.rest,
    };
    ended(range, Mark::CloseBracket)
}
