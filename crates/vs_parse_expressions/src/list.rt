//! Reading lists with commas.
ghost use Rattle.std.specs.Prelude.{◌≡◌, ◌≤◌, ℕ, map, MatchResult, IfOk};
ghost use Rattle.vs_syntax.specs.vs_lexer.specs.declared.token.Mark.TheVariants as m;
ghost use Rattle.vs_syntax.specs.Grammar.{Grammar, ◌·◌, mark};
ghost use Rattle.vs_syntax.specs.Tables.{low};
ghost use Rattle.vs_syntax.specs.Symbols.{a_mark};
ghost use Rattle.vs_syntax.specs.Derivation.{Tree, leaf};
ghost use Rattle.vs_syntax.specs.Views.{comma_list_tree};
ghost use Rattle.vs_parse_expressions.specs.Answers.{seen, Answers, FailsToRead, ReadsTree};
ghost use Rattle.vs_parse_expressions.specs.Lists.{comma_tail, Grown};

use crate::{Parsed, ReadFault, expect_mark, mark_at};
use std::alloc::Global;
use vs_syntax::vs_lexer::{Mark, Token};

/// What stands in a list with commas.
pub trait Element {
    /// What one of them is read as.
    type Syntax: Drop;

    /// The grammar of one of them.
    ghost grammar: { Grammar };

    /// The tree of one of them.
    ghost tree_of: { Self.Syntax → Tree };

    /// Reads one of them, in at most `depth` nodes below one another.
    fn read<'t, 's>(
        alloc: Global,
        depth: u32,
        tokens: &'t [Token<'s>],
    ) -> Result<Parsed<'t, 's, Self::Syntax>, ReadFault<'t, 's>>
        requires { low grammar ≤ depth }
        ensures { ReadsTree grammar depth tokens.now tree_of result };
}

/// Reads those that stand behind a comma each, in at most `depth` nodes below one another, and adds
/// them to `tree`.
pub fn others<'t, 's, T: Element>(
    alloc: Global,
    depth: u32,
    tokens: &'t [Token<'s>],
    mut tree: Vec<T::Syntax>,
) -> Result<Parsed<'t, 's, Vec<T::Syntax>>, ReadFault<'t, 's>>
    requires { low T.grammar ≤ depth }
    ensures { MatchResult result
        (λ r. Grown T.grammar depth T.tree_of (seen tokens.now) (seen r.rest.now) tree.items r.tree.items)
        (λ e. FailsToRead (comma_tail T.grammar) depth (seen tokens.now) e) }
{
    // All of them, but from a call: so the borrow checker can join it with what the loop sets.
    let (_none, mut rest) = tokens.split_at(0);
    while let Some(after) = mark_at(rest, Mark::Comma) {
        let other = T::read(alloc, depth, after)?;
        rest = other.rest;
        tree.push(other.tree)?;
    }
    Ok(Parsed { tree, rest })
}

/// Reads one or more with commas between them, and the semicolon behind them, in at most `depth`
/// nodes below one another.
pub fn comma_list<'t, 's, T: Element>(
    alloc: Global,
    depth: u32,
    tokens: &'t [Token<'s>],
) -> Result<Parsed<'t, 's, Vec<T::Syntax>>, ReadFault<'t, 's>>
    requires { low T.grammar ≤ depth }
    ensures { ReadsTree (T.grammar · comma_tail T.grammar · mark m.Semicolon) depth tokens.now
        (λ xs. comma_list_tree (map T.tree_of xs.items)) result }
{
    let first = T::read(alloc, depth, tokens)?;
    let mut tree = Vec::with_capacity(alloc, 1)?;
    tree.push(first.tree)?;
    let all = others::<T>(alloc, depth, first.rest, tree)?;
    ended(all, Mark::Semicolon)
}

/// Reads the mark behind what was read.
pub fn ended<'t, 's, T: Drop>(
    read: Parsed<'t, 's, T>,
    end: Mark,
) -> Result<Parsed<'t, 's, T>, ReadFault<'t, 's>>
    ensures tree { IfOk result (λ r. r.tree ≡ read.entry.tree) }
    ensures mark { (n : ℕ) → Answers (mark end) n (seen read.entry.rest.now) (λ _. leaf (a_mark end)) (λ r. seen r.rest.now) result }
{
    let rest = expect_mark(read.rest, end)?;
    Ok(Parsed {
        tree: read.tree,
        rest,
    })
}
