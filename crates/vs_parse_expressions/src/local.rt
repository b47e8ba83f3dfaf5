//! Reading the names of blocks, and the declarations behind them.
ghost use Rattle.std.specs.Prelude.{◌≡◌, ◌∷◌, ℕ, false, map, MatchOption};
ghost use Rattle.vs_syntax.specs.vs_lexer.specs.declared.token.Mark.TheVariants as m;
ghost use Rattle.vs_syntax.specs.Symbols.{a_mark, a_word};
ghost use Rattle.vs_syntax.specs.Grammar.{◌·◌, many, part, name, local_declaration, block_head, a_local};
ghost use Rattle.vs_syntax.specs.Tables.{goes};
ghost use Rattle.vs_syntax.specs.Views.{row_of, local_tree, local_declaration_tree};
ghost use Rattle.vs_parse_expressions.specs.Answers.{seen, ReadsTree};
ghost use Rattle.vs_parse_expressions.specs.Blocks.{local_word, naming_tree};
ghost use Rattle.vs_parse_expressions.specs.Parts.{ReadsWithin, marked};

use crate::form::{declared, declared_range};
use crate::list::{Element, comma_list};
use crate::{Parsed, ReadFault, expect_name, mark_at, next};
use std::alloc::Global;
use vs_syntax::vs_lexer::{Kind, Mark, Token, Word};
use vs_syntax::{Local, LocalDeclaration};

/// The word that a declaration in a block begins with.
#[derive(Clone, Copy)]
pub(crate) enum LocalWord {
    /// `reg`
    Reg,
    /// `integer`
    Integer,
}

/// What stands behind the `begin` of a block that has a name.
#[derive(Drop)]
pub struct BlockName {
    /// The bytes of the name.
    pub name: Vec<u8>,
    /// The declarations behind it, in the order of the text.
    pub locals: Vec<LocalDeclaration>,
}

/// A name of a declaration in a block.
struct LocalVariable;

impl Element for LocalVariable {
    type Syntax = Local;

    ghost grammar = { part a_local };

    ghost tree_of = { local_tree };

    fn read<'t, 's>(
        alloc: Global,
        depth: u32,
        tokens: &'t [Token<'s>],
    ) -> Result<Parsed<'t, 's, Local>, ReadFault<'t, 's>> {
        let (name, after_name) = expect_name(alloc, tokens)?;
        let words = declared_range(alloc, depth, after_name)?;
        Ok(Parsed {
            tree: Local {
                name,
                words: words.tree,
            },
            rest: words.rest,
        })
    }
}

/// Reads the colon behind `begin`, the name and the declarations, where the colon is next.
#[inline(never)]
pub fn naming<'t, 's>(
    alloc: Global,
    depth: u32,
    tokens: &'t [Token<'s>],
) -> Result<Parsed<'t, 's, Option<BlockName>>, ReadFault<'t, 's>>
    ensures { ReadsTree block_head depth tokens.now naming_tree result }
{
    let Some(after) = mark_at(tokens, Mark::Colon) else {
        return Ok(Parsed {
            tree: None,
            rest: tokens,
        });
    };
    named(alloc, depth, after)
}

/// Reads the name of a block, and the declarations behind it.
fn named<'t, 's>(
    alloc: Global,
    depth: u32,
    tokens: &'t [Token<'s>],
) -> Result<Parsed<'t, 's, Option<BlockName>>, ReadFault<'t, 's>>
    ensures { ReadsWithin naming_tree (marked m.Colon) (name · many local_declaration) depth tokens.now result }
{
    let (name, after_name) = expect_name(alloc, tokens)?;
    let locals = locals(alloc, depth, after_name)?;
    Ok(Parsed {
        tree: Some(BlockName {
            name,
            locals: locals.tree,
        }),
        rest: locals.rest,
    })
}

/// Reads the declarations that are next.
fn locals<'t, 's>(
    alloc: Global,
    depth: u32,
    tokens: &'t [Token<'s>],
) -> Result<Parsed<'t, 's, Vec<LocalDeclaration>>, ReadFault<'t, 's>>
    ensures { ReadsTree (many local_declaration) depth tokens.now
        (λ xs. row_of (map local_declaration_tree xs.items)) result }
{
    let mut tree = Vec::new(alloc);
    // All of them, but from a call: so the borrow checker can join it with what the loop sets.
    let (_none, mut rest) = tokens.split_at(0);
    while let Some((word, after)) = local_word_at(rest) {
        let declaration = declaration(alloc, depth, rest, word, after)?;
        rest = declaration.rest;
        tree.push(declaration.tree)?;
    }
    Ok(Parsed { tree, rest })
}

/// The word of the declaration that is next, if one is, and the tokens behind it.
fn local_word_at<'t, 's>(tokens: &'t [Token<'s>]) -> Option<(LocalWord, &'t [Token<'s>])>
    ensures { MatchOption result (goes local_declaration (seen tokens.now) ≡ false)
        (λ x. seen tokens.now ≡ a_word (local_word x.0) ∷ seen x.1.now) }
{
    let (first, rest) = next(tokens)?;
    match first.kind {
        Kind::Word(word) => match word {
            Word::Reg => Some((LocalWord::Reg, rest)),
            Word::Integer => Some((LocalWord::Integer, rest)),
            _ => None,
        },
        _ => None,
    }
}

/// Reads a declaration, behind whose word `after` stands.
fn declaration<'t, 's>(
    alloc: Global,
    depth: u32,
    tokens: &'t [Token<'s>],
    word: LocalWord,
    after: &'t [Token<'s>],
) -> Result<Parsed<'t, 's, LocalDeclaration>, ReadFault<'t, 's>>
    requires { seen tokens.now ≡ a_word (local_word word) ∷ seen after.now }
    ensures { ReadsTree local_declaration depth tokens.now local_declaration_tree result }
{
    match word {
        LocalWord::Reg => {
            let regs = declared::<LocalVariable>(alloc, depth, after)?;
            Ok(Parsed {
                tree: LocalDeclaration::Reg(regs.tree.0, regs.tree.1),
                rest: regs.rest,
            })
        }
        LocalWord::Integer => {
            let integers = comma_list::<LocalVariable>(alloc, depth, after)?;
            Ok(Parsed {
                tree: LocalDeclaration::Integer(integers.tree),
                rest: integers.rest,
            })
        }
    }
}
