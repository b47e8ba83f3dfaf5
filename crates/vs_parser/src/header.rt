//! Reading the parameters in the header of a module.
ghost use Rattle.std.specs.Prelude.{◌≡◌, ◌≤◌, [], ◌∷◌, map, MatchResult};
ghost use Rattle.std.specs.declared.vec.Vec.{Vec};
ghost use Rattle.std.specs.declared.alloc.Global.{Global};
ghost use Rattle.vs_syntax.specs.vs_lexer.specs.declared.token.Mark.TheVariants as m;
ghost use Rattle.vs_syntax.specs.vs_lexer.specs.declared.token.Word.TheVariants as w;
ghost use Rattle.vs_syntax.specs.Symbols.{a_mark, a_word};
ghost use Rattle.vs_syntax.specs.Grammar.{◌·◌, ◌or◌, nothing, part, mark, word, parameter_form, a_constant, a_header_parameter};
ghost use Rattle.vs_syntax.specs.Grammar as g;
ghost use Rattle.vs_syntax.specs.Tables.{low};
ghost use Rattle.vs_syntax.specs.Derivation.{leaf, both};
ghost use Rattle.vs_syntax.specs.Views.{parameter_word_tree, header_parameter_tree, header_parameters_tree};
ghost use Rattle.vs_parse_expressions.specs.Answers.{seen, FailsToRead, ReadsTree};
ghost use Rattle.vs_parse_expressions.specs.Lists.{comma_tail, Grown};
ghost use Rattle.vs_parse_expressions.specs.Parts.{ReadsWithin};

use crate::parameter::{ParameterList, parameter_form};
use std::alloc::Global;
use vs_parse_expressions::{
    Element, Parsed, ReadFault, ended, expect_mark, mark_at, others, word_at,
};
use vs_syntax::vs_lexer::{Mark, Token, Word};
use vs_syntax::{HeaderParameter, ParameterForm};

/// A parameter in the header of a module behind the first one.
struct OtherParameter;

impl Element for OtherParameter {
    type Syntax = HeaderParameter;

    ghost grammar = { part a_header_parameter };

    ghost tree_of = { header_parameter_tree };

    fn read<'t, 's>(
        alloc: Global,
        depth: u32,
        tokens: &'t [Token<'s>],
    ) -> Result<Parsed<'t, 's, HeaderParameter>, ReadFault<'t, 's>> {
        match word_at(tokens, Word::Parameter) {
            Some(after) => parameter_with_word(alloc, depth, tokens, after),
            None => parameter(alloc, depth, tokens, None),
        }
    }
}

/// Reads the parameters in the header of a module, if it has some.
pub fn header_parameters<'t, 's>(
    alloc: Global,
    depth: u32,
    tokens: &'t [Token<'s>],
) -> Result<Parsed<'t, 's, Vec<HeaderParameter>>, ReadFault<'t, 's>>
    ensures { ReadsTree (g.header_parameters or nothing) depth tokens.now
        (λ xs. header_parameters_tree (map header_parameter_tree xs.items)) result }
{
    let Some(after) = mark_at(tokens, Mark::Hash) else {
        return Ok(Parsed {
            tree: Vec::new(alloc),
            rest: tokens,
        });
    };
    let inside = expect_mark(after, Mark::Open)?;
    parameters_within(alloc, depth, inside)
}

/// Reads the parameters in the header of a module, behind the mark before them.
fn parameters_within<'t, 's>(
    alloc: Global,
    depth: u32,
    inside: &'t [Token<'s>],
) -> Result<Parsed<'t, 's, Vec<HeaderParameter>>, ReadFault<'t, 's>>
    ensures { ReadsWithin (λ (xs : Vec HeaderParameter Global). header_parameters_tree (map header_parameter_tree xs.items))
        (λ y. both (leaf (a_mark m.Hash)) (both (leaf (a_mark m.Open)) y))
        (((word w.Parameter · parameter_form) · part a_constant) · comma_tail (part a_header_parameter) · mark m.Close)
        depth inside.now result }
{
    let first = first_parameter(alloc, depth, inside)?;
    let all = with_others::<OtherParameter>(alloc, depth, first)?;
    ended(all, Mark::Close)
}

/// Reads the first parameter in the header of a module, which has the word.
fn first_parameter<'t, 's>(
    alloc: Global,
    depth: u32,
    tokens: &'t [Token<'s>],
) -> Result<Parsed<'t, 's, HeaderParameter>, ReadFault<'t, 's>>
    ensures { ReadsTree ((word w.Parameter · parameter_form) · part a_constant) depth tokens.now
        header_parameter_tree result }
{
    match word_at(tokens, Word::Parameter) {
        Some(after) => parameter_with_word(alloc, depth, tokens, after),
        None => Err(ReadFault::Unexpected(tokens)),
    }
}

/// Reads a parameter that begins with the word, behind which `after` stands.
fn parameter_with_word<'t, 's>(
    alloc: Global,
    depth: u32,
    tokens: &'t [Token<'s>],
    after: &'t [Token<'s>],
) -> Result<Parsed<'t, 's, HeaderParameter>, ReadFault<'t, 's>>
    requires { seen tokens.now ≡ a_word w.Parameter ∷ seen after.now }
    ensures first { ReadsTree ((word w.Parameter · parameter_form) · part a_constant) depth tokens.now
        header_parameter_tree result }
    ensures other { ReadsTree (part a_header_parameter) depth tokens.now header_parameter_tree result }
{
    let form = parameter_form(alloc, depth, after)?;
    parameter(alloc, depth, form.rest, Some(form.tree))
}

/// Reads the name of a parameter, with its value, behind its type or where it has none.
fn parameter<'t, 's>(
    alloc: Global,
    depth: u32,
    tokens: &'t [Token<'s>],
    form: Option<ParameterForm>,
) -> Result<Parsed<'t, 's, HeaderParameter>, ReadFault<'t, 's>>
    ensures { ReadsWithin header_parameter_tree (λ y. both (parameter_word_tree form) y) (part a_constant) depth tokens.now result }
{
    let constant = ParameterList::read(alloc, depth, tokens)?;
    Ok(Parsed {
        tree: HeaderParameter {
            form,
            name: constant.tree.name,
            value: constant.tree.value,
        },
        rest: constant.rest,
    })
}

/// Reads the others behind the first one, each behind its comma, into a list that begins with it.
fn with_others<'t, 's, T: Element>(
    alloc: Global,
    depth: u32,
    first: Parsed<'t, 's, T::Syntax>,
) -> Result<Parsed<'t, 's, Vec<T::Syntax>>, ReadFault<'t, 's>>
    requires { low T.grammar ≤ depth }
    ensures { MatchResult result
        (λ r. Grown T.grammar depth T.tree_of (seen first.entry.rest.now) (seen r.rest.now) (first.entry.tree ∷ []) r.tree.items)
        (λ e. FailsToRead (comma_tail T.grammar) depth (seen first.entry.rest.now) e) }
{
    let mut tree = Vec::new(alloc);
    tree.push(first.tree)?;
    others::<T>(alloc, depth, first.rest, tree)
}
