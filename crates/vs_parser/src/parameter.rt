//! Reading declarations of parameters.
ghost use Rattle.std.specs.Prelude.{map};
ghost use Rattle.vs_syntax.specs.Grammar.{◌·◌, part, a_constant};
ghost use Rattle.vs_syntax.specs.Grammar as g;
ghost use Rattle.vs_syntax.specs.Views.{constant_tree, constants_tree, parameter_form_tree};
ghost use Rattle.vs_parse_expressions.specs.Answers.{ReadsTree};

use std::alloc::Global;
use vs_parse_expressions::{
    Element, Parsed, ReadFault, comma_list, declared_form, expect_mark, expect_name, expr, word_at,
};
use vs_syntax::vs_lexer::{Mark, Token, Word};
use vs_syntax::{Constant, ParameterForm};

/// A name of a declaration of parameters.
pub(crate) struct ParameterList;

impl Element for ParameterList {
    type Syntax = Constant;

    ghost grammar = { part a_constant };

    ghost tree_of = { constant_tree };

    fn read<'t, 's>(
        alloc: Global,
        depth: u32,
        tokens: &'t [Token<'s>],
    ) -> Result<Parsed<'t, 's, Constant>, ReadFault<'t, 's>> {
        let (name, after_name) = expect_name(alloc, tokens)?;
        let after_sign = expect_mark(after_name, Mark::Assign)?;
        let value = expr(alloc, depth, after_sign)?;
        Ok(Parsed {
            tree: Constant {
                name,
                value: value.tree,
            },
            rest: value.rest,
        })
    }
}

/// Reads the type of parameters, and their names with their values, and the semicolon behind them.
pub fn parameters<'t, 's>(
    alloc: Global,
    depth: u32,
    tokens: &'t [Token<'s>],
) -> Result<Parsed<'t, 's, (ParameterForm, Vec<Constant>)>, ReadFault<'t, 's>>
    ensures { ReadsTree (g.parameter_form · g.comma_list a_constant) depth tokens.now
        (λ x. constants_tree x.0 x.1.items) result }
{
    let said = parameter_form(alloc, depth, tokens)?;
    let names = comma_list::<ParameterList>(alloc, depth, said.rest)?;
    Ok(Parsed {
        tree: (said.tree, names.tree),
        rest: names.rest,
    })
}

/// Reads the type of parameters.
pub(crate) fn parameter_form<'t, 's>(
    alloc: Global,
    depth: u32,
    tokens: &'t [Token<'s>],
) -> Result<Parsed<'t, 's, ParameterForm>, ReadFault<'t, 's>>
    ensures { ReadsTree g.parameter_form depth tokens.now parameter_form_tree result }
{
    let Some(behind) = word_at(tokens, Word::Integer) else {
        let form = declared_form(alloc, depth, tokens)?;
        return Ok(Parsed {
            tree: ParameterForm::Vector(form.tree),
            rest: form.rest,
        });
    };
    Ok(Parsed {
        tree: ParameterForm::Integer,
        rest: behind,
    })
}
