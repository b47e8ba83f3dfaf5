//! Reading modules and sources.
ghost use Rattle.std.specs.Prelude.{◌≡◌, ◌∷◌, IfOk};
ghost use Rattle.vs_syntax.specs.vs_lexer.specs.declared.token.Word.TheVariants as w;
ghost use Rattle.vs_syntax.specs.Symbols.{a_word};
ghost use Rattle.vs_syntax.specs.Grammar.{part, a_source, a_module};
ghost use Rattle.vs_syntax.specs.Views.{module_tree, source_tree};
ghost use Rattle.vs_parser.specs.vs_parse_expressions.specs.Answers.{seen, ReadsTree};

use crate::parser_head::{SourceHead, source_head};
use crate::vs_parse_expressions::{Parsed, ReadFault, expect_mark, expect_name, expect_word};
use crate::{header_parameters, header_ports, items};
use std::alloc::Global;
use vs_syntax::vs_lexer::{Directive, Mark, Token, Word};
use vs_syntax::{Module, Source};

/// Reads a module, behind whose first word `after` stands, with the directives before it.
fn module<'t, 's>(
    alloc: Global,
    depth: u32,
    tokens: &'t [Token<'s>],
    after: &'t [Token<'s>],
    directives: Vec<Directive>,
) -> Result<Parsed<'t, 's, Module>, ReadFault<'t, 's>>
    requires { seen tokens.now ≡ a_word w.Module ∷ seen after.now }
    ensures reads { ReadsTree (part a_module) depth tokens.now module_tree result }
    ensures directives { IfOk result (λ x. x.tree.directives ≡ directives) }
{
    let (name, after_name) = expect_name(alloc, after)?;
    let parameters = header_parameters(alloc, depth, after_name)?;
    let ports = header_ports(alloc, depth, parameters.rest)?;
    let after_header = expect_mark(ports.rest, Mark::Semicolon)?;
    let inner = items(alloc, depth, after_header)?;
    let rest = expect_word(inner.rest, Word::Endmodule)?;
    Ok(Parsed {
        tree: Module {
            directives,
            name,
            parameters: parameters.tree,
            ports: ports.tree,
            items: inner.tree,
        },
        rest,
    })
}

/// Reads the modules and the directives that are next: the source, as far as it goes.
pub(crate) fn source<'t, 's>(
    alloc: Global,
    depth: u32,
    tokens: &'t [Token<'s>],
) -> Result<Parsed<'t, 's, Source>, ReadFault<'t, 's>>
    ensures { ReadsTree (part a_source) depth tokens.now source_tree result }
{
    let mut modules = Vec::new(alloc);
    let mut directives = Vec::new(alloc);
    // All of them, but from a call: so the borrow checker can join it with what the loop sets.
    let (_none, mut rest) = tokens.split_at(0);
    while let Some((head, after)) = source_head(rest) {
        match head {
            SourceHead::Directive(directive) => {
                directives.push(directive)?;
                rest = after;
            }
            SourceHead::Module => {
                let inner = module(alloc, depth, rest, after, directives)?;
                directives = Vec::new(alloc);
                rest = inner.rest;
                modules.push(inner.tree)?;
            }
        }
    }
    Ok(Parsed {
        tree: Source {
            modules,
            directives,
        },
        rest,
    })
}
