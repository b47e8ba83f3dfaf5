//! Reading items that are no generate constructs.
ghost use Rattle.std.specs.Prelude.{◌≡◌, ◌≤◌, IfOk};
ghost use Rattle.vs_syntax.specs.Symbols.{a_word};
ghost use Rattle.vs_syntax.specs.Tables.{low};
ghost use Rattle.vs_syntax.specs.Views.{item_symbol, body_tree, module_item_tree};
ghost use Rattle.vs_parser.specs.vs_parse_expressions.specs.Answers.{ReadsTree};
ghost use Rattle.vs_parser.specs.vs_parse_expressions.specs.Parts.{ReadsWithin, headed};
ghost use Rattle.vs_parser.specs.ItemsHeads.{word_of, plain_symbol, declaration_of, plain_body};

use crate::items_head::{DeclarationWord, PlainHead};
use crate::vs_parse_expressions::{Parsed, ReadFault, comma_list, declared};
use crate::{Assignment, BareName, Net, Variable, declared_ports, instances, parameters, stmt};
use std::alloc::Global;
use vs_syntax::vs_lexer::Token;
use vs_syntax::{Item, ModuleItem};

/// Reads what stands behind the first token of an item that is no generate construct, into an item of a module.
#[inline(never)]
pub(crate) fn plain_item<'t, 's>(
    alloc: Global,
    depth: u32,
    tokens: &'t [Token<'s>],
    head: PlainHead<'s>,
) -> Result<Parsed<'t, 's, ModuleItem>, ReadFault<'t, 's>>
    requires { low (plain_body head) ≤ depth }
    ensures { ReadsWithin module_item_tree (headed (plain_symbol head.entry)) (plain_body head.entry) depth tokens.now result }
{
    let (tree, rest) = match head {
        PlainHead::Name(module) => {
            let name = Vec::from_slice(alloc, module)?;
            let placed = instances(alloc, depth, tokens)?;
            (
                Item::Instances(name, placed.tree.0, placed.tree.1),
                placed.rest,
            )
        }
        PlainHead::Declaration(word) => {
            let declaration = declared_item(alloc, depth, tokens, word)?;
            (declaration.tree, declaration.rest)
        }
        PlainHead::Assign => {
            let assignments = comma_list::<Assignment>(alloc, depth, tokens)?;
            (Item::Assign(assignments.tree), assignments.rest)
        }
        PlainHead::Initial => {
            let inner = stmt(alloc, depth, tokens)?;
            (Item::Initial(inner.tree), inner.rest)
        }
        PlainHead::Always => {
            let repeated = stmt(alloc, depth, tokens)?;
            (Item::Always(repeated.tree), repeated.rest)
        }
    };
    Ok(Parsed {
        tree: ModuleItem::Plain(tree),
        rest,
    })
}

/// Reads what stands behind the word of a declaration.
fn declared_item<'t, 's>(
    alloc: Global,
    depth: u32,
    tokens: &'t [Token<'s>],
    word: DeclarationWord,
) -> Result<Parsed<'t, 's, Item>, ReadFault<'t, 's>>
    ensures reads { ReadsTree (declaration_of word) depth tokens.now body_tree result }
    ensures symbol { IfOk result (λ x. item_symbol x.tree ≡ a_word (word_of word)) }
{
    let (tree, rest) = match word {
        DeclarationWord::Port(direction) => {
            let ports = declared_ports(alloc, depth, tokens, direction)?;
            (Item::Port(ports.tree.0, ports.tree.1), ports.rest)
        }
        DeclarationWord::Genvar => {
            let indices = comma_list::<BareName>(alloc, depth, tokens)?;
            (Item::Genvar(indices.tree), indices.rest)
        }
        DeclarationWord::Wire => {
            let nets = declared::<Net>(alloc, depth, tokens)?;
            (Item::Wire(nets.tree.0, nets.tree.1), nets.rest)
        }
        DeclarationWord::Reg => {
            let regs = declared::<Variable>(alloc, depth, tokens)?;
            (Item::Reg(regs.tree.0, regs.tree.1), regs.rest)
        }
        DeclarationWord::Integer => {
            let integers = comma_list::<Variable>(alloc, depth, tokens)?;
            (Item::Integer(integers.tree), integers.rest)
        }
        DeclarationWord::Parameter => {
            let open = parameters(alloc, depth, tokens)?;
            (Item::Parameter(open.tree.0, open.tree.1), open.rest)
        }
        DeclarationWord::Localparam => {
            let fixed = parameters(alloc, depth, tokens)?;
            (Item::Localparam(fixed.tree.0, fixed.tree.1), fixed.rest)
        }
    };
    Ok(Parsed { tree, rest })
}
