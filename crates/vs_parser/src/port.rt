//! Reading the ports in the header of a module, and those that items declare.
ghost use Rattle.std.specs.Prelude.{◌≡◌, ◌<◌, ◌∷◌, None, length, map, IfOk, MatchResult};
ghost use Rattle.std.specs.Option.{option_map};
ghost use Rattle.std.specs.declared.vec.Vec.{Vec};
ghost use Rattle.std.specs.declared.alloc.Global.{Global};
ghost use Rattle.vs_syntax.specs.Symbols.{a_word};
ghost use Rattle.vs_syntax.specs.Grammar.{◌or◌, nothing, part, may_value, directed_ports};
ghost use Rattle.vs_syntax.specs.Grammar as g;
ghost use Rattle.vs_syntax.specs.Derivation.{both};
ghost use Rattle.vs_syntax.specs.declared.tree.Port.{Port};
ghost use Rattle.vs_syntax.specs.Views.{form_tree, comma_list_tree, bare_name_tree, value_tree, direction_word, kind_tree, ports_tree, header_ports_tree};
ghost use Rattle.vs_parse_expressions.specs.Answers.{seen, FailsToRead, ReadsTree};
ghost use Rattle.vs_parse_expressions.specs.Parts.{Leads};
ghost use Rattle.vs_parser.specs.Ports.{after_direction, ports_within, said_of, said_after, named_by, value_by, others_by, other_by, named_port_tree, IsKind, LeadsOn, LeadsToName, Followed};

use crate::declaration::BareName;
use crate::headers_head::{begins_name, direction_at, kind_at};
use std::alloc::Global;
use vs_parse_expressions::{
    Parsed, ReadFault, declared, declared_form, ended, expect_name, expr, mark_at,
};
use vs_syntax::vs_lexer::{Mark, Token};
use vs_syntax::{Direction, Expr, Port, PortForm, PortKind};

/// What the header says of a port: a name alone takes it over from the port before it (IEEE 1364-2005, clause 12.3.4).
#[derive(Clone, Copy)]
pub(crate) enum Said {
    /// Nothing but its name.
    Nothing,
    /// That it is a net.
    Net,
    /// That it is a variable, which may have a value (clause A.2.4).
    Variable,
}

impl Said {
    /// What the kind of a port that has a direction says.
    fn of(kind: Option<PortKind>) -> Said
        ensures { result ≡ said_of kind }
    {
        match kind {
            None | Some(PortKind::Wire) => Said::Net,
            Some(PortKind::Reg) | Some(PortKind::Integer) => Said::Variable,
        }
    }

    /// What is said of a port behind one of which this is said.
    fn after(self, port: &Port) -> Said
        ensures { result ≡ said_after self port.now.form }
    {
        match &port.form {
            None => self,
            Some(form) => Said::of(form.kind),
        }
    }
}

/// Reads the ports in the header of a module, if it has a list of them.
pub fn header_ports<'t, 's>(
    alloc: Global,
    depth: u32,
    tokens: &'t [Token<'s>],
) -> Result<Parsed<'t, 's, Option<Vec<Port>>>, ReadFault<'t, 's>>
    ensures { ReadsTree (g.header_ports or nothing) depth tokens.now
        (λ o. header_ports_tree (option_map (λ (ps : Vec Port Global). ps.items) o)) result }
{
    let Some(after) = mark_at(tokens, Mark::Open) else {
        return Ok(Parsed {
            tree: None,
            rest: tokens,
        });
    };
    let inside = ports(alloc, depth, after)?;
    let within = Parsed {
        tree: Some(inside.tree),
        rest: inside.rest,
    };
    ended(within, Mark::Close)
}

/// Reads what stands in the parentheses of a header: ports with what is said of them, or names alone, or nothing.
fn ports<'t, 's>(
    alloc: Global,
    depth: u32,
    tokens: &'t [Token<'s>],
) -> Result<Parsed<'t, 's, Vec<Port>>, ReadFault<'t, 's>>
    ensures { ReadsTree ports_within depth tokens.now (λ ps. ports_tree ps.items) result }
{
    if let Some((direction, after)) = direction_at(tokens) {
        let first = directed_port(alloc, depth, tokens, direction, after)?;
        let said = Said::Nothing.after(&first.tree);
        return others(alloc, depth, first, said);
    }
    if !begins_name(tokens) {
        return Ok(Parsed {
            tree: Vec::new(alloc),
            rest: tokens,
        });
    }
    let first = port(alloc, depth, tokens, None, Said::Nothing)?;
    others(alloc, depth, first, Said::Nothing)
}

/// Reads the ports behind the first one, of which this is said, into a list that begins with it.
fn others<'t, 's>(
    alloc: Global,
    depth: u32,
    first: Parsed<'t, 's, Port>,
    said: Said,
) -> Result<Parsed<'t, 's, Vec<Port>>, ReadFault<'t, 's>>
    ensures { MatchResult result
        (λ r. Followed (others_by said) depth (seen first.entry.rest.now) (seen r.rest.now) first.entry.tree r.tree.items)
        (λ e. FailsToRead (others_by said) depth (seen first.entry.rest.now) e) }
{
    let mut said = said;
    // All of them, but from a call: so the borrow checker can join it with what the loop sets.
    let (_none, mut rest) = first.rest.split_at(0);
    let mut tree = Vec::new(alloc);
    tree.push(first.tree)?;
    while let Some(after) = mark_at(rest, Mark::Comma) {
        let other = other_port(alloc, depth, after, said)?;
        said = said.after(&other.tree);
        rest = other.rest;
        tree.push(other.tree)?;
    }
    Ok(Parsed { tree, rest })
}

/// Reads a port behind one of which this is said, and the comma.
fn other_port<'t, 's>(
    alloc: Global,
    depth: u32,
    tokens: &'t [Token<'s>],
    said: Said,
) -> Result<Parsed<'t, 's, Port>, ReadFault<'t, 's>>
    ensures reads { LeadsOn said (other_by said) depth tokens.now result }
    ensures shorter { IfOk result (λ r. length (seen r.rest.now) < length (seen tokens.now)) }
{
    match said {
        Said::Nothing => port(alloc, depth, tokens, None, said),
        Said::Net => directed_or_named(alloc, depth, tokens, said),
        Said::Variable => directed_or_named(alloc, depth, tokens, said),
    }
}

/// Reads a port with its direction, or by its name alone, of which this is said then.
fn directed_or_named<'t, 's>(
    alloc: Global,
    depth: u32,
    tokens: &'t [Token<'s>],
    said: Said,
) -> Result<Parsed<'t, 's, Port>, ReadFault<'t, 's>>
    ensures reads { LeadsOn said (part directed_ports or part (named_by said)) depth tokens.now result }
    ensures shorter { IfOk result (λ r. length (seen r.rest.now) < length (seen tokens.now)) }
{
    match direction_at(tokens) {
        Some((direction, after)) => directed_port(alloc, depth, tokens, direction, after),
        None => port(alloc, depth, tokens, None, said),
    }
}

/// Reads a port that begins with its direction, behind which `after` stands.
fn directed_port<'t, 's>(
    alloc: Global,
    depth: u32,
    tokens: &'t [Token<'s>],
    direction: Direction,
    after: &'t [Token<'s>],
) -> Result<Parsed<'t, 's, Port>, ReadFault<'t, 's>>
    requires { seen tokens.now ≡ a_word (direction_word direction) ∷ seen after.now }
    ensures reads { (said : Said) → LeadsOn said (part directed_ports) depth tokens.now result }
    ensures shorter { IfOk result (λ r. length (seen r.rest.now) < length (seen tokens.now)) }
{
    let form = port_form(alloc, depth, tokens, direction, after)?;
    let said = Said::of(form.tree.kind);
    port(alloc, depth, form.rest, Some(form.tree), said)
}

/// Reads the name of a port of which this is said, with its value where it has one.
fn port<'t, 's>(
    alloc: Global,
    depth: u32,
    tokens: &'t [Token<'s>],
    form: Option<PortForm>,
    said: Said,
) -> Result<Parsed<'t, 's, Port>, ReadFault<'t, 's>>
    ensures reads { Leads (others_by said) (part (named_by said)) named_port_tree depth tokens.now result }
    ensures form { IfOk result (λ r. r.tree.form ≡ form) }
    ensures shorter { IfOk result (λ r. length (seen r.rest.now) < length (seen tokens.now)) }
{
    let (name, after_name) = expect_name(alloc, tokens)?;
    let value = port_value(alloc, depth, after_name, said)?;
    Ok(Parsed {
        tree: Port {
            form,
            name,
            value: value.tree,
        },
        rest: value.rest,
    })
}

/// Reads the value of a port of which this is said, if it has one: only a variable may.
fn port_value<'t, 's>(
    alloc: Global,
    depth: u32,
    tokens: &'t [Token<'s>],
    said: Said,
) -> Result<Parsed<'t, 's, Option<Expr>>, ReadFault<'t, 's>>
    ensures { ReadsTree (value_by said) depth tokens.now value_tree result }
{
    match said {
        Said::Nothing => Ok(without_value(tokens)),
        Said::Net => Ok(without_value(tokens)),
        Said::Variable => declared_value(alloc, depth, tokens),
    }
}

/// Reads the value of a declaration assignment, if one is next.
fn declared_value<'t, 's>(
    alloc: Global,
    depth: u32,
    tokens: &'t [Token<'s>],
) -> Result<Parsed<'t, 's, Option<Expr>>, ReadFault<'t, 's>>
    ensures { ReadsTree may_value depth tokens.now value_tree result }
{
    let Some(after) = mark_at(tokens, Mark::Assign) else {
        return Ok(without_value(tokens));
    };
    let value = expr(alloc, depth, after)?;
    Ok(Parsed {
        tree: Some(value.tree),
        rest: value.rest,
    })
}

/// No value before these tokens.
fn without_value<'t, 's>(tokens: &'t [Token<'s>]) -> Parsed<'t, 's, Option<Expr>>
    ensures none { result.tree ≡ None }
    ensures rest { seen result.rest.now ≡ seen tokens.now }
{
    Parsed {
        tree: None,
        rest: tokens,
    }
}

/// Reads what stands before the name of a port: its direction, behind which `after` stands, its kind,
/// its sign and its range.
fn port_form<'t, 's>(
    alloc: Global,
    depth: u32,
    tokens: &'t [Token<'s>],
    direction: Direction,
    after: &'t [Token<'s>],
) -> Result<Parsed<'t, 's, PortForm>, ReadFault<'t, 's>>
    requires { seen tokens.now ≡ a_word (direction_word direction) ∷ seen after.now }
    ensures reads { LeadsToName depth tokens.now result }
    ensures shorter { IfOk result (λ r. length (seen r.rest.now) < length (seen tokens.now)) }
{
    let (kind, behind) = optional_kind(after);
    let form = declared_form(alloc, depth, behind)?;
    Ok(Parsed {
        tree: PortForm {
            direction,
            kind,
            form: form.tree,
        },
        rest: form.rest,
    })
}

/// The word of a port's kind, if it is next, and the tokens behind it.
fn optional_kind<'t, 's>(tokens: &'t [Token<'s>]) -> (Option<PortKind>, &'t [Token<'s>])
    ensures { IsKind (seen tokens.now) result.0 (seen result.1.now) }
{
    match kind_at(tokens) {
        Some((kind, rest)) => (Some(kind), rest),
        None => (None, tokens),
    }
}

/// Reads what stands behind the direction of an item: the kind, the sign and the range of ports, their names, and the semicolon.
pub fn declared_ports<'t, 's>(
    alloc: Global,
    depth: u32,
    tokens: &'t [Token<'s>],
    direction: Direction,
) -> Result<Parsed<'t, 's, (PortForm, Vec<Vec<u8>>)>, ReadFault<'t, 's>>
    ensures reads { ReadsTree after_direction depth tokens.now
        (λ x. both (kind_tree x.0.kind) (both (form_tree x.0.form) (comma_list_tree (map bare_name_tree x.1.items)))) result }
    ensures direction { IfOk result (λ x. x.tree.0.direction ≡ direction) }
{
    let (kind, behind) = optional_kind(tokens);
    let names = declared::<BareName>(alloc, depth, behind)?;
    let form = PortForm {
        direction,
        kind,
        form: names.tree.0,
    };
    Ok(Parsed {
        tree: (form, names.tree.1),
        rest: names.rest,
    })
}
