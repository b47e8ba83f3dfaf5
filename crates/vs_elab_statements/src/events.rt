//! Terms of event controls (IEEE 1364-2005, clause 9.7.2).
ghost use Rattle.std.specs.Prelude.{◌≡◌, ◌∷◌, [], IfOk, map};
ghost use Rattle.vs_design.specs.declared.statement.Aim.TheVariants.{Fixed};
ghost use Rattle.vs_design.specs.Statements.{statement_reads};
ghost use Rattle.vs_design.specs.declared.expression.Slice.{Slice};
ghost use Rattle.vs_design.specs.vs_logic4.specs.declared.edge.Edge.TheVariants.{Any};
ghost use Rattle.vs_scopes.specs.vs_widths.specs.Findings.{has_width_fault};
ghost use Rattle.vs_widths.specs.declared.kinds.AssignmentKind.TheVariants.{Event};
ghost use Rattle.vs_widths.specs.Lefts.{name_aimed};
ghost use Rattle.vs_widths.specs.Names.{meaning_of};
ghost use Rattle.vs_scopes.specs.scopes_passes.Answers.{Elaborates};
ghost use Rattle.vs_scopes.specs.scopes_passes.Sizes.{width_faults};
ghost use Rattle.vs_elab_statements.specs.Statements.{IsTerm, AreTerms, AreEvents, event_aimed, event_fault, level_term, watched};
ghost use Rattle.vs_elab_statements.specs.passes.Bodies.{IsAlone, terms_fault};

use std::alloc::{AllocError, Global};
use vs_design::vs_logic4::Edge;
use vs_design::{Aim, BitRange, EventTerm, Slice, Statement, Target, bits_from, statement_reads};
use vs_scopes::BodyFault;
use vs_syntax::{EventControl, EventExpr, Separator};
use vs_widths::{AssignmentKind, Levels, name_target, selected_target};

/// What an event control names: its terms are no assignments.
const WAITED: AssignmentKind = AssignmentKind::Event;

/// The bits of a constant select that a term waits for a change of: all, or of an edge the lowest alone.
fn watched(edge: Edge, slice: Slice) -> BitRange
    ensures { result ≡ watched edge slice }
{
    let width = match edge {
        Edge::Any => slice.width,
        _ => 1,
    };
    BitRange {
        signal: slice.signal,
        word: Some(slice.word),
        bits: Some(bits_from(slice.low, width)),
    }
}

/// The term that waits for a change of the only place of a target.
fn waiting(edge: Edge, target: &Target) -> EventTerm
    requires { IsAlone target.now }
    ensures { (place : Slice) → target.now.parts.items ≡ Fixed place ∷ [] →
        result ≡ record { edge = edge; range = watched edge place } }
{
    match target.parts.first() {
        Some(Aim::Fixed(slice)) => EventTerm {
            edge,
            range: watched(edge, *slice),
        },
        _ => unreachable!(),
    }
}

/// The term of a name alone: any change of it.
fn named_term(alloc: Global, names: &Levels, name: &[u8]) -> Result<EventTerm, BodyFault>
    ensures { let env = meaning_of names.now in let a = name_aimed Event (env name.now) [] in
        Elaborates (width_faults (λ w. has_width_fault w a.finding)) (IsTerm env Any a) result }
{
    let target = name_target(alloc, names, WAITED, name)?;
    Ok(waiting(Edge::Any, &target))
}

/// A term of an event control.
fn term(alloc: Global, names: &Levels, t: &EventExpr) -> Result<EventTerm, BodyFault>
    ensures { let env = meaning_of names.now in
        Elaborates (width_faults (λ w. has_width_fault w (event_aimed env t.now).finding))
        (IsTerm env t.now.edge (event_aimed env t.now)) result }
{
    let target = selected_target(alloc, names, WAITED, &t.name, &t.selects)?;
    Ok(waiting(t.edge, &target))
}

/// The terms of an event control, in the order of the text.
fn terms(
    alloc: Global,
    names: &Levels,
    first: &EventExpr,
    others: &[(Separator, EventExpr)],
) -> Result<Vec<EventTerm>, BodyFault>
    ensures { let env = meaning_of names.now in
        Elaborates (terms_fault env (first.now ∷ map (λ x. x.1) others.now))
        (λ v. AreTerms env (first.now ∷ map (λ x. x.1) others.now) v.items) result }
{
    let mut done = Vec::with_capacity(alloc, 1)?;
    let one = term(alloc, names, first)?;
    done.push(one)?;
    for (_, t) in others {
        let one = term(alloc, names, t)?;
        done.push(one)?;
    }
    Ok(done)
}

/// Any change of what a statement reads (IEEE 1364-2005, clause 9.7.5).
fn level_terms(alloc: Global, body: &Statement) -> Result<Vec<EventTerm>, AllocError>
    ensures { IfOk result (λ v. v.items ≡ map level_term (statement_reads body.now)) }
{
    let ranges = statement_reads(alloc, body)?;
    let mut done = Vec::new(alloc);
    for range in &ranges {
        done.push(EventTerm {
            edge: Edge::Any,
            range: *range,
        })?;
    }
    Ok(done)
}

/// The terms of an event control before a statement (IEEE 1364-2005, clauses 9.7.2 to 9.7.5).
pub fn event_terms(
    alloc: Global,
    names: &Levels,
    control: &EventControl,
    body: &Statement,
) -> Result<Vec<EventTerm>, BodyFault>
    ensures { Elaborates (λ r. event_fault r (meaning_of names.now) control.now)
        (λ v. AreEvents (meaning_of names.now) body.now control.now v.items) result }
{
    match control {
        EventControl::Star => Ok(level_terms(alloc, body)?),
        EventControl::GroupedStar => Ok(level_terms(alloc, body)?),
        EventControl::Name(name) => {
            let one = named_term(alloc, names, name)?;
            let mut done = Vec::with_capacity(alloc, 1)?;
            done.push(one)?;
            Ok(done)
        }
        EventControl::Terms(first, others) => terms(alloc, names, first, others),
    }
}
