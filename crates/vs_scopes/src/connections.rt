//! What connections in order or by name say of each of the names that they are for.
ghost use Rattle.std.specs.Prelude.{◌≡◌, ℕ, ◌∷◌, [], List, Option, drop, map, length, IfOk};
ghost use Rattle.vs_syntax.specs.declared.tree.Connection.{Connection};
ghost use Rattle.vs_widths.specs.Names.{meaning_of};
ghost use Rattle.vs_scopes.specs.Connections.{in_text, in_order};
ghost use Rattle.vs_scopes.specs.Overrides.{first_end};
ghost use Rattle.vs_scopes.specs.passes.Ends.{borrowed, read_end, read_ends, value_under, AreEnds, AreNamedEnds, IsSet, Gathers, GathersMore, GathersEach, GathersAll};

use std::alloc::{AllocError, Global};
use vs_syntax::{Connection, Connections, Expr};
use vs_widths::Names;

/// How many connections in order there are: empty parentheses hold none (IEEE 1364-2005, clauses 12.2.2.1 and 12.3.5).
fn count_in_text(first: &Option<Expr>, rest: &[Option<Expr>]) -> usize
    ensures { result ≡ length (in_text first.now rest.now) }
{
    if first.is_none() && rest.is_empty() {
        0
    } else {
        rest.len() + 1
    }
}

/// The connection at a place, in order; the last places may have none.
fn placed<'s>(first: &'s Option<Expr>, rest: &'s [Option<Expr>], place: usize) -> Option<&'s Expr>
    ensures { read_end result
        ≡ first_end (drop place (in_text first.entry.now rest.entry.now)) }
{
    if place == 0 {
        first.as_ref()
    } else if place <= rest.len() {
        rest[place - 1].as_ref()
    } else {
        None
    }
}

/// Connections in order, for each of so many names.
fn ordered<'s>(
    alloc: Global,
    first: &'s Option<Expr>,
    rest: &'s [Option<Expr>],
    count: usize,
) -> Result<Vec<Option<&'s Expr>>, AllocError>
    ensures { (ns : List (List ℕ)) → length ns ≡ count →
        IfOk result (λ v. read_ends v.items ≡ in_order (in_text first.entry.now rest.entry.now) ns) }
{
    let mut ends = Vec::new(alloc);
    for place in 0..count {
        ends.push(placed(first, rest, place))?;
    }
    Ok(ends)
}

/// Names, to look one up among them.
fn name_set<'n>(alloc: Global, names: &[&'n [u8]]) -> Result<Names<'n, bool>, AllocError>
    ensures { IfOk result (IsSet (borrowed names.now)) }
{
    let mut set = Names::new(alloc);
    for name in names {
        set.bind(name, true)?;
    }
    Ok(set)
}

/// Takes a connection by name to those before it. Whether it fits: its name is among those that there are, and stands once.
fn gather<'s>(
    connection: &'s Connection,
    set: &Names<bool>,
    given: &mut Names<'s, Option<&'s Expr>>,
) -> Result<bool, AllocError>
    ensures { (ns : List (List ℕ)) (cs : List Connection) → IsSet ns set.now → Gathers ns cs given.old →
        IfOk result (λ fits. GathersMore ns cs connection.entry.now fits given.new) }
{
    if set.find(&connection.name).is_none() {
        return Ok(false);
    }
    let fresh = given.declare(&connection.name, connection.value.as_ref())?;
    Ok(fresh)
}

/// Takes the connections behind the first to it. Whether they fit.
fn gather_rest<'s>(
    rest: &'s [Connection],
    set: &Names<bool>,
    given: &mut Names<'s, Option<&'s Expr>>,
) -> Result<bool, AllocError>
    ensures { (ns : List (List ℕ)) (c : Connection) → IsSet ns set.now → Gathers ns (c ∷ []) given.old →
        IfOk result (λ fit. GathersEach ns (c ∷ rest.entry.now) fit given.new) }
{
    for connection in rest {
        if !gather(connection, set, given)? {
            return Ok(false);
        }
    }
    Ok(true)
}

/// Connections by name, to look one up among them; nothing where they don't fit the names that there are.
fn gathered<'s>(
    alloc: Global,
    first: &'s Connection,
    rest: &'s [Connection],
    set: &Names<bool>,
) -> Result<Option<Names<'s, Option<&'s Expr>>>, AllocError>
    ensures { (ns : List (List ℕ)) → IsSet ns set.now →
        IfOk result (GathersAll ns (first.entry.now ∷ rest.entry.now)) }
{
    let mut given = Names::new(alloc);
    if !gather(first, set, &mut given)? {
        return Ok(None);
    }
    if !gather_rest(rest, set, &mut given)? {
        return Ok(None);
    }
    Ok(Some(given))
}

/// What stands under a name; nothing where there is no such name.
fn found<'s>(given: &Names<Option<&'s Expr>>, name: &[u8]) -> Option<&'s Expr>
    ensures { read_end result ≡ value_under (meaning_of given.now name.now) }
{
    match given.find(name) {
        Some(value) => value,
        None => None,
    }
}

/// What stands under each of these names.
fn found_for<'s>(
    alloc: Global,
    given: &Names<Option<&'s Expr>>,
    names: &[&[u8]],
) -> Result<Vec<Option<&'s Expr>>, AllocError>
    ensures { IfOk result (λ v. read_ends v.items
        ≡ map (λ n. value_under (meaning_of given.now n)) (borrowed names.now)) }
{
    let mut ends = Vec::new(alloc);
    for name in names {
        ends.push(found(given, name))?;
    }
    Ok(ends)
}

/// What connections by name say of each of these names; nothing where they don't fit them.
fn named_ends<'s>(
    alloc: Global,
    first: &'s Connection,
    rest: &'s [Connection],
    names: &[&[u8]],
) -> Result<Option<Vec<Option<&'s Expr>>>, AllocError>
    ensures { IfOk result (AreNamedEnds (first.entry.now ∷ rest.entry.now) (borrowed names.now)) }
{
    let set = name_set(alloc, names)?;
    match gathered(alloc, first, rest, &set)? {
        Some(given) => Ok(Some(found_for(alloc, &given, names)?)),
        None => Ok(None),
    }
}

/// What connections say of each of these names, in the order of the names; nothing where they don't fit them: there are more in order than
/// names, or one by name is given twice or to no such name (IEEE 1364-2005, clauses 12.2.2 and 12.3).
pub fn ends<'s>(
    alloc: Global,
    connections: &'s Connections,
    names: &[&[u8]],
) -> Result<Option<Vec<Option<&'s Expr>>>, AllocError>
    ensures { IfOk result (AreEnds connections.entry.now (borrowed names.now)) }
{
    match connections {
        Connections::Ordered(first, rest) => {
            if names.len() < count_in_text(first, rest) {
                return Ok(None);
            }
            Ok(Some(ordered(alloc, first, rest, names.len())?))
        }
        Connections::Named(first, rest) => named_ends(alloc, first, rest, names),
    }
}
