//! What items say of names that the header of a module has alone, or another item declares.
ghost use Rattle.std.specs.Prelude.{◌≡◌, ℕ, ◌∷◌, [], List, map, IfOk, OnOk};
ghost use Rattle.vs_scopes.specs.Pieces.{plain};
ghost use Rattle.vs_scopes.specs.Reads.{read_piece};
ghost use Rattle.vs_scopes.specs.vs_widths.specs.Names.{meaning_of};
ghost use Rattle.vs_scopes.specs.Ports.{said_in, kind_in, kind_among};
ghost use Rattle.vs_scopes.specs.scopes_passes.Parts.{read_end};
ghost use Rattle.vs_scopes.specs.scopes_passes.Declared.{first_of, read_said, form_of, AddsNames, said_by, ArePortForms, AreKinds};

use crate::ScopePiece;
use crate::vs_widths::Names;
use std::alloc::{AllocError, Global};
use vs_design::SignalKind;
use vs_syntax::{Declarator, Item, PortForm, Range};

/// What a declaration of a net or of variables says of one of its names (IEEE 1364-2005, clauses 4.2.1, 4.2.2 and 4.8).
#[derive(Clone, Copy)]
pub struct KindSaid<'s> {
    /// What it is declared as.
    pub kind: SignalKind,
    /// Whether it is signed.
    pub signed: bool,
    /// Its range, where it has one.
    pub range: Option<&'s Range>,
    /// The range of its words, where it is an array.
    pub words: Option<&'s Range>,
}

/// Adds a name, unless it is there.
pub fn add_first<'s, V: Copy>(
    name: &'s [u8],
    value: V,
    names: &mut Names<'s, V>,
) -> Result<(), AllocError>
    ensures { OnOk result (AddsNames names.old names.new ((name.entry.now, value) ∷ [])) }
{
    if names.find(name).is_some() {
        return Ok(());
    }
    match names.declare(name, value) {
        Ok(_) => Ok(()),
        Err(_) => Err(AllocError),
    }
}

/// Adds names, each with what is said of them.
fn add_forms<'s>(
    form: &'s PortForm,
    list: &'s [Vec<u8>],
    forms: &mut Names<'s, &'s PortForm>,
) -> Result<(), AllocError>
    ensures { OnOk result ((n : List ℕ) → read_end (meaning_of forms.new n)
        ≡ first_of (read_end (meaning_of forms.old n)) (said_by form.entry.now list.entry.now n)) }
{
    for name in list {
        add_first(name, form, forms)?;
    }
    Ok(())
}

/// Adds what an item says of ports by `input` or `output` (IEEE 1364-2005, clause 12.3.3).
fn add_item_forms<'s>(item: &'s Item, forms: &mut Names<'s, &'s PortForm>) -> Result<(), AllocError>
    ensures { OnOk result ((n : List ℕ) → read_end (meaning_of forms.new n)
        ≡ first_of (read_end (meaning_of forms.old n)) (said_in (plain item.entry.now) n)) }
{
    match item {
        Item::Port(form, list) => add_forms(form, list, forms),
        _ => Ok(()),
    }
}

/// What the first of some pieces says of each port by `input` or `output` (IEEE 1364-2005, clause 12.3.3).
pub fn port_forms<'s>(
    alloc: Global,
    pieces: &[ScopePiece<'s>],
) -> Result<Names<'s, &'s PortForm>, AllocError>
    ensures { IfOk result (ArePortForms (map read_piece pieces.now)) }
{
    let mut forms = Names::new(alloc);
    for piece in pieces {
        let ScopePiece::Plain(item) = *piece else {
            continue;
        };
        add_item_forms(item, &mut forms)?;
    }
    Ok(forms)
}

/// Adds the names of a declaration, each with what it says of them.
fn add_kinds<'s>(
    kind: SignalKind,
    signed: bool,
    range: Option<&'s Range>,
    declarators: &'s [Declarator],
    kinds: &mut Names<'s, KindSaid<'s>>,
) -> Result<(), AllocError>
    ensures { OnOk result ((n : List ℕ) → read_said (meaning_of kinds.new n)
        ≡ first_of (read_said (meaning_of kinds.old n)) (kind_among kind (form_of signed (read_end range.entry)) declarators.entry.now n)) }
{
    for declarator in declarators {
        let said = KindSaid {
            kind,
            signed,
            range,
            words: declarator.words.as_ref(),
        };
        add_first(&declarator.name, said, kinds)?;
    }
    Ok(())
}

/// Adds what an item declares names as (IEEE 1364-2005, clauses 4.2.1, 4.2.2 and 4.8).
fn add_item_kinds<'s>(item: &'s Item, kinds: &mut Names<'s, KindSaid<'s>>) -> Result<(), AllocError>
    ensures { OnOk result ((n : List ℕ) → read_said (meaning_of kinds.new n)
        ≡ first_of (read_said (meaning_of kinds.old n)) (kind_in (plain item.entry.now) n)) }
{
    match item {
        Item::Wire(form, list) => {
            add_kinds(
                SignalKind::Wire,
                form.signed,
                form.range.as_ref(),
                list,
                kinds,
            )
        }
        Item::Reg(form, list) => {
            add_kinds(
                SignalKind::Reg,
                form.signed,
                form.range.as_ref(),
                list,
                kinds,
            )
        }
        Item::Integer(list) => add_kinds(SignalKind::Integer, true, None, list, kinds),
        _ => Ok(()),
    }
}

/// What the first of some pieces declares each name as.
pub fn kinds_said<'s>(
    alloc: Global,
    pieces: &[ScopePiece<'s>],
) -> Result<Names<'s, KindSaid<'s>>, AllocError>
    ensures { IfOk result (AreKinds (map read_piece pieces.now)) }
{
    let mut kinds = Names::new(alloc);
    for piece in pieces {
        let ScopePiece::Plain(item) = *piece else {
            continue;
        };
        add_item_kinds(item, &mut kinds)?;
    }
    Ok(kinds)
}
