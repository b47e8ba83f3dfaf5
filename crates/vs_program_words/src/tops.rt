//! The modules of a source that no module of it instantiates.
ghost use Rattle.std.specs.Prelude.{◌≡◌, ◌++◌, ℕ, List, IfOk, OnOk};
ghost use Rattle.vs_scopes.specs.Reads.{read_names};
ghost use Rattle.vs_program_words.specs.Tops.{item_uses, else_uses, own_top, top_modules, tops_among, used_among, used_by, used_in};
ghost use Rattle.vs_program_words.specs.targets_passes.Names.{AreIndexed};

use std::alloc::{AllocError, AllocFailed, Global};
use vs_syntax::{Item, Module, ModuleItem, Source};
use vs_widths::Names;

// Adds the name of the module that an item instantiates.
fn add_instances<'s>(names: &mut Vec<&'s [u8]>, item: &'s Item) -> Result<(), AllocError>
    ensures { OnOk result (read_names names.new.items ≡ read_names names.old.items ++ item_uses item.entry.now) }
{
    if let Item::Instances(name, _, _) = item {
        names.push(name)?;
    }
    Ok(())
}

// Adds the names of the modules that a module item instantiates.
#[cycle(uses)]
fn add_uses<'s>(names: &mut Vec<&'s [u8]>, item: &'s ModuleItem) -> Result<(), AllocError>
    ensures { OnOk result (read_names names.new.items ≡ read_names names.old.items ++ used_in item.entry.now) }
{
    match item {
        ModuleItem::Plain(x) => add_instances(names, x),
        ModuleItem::Region(items) => add_uses_among(names, items),
        ModuleItem::For(_, x) => add_uses(names, x),
        ModuleItem::If(_, x, other) => {
            add_uses(names, x)?;
            add_else_uses(names, other)
        }
        ModuleItem::Null => Ok(()),
        ModuleItem::Block(_, items) => add_uses_among(names, items),
    }
}

// Adds those of what stands behind `else`.
#[cycle(uses)]
#[inline(never)]
fn add_else_uses<'s>(
    names: &mut Vec<&'s [u8]>,
    other: &'s Option<Box<ModuleItem>>,
) -> Result<(), AllocError>
    ensures { OnOk result (read_names names.new.items ≡ read_names names.old.items ++ else_uses other.entry.now) }
{
    match other {
        Some(x) => add_uses(names, x),
        None => Ok(()),
    }
}

// Adds those of module items.
#[cycle(uses)]
#[inline(never)]
fn add_uses_among<'s>(names: &mut Vec<&'s [u8]>, items: &'s [ModuleItem]) -> Result<(), AllocError>
    ensures { OnOk result (read_names names.new.items ≡ read_names names.old.items ++ used_among items.entry.now) }
{
    for item in items {
        add_uses(names, item)?;
    }
    Ok(())
}

// The names of the modules that the modules of a source instantiate.
fn used_names<'s>(alloc: Global, modules: &'s [Module]) -> Result<Vec<&'s [u8]>, AllocError>
    ensures { IfOk result (λ names. read_names names.items ≡ used_by modules.entry.now) }
{
    let mut names = Vec::new(alloc);
    for module in modules {
        add_uses_among(&mut names, &module.items)?;
    }
    Ok(names)
}

// Names, in order.
fn index_of<'s>(
    alloc: Global,
    names: &[&'s [u8]],
) -> Result<Names<'s, bool>, AllocFailed<(&'s [u8], bool)>>
    ensures { IfOk result (AreIndexed (read_names names.now)) }
{
    let mut index = Names::new(alloc);
    for name in names {
        index.bind(*name, true)?;
    }
    Ok(index)
}

// Adds the name of a module, unless it is one of these; then it is one of them.
fn add_top<'s>(
    tops: &mut Vec<&'s [u8]>,
    index: &mut Names<'s, bool>,
    defined: &'s Module,
) -> Result<(), AllocError>
    ensures top { (names : List (List ℕ)) → AreIndexed names index.old →
        OnOk result (read_names tops.new.items ≡ read_names tops.old.items ++ own_top names defined.entry.now) }
    ensures index { (names : List (List ℕ)) → AreIndexed names index.old →
        OnOk result (AreIndexed (names ++ own_top names defined.entry.now) index.new) }
{
    if index.find(&defined.name).is_none() {
        let Ok(()) = index.bind(&defined.name, true) else {
            return Err(AllocError);
        };
        tops.push(&defined.name)?;
    }
    Ok(())
}

// The names of modules that are none of these, each once.
fn others_than<'s>(
    alloc: Global,
    index: Names<'s, bool>,
    modules: &'s [Module],
) -> Result<Vec<&'s [u8]>, AllocError>
    ensures { (names : List (List ℕ)) → AreIndexed names index.entry →
        IfOk result (λ tops. read_names tops.items ≡ tops_among names modules.entry.now) }
{
    let mut left = index;
    let mut tops = Vec::new(alloc);
    for module in modules {
        add_top(&mut tops, &mut left, module)?;
    }
    Ok(tops)
}

/// The names of the modules that no module of a source instantiates, itself among them, each once, in the order of the text (IEEE 1364-2005, clause
/// 12.1.1). What a generate construct may generate counts, whether it does or not.
pub fn top_modules<'s>(alloc: Global, source: &'s Source) -> Result<Vec<&'s [u8]>, AllocError>
    ensures { IfOk result (λ tops. read_names tops.items ≡ top_modules source.entry.now) }
{
    let names = used_names(alloc, &source.modules)?;
    let Ok(index) = index_of(alloc, &names) else {
        return Err(AllocError);
    };
    others_than(alloc, index, &source.modules)
}
