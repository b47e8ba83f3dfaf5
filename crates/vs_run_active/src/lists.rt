//! Terms of event controls by the signals that they name: a list for each signal, made once.
ghost use Rattle.std.specs.Prelude.{◌≡◌, ◌++◌, ◌∷◌, [], IfOk, OnOk};
ghost use Rattle.vs_design.specs.Stores.{changed_at};
ghost use Rattle.vs_design.specs.Tables.{empty_rows, rows};
ghost use Rattle.vs_run_active.specs.Lists.{AreBySignal};

use crate::watchers::ProcessTerm;
use std::alloc::{AllocError, Global};

/// Puts an item at the end of one of some lists; past the end there is none.
pub(crate) fn push_at<T: Drop>(
    lists: &mut Vec<Vec<T>>,
    place: usize,
    item: T,
) -> Result<(), AllocError>
    ensures { OnOk result (rows lists.new.items ≡ changed_at (λ list. list ++ item ∷ []) place (rows lists.old.items)) }
{
    if let Some(list) = lists.get_mut(place) {
        list.push(item)?;
    }
    Ok(())
}

/// So many empty lists.
pub(crate) fn empty_lists<T: Drop>(alloc: Global, count: usize) -> Result<Vec<Vec<T>>, AllocError>
    ensures { IfOk result (λ lists. rows lists.items ≡ empty_rows count) }
{
    let mut lists = Vec::new(alloc);
    for _ in 0..count {
        lists.push(Vec::new(alloc))?;
    }
    Ok(lists)
}

/// For each of so many signals the terms that name it, in their order.
pub(crate) fn by_signal(
    alloc: Global,
    terms: &[ProcessTerm],
    signals: usize,
) -> Result<Vec<Vec<ProcessTerm>>, AllocError>
    ensures { IfOk result (λ lists. AreBySignal terms.now signals (rows lists.items)) }
{
    let mut lists = empty_lists(alloc, signals)?;
    for term in terms {
        push_at(&mut lists, term.term.range.signal, *term)?;
    }
    Ok(lists)
}
