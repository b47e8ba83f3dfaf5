//! Lists by numbers.

use std::alloc::{AllocError, Global};

/// So many empty lists.
pub(crate) fn empty_lists<T: Drop>(alloc: Global, count: usize) -> Result<Vec<Vec<T>>, AllocError> {
    let mut lists = Vec::new(alloc);
    for _ in 0..count {
        lists.push(Vec::new(alloc))?;
    }
    Ok(lists)
}

/// Puts an item at the end of the list of a number, where it isn't there.
pub(crate) fn note<T: Copy + PartialEq + Drop>(
    lists: &mut [Vec<T>],
    number: usize,
    item: T,
) -> Result<(), AllocError> {
    if let Some(list) = lists.get_mut(number) {
        if list.last() != Some(&item) {
            list.push(item)?;
        }
    }
    Ok(())
}
