//! Choices of items, as a run takes them.

use std::alloc::{AllocError, Global};
use vs_program_words::Choice;
use vs_sign_off::{Span, choices_of};

/// The items that choices take, one by one up to the last of them; all others take the first item. They are at most so many.
pub(crate) fn choice_items(
    alloc: Global,
    choices: &[Choice],
    most: u64,
) -> Result<Vec<usize>, AllocError> {
    let mut spans = Vec::new(alloc);
    for choice in choices {
        spans.push(Span {
            first: choice.first,
            last: choice.last,
            item: choice.item as usize,
        })?;
    }
    choices_of(alloc, &spans, most)
}
