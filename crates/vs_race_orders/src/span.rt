//! Choices in a row that take one item.
use std::alloc::{AllocError, Global};

/// Choices in a row that take the item of one place in the list of enabled events. Choices are counted from 0 over the whole run, those among one item
/// too.
#[derive(Clone, Copy)]
pub struct Span {
    /// The number of the first choice.
    pub first: u64,
    /// That of the last one.
    pub last: u64,
    /// The place of the item, modulo how many there are.
    pub item: usize,
}

// Puts choices of one item behind others, until there are so many.
fn fill(choices: &mut Vec<usize>, end: u64, item: usize) -> Result<(), AllocError> {
    for _ in choices.len() as u64..end {
        choices.push(item)?;
    }
    Ok(())
}

/// The choices of spans, which rise: one number for each choice to the last one of them, and at most so many; 0, the first item, between them.
pub fn choices_of(alloc: Global, spans: &[Span], most: u64) -> Result<Vec<usize>, AllocError> {
    let mut choices = Vec::new(alloc);
    for span in spans {
        fill(&mut choices, span.first.min(most), 0)?;
        fill(
            &mut choices,
            span.last.saturating_add(1).min(most),
            span.item,
        )?;
    }
    Ok(choices)
}
