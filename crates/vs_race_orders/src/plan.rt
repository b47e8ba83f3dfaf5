//! The policy of spans of choices.
ghost use Rattle.std.specs.Prelude.{◌<◌};

use crate::span::Span;
use vs_run_regions::Pick;

/// The policy that makes the choices of spans, which rise: among n events that of the item modulo n. At all other choices it chooses the first.
#[derive(Clone, Copy)]
pub struct Planned<'s> {
    /// The spans that are left.
    spans: &'s [Span],
    /// How many choices were made.
    count: u64,
}

impl<'s> Planned<'s> {
    /// The policy of these spans.
    pub fn new(spans: &'s [Span]) -> Self {
        Planned { spans, count: 0 }
    }

    /// The item of the next choice.
    pub(crate) fn next_item(&mut self) -> usize {
        let number = self.count;
        self.count = number.saturating_add(1);
        if let Some((span, others)) = self.spans.split_first()
            && span.last < number
        {
            self.spans = others;
        }
        match self.spans.first() {
            Some(span) if span.first <= number => span.item,
            _ => 0,
        }
    }

    /// A choice of the first item.
    pub(crate) fn skip(&mut self) {
        self.count = self.count.saturating_add(1);
    }
}

impl<'s> Pick for Planned<'s> {
    fn pick(&mut self, n: usize) -> usize
        requires { 0 < n }
        ensures { result < n }
    {
        self.next_item() % n
    }
}
