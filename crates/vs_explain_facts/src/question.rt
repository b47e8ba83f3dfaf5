//! What a rule is asked of.

use crate::facts::Facts;
use vs_certificate::Certificate;
use vs_design::Design;
use vs_explain_outline::SourceText;

/// What a rule is asked of.
#[derive(Clone, Copy)]
pub struct Question<'q> {
    /// The source.
    pub text: &'q SourceText<'q>,
    /// Its design.
    pub design: &'q Design,
    /// What is claimed of it.
    pub certificate: &'q Certificate,
    /// What its parts do.
    pub facts: &'q Facts<'q>,
    /// The name of the subject.
    pub place: &'q [u8],
}
