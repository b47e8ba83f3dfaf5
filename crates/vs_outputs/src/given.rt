//! What a message is about.

use vs_explain::vs_certificate::Rules;
use vs_preprocess::Places;

/// How much is told of a refusal.
#[derive(Clone, Copy, PartialEq, Eq)]
pub enum Extent {
    /// One line.
    Line,
    /// Also where it is, what it means, and what mends it.
    Explained,
}

/// What a message is about.
#[derive(Clone, Copy)]
pub struct Given<'g> {
    /// The name of the top module.
    pub top: &'g [u8],
    /// The source.
    pub source: &'g [u8],
    /// Where its bytes come from, where it is the text of files.
    pub places: Option<&'g Places>,
    /// The certificate that was read, where one is taken.
    pub certificate: &'g [u8],
    /// The name of the file that has it; that of standard input, where it comes from there.
    pub certificate_name: &'g [u8],
    /// Whether it stands on the first line of the input, in front of the source.
    pub is_in_front: bool,
    /// The words of the call that name its files, each with a space in front; nothing, where the source is standard input.
    pub files: &'g [u8],
    /// The rules by which certificates are read.
    pub rules: Rules,
    /// How much is told.
    pub extent: Extent,
}

impl<'g> Given<'g> {
    /// Whether the place or the meaning of a refusal is told.
    pub(crate) fn wants_place(&self) -> bool {
        self.places.is_some() || self.extent == Extent::Explained
    }
}
