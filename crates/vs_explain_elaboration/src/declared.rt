//! The names that can be seen in a region.

use std::alloc::{AllocError, Global};
use vs_explain_outline::{DeclaredKind, Landmark, LandmarkKind, Page, SourceText, UseRole};
use vs_syntax::vs_lexer::{Directive, ImplicitNet, Kind, Mark, Word};

/// How many tokens are looked back for the word of a declaration.
const LOOKED_BACK: usize = 4096;

/// The names that can be seen in a region, in order, each with the number of its landmark.
#[derive(Drop)]
pub(crate) struct Visible<'s> {
    names: Vec<(&'s [u8], usize)>,
}

/// Whether a region is another one or stands around it, up to the module.
fn encloses(text: &SourceText, outer: usize, inner: usize) -> bool {
    let mut number = inner;
    for _ in 0..text.outline.regions.len() {
        if number == outer {
            return true;
        }
        match text.region(number) {
            Some(region) => match region.around {
                Some(around) => number = around,
                None => return false,
            },
            None => return false,
        }
    }
    false
}

/// Whether undeclared names are nets in the module that begins with this token.
fn has_implicit_nets(text: &SourceText, module: usize) -> bool {
    let mut implicit = true;
    for (index, token) in text.tokens.iter().enumerate() {
        if index >= module {
            return implicit;
        }
        if let Kind::Directive(Directive::DefaultNettype(kind)) = token.kind {
            implicit = kind == ImplicitNet::Wire;
        }
    }
    implicit
}

/// Whether undeclared names are nets in the module of a region.
pub(crate) fn implicit_in(text: &SourceText, region: usize) -> bool {
    match text.region(text.module_of(region)) {
        Some(module) => has_implicit_nets(text, module.first),
        None => true,
    }
}

/// Whether a use makes a net of an undeclared name.
pub(crate) fn may_declare(kind: LandmarkKind) -> bool {
    matches!(
        kind,
        LandmarkKind::Used(UseRole::Connected)
            | LandmarkKind::Used(UseRole::Driven)
            | LandmarkKind::Used(UseRole::DrivenIndex)
    )
}

impl<'s> Visible<'s> {
    /// The names that can be seen in a region; none where there is no room for them, which the page remembers.
    pub(crate) fn seen_from(page: &mut Page, text: &SourceText<'s>, region: usize) -> Visible<'s> {
        let alloc = page.alloc();
        match Visible::from(alloc, text, region) {
            Ok(visible) => visible,
            Err(_) => {
                page.leave_out();
                Visible {
                    names: Vec::new(alloc),
                }
            }
        }
    }

    /// The names that can be seen in a region.
    fn from(
        alloc: Global,
        text: &SourceText<'s>,
        region: usize,
    ) -> Result<Visible<'s>, AllocError> {
        let implicit = implicit_in(text, region);
        let mut around = Vec::new(alloc);
        for number in 0..text.outline.regions.len() {
            around.push(encloses(text, number, region))?;
        }
        let mut names = Vec::new(alloc);
        for (index, landmark) in text.outline.landmarks.iter().enumerate() {
            let declares = match landmark.kind {
                LandmarkKind::Declared(_) | LandmarkKind::Instance => true,
                kind => implicit && may_declare(kind),
            };
            if declares && vs_explain_outline::is_marked(&around, landmark.region) {
                names.push((text.name_at(landmark.token), index))?;
            }
        }
        names.sort()?;
        Ok(Visible { names })
    }

    /// All of them, in order; a name may stand there several times.
    pub(crate) fn names(&self) -> &[(&'s [u8], usize)] {
        &self.names
    }

    /// Where the first entry of a name stands, or would stand.
    fn first_entry(&self, name: &[u8]) -> usize {
        let mut low = 0usize;
        let mut high = self.names.len();
        for _ in 0..64 {
            if low >= high {
                return low;
            }
            let middle = low.saturating_add(high.saturating_sub(low) / 2);
            match self.names.get(middle) {
                Some((other, _)) if *other < name => low = middle.saturating_add(1),
                _ => high = middle,
            }
        }
        low
    }

    /// Whether the name can be seen.
    pub(crate) fn has(&self, name: &[u8]) -> bool {
        match self.names.get(self.first_entry(name)) {
            Some((other, _)) => *other == name,
            None => false,
        }
    }

    /// The declaration of a name that says most of it: that of a variable, where one says that it is one.
    pub(crate) fn declaration(&self, text: &SourceText, name: &[u8]) -> Option<Landmark> {
        let mut best = None;
        for index in self.first_entry(name)..self.names.len() {
            let (other, number) = self.names.get(index)?;
            if *other != name {
                break;
            }
            let landmark = text.outline.landmarks.get(*number)?;
            if best.is_none() || is_variable(landmark.kind) {
                best = Some(*landmark);
            }
        }
        best
    }
}

/// Whether a declaration says that its name is a variable.
pub(crate) fn is_variable(kind: LandmarkKind) -> bool {
    matches!(
        kind,
        LandmarkKind::Declared(DeclaredKind::Variable)
            | LandmarkKind::Declared(DeclaredKind::VariablePort)
    )
}

/// Whether a declaration says that its name is a net.
pub(crate) fn is_net(kind: LandmarkKind) -> bool {
    matches!(
        kind,
        LandmarkKind::Declared(DeclaredKind::Net) | LandmarkKind::Declared(DeclaredKind::NetPort)
    )
}

/// The word with which the declaration of a name begins, and its token.
pub(crate) fn word_of(text: &SourceText, name: usize) -> Option<(Word, usize)> {
    for back in 1..LOOKED_BACK {
        let index = name.checked_sub(back)?;
        match text.tokens.get(index)?.kind {
            Kind::Word(Word::Signed) => {}
            Kind::Word(word) => return Some((word, index)),
            _ => {}
        }
    }
    None
}

/// Whether a declared name is an array.
pub(crate) fn is_array(text: &SourceText, name: usize) -> bool {
    text.is_mark(name.saturating_add(1), Mark::OpenBracket)
}

/// Whether a declared name has a range, so that its bits can be selected.
pub(crate) fn has_range(text: &SourceText, name: usize) -> bool {
    match word_of(text, name) {
        Some((Word::Integer, _)) => true,
        Some((_, token)) => {
            let next = token.saturating_add(1);
            text.is_mark(next, Mark::OpenBracket)
                || text.is_mark(token.saturating_add(2), Mark::OpenBracket)
        }
        None => true,
    }
}
