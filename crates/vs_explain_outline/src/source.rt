//! A source with its tokens and its outline, and what is looked up in it.

use crate::frames::{is_mark, is_word};
use crate::outline::{Landmark, LandmarkKind, Outline, Region, RegionKind};
use crate::paths::{first_part, ordinal_of};
use crate::scan::outline_of;
use std::alloc::{AllocError, Global};
use vs_lexer::{LexFault, Mark, Token, Word, lex};

/// How many instances of one name are followed in a step of a path, where generate constructs have several.
const FOLLOWED: usize = 16;

/// A source with its tokens and its outline.
#[derive(Drop)]
pub struct SourceText<'s> {
    /// The bytes.
    pub bytes: &'s [u8],
    /// The tokens.
    pub tokens: Vec<Token<'s>>,
    /// The outline.
    pub outline: Outline,
}

/// Whether the letters of a name are `genblk`, zeros, and a number.
fn is_unnamed(name: &[u8], number: usize) -> bool {
    let Some(digits) = name.strip_prefix(b"genblk") else {
        return false;
    };
    let mut value = 0usize;
    for digit in digits {
        if !digit.is_ascii_digit() {
            return false;
        }
        value = value
            .saturating_mul(10)
            .saturating_add(usize::from(digit.saturating_sub(b'0')));
    }
    value == number
}

impl<'s> SourceText<'s> {
    /// The source with its tokens and its outline, where it has tokens.
    pub fn read(alloc: Global, bytes: &'s [u8]) -> Result<Option<SourceText<'s>>, AllocError> {
        let tokens = match lex(alloc, bytes) {
            Ok(tokens) => tokens,
            Err(LexFault::Memory) => return Err(AllocError),
            Err(_) => return Ok(None),
        };
        let outline = outline_of(alloc, &tokens)?;
        Ok(Some(SourceText {
            bytes,
            tokens,
            outline,
        }))
    }

    /// The name that a token is.
    pub fn name_at(&self, token: usize) -> &'s [u8] {
        match self.tokens.get(token) {
            Some(token) => token.name(),
            None => &[],
        }
    }

    /// Whether a token is this word.
    pub fn is_word(&self, token: usize, word: Word) -> bool {
        is_word(&self.tokens, token, word)
    }

    /// Whether a token is this mark.
    pub fn is_mark(&self, token: usize, mark: Mark) -> bool {
        is_mark(&self.tokens, token, mark)
    }

    /// The place of a token; of none the end of the source.
    pub fn place_at(&self, token: usize) -> usize {
        match self.tokens.get(token) {
            Some(token) => token.place,
            None => self.bytes.len(),
        }
    }

    /// The region of this number.
    pub fn region(&self, number: usize) -> Option<Region> {
        self.outline.regions.get(number).copied()
    }

    /// The name of a region, where it has one.
    pub fn region_name(&self, region: &Region) -> &'s [u8] {
        match region.name {
            Some(token) => self.name_at(token),
            None => &[],
        }
    }

    /// The first module of this name.
    pub fn module_named(&self, name: &[u8]) -> Option<usize> {
        for (number, region) in self.outline.regions.iter().enumerate() {
            if region.kind == RegionKind::Module && self.region_name(region) == name {
                return Some(number);
            }
        }
        None
    }

    /// Whether a region is the block of this name.
    fn is_block_named(&self, region: &Region, name: &[u8]) -> bool {
        match (region.kind, region.name) {
            (RegionKind::Module, _) => false,
            (_, Some(token)) => self.name_at(token) == name,
            (_, None) => is_unnamed(name, region.number),
        }
    }

    /// Which regions a name leads to from the marked ones: blocks in them, and the modules of instances in them.
    fn regions_below(
        &self,
        alloc: Global,
        marked: &[bool],
        name: &[u8],
    ) -> Result<Vec<bool>, AllocError> {
        let mut below = Vec::new(alloc);
        for region in &self.outline.regions {
            let inside = match region.around {
                Some(around) => is_marked(marked, around),
                None => false,
            };
            below.push(inside && self.is_block_named(region, name))?;
        }
        let mut followed = 0usize;
        for landmark in &self.outline.landmarks {
            if followed < FOLLOWED
                && landmark.kind == LandmarkKind::Instance
                && is_marked(marked, landmark.region)
                && self.name_at(landmark.token) == name
            {
                followed = followed.saturating_add(1);
                self.mark_module(&mut below, landmark);
            }
        }
        Ok(below)
    }

    /// Marks the module of an instance.
    fn mark_module(&self, marked: &mut [bool], instance: &Landmark) {
        if let Some(module) = self.module_named(self.name_at(instance.of)) {
            if let Some(mark) = marked.get_mut(module) {
                *mark = true;
            }
        }
    }

    /// Which regions the path of a scope may mean; several where branches of generate constructs share a name. All are unmarked where there is none.
    pub fn regions_at(&self, alloc: Global, path: &[u8]) -> Result<Vec<bool>, AllocError> {
        let mut marked = Vec::new(alloc);
        let (name, mut rest) = match first_part(path) {
            Some(part) => (part.name, part.rest),
            None => (path, path),
        };
        let top = self.module_named(name);
        for number in 0..self.outline.regions.len() {
            marked.push(top == Some(number))?;
        }
        for _ in 0..path.len() {
            let Some(part) = first_part(rest) else {
                break;
            };
            marked = self.regions_below(alloc, &marked, part.name)?;
            rest = part.rest;
        }
        Ok(marked)
    }

    /// The region around that is a module.
    pub fn module_of(&self, region: usize) -> usize {
        let mut number = region;
        for _ in 0..self.outline.regions.len() {
            match self.outline.regions.get(number) {
                Some(
                    Region {
                        around: Some(around),
                        ..
                    },
                ) => number = *around,
                _ => return number,
            }
        }
        number
    }

    /// The landmark of this kind and name in the marked regions that comes first.
    pub fn instance_in(&self, marked: &[bool], name: &[u8]) -> Option<Landmark> {
        for landmark in &self.outline.landmarks {
            if landmark.kind == LandmarkKind::Instance
                && is_marked(marked, landmark.region)
                && self.name_at(landmark.token) == name
            {
                return Some(*landmark);
            }
        }
        None
    }

    /// The first declaration of a name in the marked regions; of a name without one its first use, which makes a net of it.
    pub fn declaration_in(&self, marked: &[bool], name: &[u8]) -> Option<Landmark> {
        let mut used = None;
        for landmark in &self.outline.landmarks {
            if is_marked(marked, landmark.region) && self.name_at(landmark.token) == name {
                match landmark.kind {
                    LandmarkKind::Declared(_) => return Some(*landmark),
                    LandmarkKind::Used(_) if used.is_none() => used = Some(*landmark),
                    _ => {}
                }
            }
        }
        used
    }

    /// The token of a process or an assignment with a number, `t#p3` or `t#a0`, in the first region that its path may mean.
    pub fn numbered(&self, alloc: Global, name: &[u8]) -> Result<Option<usize>, AllocError> {
        let Some((path, letter, number)) = ordinal_of(name) else {
            return Ok(None);
        };
        let marked = self.regions_at(alloc, path)?;
        let kind = if letter == b'p' {
            LandmarkKind::Process
        } else {
            LandmarkKind::Assign
        };
        Ok(self.numbered_in(&marked, kind, number))
    }

    /// The token of the landmark of a kind with this number among those of one region, in the first marked region that has so many.
    fn numbered_in(&self, marked: &[bool], kind: LandmarkKind, number: usize) -> Option<usize> {
        for (region, mark) in marked.iter().enumerate() {
            if *mark {
                let token = self.numbered_of(region, kind, number);
                if token.is_some() {
                    return token;
                }
            }
        }
        None
    }

    /// The token of the landmark of a kind with this number among those of a region.
    fn numbered_of(&self, region: usize, kind: LandmarkKind, number: usize) -> Option<usize> {
        let mut count = 0usize;
        for landmark in &self.outline.landmarks {
            if landmark.kind == kind && landmark.region == region {
                if count == number {
                    return Some(landmark.token);
                }
                count = count.saturating_add(1);
            }
        }
        None
    }
}

/// Whether a number is marked.
pub fn is_marked(marked: &[bool], number: usize) -> bool {
    match marked.get(number) {
        Some(mark) => *mark,
        None => false,
    }
}
