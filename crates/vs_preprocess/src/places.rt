//! Where the bytes of a text come from.
ghost use Rattle.std.specs.Prelude.{◌≡◌, ◌≤◌, ◌<◌, ◌+◌, All, IfNone, IfSome, Some, is_some, length, map, slice_get, sum_by, true};
ghost use Rattle.vs_preprocess.specs.Files.{bytes_of};
ghost use Rattle.vs_preprocess.specs.Limits.{work_limit};
ghost use Rattle.vs_preprocess.specs.Places.{BeginsAtFirst, IsInside, IsSegmentInside, Map, Source, origin_of, reach, sources_of};
ghost use Rattle.vs_preprocess.specs.passes.Segments.{AreInLine, BeginsAfter, IsLastAt, origin_in};

use std::marker::Model;
use std::rc::RcSlice;
use vs_prep_macros::{Class, Macros, Spot, skip_run};

/// From where on a `line` directive holds, and what it says.
#[derive(Drop)]
pub(crate) struct LineMark {
    /// The first byte of which it speaks.
    pub(crate) first: usize,
    /// The line of that byte in its file, from 1.
    pub(crate) real: usize,
    /// The line that it is said to be.
    pub(crate) given: usize,
    /// The name of the file that is said to hold it.
    pub(crate) name: Vec<u8>,
}

/// A file that was opened.
#[derive(Drop)]
pub(crate) struct SourceFile {
    pub(crate) name: Vec<u8>,
    pub(crate) bytes: RcSlice<u8>,
    /// The `include` that opened it.
    pub(crate) includer: Option<Spot>,
}

/// How bytes of the text come from a file.
#[derive(Clone, Copy, PartialEq, Eq, Debug)]
pub(crate) enum Form {
    /// They are the bytes at its place.
    Copied,
    /// They stand for what is at its place: a comment, a directive, a word of the preprocessor's own.
    Made,
    /// They are the expansion of a use at its place; the number is that of the definition.
    Expanded(usize),
}

/// From an offset of the text on, where so many bytes of it come from.
#[derive(Clone, Copy)]
pub(crate) struct Segment {
    pub(crate) offset: usize,
    pub(crate) size: usize,
    pub(crate) spot: Spot,
    pub(crate) form: Form,
}

impl Segment {
    /// Where the byte at an offset of the text comes from.
    fn origin(self, offset: usize) -> Origin
        ensures file { result.spot.file ≡ self.spot.file }
        ensures place { result.spot.place ≤ self.spot.place + reach self.form self.size }
        ensures exact { self.spot.place + reach self.form self.size ≤ work_limit → result ≡ origin_in self.form offset self }
    {
        match self.form {
            Form::Copied => {
                let passed = offset.saturating_sub(self.offset).min(self.size);
                Origin {
                    spot: Spot {
                        file: self.spot.file,
                        place: self.spot.place.saturating_add(passed),
                    },
                    definition: None,
                }
            }
            Form::Made => Origin {
                spot: self.spot,
                definition: None,
            },
            Form::Expanded(number) => Origin {
                spot: self.spot,
                definition: Some(number),
            },
        }
    }
}

/// Where a byte of the text comes from.
#[derive(Clone, Copy, PartialEq, Eq, Debug)]
pub struct Origin {
    /// The byte of a file; of an expansion the use.
    pub spot: Spot,
    /// The definition of the macro that is used there, by its number.
    pub definition: Option<usize>,
}

/// A place as it is told: a line of a file.
#[derive(Clone, Copy)]
pub struct Line<'p> {
    /// The name of the file, as it was found or as a `line` directive says.
    pub name: &'p [u8],
    /// The number of the line, from 1.
    pub number: usize,
    /// The column in bytes, from 1.
    pub column: usize,
    /// The bytes of the line, without its line feed.
    pub text: &'p [u8],
}

/// The files that were opened, and where the bytes of the text come from.
///
/// In contracts it stands for the bytes of the files, and where each byte of the text comes from.
#[derive(Drop)]
pub struct Places {
    pub(crate) files: Vec<SourceFile>,
    /// What `line` directives say of each file.
    pub(crate) marks: Vec<Vec<LineMark>>,
    pub(crate) macros: Macros,
    pub(crate) segments: Vec<Segment>,
}

impl Model for Places {
    ghost Value = { Map };

    ghost view = { λ p. record { files = map bytes_of p.files.items; sources = sources_of p.segments.items } };

    ghost invariant = { λ p. All (IsSegmentInside (map bytes_of p.files.items)) p.segments.items × BeginsAtFirst p.segments.items
        × AreInLine 0 p.segments.items × (sum_by length (map bytes_of p.files.items) ≤ work_limit) };
}

impl Places {
    /// Where a byte of the text comes from; at the text's length, what follows its last byte. `None`: the text is empty.
    #[tactic(auto, using(crate::proofs::Segments::no_origin))]
    pub fn spot(&self, offset: usize) -> Option<Origin>
        ensures some { 0 < length self.now.sources → is_some result ≡ true }
        ensures inside { IfSome result (λ origin. IsInside self.now.files origin.spot) }
        ensures exact { (source : Source) → slice_get self.now.sources offset ≡ Some source → result ≡ Some (origin_of source) }
    {
        match segment_at(&self.segments, offset) {
            Some(number) => Some(self.segments[number].origin(offset)),
            None => None,
        }
    }

    /// A place as it is told.
    pub fn line(&self, spot: Spot) -> Line<'_> {
        let marks = match self.marks.get(spot.file) {
            Some(marks) => marks.as_slice(),
            None => &[],
        };
        match self.files.get(spot.file) {
            Some(file) => line_in(file, marks, spot.place),
            None => Line {
                name: &[],
                number: 1,
                column: 1,
                text: &[],
            },
        }
    }

    /// The name of the macro of a definition, and where its `define` stands.
    pub fn definition(&self, number: usize) -> Option<(&[u8], Spot)> {
        let definition = self.macros.definition(number)?;
        Some((definition.name.as_slice(), definition.spot))
    }

    /// The `include` that opened a file.
    pub fn includer(&self, file: usize) -> Option<Spot> {
        self.files.get(file)?.includer
    }
}

/// The last segment that doesn't begin behind an offset; they are in the order of their offsets.
fn segment_at(segments: &[Segment], offset: usize) -> Option<usize>
    ensures some { IfSome result (IsLastAt offset segments.now) }
    ensures none { IfNone result (BeginsAfter offset segments.now) }
{
    let mut low = 0;
    let mut high = segments.len();
    while low < high {
        let middle = low + (high - low) / 2;
        if segments[middle].offset <= offset {
            low = middle + 1;
        } else {
            high = middle;
        }
    }
    low.checked_sub(1)
}

/// The bytes up to the first line feed.
fn first_line(bytes: &[u8]) -> &[u8] {
    let behind = skip_run(bytes, Class::Line);
    &bytes[..bytes.len() - behind.len()]
}

/// How many line feeds there are.
pub(crate) fn line_feeds(bytes: &[u8]) -> usize
    ensures { result ≤ length bytes.now }
{
    let mut count = 0;
    for byte in bytes {
        if *byte == b'\n' {
            count += 1;
        }
    }
    count
}

/// How many bytes stand behind the last line feed.
fn since_line_feed(bytes: &[u8]) -> usize
    ensures { result ≤ length bytes.now }
{
    let mut rest = bytes;
    while let [before @ .., last] = rest {
        if *last == b'\n' {
            break;
        }
        rest = before;
    }
    bytes.len() - rest.len()
}

/// The name and the line that the last of these marks tells which isn't behind a place, on the line `real` of a file of this name.
pub(crate) fn marked_line<'p>(
    marks: &'p [LineMark],
    name: &'p [u8],
    place: usize,
    real: usize,
) -> (&'p [u8], usize) {
    match marks.iter().rev().find(|mark| mark.first <= place) {
        Some(mark) => {
            let number = mark.given.saturating_add(real.saturating_sub(mark.real));
            (mark.name.as_slice(), number)
        }
        None => (name, real),
    }
}

/// A place of a file as it is told.
fn line_in<'p>(file: &'p SourceFile, marks: &'p [LineMark], place: usize) -> Line<'p> {
    let bytes = file.bytes.as_slice();
    let place = place.min(bytes.len());
    let before = &bytes[..place];
    let column = since_line_feed(before);
    let real = line_feeds(before).saturating_add(1);
    let (name, number) = marked_line(marks, &file.name, place, real);
    Line {
        name,
        number,
        column: column.saturating_add(1),
        text: first_line(&bytes[place - column..]),
    }
}
