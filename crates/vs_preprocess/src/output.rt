//! The text that is made, with the files that were opened and where its bytes come from.
ghost use Rattle.std.specs.Prelude.{◌≡◌, ◌≤◌, ◌+◌, All, IfOk, IfSome, length, map, sum_by, vec_len};
ghost use Rattle.vs_preprocess.specs.Files.{bytes_of};
ghost use Rattle.vs_preprocess.specs.Limits.{text_limit, work_limit};
ghost use Rattle.vs_preprocess.specs.Places.{AreFrom, AreFrom-prop, BeginsAtFirst, IsInside, IsSegmentInside, size_of, sources_in, sources_of};
ghost use Rattle.vs_preprocess.specs.passes.Segments.{AreInLine, AreInLine-prop, IsJoined, IsReached};

use crate::places::{Form, LineMark, Segment, SourceFile};
use std::alloc::{AllocError, Global};
use std::rc::RcSlice;
use vs_prep_macros::{Fault, Halt, Spot, TEXT_LIMIT, WORK_LIMIT};

/// How much work opening a file is beside its bytes: 1 KiB, so that no more than 65,536 files are opened.
const FILE_WORK: usize = 1024;

/// The text that is made so far, the files that were opened, and how much work is left.
#[derive(Drop)]
pub(crate) struct Output {
    pub(crate) text: Vec<u8>,
    pub(crate) segments: Vec<Segment>,
    pub(crate) files: Vec<SourceFile>,
    /// What `line` directives say of each file, in the order of its bytes.
    pub(crate) marks: Vec<Vec<LineMark>>,
    pub(crate) work: usize,
    ghost small: { vec_len text ≤ text_limit },
    ghost worked: { sum_by length (map bytes_of files.items) + work ≤ work_limit },
    ghost inside: { All (IsSegmentInside (map bytes_of files.items)) segments.items },
    ghost begins: { BeginsAtFirst segments.items },
    ghost follow: { AreInLine 0 segments.items } by { AreInLine-prop 0 segments.items },
    ghost covered: { sum_by size_of segments.items ≡ vec_len text },
    ghost mapped: { AreFrom (map bytes_of files.items) (sources_of segments.items) text.items } by { AreFrom-prop _ _ _ },
}

/// The last segment with so many bytes more, if bytes that are copied from the spot go on where it ends.
fn joined(last: Segment, size: usize, spot: Spot) -> Option<Segment>
    ensures { IfSome result (IsJoined last size spot) }
{
    let Form::Copied = last.form else {
        return None;
    };
    if last.spot.file != spot.file || last.spot.place.checked_add(last.size)? != spot.place {
        return None;
    }
    Some(Segment {
        offset: last.offset,
        size: last.size.checked_add(size)?,
        spot: last.spot,
        form: Form::Copied,
    })
}

impl Output {
    /// No text, and no files.
    pub(crate) fn new(alloc: Global) -> Output {
        Output {
            text: Vec::new(alloc),
            segments: Vec::new(alloc),
            files: Vec::new(alloc),
            marks: Vec::new(alloc),
            work: WORK_LIMIT,
        }
    }

    /// Takes a file up among those that were opened, and answers its number; none, where reading it is more work than is left.
    pub(crate) fn open(
        &mut self,
        alloc: Global,
        name: Vec<u8>,
        bytes: RcSlice<u8>,
        includer: Option<Spot>,
    ) -> Result<Option<usize>, AllocError> {
        let size = bytes.len();
        if size >= self.work {
            return Ok(None);
        }
        let number = self.files.len();
        self.marks.push(Vec::new(alloc))?;
        let source = SourceFile {
            name,
            bytes,
            includer,
        };
        match self.files.push(source) {
            Ok(()) => {
                self.work -= size + 1;
                Ok(Some(number))
            }
            Err(_) => Err(AllocError),
        }
    }

    /// Takes the work that opening a file is beside its bytes.
    pub(crate) fn spend_on_file(&mut self) {
        let left = self.work.saturating_sub(FILE_WORK);
        self.leave_work(left);
    }

    /// Says that no more work than this is left.
    pub(crate) fn leave_work(&mut self, work: usize) {
        self.work = self.work.min(work);
    }

    /// Keeps what a `line` directive says of the bytes of a file from a place on.
    pub(crate) fn mark_line(&mut self, file: usize, mark: LineMark) -> Result<(), AllocError> {
        if let Some(marks) = self.marks.get_mut(file) {
            marks.push(mark)?;
        }
        Ok(())
    }

    /// Puts bytes behind the text that come from a spot in some form.
    fn put_from(&mut self, bytes: &[u8], spot: Spot, form: Form) -> Result<(), Halt>
        requires reached { IsReached (map bytes_of self.old.files.items) (length bytes.now) spot form }
        requires from { AreFrom (map bytes_of self.old.files.items) (sources_in form spot (length bytes.now)) bytes.now }
    {
        let offset = self.text.len();
        let size = bytes.len();
        if size > TEXT_LIMIT - offset {
            return Err(Halt::Here(Fault::LongText));
        }
        let count = self.segments.len();
        if let Form::Copied = form {
            if count > 0 {
                if let Some(longer) = joined(self.segments[count - 1], size, spot) {
                    self.text.extend_from_slice(bytes)?;
                    self.segments[count - 1] = longer;
                    return Ok(());
                }
            }
        }
        self.put_segment(bytes, spot, form)
    }

    /// Puts bytes behind the text, and a segment of their own.
    fn put_segment(&mut self, bytes: &[u8], spot: Spot, form: Form) -> Result<(), Halt>
        requires reached { IsReached (map bytes_of self.old.files.items) (length bytes.now) spot form }
        requires from { AreFrom (map bytes_of self.old.files.items) (sources_in form spot (length bytes.now)) bytes.now }
        requires small { vec_len self.old.text + length bytes.now ≤ text_limit }
    {
        let offset = self.text.len();
        self.text.extend_from_slice(bytes)?;
        let segment = Segment {
            offset,
            size: bytes.len(),
            spot,
            form,
        };
        match self.segments.push(segment) {
            Ok(()) => Ok(()),
            Err(_) => {
                self.text.truncate(offset);
                Err(Halt::Memory)
            }
        }
    }

    /// The spot, or the end of its file where that is before it.
    fn within(&self, spot: Spot) -> Result<Spot, Halt>
        ensures { IfOk result (IsInside (map bytes_of self.now.files.items)) }
    {
        match self.files.get(spot.file) {
            Some(source) => Ok(Spot {
                file: spot.file,
                place: spot.place.min(source.bytes.len()),
            }),
            None => Err(Halt::Here(Fault::NoFile)),
        }
    }

    /// Puts bytes behind the text that stand for what is at a spot.
    pub(crate) fn put(&mut self, bytes: &[u8], spot: Spot) -> Result<(), Halt> {
        let spot = self.within(spot)?;
        self.put_from(bytes, spot, Form::Made)
    }

    /// Puts the expansion of a use behind the text, of the macro with this definition if it is one.
    pub(crate) fn put_expansion(
        &mut self,
        bytes: &[u8],
        spot: Spot,
        definition: Option<usize>,
    ) -> Result<(), Halt> {
        if bytes.is_empty() {
            return Ok(());
        }
        let spot = self.within(spot)?;
        match definition {
            Some(number) => self.put_from(bytes, spot, Form::Expanded(number)),
            None => self.put_from(bytes, spot, Form::Made),
        }
    }

    /// Copies the bytes of a file from a spot up to a place behind the text.
    pub(crate) fn copy(&mut self, spot: Spot, end: usize) -> Result<(), Halt> {
        let Some(source) = self.files.get(spot.file) else {
            return Err(Halt::Here(Fault::NoFile));
        };
        let bytes = source.bytes.clone()?;
        match bytes.as_slice().get(spot.place..end) {
            Some(copied) => self.put_from(copied, spot, Form::Copied),
            None => Err(Halt::Here(Fault::NoFile)),
        }
    }
}
