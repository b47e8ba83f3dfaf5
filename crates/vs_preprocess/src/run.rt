//! Reading files one in another, piece by piece.
ghost use Rattle.std.specs.Prelude.{◌≤◌, length, IfOk};

use crate::directives::Step;
use crate::frame::Frame;
use crate::library::{Failure, Library};
use crate::output::Output;
use crate::paths::{folder_of, joined};
use crate::places::{LineMark, SourceFile, marked_line};
use std::alloc::{AllocError, AllocFailed, Global};
use std::rc::RcSlice;
use vs_prep_macros::{Expander, Fault, Form as PieceForm, Halt, Macros, Piece, Site, Spot, cut};

/// Why reading stops.
#[derive(Clone, Copy)]
pub(crate) enum Stop {
    Failed(Failure),
    /// A fault at a spot, in the text of a definition.
    Refused(Fault, Spot, Option<usize>),
}

impl From<AllocError> for Stop {
    fn from(_error: AllocError) -> Stop {
        Stop::Failed(Failure::Memory)
    }
}

impl<T: Drop> From<AllocFailed<T>> for Stop {
    fn from(_error: AllocFailed<T>) -> Stop {
        Stop::Failed(Failure::Memory)
    }
}

impl From<Failure> for Stop {
    fn from(failure: Failure) -> Stop {
        Stop::Failed(failure)
    }
}

/// What is read so far.
#[derive(Drop)]
pub(crate) struct Run<'c> {
    pub(crate) alloc: Global,
    folders: &'c [&'c [u8]],
    pub(crate) macros: Macros,
    pub(crate) output: Output,
}

impl<'c> Run<'c> {
    /// Nothing is read.
    pub(crate) fn new(alloc: Global, folders: &'c [&'c [u8]]) -> Run<'c> {
        Run {
            alloc,
            folders,
            macros: Macros::new(alloc),
            output: Output::new(alloc),
        }
    }

    /// The stop of a halt, where the directive or the use began with so many bytes left.
    pub(crate) fn stop(&self, frame: &Frame<'_>, left: usize, halt: Halt) -> Stop {
        match halt {
            Halt::Memory => Stop::Failed(Failure::Memory),
            Halt::Here(fault) => Stop::Refused(fault, frame.spot(left), None),
            Halt::At(fault, place) => Stop::Refused(fault, frame.spot(place), None),
        }
    }

    /// Puts bytes behind the text that stand for what begins with so many bytes left.
    pub(crate) fn put(&mut self, frame: &Frame<'_>, left: usize, bytes: &[u8]) -> Result<(), Stop> {
        match self.output.put(bytes, frame.spot(left)) {
            Ok(()) => Ok(()),
            Err(halt) => Err(self.stop(frame, left, halt)),
        }
    }

    /// Copies the bytes of a file behind the text, from where so many are left to where so many are.
    pub(crate) fn copy(
        &mut self,
        frame: &Frame<'_>,
        left: usize,
        behind: usize,
    ) -> Result<(), Stop> {
        match self.output.copy(frame.spot(left), frame.place(behind)) {
            Ok(()) => Ok(()),
            Err(halt) => Err(self.stop(frame, left, halt)),
        }
    }

    /// What the use stands for whose backquote these bytes follow, what stands behind it, and the definition of its macro, if it is one.
    pub(crate) fn expansion<'b>(
        &mut self,
        frame: &mut Frame<'b>,
        after: &'b [u8],
    ) -> Result<(Vec<u8>, &'b [u8], Option<usize>), Stop>
        ensures { IfOk result (λ x. length x.1.now ≤ length after.now) }
    {
        let left = after.len().saturating_add(1);
        let place = frame.place(left);
        let line = frame.line(place);
        let (alloc, work) = (self.alloc, self.output.work);
        let site = site_of(
            &self.output.files,
            &self.output.marks,
            frame.file,
            place,
            line,
        );
        let mut text = Vec::new(alloc);
        let mut expander = Expander::new(alloc, &self.macros, site, work);
        let answer = expander.expand_use(after, &mut text);
        let (work, used, definition) = (expander.work(), expander.used(), expander.definition());
        drop(expander);
        self.output.leave_work(work);
        match answer {
            Ok(rest) => Ok((text, rest, used)),
            Err(Halt::Memory) => Err(Stop::Failed(Failure::Memory)),
            Err(Halt::Here(fault)) => Err(Stop::Refused(fault, frame.spot(left), definition)),
            Err(Halt::At(fault, at)) => Err(Stop::Refused(fault, frame.spot(at), definition)),
        }
    }

    /// Reads a piece of a file, and answers what comes next.
    fn step<'b>(&mut self, frame: &mut Frame<'b>, piece: Piece<'b>) -> Result<Step<'b>, Stop>
        ensures { IfOk result (λ x. length x.rest.now ≤ length piece.entry.rest.now) }
    {
        let left = piece.text.len().saturating_add(piece.rest.len());
        match piece.form {
            PieceForm::OpenComment => {
                return Err(self.stop(frame, left, Halt::Here(Fault::OpenComment)));
            }
            PieceForm::Backquote => return self.backquote(frame, piece.rest),
            _ if !frame.conditionals.is_live() => {}
            PieceForm::LineComment | PieceForm::BlockComment => self.put(frame, left, b" ")?,
            _ => self.copy(frame, left, piece.rest.len())?,
        }
        Ok(Step::to(piece.rest))
    }

    /// Reads a file to its end, with the files that it includes, so many one in another.
    #[cycle(files)]
    pub(crate) fn read_file<L: Library>(
        &mut self,
        library: &mut L,
        file: usize,
        bytes: &[u8],
        levels: usize,
    ) -> Result<(), Stop> {
        let mut frame = Frame::new(self.alloc, file, bytes);
        let mut rest = bytes;
        while !rest.is_empty() {
            let Step {
                include,
                rest: next,
            } = self.step(&mut frame, cut(rest))?;
            if let Some(name) = include {
                let spot = frame.spot(rest.len());
                self.include(library, &name, spot, levels)?;
            }
            rest = next;
        }
        self.end(&frame)
    }

    /// Reads the file that an `include` at a spot names.
    #[cycle(files)]
    fn include<L: Library>(
        &mut self,
        library: &mut L,
        name: &[u8],
        spot: Spot,
        levels: usize,
    ) -> Result<(), Stop> {
        if levels == 0 {
            return Err(Stop::Refused(Fault::FilesNested, spot, None));
        }
        let Some((path, bytes)) = self.find(library, name, spot.file)? else {
            return Err(Stop::Refused(Fault::NoFile, spot, None));
        };
        let bytes = RcSlice::from_vec(without_mark(bytes))?;
        self.output.spend_on_file();
        let Some(file) = self
            .output
            .open(self.alloc, path, bytes.clone()?, Some(spot))?
        else {
            return Err(Stop::Refused(Fault::Work, spot, None));
        };
        self.read_file(library, file, bytes.as_slice(), levels - 1)
    }

    /// The file of a name, with the name under which it was found: in the folder of the file that includes it, in the folders of the call, or in the
    /// current one.
    fn find<L: Library>(
        &mut self,
        library: &mut L,
        name: &[u8],
        file: usize,
    ) -> Result<Option<(Vec<u8>, Vec<u8>)>, Stop> {
        if name.starts_with(b"/") {
            return self.find_in(library, &[], name);
        }
        if let Some(own) = self.own_folder(file)? {
            if let Some(found) = self.find_in(library, &own, name)? {
                return Ok(Some(found));
            }
        }
        for folder in self.folders {
            if let Some(found) = self.find_in(library, folder, name)? {
                return Ok(Some(found));
            }
        }
        self.find_in(library, &[], name)
    }

    /// The folder of a file.
    fn own_folder(&self, file: usize) -> Result<Option<Vec<u8>>, AllocError> {
        let Some(source) = self.output.files.get(file) else {
            return Ok(None);
        };
        Ok(Some(Vec::from_slice(self.alloc, folder_of(&source.name))?))
    }

    /// The file of a name in a folder, with the name under which it was found.
    fn find_in<L: Library>(
        &self,
        library: &mut L,
        folder: &[u8],
        name: &[u8],
    ) -> Result<Option<(Vec<u8>, Vec<u8>)>, Stop> {
        let path = joined(self.alloc, folder, name)?;
        match library.read(self.alloc, &path, self.output.work)? {
            Some(bytes) => Ok(Some((path, bytes))),
            None => Ok(None),
        }
    }

    /// Ends a file: no conditional is open, and its last line ends.
    fn end(&mut self, frame: &Frame<'_>) -> Result<(), Stop> {
        if let Some(place) = frame.conditionals.begin_of_open() {
            let spot = Spot {
                file: frame.file,
                place,
            };
            return Err(Stop::Refused(Fault::NotClosed, spot, None));
        }
        match frame.bytes.last() {
            None | Some(b'\n') => Ok(()),
            Some(_) => self.put(frame, 0, b"\n"),
        }
    }
}

/// Where the use stands that begins at a place of a file, on this line of it.
fn site_of<'f>(
    files: &'f [SourceFile],
    marks: &'f [Vec<LineMark>],
    file: usize,
    place: usize,
    line: usize,
) -> Site<'f> {
    match (files.get(file), marks.get(file)) {
        (Some(source), Some(marks)) => {
            let (file, line) = marked_line(marks, &source.name, place, line);
            Site { file, line }
        }
        _ => Site { file: &[], line },
    }
}

/// The bytes of a file, with three spaces for a byte order mark at its front.
pub(crate) fn without_mark(bytes: Vec<u8>) -> Vec<u8> {
    let mut bytes = bytes;
    if bytes.starts_with(&[0xef, 0xbb, 0xbf]) {
        for byte in bytes.iter_mut().take(3) {
            *byte = b' ';
        }
    }
    bytes
}
