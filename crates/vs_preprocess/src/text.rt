//! The text of files.
ghost use Rattle.std.specs.Prelude.{◌≤◌, IfOk, length, sum_by, vec_len};
ghost use Rattle.vs_preprocess.specs.Limits.{text_limit, work_limit};
ghost use Rattle.vs_preprocess.specs.Places.{AreFrom};

use crate::frame::Frame;
use crate::library::{Failure, Library};
use crate::output::Output;
use crate::places::Places;
use crate::run::{Run, Stop, without_mark};
use std::alloc::{AllocError, Global};
use std::rc::RcSlice;
use vs_prep_macros::{Fault, Spot};

/// How many files may be open within the first one.
const FILES_NESTED: usize = 64;

/// The beginning of the first file, which defines what is built in.
const BUILT_IN: Spot = Spot { file: 0, place: 0 };

/// What is asked for.
#[derive(Clone, Copy)]
pub struct Call<'a> {
    /// The names of the files, in the order in which they are read.
    pub files: &'a [&'a [u8]],
    /// Macros that are defined before the first file, each as `N=T` or as `N`, which stands for `N=1`.
    pub defines: &'a [&'a [u8]],
    /// The folders in which included files are sought, in order.
    pub folders: &'a [&'a [u8]],
}

/// Where a fault stands.
#[derive(Clone, Copy, PartialEq, Eq, Debug)]
pub enum At {
    /// A byte of a file.
    Spot(Spot),
    /// The name of a file in the call, by its number there.
    Word(usize),
}

/// Why files are refused.
#[derive(Clone, Copy, PartialEq, Eq, Debug)]
pub struct Refusal {
    pub fault: Fault,
    pub at: At,
    /// The definition in whose text the fault stands, by its number.
    pub definition: Option<usize>,
}

/// What is made of files.
#[derive(Drop)]
pub struct Preprocessed {
    /// The files that were opened, and where the bytes of the text come from.
    pub places: Places,
    /// The text, or the first fault.
    pub outcome: Result<Vec<u8>, Refusal>,
}

/// Why the files of a call aren't read on.
#[derive(Clone, Copy)]
enum End {
    Failed(Failure),
    Refused(Refusal),
}

impl From<Stop> for End {
    fn from(stop: Stop) -> End {
        match stop {
            Stop::Failed(failure) => End::Failed(failure),
            Stop::Refused(fault, spot, definition) => End::Refused(Refusal {
                fault,
                at: At::Spot(spot),
                definition,
            }),
        }
    }
}

impl From<AllocError> for End {
    fn from(_error: AllocError) -> End {
        End::Failed(Failure::Memory)
    }
}

impl From<Failure> for End {
    fn from(failure: Failure) -> End {
        End::Failed(failure)
    }
}

/// The fault of a file of the call.
fn refused_word(fault: Fault, number: usize) -> End {
    End::Refused(Refusal {
        fault,
        at: At::Word(number),
        definition: None,
    })
}

/// The name of a macro and its text, as a word of the call gives them.
fn name_and_text(word: &[u8]) -> (&[u8], &[u8]) {
    let mut rest = word;
    while let [first, more @ ..] = rest {
        if *first == b'=' {
            return (&word[..word.len() - rest.len()], more);
        }
        rest = more;
    }
    (word, b"1")
}

/// The line that defines a macro as a word of the call says.
fn define_line(alloc: Global, word: &[u8]) -> Result<Vec<u8>, AllocError> {
    let (name, text) = name_and_text(word);
    let mut line = Vec::from_slice(alloc, b"`define ")?;
    line.extend_from_slice(name)?;
    line.extend_from_slice(b" ")?;
    line.extend_from_slice(text)?;
    line.extend_from_slice(b"\n")?;
    Ok(line)
}

impl<'c> Run<'c> {
    /// Defines a macro by a line, in a file of a name of its own.
    fn define_by(&mut self, name: &[u8], line: Vec<u8>) -> Result<(), Stop> {
        let name = Vec::from_slice(self.alloc, name)?;
        let bytes = RcSlice::from_vec(line)?;
        let Some(file) = self.output.open(self.alloc, name, bytes.clone()?, None)? else {
            return Err(Stop::Refused(Fault::Work, BUILT_IN, None));
        };
        let frame = Frame::new(self.alloc, file, bytes.as_slice());
        let behind = bytes.as_slice().get(b"`define".len()..).unwrap_or(&[]);
        match self.define(&frame, bytes.len(), behind) {
            Ok(_) => Ok(()),
            Err(stop) => Err(stop),
        }
    }

    /// Defines the macros of the call.
    fn define_all(&mut self, defines: &[&[u8]]) -> Result<(), Stop> {
        let line = define_line(self.alloc, b"__VSIM__")?;
        self.define_by(b"<built in>", line)?;
        for word in defines {
            let line = define_line(self.alloc, word)?;
            self.define_by(b"<command line>", line)?;
        }
        Ok(())
    }

    /// Reads a file of the call.
    fn read_word<L: Library>(
        &mut self,
        library: &mut L,
        name: &[u8],
        number: usize,
    ) -> Result<(), End> {
        let Some(bytes) = library.read(self.alloc, name, self.output.work)? else {
            return Err(refused_word(Fault::NoFile, number));
        };
        let name = Vec::from_slice(self.alloc, name)?;
        let bytes = RcSlice::from_vec(without_mark(bytes))?;
        self.output.spend_on_file();
        let Some(file) = self.output.open(self.alloc, name, bytes.clone()?, None)? else {
            return Err(refused_word(Fault::Work, number));
        };
        self.read_file(library, file, bytes.as_slice(), FILES_NESTED)?;
        Ok(())
    }

    /// Reads all of a call.
    fn read_call<L: Library>(&mut self, library: &mut L, call: &Call<'_>) -> Result<(), End> {
        self.define_all(call.defines)?;
        for (number, name) in call.files.iter().enumerate() {
            self.read_word(library, name, number)?;
        }
        Ok(())
    }
}

/// The text of the files of a call, with where its bytes come from, or the first fault.
pub fn preprocess<L: Library>(
    alloc: Global,
    library: &mut L,
    call: &Call<'_>,
) -> Result<Preprocessed, Failure>
    ensures small { IfOk result (λ made. IfOk made.outcome (λ text. vec_len text ≤ text_limit)) }
    ensures placed { IfOk result (λ made. IfOk made.outcome (λ text. AreFrom made.places.files made.places.sources text.items)) }
    ensures worked { IfOk result (λ made. sum_by length made.places.files ≤ work_limit) }
{
    let mut run = Run::new(alloc, call.folders);
    let answer = run.read_call(library, call);
    let Run { macros, output, .. } = run;
    let Output {
        text,
        segments,
        files,
        marks,
        work: _,
    } = output;
    let places = Places {
        files,
        marks,
        macros,
        segments,
    };
    match answer {
        Ok(()) => Ok(Preprocessed {
            places,
            outcome: Ok(text),
        }),
        Err(End::Refused(refusal)) => Ok(Preprocessed {
            places,
            outcome: Err(refusal),
        }),
        Err(End::Failed(failure)) => Err(failure),
    }
}
