//! The input that a program is given: a source, and a certificate in front of it where a call takes one.
ghost use Rattle.std.specs.Prelude.{◌≡◌, ◌++◌, ℕ, List, [], ◌∷◌, IfOk, OnOk, take};
ghost use Rattle.vs_program.specs.Inputs.{AreKept, IsFront, IsKept};
ghost use Rattle.vs_program.specs.passes.Reading.{HasKept};

use std::alloc::{AllocError, Global};
use std::io::{self, BufReader, ErrorKind, Read};
use vs_preprocess::Places;

/// How many bytes of a source are kept at most: more than twice as many as a source may have (4 MiB), so that what begins within these is kept whole,
/// unless it is as long itself.
pub(crate) const SOURCE_LIMIT: u64 = 8388609;

/// How many bytes of a certificate are kept at most: one more than a certificate may have (16 MiB).
pub(crate) const CERTIFICATE_LIMIT: u64 = 16777217;

/// Why no input was read.
#[derive(Drop)]
pub(crate) enum InputFault {
    /// A growth of memory was refused.
    Memory,
    /// The device failed.
    Read,
    /// The file of the certificate isn't there, or can't be read.
    Certificate,
    /// The file of this name was there, and reading it failed.
    File(Vec<u8>),
}

impl From<io::Error> for InputFault {
    fn from(error: io::Error) -> InputFault {
        if error.kind() == ErrorKind::OutOfMemory {
            InputFault::Memory
        } else {
            InputFault::Read
        }
    }
}

impl From<AllocError> for InputFault {
    fn from(_error: AllocError) -> InputFault {
        InputFault::Memory
    }
}

/// What is kept of an input.
#[derive(Drop)]
pub(crate) struct Kept {
    /// The bytes of a certificate, where a call takes one: the first ones of the first line, or of all with files.
    pub(crate) certificate: Vec<u8>,
    /// The bytes of a source: the first ones of what follows, or the text of files.
    pub(crate) source: Vec<u8>,
    /// Where the source comes from, if it is the text of files.
    pub(crate) places: Option<Places>,
    // Whether the first line has ended.
    line_ended: bool,
}

// Keeps one more byte of a text, unless it has its most bytes already.
fn keep(text: &mut Vec<u8>, byte: u8, most: u64) -> Result<(), AllocError>
    ensures { (all : List ℕ) → text.old.items ≡ take most all → OnOk result (text.new.items ≡ take most (all ++ byte ∷ [])) }
{
    if (text.len() as u64) < most {
        text.push(byte)?;
    }
    Ok(())
}

impl Kept {
    // Nothing.
    fn new(alloc: Global) -> Self
        ensures { HasKept [] result }
    {
        Kept {
            certificate: Vec::new(alloc),
            source: Vec::new(alloc),
            places: None,
            line_ended: false,
        }
    }

    /// A text of files, and a certificate.
    pub(crate) fn of_files(certificate: Vec<u8>, source: Vec<u8>, places: Places) -> Self
        ensures certificate { result.certificate ≡ certificate }
        ensures source { result.source ≡ source }
    {
        Kept {
            certificate,
            source,
            places: Some(places),
            line_ended: true,
        }
    }

    /// The same source, with a certificate beside it.
    pub(crate) fn with_certificate(self, certificate: Vec<u8>) -> Self
        ensures certificate { result.certificate ≡ certificate }
        ensures source { result.source ≡ self.source }
    {
        let Kept {
            certificate: _,
            source,
            places,
            line_ended,
        } = self;
        Kept {
            certificate,
            source,
            places,
            line_ended,
        }
    }

    // One more byte was read.
    fn take_byte(&mut self, byte: u8) -> Result<(), AllocError>
        ensures { (seen : List ℕ) → HasKept seen self.old → OnOk result (HasKept (seen ++ byte ∷ []) self.new) }
    {
        if self.line_ended {
            keep(&mut self.source, byte, SOURCE_LIMIT)
        } else if byte == b'\n' {
            self.line_ended = true;
            Ok(())
        } else {
            keep(&mut self.certificate, byte, CERTIFICATE_LIMIT)
        }
    }
}

/// Reads an input to its end, and answers so many bytes of its front.
pub(crate) fn read_first<R: Read + Drop>(
    alloc: Global,
    input: R,
    most: u64,
) -> Result<Vec<u8>, InputFault>
    ensures { IfOk result (λ bytes. IsFront most (R.remaining input) bytes.items) }
{
    let mut bytes = Vec::new(alloc);
    let mut kept = input.take(most);
    kept.read_to_end(&mut bytes)?;
    let mut rest = kept.into_inner();
    io::copy(&mut rest, &mut io::sink())?;
    Ok(bytes)
}

/// Reads an input to its end, and answers its first 8,388,609 bytes: a source that has more is refused by its length alone.
pub(crate) fn read_source<R: Read + Drop>(alloc: Global, input: R) -> Result<Kept, InputFault>
    ensures kept { IfOk result (λ kept. IsKept (R.remaining input) kept.source.items) }
{
    let source = read_first(alloc, input, SOURCE_LIMIT)?;
    Ok(Kept {
        certificate: Vec::new(alloc),
        source,
        places: None,
        line_ended: true,
    })
}

/// Reads an input to its end, and answers the first 16,777,217 bytes of its first line, and the first 8,388,609 bytes of what follows it: a
/// certificate or a source that has more is refused by its length alone.
pub(crate) fn read_both<R: Read + Drop>(alloc: Global, input: R) -> Result<Kept, InputFault>
    ensures kept { IfOk result (λ kept. AreKept (R.remaining input) kept.certificate.items kept.source.items) }
{
    let mut kept = Kept::new(alloc);
    for byte in BufReader::new(alloc, input)?.bytes() {
        kept.take_byte(byte?)?;
    }
    Ok(kept)
}
