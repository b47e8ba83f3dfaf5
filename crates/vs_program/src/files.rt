//! Files as the source of a call.
ghost use Rattle.std.specs.Prelude.{◌≤◌, IfOk, vec_len};
ghost use Rattle.vs_preprocess.specs.Limits.{text_limit};
ghost use Rattle.vs_program.specs.Inputs.{IsCertificateFor};
ghost use Rattle.vs_program.specs.passes.Kept.{HasText};

use crate::input::{CERTIFICATE_LIMIT, InputFault, Kept, read_first};
use std::alloc::{AllocError, Global};
use std::io::Read;
use vs_preprocess::{
    Call as FilesCall, Failure, Library, Places, Preprocessed, Refusal, STANDARD_INPUT, WORK_LIMIT,
    WithInput, preprocess,
};
use vs_program_words::{Call, Sources, Subcommand};

/// What was read of the files of a call.
#[derive(Drop)]
pub(crate) enum FilesRead {
    /// They have a text.
    Text(Kept),
    /// They are refused.
    Refused(Places, Refusal),
}

/// A library that keeps the name of a file whose reading failed.
#[derive(Drop)]
struct WithFailure<L> {
    library: L,
    failed: Option<Vec<u8>>,
}

impl<L: Library> Library for WithFailure<L> {
    fn read(
        &mut self,
        alloc: Global,
        name: &[u8],
        limit: usize,
    ) -> Result<Option<Vec<u8>>, Failure> {
        let found = self.library.read(alloc, name, limit);
        if let Err(Failure::Read) = &found {
            self.failed = Some(Vec::from_slice(alloc, name)?);
        }
        found
    }
}

// Why files weren't read.
fn fault_of(failure: Failure, failed: Option<Vec<u8>>) -> InputFault {
    match (failure, failed) {
        (Failure::Memory, _) => InputFault::Memory,
        (Failure::Read, Some(name)) => InputFault::File(name),
        (Failure::Read, None) => InputFault::Read,
    }
}

// Whether standard input is one of the files.
fn has_input(sources: &Sources) -> bool {
    sources.files.iter().any(|name| *name == "-")
}

// The bytes of words. That for standard input is its name.
fn names_of<'a>(alloc: Global, words: &[&'a str]) -> Result<Vec<&'a [u8]>, AllocError> {
    let mut names = Vec::new(alloc);
    for word in words {
        if *word == "-" {
            names.push(STANDARD_INPUT.as_bytes())?;
        } else {
            names.push(word.as_bytes())?;
        }
    }
    Ok(names)
}

// The bytes of standard input, where it is one of the files.
fn read_own<R: Read + Drop>(
    alloc: Global,
    sources: &Sources,
    input: R,
) -> Result<Option<Vec<u8>>, InputFault> {
    if !has_input(sources) {
        return Ok(None);
    }
    let bytes = read_first(alloc, input, WORK_LIMIT as u64 + 1)?;
    Ok(Some(bytes))
}

/// The certificate in the file of a name: its first bytes, where there are more than a certificate may have.
pub(crate) fn read_certificate<L: Library>(
    alloc: Global,
    library: &mut L,
    name: &str,
) -> Result<Vec<u8>, InputFault> {
    match library.read(alloc, name.as_bytes(), CERTIFICATE_LIMIT as usize) {
        Ok(Some(bytes)) => Ok(bytes),
        Err(Failure::Memory) => Err(InputFault::Memory),
        _ => Err(InputFault::Certificate),
    }
}

// The certificate of a call that takes one, which is all of standard input where it isn't in a file; of another call the bytes of standard input,
// where it is one of the files.
fn read_input<L: Library, R: Read + Drop>(
    alloc: Global,
    library: &mut L,
    call: &Call,
    input: R,
) -> Result<(Vec<u8>, Option<Vec<u8>>), InputFault>
    ensures { IfOk result (λ x. IsCertificateFor call.now.subcommand call.now.certificate (R.remaining input) x.0.items) }
{
    match (call.subcommand, call.certificate) {
        (Subcommand::RunCertified(_) | Subcommand::Check(_, _), None) => {
            let certificate = read_first(alloc, input, CERTIFICATE_LIMIT)?;
            Ok((certificate, None))
        }
        (_, Some(name)) => {
            let certificate = read_certificate(alloc, library, name)?;
            let own = read_own(alloc, &call.sources, input)?;
            Ok((certificate, own))
        }
        _ => {
            let own = read_own(alloc, &call.sources, input)?;
            Ok((Vec::new(alloc), own))
        }
    }
}

// What the files of a call become, one of which may be standard input.
fn preprocessed<L: Library>(
    alloc: Global,
    library: &mut L,
    own: Option<Vec<u8>>,
    asked: &FilesCall,
) -> Result<Preprocessed, InputFault>
    ensures { IfOk result (λ made. IfOk made.outcome (λ text. vec_len text ≤ text_limit)) }
{
    let mut files = WithFailure {
        library: WithInput {
            library,
            input: own,
        },
        failed: None,
    };
    let done = preprocess(alloc, &mut files, asked);
    let WithFailure { library: _, failed } = files;
    match done {
        Ok(text) => Ok(text),
        Err(failure) => Err(fault_of(failure, failed)),
    }
}

/// Reads the files of a call, and its certificate where it takes one.
pub(crate) fn read_files<L: Library, R: Read + Drop>(
    alloc: Global,
    library: &mut L,
    call: &Call,
    input: R,
) -> Result<FilesRead, InputFault>
    ensures { IfOk result (HasText call.now (R.remaining input)) }
{
    let (certificate, own) = read_input(alloc, library, call, input)?;
    let files = names_of(alloc, &call.sources.files)?;
    let defines = names_of(alloc, &call.sources.defines)?;
    let folders = names_of(alloc, &call.sources.folders)?;
    let asked = FilesCall {
        files: &files,
        defines: &defines,
        folders: &folders,
    };
    let Preprocessed { places, outcome } = preprocessed(alloc, library, own, &asked)?;
    match outcome {
        Ok(text) => Ok(FilesRead::Text(Kept::of_files(certificate, text, places))),
        Err(refusal) => Ok(FilesRead::Refused(places, refusal)),
    }
}
