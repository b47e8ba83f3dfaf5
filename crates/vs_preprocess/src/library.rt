//! Where files come from.

use std::alloc::{AllocError, AllocFailed, Global};

/// Why a call ends without an answer.
#[derive(Clone, Copy, PartialEq, Eq, Debug)]
pub enum Failure {
    /// Memory ran out.
    Memory,
    /// A file was there, and reading it failed.
    Read,
}

impl From<AllocError> for Failure {
    fn from(_error: AllocError) -> Failure {
        Failure::Memory
    }
}

impl<T: Drop> From<AllocFailed<T>> for Failure {
    fn from(_error: AllocFailed<T>) -> Failure {
        Failure::Memory
    }
}

/// Files by their names.
pub trait Library {
    /// The bytes of the file of this name, or `None` where there is no such file. Of a file of more than `limit` bytes it gives more than
    /// `limit`, and need not give all.
    fn read(
        &mut self,
        alloc: Global,
        name: &[u8],
        limit: usize,
    ) -> Result<Option<Vec<u8>>, Failure>;
}

/// A list of files, each with its name.
#[derive(Clone, Copy)]
pub struct Shelf<'a> {
    pub files: &'a [(&'a [u8], &'a [u8])],
}

impl<'a> Library for Shelf<'a> {
    fn read(
        &mut self,
        alloc: Global,
        name: &[u8],
        _limit: usize,
    ) -> Result<Option<Vec<u8>>, Failure> {
        for (other, bytes) in self.files {
            if *other == name {
                return Ok(Some(Vec::from_slice(alloc, bytes)?));
            }
        }
        Ok(None)
    }
}

/// The name under which standard input is read, where it is one of the files.
pub const STANDARD_INPUT: &str = "<stdin>";

/// A library, and beside it the bytes of standard input, which can be read once.
#[derive(Drop)]
pub struct WithInput<'l, L> {
    pub library: &'l mut L,
    pub input: Option<Vec<u8>>,
}

impl<'l, L: Library> Library for WithInput<'l, L> {
    fn read(
        &mut self,
        alloc: Global,
        name: &[u8],
        limit: usize,
    ) -> Result<Option<Vec<u8>>, Failure> {
        if name == STANDARD_INPUT.as_bytes() {
            if let Some(bytes) = self.input.take() {
                return Ok(Some(bytes));
            }
        }
        self.library.read(alloc, name, limit)
    }
}
