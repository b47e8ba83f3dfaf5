//! Files of the system.

use crate::library::{Failure, Library};
use std::alloc::Global;
use std::io::{self, Read};
use std::rt::Files;
use std::{fs, str};

/// The files of the system.
#[derive(Drop)]
pub struct Disk<'r, R> {
    pub runtime: &'r R,
}

/// How many bytes are read at a time.
const BLOCK: usize = 65536;

/// Reads the bytes of a file, until there are more than the limit.
fn read_limited<F: Read>(alloc: Global, file: &mut F, limit: usize) -> Result<Vec<u8>, Failure> {
    let mut bytes = Vec::new(alloc);
    let mut block = vec![in alloc; 0u8; BLOCK]?;
    for _ in 0..u64::MAX {
        if bytes.len() > limit {
            break;
        }
        match file.read(block.as_mut_slice()) {
            Ok(0) => break,
            Ok(count) => bytes.extend_from_slice(&block[..count])?,
            Err(error) if error.kind() == io::ErrorKind::Interrupted => {}
            Err(_) => return Err(Failure::Read),
        }
    }
    Ok(bytes)
}

/// The file of a name, if there is one that isn't a folder.
fn open<R: Files>(runtime: &R, name: &str) -> Option<R::File> {
    let about = fs::metadata(runtime, name).ok()?;
    if about.is_dir() {
        return None;
    }
    fs::open(runtime, name).ok()
}

impl<'r, R: Files> Library for Disk<'r, R> {
    fn read(
        &mut self,
        alloc: Global,
        name: &[u8],
        limit: usize,
    ) -> Result<Option<Vec<u8>>, Failure> {
        let Ok(path) = str::from_utf8(name) else {
            return Ok(None);
        };
        let Some(mut file) = open(self.runtime, path) else {
            return Ok(None);
        };
        Ok(Some(read_limited(alloc, &mut file, limit)?))
    }
}
