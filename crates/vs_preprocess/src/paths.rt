//! Names of files in folders.

use std::alloc::{AllocError, Global};

/// The folder of a file, with its slash; nothing, where the name has none.
pub(crate) fn folder_of(name: &[u8]) -> &[u8] {
    let mut rest = name;
    while let [before @ .., last] = rest {
        if *last == b'/' {
            return rest;
        }
        rest = before;
    }
    rest
}

/// The name of a file in a folder; no folder is the current one.
pub(crate) fn joined(alloc: Global, folder: &[u8], name: &[u8]) -> Result<Vec<u8>, AllocError> {
    let mut path = Vec::from_slice(alloc, folder)?;
    if !folder.is_empty() && !folder.ends_with(b"/") {
        path.extend_from_slice(b"/")?;
    }
    path.extend_from_slice(name)?;
    Ok(path)
}
