use std::alloc::{AllocError, Global};
use std::fs::{File, Files};
use std::io::Read;
use std::{fs, io};

/// Why the file or folder at the path cannot be read, with the path: what the system says, or that it is neither. None
/// where it can be read now.
pub fn unread_reason<R: Files + Alloc<A = Global> + Clone + Drop>(
    files: &R,
    alloc: Global,
    path: &str,
) -> Result<Option<String>, AllocError> {
    let about = match fs::metadata(files, path) {
        Ok(about) => about,
        Err(error) => return said(alloc, path, &error),
    };
    if about.is_dir() {
        return folder_reason(files, alloc, path);
    }
    if !about.is_file() {
        let text = format!(in alloc; "{path}: it is a pipe, a socket or a device, and no file")?;
        return Ok(Some(text));
    }
    match read_through(files, alloc, path) {
        Ok(()) => Ok(None),
        Err(error) => said(alloc, path, &error),
    }
}

/// What the system says of the path.
pub fn said(alloc: Global, path: &str, error: &io::Error) -> Result<Option<String>, AllocError> {
    Ok(Some(format!(in alloc; "{path}: {error}")?))
}

/// Reads a file to its end.
fn read_through<R: Files>(files: &R, alloc: Global, path: &str) -> io::Result<()> {
    let mut bytes = Vec::new(alloc);
    File::open(files, path)?.read_to_end(&mut bytes)?;
    Ok(())
}

/// Why a folder cannot be listed.
fn folder_reason<R: Files + Alloc<A = Global> + Clone + Drop>(
    files: &R,
    alloc: Global,
    path: &str,
) -> Result<Option<String>, AllocError> {
    let entries = match fs::read_dir(files, path) {
        Ok(entries) => entries,
        Err(error) => return said(alloc, path, &error),
    };
    for entry in entries {
        let entry = match entry {
            Ok(entry) => entry,
            Err(error) => return said(alloc, path, &error),
        };
        if let Err(error) = fs::metadata(files, entry.path())
            && error.kind() != io::ErrorKind::NotFound
        {
            return said(alloc, entry.path().as_str(), &error);
        }
    }
    let text = format!(in alloc; "{path}: it is a link to a folder above itself")?;
    Ok(Some(text))
}
