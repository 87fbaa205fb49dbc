//! Whether a program is there, as a start looks for it.
use std::alloc::{Alloc, AllocError};
use std::env::{Env, VarError, var};
use std::fs;
use std::io::ErrorKind;
use std::os::unix::fs::PermissionsExt;
use std::rt::Files;

/// The folders in which programs lie where there is no PATH.
const DEFAULT_PATH: &str = "/bin:/usr/bin";

/// The permissions to execute a file: its owner's, its group's and everyone's.
const EXECUTABLE: u32 = 0o111;

/// Whether a file lies at this path that someone may execute.
fn may_start<R: Files>(rt: &R, path: &str) -> bool {
    match fs::metadata(rt, path) {
        Ok(found) => found.is_file() && found.permissions().mode() & EXECUTABLE != 0,
        Err(error) => error.kind() == ErrorKind::OutOfMemory,
    }
}

/// The path of a file of this name in a folder; none stands for the current one.
fn path_in<R: Alloc>(rt: &R, folder: &str, name: &str) -> Result<String<R::A>, AllocError> {
    let mut path = String::from_str(rt.alloc(), folder)?;
    if !folder.is_empty() {
        path.push_str("/")?;
    }
    path.push_str(name)?;
    Ok(path)
}

/// Whether such a file lies in a folder.
fn lies_in<R: Files + Alloc>(rt: &R, folder: &str, name: &str) -> bool {
    match path_in(rt, folder, name) {
        Ok(path) => may_start(rt, path.as_str()),
        Err(AllocError) => true,
    }
}

/// Whether such a file lies in one of the folders that are named with a colon between two.
fn lies_in_one<R: Files + Alloc>(rt: &R, folders: &str, name: &str) -> bool {
    for folder in folders.split(':') {
        if lies_in(rt, folder, name) {
            return true;
        }
    }
    false
}

/// Whether there is a program of this name to start: at this path, where the name has a slash, else in a folder of
/// PATH. Where memory is refused, or PATH is no text, it counts as there, and a start finds out.
pub(crate) fn is_there_to_start<R: Files + Env + Alloc>(rt: &R, name: &str) -> bool {
    if name.contains('/') {
        return may_start(rt, name);
    }
    match var(rt, "PATH") {
        Ok(folders) => lies_in_one(rt, folders.as_str(), name),
        Err(VarError::NotPresent) => lies_in_one(rt, DEFAULT_PATH, name),
        Err(_) => true,
    }
}
