//! Whether a file is one to which the program's own output goes.
use std::fs;
use std::fs::Metadata;
use std::os::unix::fs::MetadataExt;
use std::rt::Files;

/// What Linux calls the program's standard output and standard error.
const OUTPUTS: [&str; 2] = ["/proc/self/fd/1", "/proc/self/fd/2"];

/// Whether what the program writes goes to this file. A worksheet that lies in it would be written over. Where the system doesn't
/// say where the output goes, it counts as another file.
pub fn is_output<R: Files>(rt: &R, found: &Metadata) -> bool {
    for output in OUTPUTS {
        if let Ok(written) = fs::metadata(rt, output) {
            if written.dev() == found.dev() && written.ino() == found.ino() {
                return true;
            }
        }
    }
    false
}
