//! The places of standard streams that were closed at the start.
//!
//! A file takes the lowest free descriptor. Where a standard stream was closed, that is the stream's
//! own, and what is written there would go into the file.
use crate::HoldFault;
use std::fs::OpenOptions;
use std::io;
use std::os::fd::AsFd;
use std::rt::Files;

/// Which standard streams are closed.
#[derive(Clone, Copy, Debug, PartialEq, Eq)]
pub struct ClosedStreams {
    pub input: bool,
    pub output: bool,
    pub errors: bool,
}

/// What stands in the places of closed streams, as long as it isn't dropped.
#[derive(Drop)]
pub struct Held<F: Drop> {
    _input: Option<F>,
    _output: Option<F>,
    _errors: Option<F>,
}

/// Whether a stream is closed: it has no second descriptor.
fn is_closed<S: AsFd>(stream: &S) -> bool {
    stream.as_fd().try_clone_to_owned().is_err()
}

impl ClosedStreams {
    /// Looks at the standard streams.
    pub fn find<I: AsFd, O: AsFd, E: AsFd>(input: &I, output: &O, errors: &E) -> ClosedStreams {
        ClosedStreams {
            input: is_closed(input),
            output: is_closed(output),
            errors: is_closed(errors),
        }
    }
}

/// Opens a folder, which can be neither read nor written as a file can.
fn open_folder<R: Files>(rt: &R) -> io::Result<R::File> {
    match OpenOptions::new().read(true).open(rt, "/") {
        Ok(folder) => Ok(folder),
        Err(_) => OpenOptions::new().read(true).open(rt, "."),
    }
}

/// Opens what fails at each read.
fn open_unreadable<R: Files>(rt: &R) -> io::Result<R::File> {
    match open_folder(rt) {
        Ok(folder) => Ok(folder),
        Err(_) => OpenOptions::new().write(true).open(rt, "/dev/null"),
    }
}

/// Opens what fails at each write.
fn open_unwritable<R: Files>(rt: &R) -> io::Result<R::File> {
    match open_folder(rt) {
        Ok(folder) => Ok(folder),
        Err(_) => OpenOptions::new().read(true).open(rt, "/dev/null"),
    }
}

/// Puts something in the place of each closed stream, so that no file which is opened later gets its
/// descriptor. What is read or written there fails, as it does at a closed stream.
///
/// `Input` where nothing can be put in the place of the input, else `Output` where nothing can be
/// put in the place of the output or of the errors. An open stream is never a fault.
pub fn hold_closed<R: Files>(rt: &R, closed: ClosedStreams) -> Result<Held<R::File>, HoldFault> {
    let mut held = Held {
        _input: None,
        _output: None,
        _errors: None,
    };
    // Each takes the lowest free descriptor, so they come in the order of the streams' own.
    if closed.input {
        held._input = Some(open_unreadable(rt).map_err(|_| HoldFault::Input)?);
    }
    if closed.output {
        held._output = Some(open_unwritable(rt).map_err(|_| HoldFault::Output)?);
    }
    if closed.errors {
        held._errors = Some(open_unwritable(rt).map_err(|_| HoldFault::Output)?);
    }
    Ok(held)
}
