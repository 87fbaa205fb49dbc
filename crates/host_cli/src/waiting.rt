//! Standard streams that are waited for, also where they don't block.
//!
//! A program that has the same stream may have made it one that doesn't. There a call that would have to
//! wait fails, and has done nothing.
use libc::net::{POLLIN, POLLOUT, poll};
use libc::types::pollfd;
use offline_programs::{Message, Says};
use std::io;
use std::io::{ErrorKind, Read, Stdin, Write};
use std::os::fd::{AsRawFd, RawFd};

/// How often a call is tried, but the first time after a wait: others may take what there was.
const MOST_TRIES: u32 = 1_000_000_000;

/// Standard input, which is waited for.
#[derive(Drop)]
pub struct PatientInput {
    stream: Stdin,
}

/// Standard output or standard error, which is waited for.
#[derive(Drop)]
pub struct PatientOutput<S> {
    stream: S,
}

impl PatientInput {
    /// This one.
    pub fn new(stream: Stdin) -> PatientInput {
        PatientInput { stream }
    }
}

impl<S> PatientOutput<S> {
    /// This one.
    pub fn new(stream: S) -> PatientOutput<S> {
        PatientOutput { stream }
    }
}

/// Waits until a call on this descriptor has something to do. Where the poll fails the call has to find out.
fn wait_for(fd: RawFd, events: i16) {
    let mut places = [pollfd {
        fd,
        events,
        revents: 0,
    }];
    let _ = poll(&mut places, -1);
}

/// Whether a call would have had to wait.
fn would_wait<T>(called: &io::Result<T>) -> bool {
    match called {
        Err(error) => error.kind() == ErrorKind::WouldBlock,
        Ok(_) => false,
    }
}

impl Read for PatientInput {
    fn read(&mut self, buf: &mut [u8]) -> io::Result<usize> {
        for _ in 1..MOST_TRIES {
            let read = self.stream.read(buf);
            if !would_wait(&read) {
                return read;
            }
            wait_for(self.stream.as_raw_fd(), POLLIN);
        }
        self.stream.read(buf)
    }
}

impl<S: Write + AsRawFd> Write for PatientOutput<S> {
    fn write(&mut self, buf: &[u8]) -> io::Result<usize> {
        for _ in 1..MOST_TRIES {
            let written = self.stream.write(buf);
            if !would_wait(&written) {
                return written;
            }
            wait_for(self.stream.as_raw_fd(), POLLOUT);
        }
        self.stream.write(buf)
    }

    fn flush(&mut self) -> io::Result<()> {
        self.stream.flush()
    }
}

impl<S: Write + AsRawFd> Says for PatientOutput<S> {
    ghost tried = { λ _ _ _ _. Unit {0} };

    fn say<M: Message>(&mut self, message: &M) -> bool {
        message.write(self).is_ok()
    }
}
