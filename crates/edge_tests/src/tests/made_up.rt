//! Processes that are made up: what is done to them is counted.
use std::alloc::{Allocator, Global};
use std::cell::Cell;
use std::io::{ErrorKind, Read, Write};
use std::os::fd::{AsRawFd, RawFd};
use std::process::{Child, Command, ExitStatus, OpenProcess, Stdio};
use std::{io, process};
use tests_desk::exhausted;

/// What is done to the processes, and what they do.
#[derive(Drop)]
pub struct Calls {
    pub starts: Cell<u32>,
    /// How many words the last start had after its program.
    pub words: Cell<usize>,
    /// Whether it asked for pipes on input and output, and for none on the stream of errors.
    pub pipes: Cell<bool>,
    /// How many bytes were sent.
    pub sent: Cell<usize>,
    pub kills: Cell<u32>,
    /// How many waits came to the end of a process.
    pub ends: Cell<u32>,
    /// How many of the next reads are interrupted.
    pub interrupts: Cell<u32>,
    /// Whether the input is closed.
    pub closed: Cell<bool>,
    /// Whether each read gives the word `sent`, as the program does that sends a signal.
    pub says_sent: Cell<bool>,
    /// Where a start takes all memory: it is held here.
    pub memory: Cell<Option<Global>>,
    pub held: Cell<Vec<Vec<u8>>>,
}

impl Calls {
    /// Nothing was done.
    pub fn none(alloc: Global) -> Calls {
        Calls {
            starts: Cell::new(0),
            words: Cell::new(0),
            pipes: Cell::new(false),
            sent: Cell::new(0),
            kills: Cell::new(0),
            ends: Cell::new(0),
            interrupts: Cell::new(0),
            closed: Cell::new(false),
            says_sent: Cell::new(false),
            memory: Cell::new(None),
            held: Cell::new(Vec::new(alloc)),
        }
    }

    /// The runtime that starts them.
    pub fn runtime(&self) -> Runtime<'_> {
        Runtime { calls: self }
    }
}

fn count(number: &Cell<u32>) {
    number.set(number.get().saturating_add(1));
}

/// Starts processes that are made up.
#[derive(Drop)]
pub struct Runtime<'a> {
    calls: &'a Calls,
}

/// Such a process. It ends only where it was killed.
#[derive(Drop)]
pub struct Started<'a> {
    calls: &'a Calls,
}

/// Its input, which takes one byte at a time.
#[derive(Drop)]
pub struct Input<'a> {
    calls: &'a Calls,
}

/// Its output: the word `sent`, or as many dots as there is room for, at each read that isn't interrupted.
#[derive(Drop)]
pub struct Output<'a> {
    calls: &'a Calls,
}

impl<'a> process::Processes for Runtime<'a> {
    type Started = Started<'a>;

    fn spawn<B: Allocator + Clone>(
        &self,
        command: &Command<B>,
        stdin: &Stdio,
        stdout: &Stdio,
        stderr: &Stdio,
    ) -> io::Result<Child<Started<'a>>> {
        let calls = self.calls;
        count(&calls.starts);
        calls.words.set(command.get_args().len());
        calls.pipes.set(stdin.makes_pipe() && stdout.makes_pipe() && !stderr.makes_pipe());
        if let Some(alloc) = calls.memory.get() {
            calls.held.set(exhausted(alloc)?);
        }
        Ok(Child::from_parts(
            Started { calls },
            Some(Input { calls }),
            Some(Output { calls }),
            None,
        ))
    }
}

impl<'a> OpenProcess for Started<'a> {
    type Stdin = Input<'a>;

    type Stdout = Output<'a>;

    type Stderr = Output<'a>;

    fn id(&self) -> u32 {
        1
    }

    fn wait(&mut self) -> io::Result<ExitStatus> {
        if self.calls.kills.get() == 0 {
            return Err(io::Error::from(ErrorKind::TimedOut));
        }
        count(&self.calls.ends);
        Ok(ExitStatus::default())
    }

    fn kill(&mut self) -> io::Result<()> {
        count(&self.calls.kills);
        Ok(())
    }
}

impl Write for Input<'_> {
    fn write(&mut self, buf: &[u8]) -> io::Result<usize> {
        if self.calls.closed.get() {
            return Err(io::Error::from(ErrorKind::BrokenPipe));
        }
        if buf.is_empty() {
            return Ok(0);
        }
        self.calls.sent.set(self.calls.sent.get().saturating_add(1));
        Ok(1)
    }

    fn flush(&mut self) -> io::Result<()> {
        Ok(())
    }
}

impl AsRawFd for Input<'_> {
    // No descriptor is open by this number, which a poll says without a wait, as it does of a pipe with room.
    fn as_raw_fd(&self) -> RawFd {
        i32::MAX
    }
}

impl Read for Output<'_> {
    fn read(&mut self, buf: &mut [u8]) -> io::Result<usize> {
        let left = self.calls.interrupts.get();
        if left > 0 {
            self.calls.interrupts.set(left - 1);
            return Err(io::Error::from(ErrorKind::Interrupted));
        }
        if self.calls.says_sent.get() {
            let mut word: &[u8] = b"sent";
            return word.read(buf);
        }
        for i in 0..buf.len() {
            buf[i] = b'.';
        }
        Ok(buf.len())
    }
}
