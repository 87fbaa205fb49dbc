//! The system's processes.
ghost use Rattle.std.specs.Prelude.{◌≡◌, ◌≤◌, IfOk, OnOk, length};
ghost use Rattle.std.specs.Io.KnownBytes.{Appends, ReadConsumes};

use crate::children::{ChildFault, Outputs};
use crate::lives::Lives;
use crate::process::{Launcher, Process};
use crate::seat::Seat;
use block_tree::Octets;
use libc::net::{POLLOUT, poll};
use libc::types::pollfd;
use std::alloc::Global;
use std::io::{ErrorKind, Read, Write};
use std::os::fd::{AsRawFd, RawFd};
use std::process::{Child, Command, OpenProcess, Stdio};
use std::{io, process, str};

/// How often a read is tried: once, and again at most 1,000 times where it was interrupted.
const MOST_READS: u32 = 1_001;

/// The most bytes that a pipe which has room takes at once (Linux's `PIPE_BUF`): as many as a line of an
/// input and its end have at most.
const MOST_AT_ONCE: usize = 4_096;

/// How long the later parts of a longer text wait for room, in milliseconds.
const LONGEST_WAIT: i32 = 1_000;

/// A process of the system, with pipes on its standard input and output; its standard error is discarded.
///
/// One that closed its input makes the next write a fault, and so does one that doesn't read: a line is
/// written where the pipe has room for it, and not waited with. An end kills it, closes its pipes and waits
/// for its exit.
#[derive(Drop)]
pub struct Spawned<P: OpenProcess + Drop> {
    child: Child<P>,
}

/// Launches processes by a runtime. They have none of this process's descriptors but their two pipes.
#[derive(Drop)]
pub struct Spawner<R: process::Processes + Drop> {
    runtime: R,
    alloc: Global,
}

/// Child processes of a runtime.
pub type Processes<R> = Lives<Spawner<R>>;

impl<R: process::Processes + Drop> Lives<Spawner<R>>
where
    <R::Started as OpenProcess>::Stdin: AsRawFd,
{
    /// No child as yet. They are started by this runtime.
    pub fn new(runtime: R, alloc: Global) -> Processes<R> {
        Lives::over(Spawner { runtime, alloc }, alloc)
    }
}

impl<R: process::Processes + Drop> Outputs for Lives<Spawner<R>>
where
    <R::Started as OpenProcess>::Stdin: AsRawFd,
    <R::Started as OpenProcess>::Stdout: AsRawFd,
{
    fn is_running(&self, seat: Seat) -> bool {
        self.runs(seat)
    }

    fn output(&self, at: usize) -> Option<(Seat, RawFd)> {
        let running = self.running.get(at)?;
        let pipe = running.process.child.stdout.as_ref()?;
        let seat = Seat {
            name: running.name,
            life: running.life,
        };
        Some((seat, pipe.as_raw_fd()))
    }
}

/// A word as a text.
fn text(word: &Octets) -> io::Result<&str> {
    match str::from_utf8(word.as_slice()) {
        Ok(text) => Ok(text),
        Err(_) => Err(io::Error::from(ErrorKind::InvalidInput)),
    }
}

/// One read, tried again where it is interrupted.
fn read_once<T: Read>(pipe: &mut T, into: &mut [u8]) -> Result<usize, ChildFault>
    ensures size { length into.new ≡ length into.old }
    ensures few { IfOk result (λ count. count ≤ length into.new) }
    ensures bytes { ReadConsumes (T.remaining pipe.old) (T.remaining pipe.new) result into.new }
{
    for _ in 0..MOST_READS {
        match pipe.read(into) {
            Ok(len) => return Ok(len),
            Err(fault) if fault.kind() == ErrorKind::Interrupted => {}
            Err(_) => return Err(ChildFault),
        }
    }
    Err(ChildFault)
}

/// Whether a pipe takes a write within so many milliseconds: it has room, or is closed, which the write
/// reports. Where the poll fails the write has to find out.
fn takes_write(pipe: RawFd, millis: i32) -> bool {
    let mut places = [pollfd {
        fd: pipe,
        events: POLLOUT,
        revents: 0,
    }];
    poll(&mut places, millis) != 0
}

/// Writes these bytes, in parts that a pipe with room takes at once. The first part waits for nothing: a
/// process that answered the lines before this one without reading them is no reason to wait.
fn write_parts<T: Write + AsRawFd>(pipe: &mut T, bytes: &[u8]) -> Result<(), ChildFault>
    ensures { OnOk result (Appends (T.contents pipe.old) (T.contents pipe.new) bytes.now) }
{
    let mut rest = bytes;
    let mut millis = 0;
    while !rest.is_empty() {
        let (part, later) = rest.split_at(rest.len().min(MOST_AT_ONCE));
        if !takes_write(pipe.as_raw_fd(), millis) {
            return Err(ChildFault);
        }
        let Ok(()) = pipe.write_all(part) else {
            return Err(ChildFault);
        };
        rest = later;
        millis = LONGEST_WAIT;
    }
    Ok(())
}

/// Whether a pipe has the word `sent` first. It is written at once, so it comes with one read.
fn is_sent<T: Read>(pipe: &mut T) -> bool {
    let mut room = *b"....";
    match read_once(pipe, &mut room) {
        Ok(_) => room == *b"sent",
        Err(ChildFault) => false,
    }
}

/// What a call answers that succeeded or not.
fn answer(called: io::Result<()>) -> Result<(), ChildFault> {
    match called {
        Ok(()) => Ok(()),
        Err(_) => Err(ChildFault),
    }
}

impl<P: OpenProcess + Drop> Process for Spawned<P>
where
    P::Stdin: AsRawFd,
{
    ghost use Rattle.child_calls.specs.Pipes.{ByPipes};

    ghost did = { λ p call answer q. ByPipes P.Stdin.contents P.Stdout.remaining p.child call answer q.child };

    fn write(&mut self, bytes: &[u8]) -> Result<(), ChildFault> {
        let Some(pipe) = &mut self.child.stdin else {
            return Err(ChildFault);
        };
        write_parts(pipe, bytes)
    }

    fn read(&mut self, room: &mut [u8]) -> Result<usize, ChildFault> {
        let Some(pipe) = &mut self.child.stdout else {
            return Err(ChildFault);
        };
        read_once(pipe, room)
    }

    fn end(&mut self) -> Result<(), ChildFault> {
        let killed = self.child.kill();
        drop(self.child.stdout.take());
        match self.child.wait() {
            Ok(_) => answer(killed),
            Err(_) => Err(ChildFault),
        }
    }
}

/// A command of these words, its program first.
fn command_of(alloc: Global, words: &[Octets]) -> io::Result<Command> {
    let Some((program, others)) = words.split_first() else {
        return Err(io::Error::from(ErrorKind::InvalidInput));
    };
    let mut command = Command::new(alloc, text(program)?)?;
    for word in others {
        command.arg(text(word)?)?;
    }
    Ok(command)
}

/// The command that sends the signal SIGINT to the process of this number, and then prints `sent`. std has no
/// call for it, so `sh` does it by its own `kill`.
fn kill_of(alloc: Global, number: &str) -> io::Result<Command> {
    let mut command = Command::new(alloc, "/bin/sh")?;
    command.arg("-c")?;
    command.arg("kill -INT \"$0\" && printf sent")?;
    command.arg(number)?;
    Ok(command)
}

impl<R: process::Processes + Drop> Spawner<R> {
    /// Starts a process with these words, its program first.
    fn spawn(&self, words: &[Octets]) -> io::Result<Child<R::Started>> {
        let mut command = command_of(self.alloc, words)?;
        command
            .stdin(Stdio::piped())
            .stdout(Stdio::piped())
            .stderr(Stdio::null());
        command.spawn(&self.runtime)
    }

    /// Runs a command that prints `sent` where it does what it is for, and waits for its end. It fails where nothing is sent. Its
    /// status isn't asked for: where SIGCHLD is ignored the system keeps none.
    fn run(&self, command: Command) -> io::Result<()> {
        let mut command = command;
        command
            .stdin(Stdio::null())
            .stdout(Stdio::piped())
            .stderr(Stdio::null());
        let mut started = command.spawn(&self.runtime)?;
        let sent = match &mut started.stdout {
            Some(pipe) => is_sent(pipe),
            None => false,
        };
        let _ = started.wait();
        if sent {
            Ok(())
        } else {
            Err(io::Error::from(ErrorKind::NotFound))
        }
    }

    /// Sends a process the signal SIGINT, and waits until it is sent. The number is this process's as long
    /// as nobody has waited for it, which its end alone does.
    fn signal(&self, process: &Spawned<R::Started>) -> io::Result<()> {
        let mut number = String::new(self.alloc);
        write!(number, "{}", process.child.id())?;
        self.run(kill_of(self.alloc, number.as_str())?)
    }
}

impl<R: process::Processes + Drop> Launcher for Spawner<R>
where
    <R::Started as OpenProcess>::Stdin: AsRawFd,
{
    type Process = Spawned<R::Started>;

    ghost launched = { λ _ _ _ _. Unit {0} };

    ghost signalled = { λ _ p _ _ q. p ≡ q };

    fn launch(&mut self, words: &[Octets]) -> Result<Spawned<R::Started>, ChildFault> {
        match self.spawn(words) {
            Ok(child) => Ok(Spawned { child }),
            Err(_) => Err(ChildFault),
        }
    }

    fn interrupt(&mut self, process: &mut Spawned<R::Started>) -> Result<(), ChildFault> {
        answer(self.signal(process))
    }
}
