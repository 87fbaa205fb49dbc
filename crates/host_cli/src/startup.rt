//! The program's words, and the system's streams, files and children, over which the rest of the crate does what
//! the words ask for. `tmhost` and `programs` are both run by it.
use crate::terminal::{explain, is_new_taken, say_what_is_awaited};
use crate::{Outside, PatientInput, PatientOutput, System, perform};
use arrivals::Polled;
use child_calls::Processes;
use offline_programs::RunFault;
use partial_output::Partial;
use program_endings::end_program;
use sheet_check::ProgressLine;
use sheet_files::{ClosedStreams, FileDisk, FileNames, FilePlaces, OpenedFile};
use std::alloc::AllocError;
use std::fs::File;
use std::io::{BufWriter, ErrorKind, IsTerminal, Stderr, Stdout};
use std::marker::PhantomData;
use std::os::fd::AsRawFd;
use std::process::ExitCode;

/// How much of its output a program holds back at most, in bytes.
const BUFFER: usize = 65_536;

/// More bytes than a line of progress has.
const LINE: usize = 256;

/// The kinds of the real system.
pub struct Real<'a> {
    _lent: PhantomData<&'a HostRuntime>,
}

impl<'a> System for Real<'a> {
    type Disk = FileDisk<OpenedFile<File>>;

    type Places = FilePlaces<FileNames<&'a HostRuntime>>;

    type Sources = Partial<
        Polled<Processes<&'a HostRuntime>, &'a HostRuntime>,
        PatientOutput<Stdout>,
    >;

    type Input = PatientInput;

    type Output = BufWriter<PatientOutput<Stdout>>;

    type Errors = PatientOutput<Stderr>;

    type Progress = ProgressLine<BufWriter<Stderr>>;
}

/// The words that the program was started with, its own name first.
pub fn words(rt: &HostRuntime) -> Result<Vec<String>, ErrorKind> {
    match std::env::args(rt) {
        Ok(words) => words
            .collect::<Vec<String>>(rt.alloc())
            .map_err(|_| ErrorKind::OutOfMemory),
        Err(error) => Err(error.kind()),
    }
}

/// The line of progress where the errors go to a terminal, and there is memory for it. Each sight is one write.
fn progress(rt: &HostRuntime) -> ProgressLine<BufWriter<Stderr>> {
    let terminal = Some(rt.stderr()).filter(|errors| errors.is_terminal());
    ProgressLine::on(terminal.and_then(|errors| BufWriter::with_capacity(
        rt.alloc(),
        LINE,
        errors,
    ).ok()))
}

/// The system's streams, files and children as one value, and the line of progress where the errors go to a terminal.
///
/// `AllocError`: there was no memory for them.
fn outside<'a>(rt: &'a HostRuntime) -> Result<Outside<Real<'a>>, AllocError> {
    let closed = ClosedStreams::find(&rt.stdin(), &rt.stdout(), &rt.stderr());
    let output = PatientOutput::new(rt.stdout());
    let Ok(output) = BufWriter::with_capacity(rt.alloc(), BUFFER, output) else {
        return Err(AllocError);
    };
    let children = Processes::new(rt, rt.alloc());
    let polled = Polled::new(rt.alloc(), children, rt.stdin().as_raw_fd(), rt)?;
    let partial = PatientOutput::new(rt.stdout());
    Ok(Outside {
        places: FilePlaces::new(FileNames::new(rt, closed), rt.alloc()),
        sources: Partial::new(rt.alloc(), polled, partial),
        input: PatientInput::new(rt.stdin()),
        output,
        errors: PatientOutput::new(rt.stderr()),
        progress: progress(rt),
    })
}

/// The whole program over the system: does what these words ask for, says beside it what a person at a terminal
/// reads, and gives the status with which the program ends.
pub fn run_and_exit(rt: &HostRuntime, words: Result<Vec<String>, ErrorKind>) -> ExitCode {
    say_what_is_awaited(rt);
    let taken = is_new_taken(rt);
    let ending = match outside(rt) {
        Ok(outside) => perform(rt.alloc(), words, outside).ending,
        Err(_) => end_program(Err(RunFault::OutOfMemory), &mut rt.stderr()),
    };
    explain(rt, ending.status, taken);
    ExitCode::from(ending.status)
}
