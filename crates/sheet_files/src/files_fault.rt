//! Why a program has no files of a worksheet, or no place of a stream.
use journal::CreateCause;
use std::io;
use thiserror::Error;

/// Why a program has no files of a worksheet. Nothing was written there.
#[derive(Clone, Copy, Debug, PartialEq, Eq, Error)]
pub enum FilesFault {
    /// 38: the path is that of a worksheet's second file. No file was made, locked or written.
    #[error("this is the second file of a worksheet")]
    SecondFile,
    /// 35: another program has the worksheet.
    #[error("the worksheet is in use")]
    InUse,
    /// 32: a file can't be opened or made, or isn't one that a worksheet may lie in.
    #[error("the files can't be opened")]
    Disk,
}

impl From<io::Error> for FilesFault {
    fn from(_: io::Error) -> FilesFault {
        FilesFault::Disk
    }
}

/// Why no worksheet was made.
#[derive(Clone, Copy, Debug, PartialEq, Eq, Error)]
pub enum MakeFault {
    /// 38: the path is that of a worksheet's second file. No file was made, locked or written.
    #[error("this is the second file of a worksheet")]
    SecondFile,
    /// 34 or 32: something is there already, or the disk failed.
    #[error("the worksheet was not made")]
    Create(CreateCause),
    /// 35: another program took a new file before it was locked. What was made stays.
    #[error("the worksheet is in use")]
    InUse,
}

/// A file that is there already is reported as such, and each other error as a failure of the disk.
impl From<io::Error> for MakeFault {
    fn from(error: io::Error) -> MakeFault {
        match error.kind() {
            io::ErrorKind::AlreadyExists => MakeFault::Create(CreateCause::NotEmpty),
            _ => MakeFault::Create(CreateCause::Disk),
        }
    }
}

/// Why the place of a closed stream isn't held.
#[derive(Clone, Copy, Debug, PartialEq, Eq, Error)]
pub enum HoldFault {
    /// 40: nothing can be put in the place of the input.
    #[error("the place of the input can't be held")]
    Input,
    /// 42: nothing can be put in the place of the output or of the errors.
    #[error("the place of the output can't be held")]
    Output,
}
