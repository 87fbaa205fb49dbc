//! Worksheets in the files of a runtime that has all its standard streams.
use sheet_files::{
    ClosedStreams, FileDisk, FileNames, FilesFault, MakeFault, OpenedFile, SheetFile,
};
use std::alloc::Global;
use std::env::Env;
use std::rt::Files;

const OPEN: ClosedStreams = ClosedStreams {
    input: false,
    output: false,
    errors: false,
};

/// Makes the files of a worksheet.
pub fn create<F: SheetFile + Drop, R: Files<File = F> + Env>(
    rt: &R,
    alloc: Global,
    path: &str,
) -> Result<FileDisk<OpenedFile<F>>, MakeFault> {
    FileDisk::create(&mut FileNames::new((rt, alloc), OPEN), alloc, path)
}

/// Opens them.
pub fn open<F: SheetFile + Drop, R: Files<File = F> + Env>(
    rt: &R,
    alloc: Global,
    path: &str,
) -> Result<FileDisk<OpenedFile<F>>, FilesFault> {
    FileDisk::open(&mut FileNames::new((rt, alloc), OPEN), alloc, path)
}

/// Opens them to read alone.
pub fn open_to_read<F: SheetFile + Drop, R: Files<File = F> + Env>(
    rt: &R,
    alloc: Global,
    path: &str,
) -> Result<FileDisk<OpenedFile<F>>, FilesFault> {
    FileDisk::open_to_read(&mut FileNames::new((rt, alloc), OPEN), alloc, path)
}
