//! How a worksheet's two files are made and opened, in any place.
ghost use Rattle.std.specs.Prelude.{IfOk, Ok, OnOk, false};
ghost use Rattle.sheet_files.specs.Names.{Created, FirstOpened, WithinRoom, Opened, OpenedToRead, SecondLocked, SecondOpened, SecondRead};

use crate::{FilesFault, Lock, MakeFault, Names};
use disk_model::GREATEST_ROOM;
use journal::CreateCause;
use std::io;
use std::io::ErrorKind;

/// Looks for both files before one is made: one that is there is reported first.
fn look_for<F, N: Names<F>>(names: &mut N, path: &str, alt: &str) -> Result<(), MakeFault>
    ensures { IfOk result (λ _. (a : N) × N.looks names.old path.now (Ok false) a
        × N.looks a alt.now (Ok false) names.new) }
{
    match (names.look(path), names.look(alt)) {
        (Ok(true), _) | (_, Ok(true)) => Err(MakeFault::Create(CreateCause::NotEmpty)),
        (Ok(false), Ok(false)) => Ok(()),
        _ => Err(MakeFault::Create(CreateCause::Disk)),
    }
}

/// Makes both files, empty, each locked before anything else is done. They and their names are durable
/// once it answers. Where a worksheet's second file would lie none is made.
pub(crate) fn create<F: Drop, N: Names<F>>(
    names: &mut N,
    path: &str,
    alt: &str,
) -> Result<(F, F), MakeFault>
    ensures { IfOk result (λ files. Created N.Names path.now alt.now files names.old names.new) }
{
    if names.is_second(path)? {
        return Err(MakeFault::SecondFile);
    }
    look_for(names, path, alt)?;
    let first = names.make(path)?;
    if names.lock(&first, Lock::Exclusive)? {
        return Err(MakeFault::InUse);
    }
    let second = names.make(alt)?;
    if names.lock(&second, Lock::Exclusive)? {
        return Err(MakeFault::InUse);
    }
    names.sync(&first)?;
    names.sync(&second)?;
    names.sync_folder(path)?;
    Ok((first, second))
}

/// Opens the first file of a worksheet, and locks it. A path at which a worksheet's second file lies is
/// refused before that, and then a file that has another name, since what is opened by that name has
/// another second file.
fn open_first<F: Drop, N: Names<F>>(names: &mut N, path: &str, lock: Lock) -> Result<F, FilesFault>
    ensures { IfOk result (λ first. FirstOpened N.Names path.now lock first names.old names.new) }
{
    if names.is_second(path)? {
        return Err(FilesFault::SecondFile);
    }
    let first = names.open(path, lock)?;
    if names.lock(&first, lock)? {
        return Err(FilesFault::InUse);
    }
    names.single(&first)?;
    Ok(first)
}

/// Opens the second file of a worksheet, to read and to write. A missing one is made, but where the
/// worksheet lies in it: then an empty one would stand in the place of what was lost.
fn open_or_make<F: Drop, N: Names<F>>(names: &mut N, alt: &str, first: &F) -> io::Result<F>
    ensures { IfOk result (λ second. SecondOpened N.Names alt.now first.now second names.old
        names.new) }
{
    match names.open(alt, Lock::Exclusive) {
        Err(error) if error.kind() == ErrorKind::NotFound => {
            if names.names_second(first)? {
                return Err(error);
            }
            names.make(alt)
        }
        opened => opened,
    }
}

/// Sees to it that a second file is another than the first, and then locks it: on one file the lock of
/// the first would forbid the other.
fn lock_second<F: Drop, N: Names<F>>(
    names: &mut N,
    first: &F,
    second: &F,
    lock: Lock,
) -> Result<(), FilesFault>
    ensures { OnOk result (SecondLocked N.Names first.now second.now lock names.old names.new) }
{
    names.two(first, second)?;
    if names.lock(second, lock)? {
        return Err(FilesFault::InUse);
    }
    Ok(())
}

/// Sees to it that a file isn't longer than an area may be.
fn fit<F: Drop, N: Names<F>>(names: &mut N, file: &F) -> io::Result<()>
    ensures { OnOk result (WithinRoom N.Names file.now names.old names.new) }
{
    if names.length(file)? > GREATEST_ROOM {
        return Err(io::Error::from(ErrorKind::FileTooLarge));
    }
    Ok(())
}

/// Opens both files, each locked before anything is read of it, the first one before the other is opened.
/// Neither is longer than an area may be, so what is written there can be opened again. Their names are
/// durable once it answers.
pub(crate) fn open<F: Drop, N: Names<F>>(
    names: &mut N,
    path: &str,
    alt: &str,
) -> Result<(F, F), FilesFault>
    ensures { IfOk result (λ files. Opened N.Names path.now alt.now files names.old names.new) }
{
    let first = open_first(names, path, Lock::Exclusive)?;
    let second = open_or_make(names, alt, &first)?;
    lock_second(names, &first, &second, Lock::Exclusive)?;
    fit(names, &first)?;
    fit(names, &second)?;
    names.sync_folder(path)?;
    Ok((first, second))
}

/// Opens the second file of a worksheet to read alone, where there is one, and locks it.
fn open_if_there<F: Drop, N: Names<F>>(
    names: &mut N,
    alt: &str,
    first: &F,
) -> Result<Option<F>, FilesFault>
    ensures { IfOk result (λ second. SecondRead N.Names alt.now first.now second names.old
        names.new) }
{
    match names.open(alt, Lock::Shared) {
        Ok(second) => {
            lock_second(names, first, &second, Lock::Shared)?;
            Ok(Some(second))
        }
        Err(error) if error.kind() == ErrorKind::NotFound => Ok(None),
        Err(error) => Err(FilesFault::from(error)),
    }
}

/// Opens the files to read alone, each locked before anything is read of it: none is made or synced.
pub(crate) fn open_to_read<F: Drop, N: Names<F>>(
    names: &mut N,
    path: &str,
    alt: &str,
) -> Result<(F, Option<F>), FilesFault>
    ensures { IfOk result (λ files. OpenedToRead N.Names path.now alt.now files names.old
        names.new) }
{
    let first = open_first(names, path, Lock::Shared)?;
    let second = open_if_there(names, alt, &first)?;
    Ok((first, second))
}
