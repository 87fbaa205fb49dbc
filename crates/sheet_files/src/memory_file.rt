//! A file in memory, which keeps the model and a record of its calls.
ghost use Rattle.std.specs.Prelude.{◌≡◌, ◌≤◌, ◌<◌, ◌+◌, ◌^◌, length, OnOk, OnErr};
ghost use Rattle.disk_model.specs.Disk.{overwritten};
ghost use Rattle.disk_model.specs.Calls.{after_sync, after_write};
ghost use Rattle.sheet_files.specs.DiskFile.{IsStill, Now};
ghost use Rattle.sheet_files.specs.MemoryFile.{NotesCall, memory_view};

use crate::DiskFile;
use disk_model::{GREATEST_ROOM, overwrite};
use std::alloc::{AllocError, Global};
use std::io;
use std::io::ErrorKind;

/// What a call did that is on record.
#[derive(Drop)]
pub(crate) enum Deed {
    Write(u64, Vec<u8>),
    Sync,
}

/// A call that was made, at its moment.
#[derive(Drop)]
pub(crate) struct FileCall {
    moment: u64,
    deed: Deed,
}

/// A file in memory, for tests. It keeps the model, and a record of its writes and syncs. A call whose
/// record can't grow is an error, and does nothing.
#[derive(Drop)]
pub struct MemoryFile {
    alloc: Global,
    start: Vec<u8>,
    calls: Vec<FileCall>,
    content: Vec<u8>,
    next: u64,
    ghost still: { IsStill next (memory_view start.items calls.items) },
    ghost content_is: { Now (memory_view start.items calls.items) (λ a. content.items ≡ a.content) },
}

impl MemoryFile {
    /// An empty file.
    pub fn new(alloc: Global) -> MemoryFile {
        MemoryFile {
            alloc,
            start: Vec::new(alloc),
            calls: Vec::new(alloc),
            content: Vec::new(alloc),
            next: 0,
        }
    }
}

/// Notes a write and makes it. At an error nothing has changed.
fn write(
    alloc: Global,
    calls: &mut Vec<FileCall>,
    content: &mut Vec<u8>,
    moment: u64,
    offset: u64,
    bytes: &[u8],
) -> Result<(), AllocError>
    requires inside { offset ≤ length content.old.items }
    requires fits { offset + length bytes.now < 2 ^ 64 }
    ensures ok { OnOk result (content.new.items ≡ overwritten content.old.items offset bytes.now) }
    ensures err { OnErr result (content.new.items ≡ content.old.items) }
    ensures noted { OnOk result
        (NotesCall moment (after_write offset bytes.now) calls.old.items calls.new.items) }
    ensures not_noted { OnErr result (calls.new.items ≡ calls.old.items) }
{
    let copy = Vec::from_slice(alloc, bytes)?;
    calls.reserve(1)?;
    overwrite(content, offset as usize, bytes)?;
    let call = FileCall {
        moment,
        deed: Deed::Write(offset, copy),
    };
    match calls.push(call) {
        Ok(()) => Ok(()),
        Err(_) => unreachable!(),
    }
}

/// Notes a sync.
fn note_sync(calls: &mut Vec<FileCall>, moment: u64) -> Result<(), AllocError>
    ensures noted { OnOk result (NotesCall moment after_sync calls.old.items calls.new.items) }
    ensures not_noted { OnErr result (calls.new.items ≡ calls.old.items) }
{
    Ok(calls.push(FileCall {
        moment,
        deed: Deed::Sync,
    })?)
}

impl DiskFile for MemoryFile {
    ghost use Rattle.sheet_files.specs.inside.Replayed.{stays_an_image};

    ghost view = { λ file. memory_view file.start.items file.calls.items };

    ghost measured = { λ _ _ _. Unit {0} };

    ghost got = { λ _ _ _ _ _. Unit {0} };

    ghost written = { λ _ _ _ _ _. Unit {0} };

    ghost synced = { λ _ _ _. Unit {0} };

    ghost began = { λ _ _. Unit {0} };

    ghost let_go = { λ _. Unit {0} };

    ghost content_stays = { λ file kept moment still.
        stays_an_image file.start.items file.calls.items moment };

    fn begins(&self) -> io::Result<u64> {
        Ok(self.next)
    }

    fn is_read_only(&self) -> bool {
        false
    }

    fn len(&mut self) -> io::Result<u64> {
        Ok(self.content.len() as u64)
    }

    fn read(&mut self, buffer: &mut [u8], offset: u64) -> io::Result<()> {
        let len = self.content.len() as u64;
        if offset > len || buffer.len() as u64 > len - offset {
            return Err(io::Error::from(ErrorKind::UnexpectedEof));
        }
        let at = offset as usize;
        let end = at + buffer.len();
        buffer.copy_from_slice(&self.content[at..end]);
        Ok(())
    }

    fn write(&mut self, moment: u64, bytes: &[u8], offset: u64) -> io::Result<()> {
        if moment == u64::MAX
            || offset > self.content.len() as u64
            || offset > GREATEST_ROOM
            || bytes.len() as u64 > GREATEST_ROOM - offset
        {
            return Err(io::Error::from(ErrorKind::InvalidInput));
        }
        write(
            self.alloc,
            &mut self.calls,
            &mut self.content,
            moment,
            offset,
            bytes,
        )?;
        self.next = moment + 1;
        Ok(())
    }

    fn sync(&mut self, moment: u64) -> io::Result<()> {
        if moment == u64::MAX {
            return Err(io::Error::from(ErrorKind::Other));
        }
        note_sync(&mut self.calls, moment)?;
        self.next = moment + 1;
        Ok(())
    }

    fn close(self) {}
}
