//! Readers and writers that fail, for tests.
use crate::exhausted;
use std::alloc::Global;
use std::io;
use std::io::{Read, Write};

/// Gives a part of its bytes at each read, at most three, and then fails or ends.
#[derive(Drop)]
pub struct Parts<'a> {
    pub rest: &'a [u8],
    pub fails: bool,
}

impl Read for Parts<'_> {
    fn read(&mut self, buf: &mut [u8]) -> io::Result<usize> {
        if self.rest.is_empty() && self.fails {
            return Err(io::Error::from(io::ErrorKind::Interrupted));
        }
        let count = self.rest.len().min(buf.len()).min(3);
        buf[..count].copy_from_slice(&self.rest[..count]);
        self.rest = &self.rest[count..];
        Ok(count)
    }
}

/// Takes nothing.
#[derive(Drop)]
pub struct Full;

impl Write for Full {
    fn write(&mut self, buf: &[u8]) -> io::Result<usize> {
        let _ = buf;
        Err(io::Error::from(io::ErrorKind::StorageFull))
    }

    fn flush(&mut self) -> io::Result<()> {
        Err(io::Error::from(io::ErrorKind::StorageFull))
    }
}

/// Gives its bytes, at most three at each read, but is interrupted once, before the last of them.
#[derive(Drop)]
pub struct InterruptedOnce<'a> {
    pub rest: &'a [u8],
    pub interrupted: bool,
}

impl Read for InterruptedOnce<'_> {
    fn read(&mut self, buf: &mut [u8]) -> io::Result<usize> {
        if !self.interrupted && self.rest.len() < 4 {
            self.interrupted = true;
            return Err(io::Error::from(io::ErrorKind::Interrupted));
        }
        let count = self.rest.len().min(buf.len()).min(3);
        buf[..count].copy_from_slice(&self.rest[..count]);
        self.rest = &self.rest[count..];
        Ok(count)
    }
}

/// Gives its bytes, and takes all memory at the read that tells their end. It holds it until it is dropped.
#[derive(Drop)]
pub struct Exhausting<'a> {
    pub alloc: Global,
    pub rest: &'a [u8],
    pub held: Vec<Vec<u8>>,
}

impl Read for Exhausting<'_> {
    fn read(&mut self, buf: &mut [u8]) -> io::Result<usize> {
        let count = self.rest.len().min(buf.len());
        if count == 0 {
            self.held = exhausted(self.alloc).map_err(|_| io::ErrorKind::OutOfMemory)?;
            return Ok(0);
        }
        buf[..count].copy_from_slice(&self.rest[..count]);
        self.rest = &self.rest[count..];
        Ok(count)
    }
}

/// Takes all bytes, and can't put them where they belong.
#[derive(Drop)]
pub struct Unflushed;

impl Write for Unflushed {
    fn write(&mut self, buf: &[u8]) -> io::Result<usize> {
        Ok(buf.len())
    }

    fn flush(&mut self) -> io::Result<()> {
        Err(io::Error::from(io::ErrorKind::StorageFull))
    }
}

/// Gives its bytes, at most three at each read, and counts the reads.
#[derive(Drop)]
pub struct Counted<'a> {
    pub rest: &'a [u8],
    pub reads: u64,
}

impl Read for Counted<'_> {
    fn read(&mut self, buf: &mut [u8]) -> io::Result<usize> {
        self.reads = self.reads.saturating_add(1);
        let count = self.rest.len().min(buf.len()).min(3);
        buf[..count].copy_from_slice(&self.rest[..count]);
        self.rest = &self.rest[count..];
        Ok(count)
    }
}

/// Takes as many bytes as there is room for, and then fails.
#[derive(Drop)]
pub struct Narrow {
    pub taken: Vec<u8>,
    pub room: usize,
}

impl Write for Narrow {
    fn write(&mut self, buf: &[u8]) -> io::Result<usize> {
        let count = self.room.min(buf.len());
        if count == 0 || self.taken.extend_from_slice(&buf[..count]).is_err() {
            return Err(io::Error::from(io::ErrorKind::StorageFull));
        }
        self.room -= count;
        Ok(count)
    }

    fn flush(&mut self) -> io::Result<()> {
        Ok(())
    }
}
