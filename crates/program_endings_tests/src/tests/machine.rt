//! A machine in memory that can be crashed at each moment: a worksheet's two files are the areas of a disk that keeps
//! a record of its writes and syncs.
use super::made_up::unsupported;
use disk_model::{Area, Choice, Disk, MemoryDisk};
use sheet_files::{Identity, Lock, SheetFile, SystemFile};
use std::alloc::{Allocator, Global};
use std::cell::{Cell, RefCell};
use std::env::{Env, FillError};
use std::fs::{Metadata, OpenFile, OpenOptions, TryLockError};
use std::io;
use std::io::{ErrorKind, SeekFrom};
use std::os::unix::fs::FileExt;
use std::path::PathBuf;
use std::rt::Files;

/// A folder of the files `sheet` and `sheet.alt`. Their names outlive each crash.
#[derive(Drop)]
pub struct Folder {
    disk: RefCell<MemoryDisk>,
    has_first: Cell<bool>,
    has_second: Cell<bool>,
}

/// What a path names.
#[derive(Clone, Copy, PartialEq, Eq)]
enum Place {
    File(Area),
    Folder,
}

fn place_of(path: &str) -> io::Result<Place> {
    match path {
        "sheet" => Ok(Place::File(Area::First)),
        "sheet.alt" => Ok(Place::File(Area::Second)),
        "." => Ok(Place::Folder),
        _ => Err(io::Error::from(ErrorKind::NotFound)),
    }
}

fn broken() -> io::Error {
    io::Error::from(ErrorKind::Other)
}

// Reads aren't put on record, so the moments are those of writes and syncs.
fn read_on(disk: &MemoryDisk, area: Area, buffer: &mut [u8], offset: u64) -> io::Result<()> {
    let content = disk.content(area);
    let Some(rest) = content.get(offset as usize..) else {
        return Err(broken());
    };
    let Some(bytes) = rest.get(..buffer.len()) else {
        return Err(io::Error::from(ErrorKind::UnexpectedEof));
    };
    buffer.copy_from_slice(bytes);
    Ok(())
}

fn write_on(disk: &mut MemoryDisk, area: Area, bytes: &[u8], offset: u64) -> io::Result<()> {
    let len = disk.content(area).len() as u64;
    let room = disk.room();
    if offset > len || offset > room || bytes.len() as u64 > room - offset {
        return Err(broken());
    }
    disk.write_at(area, offset, bytes).map_err(|_| broken())
}

fn crash_of(disk: &MemoryDisk, choice: &Choice) -> Option<MemoryDisk> {
    if choice.moment > disk.calls() {
        return None;
    }
    disk.crash(choice).ok()
}

impl Folder {
    /// A folder without a file.
    pub fn new(alloc: Global) -> Folder {
        Folder {
            disk: RefCell::new(MemoryDisk::new(alloc, 1_000_000)),
            has_first: Cell::new(false),
            has_second: Cell::new(false),
        }
    }

    /// How many writes and syncs were made of its files.
    pub fn moment(&self) -> u64 {
        match self.disk.try_borrow() {
            Ok(disk) => disk.calls(),
            Err(_) => 0,
        }
    }

    /// What a crash by this choice leaves of it.
    pub fn crash(&self, choice: &Choice) -> Option<Folder> {
        let disk = self.disk.try_borrow().ok()?;
        Some(Folder {
            disk: RefCell::new(crash_of(&disk, choice)?),
            has_first: Cell::new(true),
            has_second: Cell::new(true),
        })
    }

    fn has(&self, place: Place) -> bool {
        match place {
            Place::File(Area::First) => self.has_first.get(),
            Place::File(Area::Second) => self.has_second.get(),
            Place::Folder => true,
        }
    }

    fn make(&self, place: Place) {
        match place {
            Place::File(Area::First) => self.has_first.set(true),
            Place::File(Area::Second) => self.has_second.set(true),
            Place::Folder => {}
        }
    }

    fn len(&self, area: Area) -> io::Result<u64> {
        let disk = self.disk.try_borrow().map_err(|_| broken())?;
        Ok(disk.content(area).len() as u64)
    }

    fn read(&self, area: Area, buffer: &mut [u8], offset: u64) -> io::Result<()> {
        let disk = self.disk.try_borrow().map_err(|_| broken())?;
        read_on(&disk, area, buffer, offset)
    }

    fn write(&self, area: Area, bytes: &[u8], offset: u64) -> io::Result<()> {
        let mut disk = self.disk.try_borrow_mut().map_err(|_| broken())?;
        write_on(&mut disk, area, bytes, offset)
    }

    fn sync(&self, area: Area) -> io::Result<()> {
        let mut disk = self.disk.try_borrow_mut().map_err(|_| broken())?;
        disk.sync(area).map_err(|_| broken())
    }
}

/// A runtime that has such a folder.
#[derive(Clone, Copy, Drop)]
pub struct Machine<'a> {
    pub folder: &'a Folder,
}

/// One of its files, or the folder itself, open.
#[derive(Drop)]
pub struct MachineFile<'a> {
    folder: &'a Folder,
    place: Place,
}

impl MachineFile<'_> {
    fn area(&self) -> io::Result<Area> {
        match self.place {
            Place::File(area) => Ok(area),
            Place::Folder => Err(broken()),
        }
    }
}

/// It has no words and no environment.
impl Env for Machine<'_> {
    fn arg(&self, _i: usize, _buf: &mut [u8]) -> Result<usize, FillError> {
        Err(FillError::NotPresent)
    }

    fn var(&self, _name: &str, _buf: &mut [u8]) -> Result<usize, FillError> {
        Err(FillError::NotPresent)
    }

    fn var_at(&self, _i: usize, _buf: &mut [u8]) -> Result<usize, FillError> {
        Err(FillError::NotPresent)
    }
}

impl<'a> Files for Machine<'a> {
    type File = MachineFile<'a>;

    type Dir = MachineFile<'a>;

    fn open_file(&self, how: &OpenOptions, path: &str) -> io::Result<MachineFile<'a>> {
        let place = place_of(path)?;
        match (self.folder.has(place), how.asks_create_new()) {
            (true, true) => return Err(io::Error::from(ErrorKind::AlreadyExists)),
            (false, false) => return Err(io::Error::from(ErrorKind::NotFound)),
            (false, true) => self.folder.make(place),
            (true, false) => {}
        }
        Ok(MachineFile {
            folder: self.folder,
            place,
        })
    }

    fn open_dir(&self, _path: &str) -> io::Result<MachineFile<'a>> {
        unsupported()
    }

    fn metadata(&self, _path: &str) -> io::Result<Metadata> {
        unsupported()
    }

    fn symlink_metadata(&self, path: &str) -> io::Result<Metadata> {
        match place_of(path)? {
            place if !self.folder.has(place) => Err(io::Error::from(ErrorKind::NotFound)),
            Place::File(area) => Ok(Metadata::of_file(self.folder.len(area)?)),
            Place::Folder => Ok(Metadata::of_dir()),
        }
    }

    fn canonicalize<B: Allocator>(&self, alloc: B, path: &str) -> io::Result<PathBuf<B>> {
        Ok(PathBuf::from_str(alloc, path)?)
    }

    fn copy(&self, _from: &str, _to: &str) -> io::Result<u64> {
        unsupported()
    }

    fn rename(&self, _from: &str, _to: &str) -> io::Result<()> {
        unsupported()
    }

    fn remove_file(&self, _path: &str) -> io::Result<()> {
        unsupported()
    }

    fn create_dir(&self, _path: &str) -> io::Result<()> {
        unsupported()
    }

    fn remove_dir(&self, _path: &str) -> io::Result<()> {
        unsupported()
    }

    fn remove_dir_all<B: Allocator>(&self, _alloc: B, _path: &str) -> io::Result<()> {
        unsupported()
    }
}

impl OpenFile for MachineFile<'_> {
    fn metadata(&self) -> io::Result<Metadata> {
        Ok(Metadata::of_file(self.folder.len(self.area()?)?))
    }

    fn set_len(&self, _size: u64) -> io::Result<()> {
        unsupported()
    }

    fn sync_all(&self) -> io::Result<()> {
        match self.place {
            Place::File(area) => self.folder.sync(area),
            Place::Folder => Ok(()),
        }
    }

    fn sync_data(&self) -> io::Result<()> {
        self.sync_all()
    }
}

impl SheetFile for MachineFile<'_> {
    ghost locked = { λ _ _ _. Unit {0} };

    ghost brought = { λ _ _. Unit {0} };

    fn bring(&self) -> io::Result<()> {
        self.sync_all()
    }

    fn take_lock(&self, _lock: Lock) -> Result<(), TryLockError> {
        Ok(())
    }

    fn identity(&self) -> io::Result<Identity> {
        Ok(Identity {
            device: 1,
            number: u64::from(self.place == Place::File(Area::Second)),
            names: 1,
            is_plain: true,
        })
    }
}

// Nothing is claimed of what it holds, as of a real file.
impl SystemFile for MachineFile<'_> {
    ghost measures = { λ _ _ _. Unit {0} };

    ghost gets = { λ _ _ _ _ _. Unit {0} };

    ghost puts = { λ _ _ _ _ _. Unit {0} };

    ghost flushes = { λ _ _ _. Unit {0} };

    ghost ends = { λ _. Unit {0} };

    fn measure(&mut self) -> io::Result<u64> {
        self.folder.len(self.area()?)
    }

    fn get(&mut self, buffer: &mut [u8], offset: u64) -> io::Result<()> {
        self.folder.read(self.area()?, buffer, offset)
    }

    fn put(&mut self, bytes: &[u8], offset: u64) -> io::Result<()> {
        self.folder.write(self.area()?, bytes, offset)
    }

    fn flush_data(&mut self) -> io::Result<()> {
        self.folder.sync(self.area()?)
    }

    fn end(self) {}
}

// A worksheet whose two files are there is read and written by the calls above.
impl FileExt for MachineFile<'_> {
    fn read_at(&self, _buf: &mut [u8], _offset: u64) -> io::Result<usize> {
        Err(io::Error::from(ErrorKind::Unsupported))
    }

    fn write_at(&self, _buf: &[u8], _offset: u64) -> io::Result<usize> {
        Err(io::Error::from(ErrorKind::Unsupported))
    }
}

impl io::Read for MachineFile<'_> {
    fn read(&mut self, _buf: &mut [u8]) -> io::Result<usize> {
        Err(io::Error::from(ErrorKind::Unsupported))
    }
}

impl io::Write for MachineFile<'_> {
    fn write(&mut self, _buf: &[u8]) -> io::Result<usize> {
        Err(io::Error::from(ErrorKind::Unsupported))
    }

    fn flush(&mut self) -> io::Result<()> {
        unsupported()
    }
}

impl io::Seek for MachineFile<'_> {
    fn seek(&mut self, _to: SeekFrom) -> io::Result<u64> {
        unsupported()
    }
}
