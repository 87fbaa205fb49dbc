//! Disks in memory: what crashes leave of them, and fuses.
use disk_model::{
    Area, Choice, Disk, DiskFault, Fill, FuseDisk, FuseMode, GREATEST_ROOM, MemoryDisk,
};
use std::alloc::Global;
use tests_desk::exhausted;

// Four bytes on the disk, and two more written over the last of them and past the end.
fn half_written(alloc: Global) -> Option<MemoryDisk> {
    let mut disk = MemoryDisk::new(alloc, 16);
    disk.write_at(Area::First, 0, b"abcd").ok()?;
    disk.sync(Area::First).ok()?;
    disk.write_at(Area::First, 3, b"XY").ok()?;
    Some(disk)
}

fn crashed(disk: &MemoryDisk, choice: &Choice) -> Option<MemoryDisk> {
    if choice.moment > disk.calls() {
        return None;
    }
    disk.crash(choice).ok()
}

// Whether area First has these bytes, Second none, and the disk wasn't called.
fn is_image(image: &MemoryDisk, first: &[u8]) -> bool {
    let second = image.content(Area::Second);
    image.content(Area::First) == first && second.is_empty() && image.calls() == 0
}

// Whether a crash leaves such a disk of this one.
fn leaves(disk: Option<MemoryDisk>, choice: &Choice, first: &[u8]) -> bool {
    let image = match &disk {
        Some(disk) => crashed(disk, choice),
        None => None,
    };
    match &image {
        Some(image) => is_image(image, first),
        None => false,
    }
}

#[test]
fn crash_fills_the_pending_range(rt: HostRuntime) {
    let rows: [(Fill, bool, &[u8]); 10] = [
        (Fill::Old, true, b"abcd\0"),
        (Fill::Old, false, b"abcd"),
        (Fill::New, true, b"abcXY"),
        (Fill::New, false, b"abcX"),
        (Fill::Torn(1), true, b"abcX\0"),
        (Fill::Torn(1), false, b"abcX"),
        (Fill::Torn(9), true, b"abcXY"),
        (Fill::Torn(9), false, b"abcX"),
        (Fill::Byte(0x52), true, b"abcRR"),
        (Fill::Byte(0x52), false, b"abcR"),
    ];
    for (fill, grown, first) in rows {
        let choice = Choice {
            moment: 3,
            fill,
            grown,
        };
        assert!(rt;
            leaves(half_written(rt.alloc()), &choice, first),
            "{fill:?} {grown}"
        );
    }
}

#[test]
fn crash_at_an_earlier_moment(rt: HostRuntime) {
    let rows: [(u64, &[u8]); 4] = [(0, b""), (1, b"abcd"), (2, b"abcd"), (3, b"abcXY")];
    for (moment, first) in rows {
        let choice = Choice {
            moment,
            fill: Fill::New,
            grown: true,
        };
        assert!(rt;
            leaves(half_written(rt.alloc()), &choice, first),
            "moment {moment}"
        );
    }
}

// Six bytes, and two writes over them that no sync follows.
fn written_over(alloc: Global) -> Option<MemoryDisk> {
    let first = b"abcdef".as_slice().to_vec(alloc).ok()?;
    let mut disk = MemoryDisk::holding(alloc, 16, first).ok()?;
    let one = disk.write_at(Area::First, 1, b"123").is_ok();
    let other = disk.write_at(Area::First, 0, b"XYZ").is_ok();
    if one && other { Some(disk) } else { None }
}

#[test]
fn crash_keeps_what_earlier_writes_left(rt: HostRuntime) {
    let choice = Choice {
        moment: 2,
        fill: Fill::Torn(2),
        grown: true,
    };
    assert!(rt; leaves(written_over(rt.alloc()), &choice, b"XY2def"));
}

// Which of three calls answer Ok, and how many of them reach the disk inside.
fn spent(alloc: Global, k: u64, mode: FuseMode) -> ([bool; 3], u64) {
    let mut disk = FuseDisk::new(MemoryDisk::new(alloc, 16), k, mode);
    let written = disk.write_at(Area::First, 0, b"a").is_ok();
    let synced = disk.sync(Area::First).is_ok();
    let reported = disk.len(Area::First).is_ok();
    ([written, synced, reported], disk.into_inner().calls())
}

#[test]
fn fuse_fails_from_the_kth_call_on(rt: HostRuntime) {
    let alloc = rt.alloc();
    assert!(rt; spent(alloc, 0, FuseMode::From) == ([false, false, false], 0));
    assert!(rt; spent(alloc, 2, FuseMode::From) == ([true, false, false], 1));
    assert!(rt; spent(alloc, 4, FuseMode::From) == ([true, true, true], 3));
}

#[test]
fn fuse_fails_the_kth_call_alone(rt: HostRuntime) {
    let alloc = rt.alloc();
    assert!(rt; spent(alloc, 0, FuseMode::Only) == ([true, true, true], 3));
    assert!(rt; spent(alloc, 1, FuseMode::Only) == ([false, true, true], 2));
    assert!(rt; spent(alloc, 3, FuseMode::Only) == ([true, true, false], 2));
}

// A disk with a write that no sync follows, under a fuse that never blows.
fn after_a_fuse(alloc: Global) -> Option<FuseDisk<MemoryDisk>> {
    Some(FuseDisk::new(half_written(alloc)?, 0, FuseMode::Only))
}

// Whether a crash at the last moment leaves these bytes in area First.
fn leaves_first(disk: &MemoryDisk, fill: Fill, grown: bool, first: &[u8]) -> bool {
    let choice = Choice {
        moment: disk.calls(),
        fill,
        grown,
    };
    match crashed(disk, &choice) {
        Some(image) => image.content(Area::First) == first,
        None => false,
    }
}

// Whether so many calls are on record, and a crash still leaves the pending write or not.
fn is_still_pending(disk: Option<FuseDisk<MemoryDisk>>, calls: u64) -> bool {
    match disk {
        Some(disk) => is_pending_after(&disk.into_inner(), calls),
        None => false,
    }
}

fn is_pending_after(disk: &MemoryDisk, calls: u64) -> bool {
    disk.calls() == calls
        && leaves_first(disk, Fill::Old, false, b"abcd")
        && leaves_first(disk, Fill::New, true, b"abcXY")
}

// The same after each of the four calls.
fn looked(alloc: Global) -> Option<FuseDisk<MemoryDisk>> {
    let mut disk = after_a_fuse(alloc)?;
    if disk.len(Area::First) == Ok(5) {
        Some(disk)
    } else {
        None
    }
}

// What the first four bytes are, where there are so many.
fn first_four(disk: &mut FuseDisk<MemoryDisk>) -> Option<[u8; 4]> {
    let mut buffer = [0u8; 4];
    match disk.len(Area::First) {
        Ok(len) if len >= 4 => {}
        _ => return None,
    }
    disk.read(Area::First, 0, &mut buffer).ok()?;
    Some(buffer)
}

fn read(alloc: Global) -> Option<FuseDisk<MemoryDisk>> {
    let mut disk = after_a_fuse(alloc)?;
    if first_four(&mut disk) == Some(*b"abcX") {
        Some(disk)
    } else {
        None
    }
}

fn written(alloc: Global) -> Option<FuseDisk<MemoryDisk>> {
    let mut disk = after_a_fuse(alloc)?;
    if disk.room() >= 1 && disk.write_at(Area::Second, 0, b"a").is_ok() {
        Some(disk)
    } else {
        None
    }
}

fn synced(alloc: Global) -> Option<FuseDisk<MemoryDisk>> {
    let mut disk = after_a_fuse(alloc)?;
    if disk.sync(Area::Second).is_ok() {
        Some(disk)
    } else {
        None
    }
}

#[test]
fn fuse_passes_each_call_on_once(rt: HostRuntime) {
    let alloc = rt.alloc();
    assert!(rt; is_still_pending(looked(alloc), 4));
    assert!(rt; is_still_pending(read(alloc), 5));
    assert!(rt; is_still_pending(written(alloc), 4));
    assert!(rt; is_still_pending(synced(alloc), 4));
}

// Whether a write and a sync fail while no memory is left, and leave no call on record and the disk as it was.
fn fails_without_memory(alloc: Global) -> Option<bool> {
    let mut disk = MemoryDisk::new(alloc, 16);
    let held = exhausted(alloc).ok()?;
    let written = disk.write_at(Area::First, 0, b"a").is_ok();
    let synced = disk.sync(Area::First).is_ok();
    let calls = disk.calls();
    drop(held);
    let is_refused = !written && !synced && calls == 0;
    let again = disk.write_at(Area::First, 0, b"a").is_ok();
    Some(is_refused && again && disk.content(Area::First) == b"a".as_slice())
}

#[test]
fn a_record_that_cannot_grow_is_a_fault(rt: HostRuntime) {
    assert!(rt; fails_without_memory(rt.alloc()) == Some(true));
}

// A disk of which nothing is claimed but its count of failures, as a real file is.
#[derive(Drop)]
struct Unclaimed {
    faults: u64,
}

impl Disk for Unclaimed {
    ghost use Rattle.disk_model.specs.Disk.{greatest_room, unclaimed};
    ghost use Rattle.disk_model.specs.Calls.{started_with};
    ghost use Rattle.std.specs.Prelude.{false, []};
    ghost use Rattle.std.proofs.Common.{arith};

    ghost view = { λ d. record {
      room = greatest_room;
      faults = d.faults;
      keeps_model = false;
      history = started_with (record { first = []; second = [] });
    } };

    ghost small = { λ d. Prim.omega arith };

    ghost content_stays = { λ d h. unclaimed h };

    fn room(&self) -> u64 {
        GREATEST_ROOM
    }

    fn len(&mut self, _area: Area) -> Result<u64, DiskFault> {
        let _faults = self.faults;
        Ok(7)
    }

    fn read(&mut self, _area: Area, _offset: u64, _buffer: &mut [u8]) -> Result<(), DiskFault> {
        let _faults = self.faults;
        Ok(())
    }

    fn write_at(&mut self, _area: Area, _offset: u64, _bytes: &[u8]) -> Result<(), DiskFault> {
        self.faults = self.faults.saturating_add(1);
        Err(DiskFault)
    }

    fn sync(&mut self, _area: Area) -> Result<(), DiskFault> {
        let _faults = self.faults;
        Ok(())
    }
}

// Which of four calls answer Ok under a fuse that fails the third one alone.
fn anywhere() -> [bool; 4] {
    let mut disk = FuseDisk::new(Unclaimed { faults: 0 }, 3, FuseMode::Only);
    let mut buffer = [0u8; 4];
    [
        disk.read(Area::First, 1_000, &mut buffer).is_ok(),
        disk.write_at(Area::Second, 99, b"a").is_ok(),
        disk.sync(Area::First).is_ok(),
        disk.sync(Area::First).is_ok(),
    ]
}

#[test]
fn a_disk_that_keeps_no_model_is_called_anywhere(rt: HostRuntime) {
    assert!(rt; anywhere() == [true, false, false, true]);
}

// Whether three reads of 4, 2 and 8 bytes answer Ok under a fuse that fails from the third on. With it, the longest read that is reported
// before them and after each.
fn longest_reads() -> ([bool; 3], [u64; 4]) {
    let mut disk = FuseDisk::new(Unclaimed { faults: 0 }, 3, FuseMode::From);
    let none = disk.longest_read();
    let four = disk.read(Area::First, 0, &mut [0u8; 4]).is_ok();
    let of_four = disk.longest_read();
    let two = disk.read(Area::Second, 9, &mut [0u8; 2]).is_ok();
    let of_two = disk.longest_read();
    let eight = disk.read(Area::First, 0, &mut [0u8; 8]).is_ok();
    (
        [four, two, eight],
        [none, of_four, of_two, disk.longest_read()],
    )
}

#[test]
fn the_longest_read_is_reported(rt: HostRuntime) {
    assert!(rt; longest_reads() == ([true, true, false], [0, 4, 4, 8]));
}

// Whether a write fails, and the longest read after it.
fn longest_read_of_a_write() -> (bool, u64) {
    let mut disk = FuseDisk::new(Unclaimed { faults: 0 }, 1, FuseMode::From);
    let fails = disk.write_at(Area::First, 0, b"0123456789").is_err();
    (fails, disk.longest_read())
}

#[test]
fn a_write_is_no_read(rt: HostRuntime) {
    assert!(rt; longest_read_of_a_write() == (true, 0));
}
