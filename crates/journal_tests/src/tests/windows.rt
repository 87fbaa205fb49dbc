//! Openings that give one payload after another, over areas that are longer than a window.

use super::desk::{AREA, SESSION, holding, opened};
use disk_model::{Area, Disk, DiskFault, FuseDisk, FuseMode, MemoryDisk};
use journal::{Journal, Next, OpenCause, Opening, Payload};
use std::alloc::Global;

// An opening that has given nothing.
fn begun<D: Disk>(alloc: Global, disk: D) -> Option<Opening<D>> {
    Opening::begin(alloc, disk).ok()
}

fn is(payload: &Payload, gate: u64, bytes: &[u8]) -> bool {
    payload.gate == gate && payload.bytes.as_slice() == bytes
}

// The opening after its next payload, which follows this gate and has these bytes.
fn following<D: Disk>(opening: Opening<D>, gate: u64, bytes: &[u8]) -> Option<Opening<D>> {
    match opening.next() {
        Ok(Next::Payload(following, payload)) => {
            if is(&payload, gate, bytes) {
                Some(following)
            } else {
                None
            }
        }
        Ok(Next::End(_journal)) => None,
        Err(_fault) => None,
    }
}

// The journal of an opening that has given all payloads.
fn ended<D: Disk>(opening: Opening<D>) -> Option<Journal<D>> {
    match opening.next() {
        Ok(Next::End(journal)) => Some(journal),
        _ => None,
    }
}

fn come_in_order(alloc: Global) -> Option<bool> {
    let opening = begun(alloc, holding(alloc, &AREA)?)?;
    let opening = following(opening, 10, &SESSION)?;
    let opening = following(opening, 24, &AREA[29..39])?;
    let opening = following(opening, 39, &[6, 0, 0, 0, 1])?;
    let opening = following(opening, 49, &AREA[54..75])?;
    Some(ended(opening)?.fits(18))
}

#[test]
fn payloads_come_in_order_with_their_gates(rt: HostRuntime) {
    assert!(rt; come_in_order(rt.alloc()) == Some(true));
}

fn has_four(alloc: Global, disk: MemoryDisk) -> bool {
    let is_same = disk.content(Area::First) == AREA.as_slice();
    match opened(alloc, disk) {
        Some((_, payloads)) => is_same && payloads.len() == 4,
        None => false,
    }
}

fn gives_back(alloc: Global) -> Option<bool> {
    let opening = begun(alloc, holding(alloc, &AREA)?)?;
    let disk = following(opening, 10, &SESSION)?.into_disk();
    Some(has_four(alloc, disk))
}

#[test]
fn an_opening_gives_its_disk_back(rt: HostRuntime) {
    assert!(rt; gives_back(rt.alloc()) == Some(true));
}

// Puts a record after the closed gate that the area ends with: a payload of so many bytes of this
// value, and the next gate. Where there is no memory the area lacks them, and the report isn't as
// wanted.
fn push_record(alloc: Global, area: &mut Vec<u8>, len: u32, byte: u8) {
    let _closed = area.pop();
    let _ = area.push(b'R');
    let _ = area.extend_from_slice(&len.to_be_bytes());
    if let Ok(payload) = Vec::from_elem(alloc, byte, len as usize) {
        let _ = area.extend_from_slice(payload.as_slice());
    }
    let _ = area.push(0);
}

// An area with records of payloads of these lengths, of the bytes 1, 2 and so on.
fn area_of(alloc: Global, lens: &[u32]) -> Option<Vec<u8>> {
    let mut area = b"TMWSHEET\x01A\x00".as_slice().to_vec(alloc).ok()?;
    let mut byte = 0u8;
    for len in lens {
        byte = byte.wrapping_add(1);
        push_record(alloc, &mut area, *len, byte);
    }
    Some(area)
}

// A disk in memory whose area First is this.
fn disk_of(alloc: Global, lens: &[u32]) -> Option<MemoryDisk> {
    let area = area_of(alloc, lens)?;
    if area.len() > 40_000_000 {
        return None;
    }
    MemoryDisk::holding(alloc, 40_000_000, area).ok()
}

fn has_bytes(payload: &Payload, byte: u8) -> bool {
    for found in payload.bytes.as_slice() {
        if *found != byte {
            return false;
        }
    }
    true
}

// Whether the payloads have these gates and lengths, and the bytes 1, 2 and so on.
fn are(payloads: &[Payload], want: &[(u64, usize)]) -> bool {
    let mut byte = 0u8;
    for (payload, (gate, len)) in payloads.iter().zip(want) {
        byte = byte.wrapping_add(1);
        let is_there = payload.gate == *gate && payload.bytes.as_slice().len() == *len;
        if !is_there || !has_bytes(payload, byte) {
            return false;
        }
    }
    payloads.len() == want.len()
}

// The longest read by which a disk of such records opens to these gates and lengths.
fn longest_read(alloc: Global, lens: &[u32], want: &[(u64, usize)]) -> Option<u64> {
    let disk = disk_of(alloc, lens)?;
    let (journal, payloads) = opened(alloc, FuseDisk::new(disk, 0, FuseMode::Only))?;
    if are(payloads.as_slice(), want) {
        Some(journal.into_disk().longest_read())
    } else {
        None
    }
}

#[test]
fn the_longest_payload_is_read_in_parts(rt: HostRuntime) {
    let longest = longest_read(rt.alloc(), &[33_554_432], &[(10, 33_554_432)]);
    assert!(rt; longest == Some(65_536));
}

#[test]
fn a_payload_beyond_two_mebibytes(rt: HostRuntime) {
    let longest = longest_read(rt.alloc(), &[0x0020_0001], &[(10, 2_097_153)]);
    assert!(rt; longest.is_some());
}

// Why an area with a payload of so many bytes isn't opened.
fn cause_of(alloc: Global, len: u32) -> Option<OpenCause> {
    match Journal::open(alloc, disk_of(alloc, &[len])?) {
        Ok(_) => None,
        Err(fault) => Some(fault.cause),
    }
}

// One byte more than a payload may have.
#[test]
fn a_payload_that_is_too_long_is_damage(rt: HostRuntime) {
    assert!(rt; cause_of(rt.alloc(), 0x0200_0001) == Some(OpenCause::Damaged(10)));
}

// Whether a record of seven bytes that begins at this gate is read, by reads of a window at most.
fn is_read_at(alloc: Global, gate: u32) -> bool {
    let start = gate.saturating_sub(15);
    let place = u64::from(gate);
    let want = [
        (10, start as usize),
        (place, 7),
        (place.saturating_add(12), 1),
    ];
    match longest_read(alloc, &[start, 7, 1], &want) {
        Some(longest) => longest <= 65_536,
        None => false,
    }
}

// The first window has the bytes below 65,536: the second record begins at each place around that.
#[test]
fn a_border_of_a_window_within_a_record(rt: HostRuntime) {
    for gate in 65_524..65_540u32 {
        assert!(rt; is_read_at(rt.alloc(), gate), "gate {gate}");
    }
}

// What an opening gives.
#[derive(Clone, Copy, PartialEq, Eq)]
enum Given {
    /// The one payload of three windows.
    Payload,
    /// That the disk failed.
    Disk,
    Other,
}

fn given_by(payloads: &[Payload]) -> Given {
    match payloads {
        [payload] if payload.bytes.as_slice().len() == 150_000 => Given::Payload,
        _ => Given::Other,
    }
}

fn given_at(cause: OpenCause) -> Given {
    if cause == OpenCause::Disk {
        Given::Disk
    } else {
        Given::Other
    }
}

fn opened_over(alloc: Global, disk: FuseDisk<MemoryDisk>) -> Given {
    match Journal::open(alloc, disk) {
        Ok((_, payloads)) => given_by(payloads.as_slice()),
        Err(fault) => given_at(fault.cause),
    }
}

// What an opening of an area of three windows gives over this fuse.
fn opened_by_windows(alloc: Global, k: u64, mode: FuseMode) -> Given {
    match disk_of(alloc, &[150_000]) {
        Some(disk) => opened_over(alloc, FuseDisk::new(disk, k, mode)),
        None => Given::Other,
    }
}

fn reported_if(fails: bool) -> Given {
    if fails { Given::Disk } else { Given::Payload }
}

// Sync and length, two windows of the walk, and three with the payload.
#[test]
fn an_opening_by_windows_over_a_failing_disk(rt: HostRuntime) {
    let alloc = rt.alloc();
    for k in 0..10u64 {
        assert!(rt; opened_by_windows(alloc, k, FuseMode::From) == reported_if(k <= 7));
        assert!(rt; opened_by_windows(alloc, k, FuseMode::Only) == reported_if(k >= 1 && k <= 7));
    }
}

// A disk outside the model. To the first two reads it gives an area with one payload of 150,000 bytes,
// and `R` for each byte from then on.
#[derive(Drop)]
struct Changing {
    reads: u64,
    faults: u64,
}

impl Changing {
    fn byte_at(&self, offset: u64) -> u8 {
        if self.reads > 2 {
            return b'R';
        }
        let front = b"TMWSHEET\x01AR\x00\x02\x49\xf0";
        if offset < 15 {
            front[offset as usize]
        } else {
            0
        }
    }
}

impl Disk for Changing {
    ghost use Rattle.disk_model.specs.Disk.{unclaimed};
    ghost use Rattle.disk_model.specs.Calls.{started_with};
    ghost use Rattle.std.specs.Prelude.{false, []};
    ghost use Rattle.std.proofs.Common.{arith};

    ghost view = { λ d. record {
      room = 200000;
      faults = d.faults;
      keeps_model = false;
      history = started_with (record { first = []; second = [] });
    } };

    ghost small = { λ d. Prim.omega arith };

    ghost content_stays = { λ d h. unclaimed h };

    fn room(&self) -> u64 {
        200_000
    }

    fn len(&mut self, _area: Area) -> Result<u64, DiskFault> {
        let _faults = self.faults;
        Ok(150_016)
    }

    fn read(&mut self, _area: Area, offset: u64, buffer: &mut [u8]) -> Result<(), DiskFault> {
        let _faults = self.faults;
        self.reads = self.reads.saturating_add(1);
        for i in 0..buffer.len() {
            buffer[i] = self.byte_at(offset.saturating_add(i as u64));
        }
        Ok(())
    }

    fn write_at(&mut self, _area: Area, _offset: u64, _bytes: &[u8]) -> Result<(), DiskFault> {
        let _faults = self.faults;
        Ok(())
    }

    fn sync(&mut self, _area: Area) -> Result<(), DiskFault> {
        let _faults = self.faults;
        Ok(())
    }
}

fn disk_that_changes() -> Changing {
    Changing {
        reads: 0,
        faults: 0,
    }
}

fn give_single_bytes(alloc: Global) -> Option<bool> {
    let opening = following(begun(alloc, disk_that_changes())?, 10, b"R")?;
    let opening = following(opening, 16, b"R")?;
    Some(following(opening, 22, b"R").is_some())
}

fn count_of_changing(alloc: Global) -> usize {
    match opened(alloc, disk_that_changes()) {
        Some((_, payloads)) => payloads.len(),
        None => 0,
    }
}

// No length that it tells then is a payload's: each payload has one byte, and they come to the end.
#[test]
fn a_disk_that_changes_after_the_walk(rt: HostRuntime) {
    assert!(rt; give_single_bytes(rt.alloc()) == Some(true));
    assert!(rt; count_of_changing(rt.alloc()) == 25_000);
}
