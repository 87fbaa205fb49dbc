//! Records that fit and some that don't.
use super::desk::{SESSION, cause_of, empty_in, has, has_session_alone, holding, put};
use disk_model::{Area, MemoryDisk};
use journal::{CreateCause, Journal};
use std::alloc::Global;

// The disk of a journal on which the payload doesn't fit.
fn full(alloc: Global, journal: Journal<MemoryDisk>, payload: &[u8]) -> Option<MemoryDisk> {
    let journal = put(alloc, journal, payload)?.full()?;
    Some(journal.into_disk())
}

fn is_kept(alloc: Global, disk: MemoryDisk) -> bool {
    has_session_alone(&disk) && has(alloc, disk, &[(10, &SESSION)])
}

// Whether a payload more doesn't fit after the session, which stays alone.
fn is_filled(alloc: Global, journal: Journal<MemoryDisk>) -> bool {
    let has_room = journal.fits(1);
    match full(alloc, journal, &[7]) {
        Some(disk) => !has_room && is_kept(alloc, disk),
        None => false,
    }
}

fn fills(alloc: Global) -> Option<bool> {
    let journal = empty_in(alloc, 25)?;
    let fits = journal.room() == 25 && journal.fits(9);
    let journal = put(alloc, journal, &SESSION)?.done()?;
    Some(fits && is_filled(alloc, journal))
}

#[test]
fn a_record_that_fills_the_room(rt: HostRuntime) {
    assert!(rt; fills(rt.alloc()) == Some(true));
}

fn stays_empty(alloc: Global) -> Option<bool> {
    let disk = full(alloc, empty_in(alloc, 24)?, &SESSION)?;
    Some(disk.content(Area::First) == b"TMWSHEET\x01A\x00".as_slice())
}

#[test]
fn a_record_that_does_not_fit(rt: HostRuntime) {
    assert!(rt; stays_empty(rt.alloc()) == Some(true));
}

fn cause_of_a_byte(alloc: Global) -> Option<CreateCause> {
    cause_of(holding(alloc, &[0])?)
}

#[test]
fn a_disk_with_a_byte_is_not_created(rt: HostRuntime) {
    assert!(rt; cause_of_a_byte(rt.alloc()) == Some(CreateCause::NotEmpty));
}
