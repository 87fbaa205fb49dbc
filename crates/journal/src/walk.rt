//! The walk over the gates of an area, by their length fields alone.
ghost use Rattle.std.specs.Prelude.{◌≡◌, ◌<◌, ◌≤◌, ◌+◌, ◌++◌, List, ℕ, get_or, length, min, drop, IfOk, IfErr, IfSome, IfNone, OnOk};
ghost use Rattle.disk_model.specs.Disk.{InModel, area_of, bytes_on};
ghost use Rattle.journal.specs.Limits.{longest_payload};
ghost use Rattle.journal.specs.Area.{HasHeader, IsPayload, end_of, first_gate, header, record_of, selector_at};
ghost use Rattle.journal.specs.Front.{HasFront};
ghost use Rattle.journal.specs.Open.{IsPassing};
ghost use Rattle.journal.specs.inside.Reads.{Begins, Fails, Reads};
ghost use Rattle.journal.specs.inside.Walk.{IsLength, IsStep, LacksHeader};
ghost use Rattle.journal.specs.inside.Window.{Shows};

use crate::layout::{EMPTY_LEN, FIRST_GATE, OPEN_GATE, SELECTOR};
use crate::window::Window;
use crate::{LONGEST_PAYLOAD, OpenCause};
use block_tree::Octets;
use disk_model::Disk;

/// A payload that an opening found.
#[derive(Drop, Debug)]
pub struct Payload {
    /// The offset of its gate in the area.
    pub gate: u64,
    /// Its bytes, of which there is at least one.
    pub bytes: Octets,
}

// What stands at a gate.
#[derive(Clone, Copy)]
enum GateContent {
    // The gate is closed.
    End,
    // What follows the gate is no record.
    Broken,
    // A record, whose payload has so many bytes.
    Record(u64),
}

/// The gate at which a walk ended: it is closed, or damaged.
#[derive(Clone, Copy)]
pub(crate) struct WalkEnd {
    pub(crate) gate: u64,
    pub(crate) damaged: bool,
}

// What stands at a gate, from the bytes there and how many there are up to the area's end.
fn step_at(front: &[u8], left: u64) -> GateContent
    requires { min left 5 ≤ length front.now }
    ensures step { (rest : List ℕ) → left ≡ length rest → 0 < left → Begins front.now rest
        → IsStep longest_payload rest result }
    ensures len { IsLength left result }
{
    let [OPEN_GATE, ..] = front else {
        return GateContent::End;
    };
    let [_, b0, b1, b2, b3, ..] = front else {
        return GateContent::Broken;
    };
    let len = u64::from(u32::from_be_bytes([*b0, *b1, *b2, *b3]));
    if len == 0 || len > LONGEST_PAYLOAD || left <= 5 + len {
        return GateContent::Broken;
    }
    GateContent::Record(len)
}

// The selector of a header, and what follows it.
fn after_header(bytes: &[u8]) -> Option<(u8, &[u8])>
    ensures some { IfSome result
        (λ found. (bytes.now ≡ header found.0 ++ found.1.now) × (0 < length found.1.now)) }
    ensures none { IfNone result (HasHeader bytes.now → ⊥) }
{
    if bytes.len() < EMPTY_LEN as usize {
        return None;
    }
    let (front, rest) = bytes.split_at(FIRST_GATE as usize);
    let (magic, selector) = front.split_at(SELECTOR as usize);
    if magic != b"TMWSHEET\x01".as_slice() {
        return None;
    }
    Some((selector[0], rest))
}

/// Where the walk over the gates of the window's area ends, which begins with a header.
pub(crate) fn walk_gates<D: Disk>(window: &mut Window, disk: &mut D) -> Result<WalkEnd, OpenCause>
    requires header { InModel (D.view disk.old) (HasHeader (area_of window.old.area
        (bytes_on (D.view disk.old)))) }
    requires some { first_gate < window.old.limit }
    requires shows { InModel (D.view disk.old)
        (Shows window.old (area_of window.old.area (bytes_on (D.view disk.old)))) }
    ensures reads { Reads (Fails result) (D.view disk.old) (D.view disk.new) }
    ensures area { window.new.area ≡ window.old.area }
    ensures limit { window.new.limit ≡ window.old.limit }
    ensures shows { InModel (D.view disk.old)
        (OnOk result (Shows window.new (area_of window.old.area (bytes_on (D.view disk.old))))) }
    ensures front { InModel (D.view disk.old)
        (IfOk result (λ stop. (payloads : List (List ℕ))
        × HasFront longest_payload (area_of window.old.area (bytes_on (D.view disk.old))) payloads
        stop.damaged × (stop.gate ≡ end_of payloads))) }
    ensures inside { IfOk result (λ stop. (first_gate ≤ stop.gate)
        × (stop.gate < window.new.limit)) }
    ensures cause { IfErr result IsPassing }
{
    let mut gate = FIRST_GATE;
    loop {
        let left = window.limit - gate;
        if let Err(cause) = window.fill(disk, gate, left.min(5)) {
            return Err(cause);
        }
        match step_at(window.following(gate), left) {
            GateContent::End => return Ok(WalkEnd {
                gate,
                damaged: false,
            }),
            GateContent::Broken => return Ok(WalkEnd {
                gate,
                damaged: true,
            }),
            GateContent::Record(len) => gate += 5 + len,
        }
    }
}

/// The selector of the header with which the window's area begins.
pub(crate) fn selector_of<D: Disk>(window: &mut Window, disk: &mut D) -> Result<u8, OpenCause>
    requires shows { InModel (D.view disk.old)
        (Shows window.old (area_of window.old.area (bytes_on (D.view disk.old)))) }
    ensures reads { Reads (Fails result) (D.view disk.old) (D.view disk.new) }
    ensures area { window.new.area ≡ window.old.area }
    ensures limit { window.new.limit ≡ window.old.limit }
    ensures shows { InModel (D.view disk.old)
        (OnOk result (Shows window.new (area_of window.old.area (bytes_on (D.view disk.old))))) }
    ensures some { OnOk result (first_gate < window.new.limit) }
    ensures header { InModel (D.view disk.old)
        (IfOk result (λ selector. HasHeader (area_of window.old.area (bytes_on (D.view disk.old)))
        × (get_or (area_of window.old.area (bytes_on (D.view disk.old))) selector_at 0
        ≡ selector))) }
    ensures fault { InModel (D.view disk.old)
        (IfErr result (LacksHeader (area_of window.old.area (bytes_on (D.view disk.old))))) }
{
    if let Err(cause) = window.fill(disk, 0, window.limit.min(EMPTY_LEN)) {
        return Err(cause);
    }
    match after_header(window.following(0)) {
        Some((selector, _)) => Ok(selector),
        None => Err(OpenCause::NotASheet),
    }
}

// The length of the payload after a gate, of at most so many bytes, from the bytes there and how
// many there are up to the area's end. Only bytes that the walk didn't see give no such length, and
// there it is 1.
fn payload_len_at(front: &[u8], left: u64, most: u64) -> u64
    requires front { min left 5 ≤ length front.now }
    requires most { 1 ≤ most }
    ensures len { (1 ≤ result) × (result ≤ most) × (result ≤ longest_payload) }
    ensures reported { (payload rest : List ℕ) → IsPayload longest_payload payload
        → length payload ≤ most
        → 0 < length rest → left ≡ length (record_of payload ++ rest)
        → Begins front.now (record_of payload ++ rest) → result ≡ length payload }
{
    match step_at(front, left) {
        GateContent::Record(len) => len.min(most),
        GateContent::End | GateContent::Broken => 1,
    }
}

/// The bytes of the payload whose gate this is, before the closed gate at `end`.
pub(crate) fn payload_at<D: Disk>(
    window: &mut Window,
    disk: &mut D,
    gate: u64,
    end: u64,
) -> Result<Vec<u8>, OpenCause>
    requires some { gate + 6 ≤ end }
    requires inside { end < window.old.limit }
    requires shows { InModel (D.view disk.old)
        (Shows window.old (area_of window.old.area (bytes_on (D.view disk.old)))) }
    ensures reads { Reads (Fails result) (D.view disk.old) (D.view disk.new) }
    ensures area { window.new.area ≡ window.old.area }
    ensures limit { window.new.limit ≡ window.old.limit }
    ensures shows { InModel (D.view disk.old)
        (OnOk result (Shows window.new (area_of window.old.area (bytes_on (D.view disk.old))))) }
    ensures cause { IfErr result IsPassing }
    ensures payload { IfOk result (λ bytes. IsPayload longest_payload bytes.items) }
    ensures inside { IfOk result (λ bytes. gate + 5 + length bytes.items ≤ end) }
    ensures bytes { InModel (D.view disk.old)
        ((payload rest : List ℕ) → IsPayload longest_payload payload → 0 < length rest
        → gate + 5 + length payload ≤ end
        → drop gate (area_of window.old.area (bytes_on (D.view disk.old))) ≡ record_of payload
        ++ rest
        → IfOk result (λ bytes. bytes.items ≡ payload)) }
{
    let left = window.limit - gate;
    if let Err(cause) = window.fill(disk, gate, 5) {
        return Err(cause);
    }
    let len = payload_len_at(window.following(gate), left, end - gate - 5);
    window.copy(disk, gate + 5, len)
}
