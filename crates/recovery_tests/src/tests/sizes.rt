//! The longest payload of an op, through a store.
use super::desk::{Outcome, answer, created, new, put_if, session, store_on};
use block_tree::Block;
use disk_model::MemoryDisk;
use meta_format::read_block;
use recovery::Store;
use std::alloc::Global;

// The spelling of a block whose text has so many bytes.
fn spelling(alloc: Global, len: usize) -> Option<Vec<u8>> {
    let text = Vec::from_elem(alloc, b'y', len).ok()?;
    let mut spelling = Vec::with_capacity(alloc, 11).ok()?;
    spelling.extend_from_slice(b"\x02verbatim:").ok()?;
    spelling.extend_from_slice(text.as_slice()).ok()?;
    spelling.push(5).ok()?;
    Some(spelling)
}

// Whether field 1 gets this answer.
fn is_answered(alloc: Global, store: &mut Store<MemoryDisk>, spelling: &[u8]) -> bool {
    let session = put_if(store, session(alloc));
    let field = put_if(store, new(alloc));
    let answer = put_if(store, answer(alloc, spelling));
    session == Outcome::Done && field == Outcome::Done && answer == Outcome::Done
}

// A disk of the greatest room, whose field 1 has this answer.
fn answered(alloc: Global, spelling: &[u8]) -> Option<MemoryDisk> {
    let mut store = created(alloc, 2_147_483_648)?;
    if is_answered(alloc, &mut store, spelling) {
        Some(store.into_disk())
    } else {
        None
    }
}

fn has_output(store: &Store<MemoryDisk>, output: &Block) -> Option<bool> {
    let field = store.sheet().field(1)?;
    let answer = field.answer.as_ref()?;
    Some(answer.output == *output)
}

fn has(alloc: Global, disk: MemoryDisk, output: &Block) -> Option<bool> {
    has_output(&store_on(alloc, disk)?, output)
}

// Whether a store keeps an answer whose output has a text of so many bytes. The answer's payload has 7
// bytes of its own, 2 of the prompt and 11 around the text.
fn keeps(alloc: Global, len: usize) -> Option<bool> {
    let spelling = spelling(alloc, len)?;
    let output = read_block(alloc, spelling.as_slice()).ok()?;
    has(alloc, answered(alloc, spelling.as_slice())?, &output)
}

// A payload of 33,554,432 bytes, the greatest length.
#[test]
fn the_longest_payload_of_an_answer(rt: HostRuntime) {
    assert!(rt; keeps(rt.alloc(), 33_554_412) == Some(true));
}

// One byte more has no place on any disk.
#[test]
fn an_answer_that_is_longer_by_a_byte(rt: HostRuntime) {
    assert!(rt; keeps(rt.alloc(), 33_554_413) == None);
}
