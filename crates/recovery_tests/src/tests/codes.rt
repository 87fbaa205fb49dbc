//! The payload without a byte. Payloads that have some are cases of `programs`, `data/areas.sh`.
use recovery::{DecodeFault, decode};
use std::alloc::Global;

fn is_unreadable(alloc: Global) -> bool {
    matches!(decode(alloc, b""), Err(DecodeFault::Unreadable))
}

#[test]
fn a_payload_without_a_byte_is_unreadable(rt: HostRuntime) {
    assert!(rt; is_unreadable(rt.alloc()));
}
