//! The bytes of an area that aren't records (docs/trust/FORMAT.md, "The journal").

/// The offset of the selector, in bytes: it ends the header.
pub(crate) const SELECTOR: u64 = 9;

/// The offset of the first gate, right after the header, in bytes.
pub(crate) const FIRST_GATE: u64 = 10;

/// The length of an area without a record, in bytes: its header and a closed gate.
pub const EMPTY_LEN: u64 = 11;

/// A gate that is open; at any other byte it is closed.
pub const OPEN_GATE: u8 = b'R';

/// How area First begins where the journal is in area Second: the magic bytes, the version and the selector.
pub const FIRST_OF_SECOND: &[u8] = b"TMWSHEET\x01B";

/// The selector that names area Second as the active one; at any other byte First is.
pub(crate) const NAMES_SECOND: u8 = b'B';
