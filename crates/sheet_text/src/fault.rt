//! What can go wrong while a text is written.

/// The writer failed. A part of the text may have gone out.
#[derive(Clone, Copy, Debug, PartialEq, Eq)]
pub struct WriteFault;
