//! The bytes of a text that are spelled as they are.
ghost use Rattle.std.specs.Prelude.{◌≡◌, ◌++◌, ◌≤◌, length, take};
ghost use Rattle.std.specs.List.{flat_map};
ghost use Rattle.meta_format.specs.Canonical.{escape};
ghost use Rattle.meta_format.specs.Spelling.{is_special};

use memchr::memchr3;

/// Whether an escape stands before this byte of a text.
pub(crate) fn is_special(byte: u8) -> bool
    ensures { result ≡ is_special byte }
{
    byte == 2 || byte == 5 || byte == 27
}

// How many of the first bytes of a text are spelled as they are.
#[tactic(auto, using(crate::proofs::PlainRuns::spelled_plain))]
fn plain_run(text: &[u8]) -> usize
    ensures within { result ≤ length text.now }
    ensures plain { flat_map escape (take result text.now) ≡ take result text.now }
{
    match memchr3(2, 5, 27, text) {
        Some(run) => run,
        None => text.len(),
    }
}

/// The front of a text that is spelled as it is, and what follows it: nothing, or a byte that has
/// an escape before it.
pub(crate) fn split_plain(text: &[u8]) -> (&[u8], &[u8])
    ensures split { text.now ≡ result.0.now ++ result.1.now }
    ensures plain { flat_map escape result.0.now ≡ result.0.now }
{
    text.split_at(plain_run(text))
}
