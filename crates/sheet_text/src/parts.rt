//! The parts of a line.
ghost use Rattle.std.specs.Prelude.{◌≡◌, IfOk, IfSome, ◌<◌, length};
ghost use Rattle.std.specs.List.{position, slice_split};
ghost use Rattle.std.specs.Option.{option_copied};
ghost use Rattle.sheet_text.specs.Script as said;

use block_tree::{Octets, OutOfMemory, Sequence};
use std::alloc::Global;

/// Where the next space stands.
fn space_in(bytes: &[u8]) -> Option<usize>
    ensures at { result ≡ position said.is_space bytes.now }
    ensures within { IfSome result (λ at. at < length bytes.now) }
{
    bytes.iter().position(|byte| *byte == b' ')
}

/// The bytes up to the next space, and those after it.
pub fn split_space(bytes: &[u8]) -> (&[u8], Option<&[u8]>)
    ensures before { result.0.now ≡ said.before_space bytes.now }
    ensures following { option_copied result.1 ≡ said.after_space bytes.now }
{
    match space_in(bytes) {
        None => (bytes, None),
        Some(at) => (&bytes[..at], Some(&bytes[at + 1..])),
    }
}

/// Copies of the parts between spaces.
#[tactic(auto, using(crate::proofs::Words::word_steps))]
pub(crate) fn split_words(alloc: Global, bytes: &[u8]) -> Result<Sequence<Octets>, OutOfMemory>
    ensures { IfOk result (λ words. words ≡ slice_split said.is_space bytes.now) }
{
    let mut words = Vec::new(alloc);
    let mut rest = bytes;
    loop {
        let (word, following) = split_space(rest);
        words.push(Octets::from_slice(alloc, word)?)?;
        match following {
            None => return Ok(Sequence::from_vec(words)),
            Some(others) => rest = others,
        }
    }
}
