//! The parts of a payload, read from left to right.
ghost use Rattle.std.specs.Prelude.{◌≡◌, length, IfSome, IfOk};
ghost use Rattle.std.specs.List.{AllByRecursion};
ghost use Rattle.recovery.specs.Code.{IsShort, IsLong};
ghost use Rattle.recovery.specs.inside.Reading.{ReadsPart, ReadsOrFails, front_at, number_at, last_number_at, short_at, long_at, last_long_at, reason_at, reason_with, words_at};

use crate::DecodeFault;
use block_tree::{Octets, Reason, Sequence};
use std::alloc::Global;

fn front_of(len: usize, bytes: &[u8]) -> Option<(&[u8], &[u8])>
    ensures { ReadsPart (λ x. (x.0.now, x.1.now)) result (front_at len bytes.now) }
{
    if bytes.len() < len {
        return None;
    }
    Some(bytes.split_at(len))
}

/// A number, and what follows it.
#[tactic(auto, unfolding(crate::specs::inside::Reading::number_at))]
pub(crate) fn number_of(bytes: &[u8]) -> Option<(u32, &[u8])>
    ensures { ReadsPart (λ x. (x.0, x.1.now)) result (number_at bytes.now) }
{
    let (front, rest) = front_of(4, bytes)?;
    let number = u32::from_be_bytes([front[0], front[1], front[2], front[3]]);
    Some((number, rest))
}

/// A number with nothing after it.
#[tactic(auto, unfolding(crate::specs::inside::Reading::last_number_at))]
pub(crate) fn last_number_of(bytes: &[u8]) -> Option<u32>
    ensures { ReadsPart (λ number. number) result (last_number_at bytes.now) }
{
    let (number, rest) = number_of(bytes)?;
    let [] = rest else {
        return None;
    };
    Some(number)
}

/// Bytes after a length of one byte, and what follows them.
#[tactic(auto, unfolding(crate::specs::inside::Reading::short_at))]
pub(crate) fn short_of(bytes: &[u8]) -> Option<(&[u8], &[u8])>
    ensures read { ReadsPart (λ x. (x.0.now, x.1.now)) result (short_at bytes.now) }
    ensures short { IfSome result (λ x. IsShort x.0.now) }
{
    let [len, rest @ ..] = bytes else {
        return None;
    };
    front_of(usize::from(*len), rest)
}

/// Bytes after a length of two bytes, and what follows them.
#[tactic(auto, unfolding(crate::specs::inside::Reading::long_at))]
pub(crate) fn long_of(bytes: &[u8]) -> Option<(&[u8], &[u8])>
    ensures read { ReadsPart (λ x. (x.0.now, x.1.now)) result (long_at bytes.now) }
    ensures long { IfSome result (λ x. IsLong x.0.now) }
{
    let (len, rest) = front_of(2, bytes)?;
    let len = u16::from_be_bytes([len[0], len[1]]);
    front_of(usize::from(len), rest)
}

/// Bytes after a length of two bytes, with nothing after them.
#[tactic(auto, unfolding(crate::specs::inside::Reading::last_long_at))]
pub(crate) fn last_long_of(bytes: &[u8]) -> Option<&[u8]>
    ensures read { ReadsPart (λ x. x.now) result (last_long_at bytes.now) }
    ensures long { IfSome result (λ x. IsLong x.now) }
{
    let (text, rest) = long_of(bytes)?;
    let [] = rest else {
        return None;
    };
    Some(text)
}

/// The reason with this number.
fn reason_with(number: u8) -> Option<Reason>
    ensures { result ≡ reason_with number }
{
    match number {
        1 => Some(Reason::StartRefused),
        2 => Some(Reason::Ended),
        3 => Some(Reason::ReadFault),
        4 => Some(Reason::SendFault),
        5 => Some(Reason::Stalled),
        6 => Some(Reason::BadTag),
        7 => Some(Reason::TooDeep),
        8 => Some(Reason::TooLong),
        9 => Some(Reason::Stopped),
        _ => None,
    }
}

/// The reason whose number is the one byte that there is.
pub(crate) fn reason_of(bytes: &[u8]) -> Option<Reason>
    ensures { ReadsPart (λ reason. reason) result (reason_at bytes.now) }
{
    let [number] = bytes else {
        return None;
    };
    reason_with(*number)
}

/// So many words, each after a length of two bytes.
pub(crate) fn words_of(
    alloc: Global,
    count: u8,
    bytes: &[u8],
) -> Result<Sequence<Octets>, DecodeFault>
    ensures read { ReadsOrFails (λ words. words) result (words_at count bytes.now) }
    ensures count { IfOk result (λ words. length words ≡ count) }
    ensures long { IfOk result (AllByRecursion IsLong) }
{
    let mut words = Vec::new(alloc);
    let mut rest = bytes;
    for _ in 0..count {
        let Some((word, after)) = long_of(rest) else {
            return Err(DecodeFault::Unreadable);
        };
        words.push(Octets::from_slice(alloc, word)?)?;
        rest = after;
    }
    Ok(Sequence::from_vec(words))
}
