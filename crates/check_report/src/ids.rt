//! Numbers of fields in a word of a command line: `3,7-9`.
ghost use Rattle.std.specs.Prelude.{◌≡◌, ◌<◌, IfOk, IfSome, length};
ghost use Rattle.std.specs.List.{before_first, position};
ghost use Rattle.std.specs.Option.{option_copied};
ghost use Rattle.sheet_text.specs.Script as said;
ghost use Rattle.check_report.specs.IdLists as lists;

use crate::chosen::Ids;
use block_tree::{OutOfMemory, Sequence};
use sheet_text::read_number;
use std::alloc::Global;

/// Where the next comma stands.
fn comma_in(bytes: &[u8]) -> Option<usize>
    ensures at { result ≡ position lists.is_comma bytes.now }
    ensures within { IfSome result (λ at. at < length bytes.now) }
{
    bytes.iter().position(|byte| *byte == b',')
}

/// Where the next dash stands.
fn dash_in(bytes: &[u8]) -> Option<usize>
    ensures at { result ≡ position lists.is_dash bytes.now }
    ensures within { IfSome result (λ at. at < length bytes.now) }
{
    bytes.iter().position(|byte| *byte == b'-')
}

/// The bytes up to the next comma, and those after it.
fn split_comma(bytes: &[u8]) -> (&[u8], Option<&[u8]>)
    ensures before { result.0.now ≡ before_first lists.is_comma bytes.now }
    ensures following { option_copied result.1 ≡ lists.following_first lists.is_comma bytes.now }
{
    match comma_in(bytes) {
        None => (bytes, None),
        Some(at) => (&bytes[..at], Some(&bytes[at + 1..])),
    }
}

/// The bytes up to the next dash, and those after it.
fn split_dash(bytes: &[u8]) -> (&[u8], Option<&[u8]>)
    ensures before { result.0.now ≡ before_first lists.is_dash bytes.now }
    ensures following { option_copied result.1 ≡ lists.following_first lists.is_dash bytes.now }
{
    match dash_in(bytes) {
        None => (bytes, None),
        Some(at) => (&bytes[..at], Some(&bytes[at + 1..])),
    }
}

/// One number.
fn read_one(bytes: &[u8]) -> Option<Ids>
    ensures { result ≡ lists.part_after bytes.now None }
{
    match read_number(bytes) {
        None => None,
        Some(id) => Some(Ids {
            first: id,
            last: id,
        }),
    }
}

/// From one number to another that is no smaller.
fn read_range(first: &[u8], last: &[u8]) -> Option<Ids>
    ensures { result ≡ lists.range_of (said.number_written first.now)
        (said.number_written last.now) }
{
    let first = read_number(first)?;
    let last = read_number(last)?;
    if first <= last {
        Some(Ids { first, last })
    } else {
        None
    }
}

/// One number, or two with a dash between them.
fn read_part(part: &[u8]) -> Option<Ids>
    ensures { result ≡ lists.part_of part.now }
{
    let (front, following) = split_dash(part);
    match following {
        None => read_one(front),
        Some(rest) => read_range(front, rest),
    }
}

/// The numbers that a text names: parts with a comma between each two, of which each is one number, or
/// two with a dash between them. None where it has another form.
#[tactic(auto, using(crate::proofs::Parts::part_steps))]
pub fn read_ids(alloc: Global, text: &[u8]) -> Result<Option<Sequence<Ids>>, OutOfMemory>
    ensures { IfOk result (λ ids. ids ≡ lists.ids_named text.now) }
{
    let mut all = Vec::new(alloc);
    let mut rest = text;
    loop {
        let (part, following) = split_comma(rest);
        let Some(ids) = read_part(part) else {
            return Ok(None);
        };
        all.push(ids)?;
        match following {
            None => return Ok(Some(Sequence::from_vec(all))),
            Some(others) => rest = others,
        }
    }
}
