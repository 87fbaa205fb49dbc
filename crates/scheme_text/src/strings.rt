//! The text of an answer.
ghost use Rattle.std.specs.Prelude.{◌≡◌, ◌<◌, ◌++◌, length, take, drop, codes, IfOk, IsErrOf, OnOk};
ghost use Rattle.std.specs.Prelude.{None, Some, if◌then◌else◌};
ghost use Rattle.std.specs.Str.{bytes_eq};
ghost use Rattle.std.specs.Option.{option_copied};
ghost use Rattle.scheme_text.specs.inside.Words.{slashed};
ghost use Rattle.scheme_text.specs.inside.Scan as scan;

use crate::AnswerFault;
use crate::outputs::{are_white, is_white};
use block_tree::{Octets, OutOfMemory};
use std::alloc::Global;

/// The bytes from the first on that is no white space.
fn without_white(bytes: &[u8]) -> &[u8]
    ensures { result.now ≡ scan.without_white bytes.now }
{
    let mut rest = bytes;
    while let Some((byte, others)) = rest.split_first() {
        if !is_white(*byte) {
            return rest;
        }
        rest = others;
    }
    rest
}

/// Adds what a backslash and this byte after it stand for.
fn push_slashed(byte: u8, text: &mut Vec<u8>) -> Result<(), OutOfMemory>
    ensures { OnOk result (text.new.items ≡ text.old.items ++ slashed byte) }
{
    if byte != b'"' && byte != b'\\' {
        text.push(b'\\')?;
    }
    text.push(byte)?;
    Ok(())
}

/// The text of a string whose first quote stands before these bytes, and the bytes after its last
/// one.
#[tactic(auto, using(crate::proofs::Reading::string_rules))]
fn read_string<'a>(alloc: Global, bytes: &'a [u8]) -> Result<(Octets, &'a [u8]), AnswerFault>
    ensures ok { IfOk result (λ read. scan.read_from scan.inside bytes.now
        ≡ scan.add_first read.0 (scan.read_from scan.outside read.1.now)) }
    ensures shorter { IfOk result (λ read. length read.1.now < length bytes.now) }
    ensures bad { IsErrOf result AnswerFault.BadCompletion
        → scan.read_from scan.inside bytes.now ≡ None }
{
    let mut text = Vec::new(alloc);
    let mut rest = bytes;
    while let Some((byte, others)) = rest.split_first() {
        if *byte == b'"' {
            return Ok((Octets::from_vec(text), others));
        }
        if *byte == b'\\' {
            let Some((next, following)) = others.split_first() else {
                return Err(AnswerFault::BadCompletion);
            };
            push_slashed(*next, &mut text).map_err(|_| AnswerFault::OutOfMemory)?;
            rest = following;
        } else {
            text.push(*byte).map_err(|_| AnswerFault::OutOfMemory)?;
            rest = others;
        }
    }
    Err(AnswerFault::BadCompletion)
}

/// The strings up to the end of a tuple.
#[tactic(auto, using(crate::proofs::Reading::tuple_rules))]
fn read_tuple(alloc: Global, bytes: &[u8]) -> Result<Vec<Octets>, AnswerFault>
    ensures ok { IfOk result (λ strings. scan.read_from scan.outside bytes.now
        ≡ Some strings.items) }
    ensures bad { IsErrOf result AnswerFault.BadCompletion
        → scan.read_from scan.outside bytes.now ≡ None }
{
    let mut strings = Vec::new(alloc);
    let mut rest = bytes;
    while let Some((byte, others)) = rest.split_first() {
        if is_white(*byte) {
            rest = others;
        } else if *byte == b'"' {
            match read_string(alloc, others) {
                Err(fault) => return Err(fault),
                Ok((text, following)) => {
                    strings.push(text).map_err(|_| AnswerFault::OutOfMemory)?;
                    rest = following;
                }
            }
        } else if *byte == b')' && are_white(others) {
            return Ok(strings);
        } else {
            return Err(AnswerFault::BadCompletion);
        }
    }
    Err(AnswerFault::BadCompletion)
}

/// The bytes after the word `tuple`.
fn after_word(bytes: &[u8]) -> Option<&[u8]>
    ensures { (if bytes_eq (take 5 bytes.now) (codes "tuple") then Some (drop 5 bytes.now)
        else None) ≡ option_copied result }
{
    bytes.strip_prefix(b"tuple")
}

/// The strings of an answer's text.
#[tactic(auto, using(crate::proofs::Reading::form_rules))]
pub(crate) fn read_strings(alloc: Global, text: &[u8]) -> Result<Vec<Octets>, AnswerFault>
    ensures ok { IfOk result (λ strings. scan.read_strings text.now ≡ Some strings.items) }
    ensures bad { IsErrOf result AnswerFault.BadCompletion → scan.read_strings text.now ≡ None }
{
    let Some((byte, others)) = without_white(text).split_first() else {
        return Ok(Vec::new(alloc));
    };
    if *byte == b'"' {
        return match others.split_first() {
            Some((next, following)) if *next == b'"' && are_white(following) => Ok(Vec::new(alloc)),
            _ => Err(AnswerFault::BadCompletion),
        };
    }
    if *byte == b'(' {
        return match after_word(without_white(others)) {
            Some(strings) => read_tuple(alloc, strings),
            None => Err(AnswerFault::BadCompletion),
        };
    }
    Err(AnswerFault::BadCompletion)
}
