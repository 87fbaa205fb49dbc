//! Payloads as ops.
ghost use Rattle.std.specs.Prelude.{◌≡◌, ◌∷◌, IfOk, IfSome, IsErrOf};
ghost use Rattle.worksheet.specs.declared.op.Op.{Op};
ghost use Rattle.worksheet.specs.declared.op.Op.TheVariants as op;
ghost use Rattle.recovery.specs.declared.reading.DecodeFault.TheVariants.{OutOfMemory};
ghost use Rattle.recovery.specs.Code.{HasCode, IsLong, IsPayloadOf};
ghost use Rattle.recovery.specs.inside.Reading.{ReadsPart, ReadsOrFails, FindsOp, session_at, new_at, set_at, remove_at, move_at, clear_at, lost_at, asked_at, ids_at};

use crate::parts::{
    last_long_of, last_number_of, long_of, number_of, reason_of, short_of, words_of,
};
use crate::plain::plain_answer_of;
use crate::writing::encode_within;
use block_tree::Octets;
use meta_format::{ReadFault, read_block};
use std::alloc::{AllocError, AllocFailed, Global};
use worksheet::Op;

/// Why bytes are not read as an op.
#[derive(Clone, Copy, Debug, PartialEq, Eq)]
pub enum DecodeFault {
    /// They are the payload of no op.
    Unreadable,
    /// A growth was refused.
    OutOfMemory,
}

impl From<AllocError> for DecodeFault {
    ghost from_gives = { λ _ e. e ≡ OutOfMemory };

    fn from(_: AllocError) -> Self {
        DecodeFault::OutOfMemory
    }
}

impl<T: Drop> From<AllocFailed<T>> for DecodeFault {
    ghost from_gives = { λ _ e. e ≡ OutOfMemory };

    fn from(_: AllocFailed<T>) -> Self {
        DecodeFault::OutOfMemory
    }
}

#[tactic(auto, unfolding(crate::specs::inside::Reading::session_at))]
fn session_of(alloc: Global, bytes: &[u8]) -> Result<Op, DecodeFault>
    ensures read { ReadsOrFails (λ op. op) result (session_at bytes.now) }
    ensures fits { IfOk result HasCode }
{
    let (name, rest) = short_of(bytes).ok_or(DecodeFault::Unreadable)?;
    let [tab, count, rest @ ..] = rest else {
        return Err(DecodeFault::Unreadable);
    };
    let name = Octets::from_slice(alloc, name)?;
    let words = words_of(alloc, *count, rest)?;
    Ok(Op::Session {
        name,
        tab: *tab == 1,
        words,
    })
}

#[tactic(auto, unfolding(crate::specs::inside::Reading::new_at))]
fn new_of(alloc: Global, bytes: &[u8]) -> Result<Op, DecodeFault>
    ensures read { ReadsOrFails (λ op. op) result (new_at bytes.now) }
    ensures fits { IfOk result HasCode }
{
    let (after, rest) = number_of(bytes).ok_or(DecodeFault::Unreadable)?;
    let (session, rest) = short_of(rest).ok_or(DecodeFault::Unreadable)?;
    let input = last_long_of(rest).ok_or(DecodeFault::Unreadable)?;
    Ok(Op::New {
        after,
        session: Octets::from_slice(alloc, session)?,
        input: Octets::from_slice(alloc, input)?,
    })
}

// The number and the input of a Set.
#[tactic(auto, unfolding(crate::specs::inside::Reading::set_at))]
fn set_parts(bytes: &[u8]) -> Option<(u32, &[u8])>
    ensures read { ReadsPart (λ set. op.Set set.0 set.1.now) result (set_at bytes.now) }
    ensures long { IfSome result (λ set. IsLong set.1.now) }
{
    let (id, rest) = number_of(bytes)?;
    let input = last_long_of(rest)?;
    Some((id, input))
}

/// The number and the input of a Set, where these bytes are its payload.
pub(crate) fn set_in(bytes: &[u8]) -> Option<(u32, &[u8])>
    ensures { IfSome result (λ set. IsPayloadOf (op.Set set.0 set.1.now) bytes.now) }
{
    let [3, rest @ ..] = bytes else {
        return None;
    };
    set_parts(rest)
}

fn set_of(alloc: Global, bytes: &[u8]) -> Result<Op, DecodeFault>
    ensures read { ReadsOrFails (λ op. op) result (set_at bytes.now) }
    ensures fits { IfOk result HasCode }
{
    let (id, input) = set_parts(bytes).ok_or(DecodeFault::Unreadable)?;
    let input = Octets::from_slice(alloc, input)?;
    Ok(Op::Set { id, input })
}

#[tactic(auto, unfolding(crate::specs::inside::Reading::remove_at))]
fn remove_of(bytes: &[u8]) -> Result<Op, DecodeFault>
    ensures read { ReadsOrFails (λ op. op) result (remove_at bytes.now) }
    ensures fits { IfOk result HasCode }
{
    let id = last_number_of(bytes).ok_or(DecodeFault::Unreadable)?;
    Ok(Op::Remove { id })
}

#[tactic(auto, unfolding(crate::specs::inside::Reading::move_at))]
fn move_of(bytes: &[u8]) -> Result<Op, DecodeFault>
    ensures read { ReadsOrFails (λ op. op) result (move_at bytes.now) }
    ensures fits { IfOk result HasCode }
{
    let (id, rest) = number_of(bytes).ok_or(DecodeFault::Unreadable)?;
    let after = last_number_of(rest).ok_or(DecodeFault::Unreadable)?;
    Ok(Op::Move { id, after })
}

#[tactic(auto, unfolding(crate::specs::inside::Reading::clear_at))]
fn clear_of(bytes: &[u8]) -> Result<Op, DecodeFault>
    ensures read { ReadsOrFails (λ op. op) result (clear_at bytes.now) }
    ensures fits { IfOk result HasCode }
{
    let id = last_number_of(bytes).ok_or(DecodeFault::Unreadable)?;
    Ok(Op::Clear { id })
}

#[tactic(auto, unfolding(crate::specs::inside::Reading::lost_at))]
fn lost_of(bytes: &[u8]) -> Result<Op, DecodeFault>
    ensures read { ReadsOrFails (λ op. op) result (lost_at bytes.now) }
    ensures fits { IfOk result HasCode }
{
    let (id, rest) = number_of(bytes).ok_or(DecodeFault::Unreadable)?;
    let reason = reason_of(rest).ok_or(DecodeFault::Unreadable)?;
    Ok(Op::Lost { id, reason })
}

#[tactic(auto, unfolding(crate::specs::inside::Reading::ids_at))]
fn ids_of(bytes: &[u8]) -> Result<Op, DecodeFault>
    ensures read { ReadsOrFails (λ op. op) result (ids_at bytes.now) }
    ensures fits { IfOk result HasCode }
{
    let next = last_number_of(bytes).ok_or(DecodeFault::Unreadable)?;
    Ok(Op::Ids { next })
}

#[tactic(auto, unfolding(crate::specs::inside::Reading::asked_at))]
pub(crate) fn asked_of(bytes: &[u8]) -> Result<(u32, &[u8], &[u8]), DecodeFault>
    ensures read { ReadsOrFails (λ x. ((x.0, x.1.now), x.2.now)) result (asked_at bytes.now) }
    ensures fits { IfOk result (λ x. IsLong x.1.now) }
{
    let (id, rest) = number_of(bytes).ok_or(DecodeFault::Unreadable)?;
    let (prompt, rest) = long_of(rest).ok_or(DecodeFault::Unreadable)?;
    Ok((id, prompt, rest))
}

fn answer_of(alloc: Global, bytes: &[u8]) -> Result<Op, DecodeFault>
    ensures read { (o : Op) → IsPayloadOf o (7 ∷ bytes.now) → FindsOp o result }
    ensures fits { IfOk result HasCode }
{
    let (id, prompt, rest) = asked_of(bytes)?;
    let prompt = Octets::from_slice(alloc, prompt)?;
    match read_block(alloc, rest) {
        Ok(output) => Ok(Op::Answer { id, prompt, output }),
        Err(ReadFault::NotABlock) => Err(DecodeFault::Unreadable),
        Err(ReadFault::OutOfMemory) => Err(DecodeFault::OutOfMemory),
    }
}

// What was read from these bytes, where they are its payload: only where it is written so.
fn as_written(alloc: Global, read: Result<Op, DecodeFault>, bytes: &[u8]) -> Result<Op, DecodeFault>
    requires { IfOk read HasCode }
    ensures op { IfOk result (λ op. IsPayloadOf op bytes.now) }
    ensures unreadable { ((o : Op) → IsPayloadOf o bytes.now → FindsOp o read)
        → IsErrOf result DecodeFault.Unreadable → (op : Op) → IsPayloadOf op bytes.now → ⊥ }
{
    let op = read?;
    let payload = encode_within(alloc, &op, bytes.len())?;
    if payload.as_slice() != bytes {
        return Err(DecodeFault::Unreadable);
    }
    Ok(op)
}

// The answer whose payload these bytes are; `rest` is what follows the first of them.
fn answer_in(alloc: Global, rest: &[u8], bytes: &[u8]) -> Result<Op, DecodeFault>
    requires { bytes.now ≡ 7 ∷ rest.now }
    ensures op { IfOk result (λ op. IsPayloadOf op bytes.now) }
    ensures unreadable { IsErrOf result DecodeFault.Unreadable
        → (op : Op) → IsPayloadOf op bytes.now → ⊥ }
{
    if let Some(op) = plain_answer_of(alloc, rest)? {
        return Ok(op);
    }
    as_written(alloc, answer_of(alloc, rest), bytes)
}

/// The op of a payload (docs/trust/FORMAT.md, "Payloads"). An op has one payload: other bytes are
/// `Unreadable`, also where bytes are left over, or an output is a block in another spelling.
pub fn decode(alloc: Global, bytes: &[u8]) -> Result<Op, DecodeFault>
    ensures op { IfOk result (λ op. IsPayloadOf op bytes.now) }
    ensures unreadable { IsErrOf result DecodeFault.Unreadable
        → (op : Op) → IsPayloadOf op bytes.now → ⊥ }
{
    let [kind, rest @ ..] = bytes else {
        return Err(DecodeFault::Unreadable);
    };
    // A session and an answer are also read from bytes in which they aren't written so.
    match *kind {
        1 => as_written(alloc, session_of(alloc, rest), bytes),
        2 => new_of(alloc, rest),
        3 => set_of(alloc, rest),
        4 => remove_of(rest),
        5 => move_of(rest),
        6 => clear_of(rest),
        7 => answer_in(alloc, rest, bytes),
        8 => lost_of(rest),
        9 => ids_of(rest),
        _ => Err(DecodeFault::Unreadable),
    }
}
