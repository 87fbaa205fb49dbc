//! Ops as payloads.
ghost use Rattle.std.specs.Prelude.{◌≡◌, ◌++◌, ◌<◌, ◌≤◌, ◌+◌, length, min, true, OnErr, OnOk, IfOk, vec_capacity, vec_len};
ghost use Rattle.std.specs.List.{flat_map, AllByRecursion};
ghost use Rattle.block_tree.specs.Shape.{is_block};
ghost use Rattle.block_tree.specs.View.{tree_of};
ghost use Rattle.block_tree.specs.Reasons.{reason_number};
ghost use Rattle.meta_format.specs.Canonical.{canonical, escape};
ghost use Rattle.worksheet.specs.declared.op.Op.TheVariants as op;
ghost use Rattle.recovery.specs.Code.{code_of, longest_reported, short, long, HasCode, IsShort, IsLong, IsTyped};
ghost use Rattle.recovery.specs.inside.Measured.{HasRecord};

use crate::runs::{is_special, split_plain};
use block_tree::{Block, Item, Node, Octets, OutOfMemory, Reason};
use journal::Frame;
use std::alloc::Global;
use worksheet::Op;

#[tactic(auto, using(crate::proofs::Sizes::size_rules))]
fn put_short(bytes: &[u8], out: &mut Vec<u8>) -> Result<(), OutOfMemory>
    requires { IsShort bytes.now }
    ensures code { OnOk result (out.new.items ≡ out.old.items ++ short bytes.now) }
    ensures room { OnErr result (vec_capacity out.old < vec_len out.old + length
        (short bytes.now)) }
    ensures capacity { vec_capacity out.old ≤ vec_capacity out.new }
{
    out.push(bytes.len() as u8)?;
    out.extend_from_slice(bytes)?;
    Ok(())
}

#[tactic(auto, using(crate::proofs::Sizes::size_rules))]
fn put_long(bytes: &[u8], out: &mut Vec<u8>) -> Result<(), OutOfMemory>
    requires { IsLong bytes.now }
    ensures code { OnOk result (out.new.items ≡ out.old.items ++ long bytes.now) }
    ensures room { OnErr result (vec_capacity out.old < vec_len out.old + length (long bytes.now)) }
    ensures capacity { vec_capacity out.old ≤ vec_capacity out.new }
{
    out.extend_from_slice(&(bytes.len() as u16).to_be_bytes())?;
    out.extend_from_slice(bytes)?;
    Ok(())
}

#[tactic(auto, using(crate::proofs::Sizes::size_rules))]
fn put_words(words: &[Octets], out: &mut Vec<u8>) -> Result<(), OutOfMemory>
    requires { AllByRecursion IsLong words.now }
    ensures code { OnOk result (out.new.items ≡ out.old.items ++ flat_map long words.now) }
    ensures room { OnErr result (vec_capacity out.old < vec_len out.old + length
        (flat_map long words.now)) }
    ensures capacity { vec_capacity out.old ≤ vec_capacity out.new }
{
    for word in words {
        put_long(word.as_slice(), out)?;
    }
    Ok(())
}

// A byte of a text.
fn put_byte(byte: u8, out: &mut Vec<u8>) -> Result<(), OutOfMemory>
    ensures code { OnOk result (out.new.items ≡ out.old.items ++ escape byte) }
    ensures room { OnErr result (vec_capacity out.old < vec_len out.old + length (escape byte)) }
    ensures capacity { vec_capacity out.old ≤ vec_capacity out.new }
{
    if is_special(byte) {
        out.push(27)?;
    }
    out.push(byte)?;
    Ok(())
}

#[tactic(auto, using(crate::proofs::PlainRuns::text_rules))]
fn put_text(text: &[u8], out: &mut Vec<u8>) -> Result<(), OutOfMemory>
    ensures code { OnOk result (out.new.items ≡ out.old.items ++ flat_map escape text.now) }
    ensures room { OnErr result (vec_capacity out.old < vec_len out.old + length
        (flat_map escape text.now)) }
    ensures capacity { vec_capacity out.old ≤ vec_capacity out.new }
{
    let mut rest = text;
    while !rest.is_empty() {
        let (plain, following) = split_plain(rest);
        out.extend_from_slice(plain)?;
        rest = following;
        if let [byte, more @ ..] = following {
            put_byte(*byte, out)?;
            rest = more;
        }
    }
    Ok(())
}

#[tactic(auto, using(crate::proofs::PlainRuns::node_rules))]
fn put_node(node: &Node, out: &mut Vec<u8>) -> Result<(), OutOfMemory>
    ensures code { OnOk result (out.new.items ≡ out.old.items ++ canonical (tree_of node.now)) }
    ensures room { OnErr result (vec_capacity out.old < vec_len out.old + length
        (canonical (tree_of node.now))) }
    ensures capacity { vec_capacity out.old ≤ vec_capacity out.new }
{
    out.push(2)?;
    out.extend_from_slice(node.tag.name.as_slice())?;
    out.push(if node.tag.channel { b'#' } else { b':' })?;
    for item in &node.items {
        match item {
            Item::Text(text) => put_text(text.as_slice(), out)?,
            Item::Block(inner) => put_node(inner, out)?,
        }
    }
    out.push(5)?;
    Ok(())
}

fn number_of(reason: Reason) -> u8
    ensures { result ≡ reason_number reason }
{
    match reason {
        Reason::StartRefused => 1,
        Reason::Ended => 2,
        Reason::ReadFault => 3,
        Reason::SendFault => 4,
        Reason::Stalled => 5,
        Reason::BadTag => 6,
        Reason::TooDeep => 7,
        Reason::TooLong => 8,
        Reason::Stopped => 9,
    }
}

/// The payload of the op that makes a session, after other bytes.
#[tactic(auto, using(crate::proofs::Sizes::size_rules))]
pub(crate) fn put_session(
    name: &[u8],
    tab: bool,
    words: &[Octets],
    out: &mut Vec<u8>,
) -> Result<(), OutOfMemory>
    requires { HasCode (op.Session name.now tab words.now) }
    ensures code { OnOk result
        (out.new.items ≡ out.old.items ++ code_of (op.Session name.now tab words.now)) }
    ensures room { OnErr result (vec_capacity out.old < vec_len out.old + length
        (code_of (op.Session name.now tab words.now))) }
    ensures capacity { vec_capacity out.old ≤ vec_capacity out.new }
{
    out.push(1)?;
    put_short(name, out)?;
    out.push(u8::from(tab))?;
    out.push(words.len() as u8)?;
    put_words(words, out)
}

/// That of the op that makes a field.
#[tactic(auto, using(crate::proofs::Sizes::size_rules))]
pub(crate) fn put_new(
    after: u32,
    session: &[u8],
    input: &[u8],
    out: &mut Vec<u8>,
) -> Result<(), OutOfMemory>
    requires { HasCode (op.New after session.now input.now) }
    ensures code { OnOk result
        (out.new.items ≡ out.old.items ++ code_of (op.New after session.now input.now)) }
    ensures room { OnErr result (vec_capacity out.old < vec_len out.old + length
        (code_of (op.New after session.now input.now))) }
    ensures capacity { vec_capacity out.old ≤ vec_capacity out.new }
{
    out.push(2)?;
    out.extend_from_slice(&after.to_be_bytes())?;
    put_short(session, out)?;
    put_long(input, out)
}

/// That of the op that gives a field an answer.
#[tactic(auto, using(crate::proofs::Sizes::size_rules))]
pub(crate) fn put_answer(
    id: u32,
    prompt: &[u8],
    output: &Block,
    out: &mut Vec<u8>,
) -> Result<(), OutOfMemory>
    requires { HasCode (op.Answer id prompt.now output.now) }
    ensures code { OnOk result
        (out.new.items ≡ out.old.items ++ code_of (op.Answer id prompt.now output.now)) }
    ensures right { OnOk result (is_block output.now ≡ true) }
    ensures room { OnErr result (vec_capacity out.old < vec_len out.old + length
        (code_of (op.Answer id prompt.now output.now))) }
    ensures capacity { vec_capacity out.old ≤ vec_capacity out.new }
{
    out.push(7)?;
    out.extend_from_slice(&id.to_be_bytes())?;
    put_long(prompt, out)?;
    put_node(output.node(), out)
}

/// That of the op that says why a field has no answer.
pub(crate) fn put_lost(id: u32, reason: Reason, out: &mut Vec<u8>) -> Result<(), OutOfMemory>
    ensures code { OnOk result (out.new.items ≡ out.old.items ++ code_of (op.Lost id reason)) }
    ensures room { OnErr result (vec_capacity out.old < vec_len out.old + length
        (code_of (op.Lost id reason))) }
    ensures capacity { vec_capacity out.old ≤ vec_capacity out.new }
{
    out.push(8)?;
    out.extend_from_slice(&id.to_be_bytes())?;
    out.push(number_of(reason))?;
    Ok(())
}

/// That of the op that names the next number.
pub(crate) fn put_ids(next: u32, out: &mut Vec<u8>) -> Result<(), OutOfMemory>
    ensures code { OnOk result (out.new.items ≡ out.old.items ++ code_of (op.Ids next)) }
    ensures room { OnErr result (vec_capacity out.old < vec_len out.old + length
        (code_of (op.Ids next))) }
    ensures capacity { vec_capacity out.old ≤ vec_capacity out.new }
{
    out.push(9)?;
    out.extend_from_slice(&next.to_be_bytes())?;
    Ok(())
}

fn put_op(op: &Op, out: &mut Vec<u8>) -> Result<(), OutOfMemory>
    requires { HasCode op.now }
    ensures code { OnOk result (out.new.items ≡ out.old.items ++ code_of op.now) }
    ensures typed { OnOk result (IsTyped op.now) }
{
    match op {
        Op::Session { name, tab, words } => {
            put_session(name.as_slice(), *tab, words.as_slice(), out)
        }
        Op::New {
            after,
            session,
            input,
        } => put_new(*after, session.as_slice(), input.as_slice(), out),
        Op::Set { id, input } => {
            out.push(3)?;
            out.extend_from_slice(&id.to_be_bytes())?;
            put_long(input.as_slice(), out)
        }
        Op::Remove { id } => {
            out.push(4)?;
            out.extend_from_slice(&id.to_be_bytes())
        }
        Op::Move { id, after } => {
            out.push(5)?;
            out.extend_from_slice(&id.to_be_bytes())?;
            out.extend_from_slice(&after.to_be_bytes())
        }
        Op::Clear { id } => {
            out.push(6)?;
            out.extend_from_slice(&id.to_be_bytes())
        }
        Op::Answer { id, prompt, output } => put_answer(*id, prompt.as_slice(), output, out),
        Op::Lost { id, reason } => put_lost(*id, *reason, out),
        Op::Ids { next } => put_ids(*next, out),
    }
}

/// The payload of an op (docs/trust/FORMAT.md, "Payloads").
///
/// Each length in it must fit its field: those of a session's name and of its list of words one byte,
/// those of a word, an input and a prompt two. So it is with each op that the worksheet allows, by the
/// law `allowed_have_code`. `OutOfMemory` is answered where a growth was refused.
pub fn encode(alloc: Global, op: &Op) -> Result<Vec<u8>, OutOfMemory>
    requires { HasCode op.now }
    ensures code { IfOk result (λ payload. payload.items ≡ code_of op.now) }

    // An op in memory has numbers of four bytes and a block, so the payload is read as this op again.
    ensures typed { IfOk result (λ payload. IsTyped op.now) }
{
    encode_within(alloc, op, 0)
}

/// The same, where memory for so many bytes is taken at once.
pub(crate) fn encode_within(alloc: Global, op: &Op, len: usize) -> Result<Vec<u8>, OutOfMemory>
    requires { HasCode op.now }
    ensures code { IfOk result (λ payload. payload.items ≡ code_of op.now) }
    ensures typed { IfOk result (λ payload. IsTyped op.now) }
{
    let mut payload = Vec::with_capacity(alloc, len)?;
    put_op(op, &mut payload)?;
    Ok(payload)
}

/// The frame of an op whose payload a record may have, and has this length as `code_len` tells it. The
/// payload is written into it once.
pub(crate) fn frame_of(alloc: Global, op: &Op, len: u64) -> Result<Frame, OutOfMemory>
    requires record { HasRecord op.now }
    requires len { len ≡ min (length (code_of op.now)) longest_reported }
    ensures code { IfOk result (λ frame. frame ≡ code_of op.now) }
    ensures typed { IfOk result (λ frame. IsTyped op.now) }
{
    let mut bytes = Frame::begin(alloc, len)?;
    put_op(op, &mut bytes)?;
    Frame::closed(bytes)
}
