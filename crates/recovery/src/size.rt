//! The length of a payload, counted without making it.
ghost use Rattle.std.specs.Prelude.{◌≡◌, ◌+◌, ◌≤◌, min, length};
ghost use Rattle.std.specs.List.{flat_map};
ghost use Rattle.block_tree.specs.View.{tree_of};
ghost use Rattle.meta_format.specs.Canonical.{escape, canonical};
ghost use Rattle.worksheet.specs.declared.op.Op.TheVariants as op;
ghost use Rattle.worksheet.specs.Rewrite.{session_op};
ghost use Rattle.recovery.specs.Code.{code_of, long, longest_reported, HasCode};

use crate::runs::{is_special, split_plain};
use block_tree::{Item, Node, Octets};
use worksheet::{Answer, Field, Op, Session};

// The greatest length that `code_len` tells, in bytes.
const LONGEST_REPORTED: u64 = 4_294_967_295;

/// The bytes of the payload of an Ids.
pub(crate) const IDS_LEN: u64 = 5;

/// The bytes of the payload of a Lost.
pub(crate) const LOST_LEN: u64 = 6;

// A length with so many bytes more, up to the greatest that is returned.
fn longer(len: u64, more: u64) -> u64
    requires { len ≤ longest_reported }
    ensures { result ≡ min (len + more) longest_reported }
{
    if more < LONGEST_REPORTED - len {
        len + more
    } else {
        LONGEST_REPORTED
    }
}

#[tactic(auto, using(crate::proofs::Sizes::size_rules))]
fn with_text(before: u64, text: &[u8]) -> u64
    requires { before ≤ longest_reported }
    ensures { result ≡ min (before + length (flat_map escape text.now)) longest_reported }
{
    let mut len = before;
    let mut rest = text;
    while !rest.is_empty() {
        let (plain, following) = split_plain(rest);
        len = longer(len, plain.len() as u64);
        rest = following;
        if let [byte, more @ ..] = following {
            len = longer(len, if is_special(*byte) { 2 } else { 1 });
            rest = more;
        }
    }
    len
}

#[tactic(auto, using(crate::proofs::Sizes::size_rules))]
fn with_node(before: u64, node: &Node) -> u64
    requires { before ≤ longest_reported }
    ensures { result ≡ min (before + length (canonical (tree_of node.now))) longest_reported }
{
    // Around the name and the items stand the two ends of the block and the separator.
    let mut len = longer(longer(before, 3), node.tag.name.as_slice().len() as u64);
    for item in &node.items {
        match item {
            Item::Text(text) => len = with_text(len, text.as_slice()),
            Item::Block(inner) => len = with_node(len, inner),
        }
    }
    len
}

#[tactic(auto, using(crate::proofs::Sizes::size_rules))]
fn with_words(before: u64, words: &[Octets]) -> u64
    requires { before ≤ longest_reported }
    ensures { result ≡ min (before + length (flat_map long words.now)) longest_reported }
{
    let mut len = before;
    for word in words {
        len = longer(longer(len, 2), word.as_slice().len() as u64);
    }
    len
}

/// The length of an op's payload in bytes, or 4,294,967,295 where it is longer. It takes no memory.
/// Of the op is asked what `encode` asks: that each length in the payload fits its field.
#[tactic(auto, using(crate::proofs::Sizes::size_rules))]
pub fn code_len(op: &Op) -> u64
    requires { HasCode op.now }
    ensures { result ≡ min (length (code_of op.now)) longest_reported }
{
    match op {
        Op::Session {
            name,
            tab: _,
            words,
        } => { with_words(name.as_slice().len() as u64 + 4, words.as_slice()) }
        Op::New {
            after: _,
            session,
            input,
        } => { 8 + session.as_slice().len() as u64 + input.as_slice().len() as u64 }
        Op::Set { id: _, input } => 7 + input.as_slice().len() as u64,
        Op::Remove { id: _ } | Op::Clear { id: _ } | Op::Ids { next: _ } => 5,
        Op::Move { id: _, after: _ } => 9,
        Op::Answer {
            id: _,
            prompt,
            output,
        } => with_node(7 + prompt.as_slice().len() as u64, output.node()),
        Op::Lost { id: _, reason: _ } => 6,
    }
}

/// The length of the payload of the op that makes a session, in bytes.
#[tactic(auto, using(crate::proofs::Sizes::size_rules))]
pub(crate) fn session_len(session: &Session) -> u64
    requires { HasCode (session_op session.now) }
    ensures { result ≡ min (length (code_of (session_op session.now))) longest_reported }
{
    with_words(
        session.name.as_slice().len() as u64 + 4,
        session.words.as_slice(),
    )
}

/// The length of the payload of the op that makes a field, in bytes.
#[tactic(auto, using(crate::proofs::Sizes::size_rules))]
pub(crate) fn new_len(after: u32, field: &Field) -> u64
    requires { HasCode (op.New after field.now.session field.now.input) }
    ensures { result
        ≡ min (length (code_of (op.New after field.now.session field.now.input))) longest_reported }
{
    8 + field.session.as_slice().len() as u64 + field.input.as_bytes().len() as u64
}

/// The length of the payload of the op that gives a field this answer, in bytes, or 4,294,967,295
/// where it is longer.
#[tactic(auto, using(crate::proofs::Sizes::size_rules))]
pub(crate) fn answer_len(id: u32, answer: &Answer) -> u64
    requires { HasCode (op.Answer id answer.now.prompt answer.now.output) }
    ensures { result
        ≡ min (length (code_of (op.Answer id answer.now.prompt answer.now.output)))
        longest_reported }
{
    with_node(
        7 + answer.prompt.as_slice().len() as u64,
        answer.output.node(),
    )
}
