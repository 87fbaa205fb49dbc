//! Ops of session a, in words: `session NAME WORD|WORD`, `new AFTER INPUT`, `set ID INPUT`, `remove ID`,
//! `move ID AFTER`, `answer ID PROMPT`, `ended ID` and `stopped ID`.
use block_tree::{Block, Item, Node, Octets, Reason, Sequence, Tag, TagName};
use std::alloc::Global;
use worksheet::Op;

fn octets(alloc: Global, text: &str) -> Option<Octets> {
    Octets::from_slice(alloc, text.as_bytes()).ok()
}

fn number(text: &str) -> Option<u32> {
    text.parse::<u32>().ok()
}

fn parts(text: &str) -> Option<(u32, &str)> {
    let (id, rest) = text.split_once(' ')?;
    Some((number(id)?, rest))
}

fn all_octets(alloc: Global, words: &str) -> Option<Vec<Octets>> {
    let mut all = Vec::new(alloc);
    if !words.is_empty() {
        for word in words.split('|') {
            all.push(octets(alloc, word)?).ok()?;
        }
    }
    Some(all)
}

/// A plain session of this name with these words.
pub fn session(alloc: Global, name: &str, words: &str) -> Option<Op> {
    let words = all_octets(alloc, words)?;
    Some(Op::Session {
        name: octets(alloc, name)?,
        tab: false,
        words: Sequence::from_vec(words),
    })
}

/// A field of session a after this one, with this input.
pub fn new(alloc: Global, after: u32, input: &str) -> Option<Op> {
    let session = octets(alloc, "a")?;
    Some(Op::New {
        after,
        session,
        input: octets(alloc, input)?,
    })
}

fn set(alloc: Global, id: u32, input: &str) -> Option<Op> {
    Some(Op::Set {
        id,
        input: octets(alloc, input)?,
    })
}

fn text_items(alloc: Global) -> Option<Vec<Item>> {
    let mut items = Vec::new(alloc);
    items.push(Item::Text(octets(alloc, "A")?)).ok()?;
    Some(items)
}

/// `verbatim:A`
pub fn block(alloc: Global) -> Option<Block> {
    let items = text_items(alloc)?;
    let name = TagName::from_slice(alloc, b"verbatim").ok()?;
    let tag = Tag {
        channel: false,
        name,
    };
    Block::new(Node { tag, items }).ok()
}

/// The answer `verbatim:A` to a field, under this prompt.
pub fn answer(alloc: Global, id: u32, prompt: &str) -> Option<Op> {
    let prompt = octets(alloc, prompt)?;
    Some(Op::Answer {
        id,
        prompt,
        output: block(alloc)?,
    })
}

fn of_parts(alloc: Global, verb: &str, id: u32, text: &str) -> Option<Op> {
    match verb {
        "new" => new(alloc, id, text),
        "set" => set(alloc, id, text),
        "answer" => answer(alloc, id, text),
        "move" => Some(Op::Move {
            id,
            after: number(text)?,
        }),
        _ => None,
    }
}

fn of_number(verb: &str, id: u32) -> Option<Op> {
    match verb {
        "remove" => Some(Op::Remove { id }),
        "ended" => Some(Op::Lost {
            id,
            reason: Reason::Ended,
        }),
        "stopped" => Some(Op::Lost {
            id,
            reason: Reason::Stopped,
        }),
        _ => None,
    }
}

fn of_words(alloc: Global, verb: &str, rest: &str) -> Option<Op> {
    match parts(rest) {
        Some((id, text)) => of_parts(alloc, verb, id, text),
        None => of_number(verb, number(rest)?),
    }
}

fn named(alloc: Global, rest: &str) -> Option<Op> {
    let (name, words) = rest.split_once(' ')?;
    session(alloc, name, words)
}

/// The op of these words.
pub fn op(alloc: Global, words: &str) -> Option<Op> {
    let (verb, rest) = words.split_once(' ')?;
    if verb == "session" {
        named(alloc, rest)
    } else {
        of_words(alloc, verb, rest)
    }
}
