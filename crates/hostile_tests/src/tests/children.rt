//! What a scripted child gives, in short.
use block_tree::Queue;
use child_calls::{Got, Part, PieceBytes, Scripted};
use std::alloc::Global;
use worksheet::Name;

fn piece(alloc: Global, bytes: &[u8]) -> Option<Got> {
    if bytes.is_empty() || bytes.len() > 65_536 {
        return None;
    }
    let bytes = Vec::from_slice(alloc, bytes).ok()?;
    Some(Got::Piece(PieceBytes::from_vec(bytes)))
}

fn answers(alloc: Global) -> Option<Queue<Got>> {
    let mut receives = Queue::new(alloc);
    receives.push(piece(alloc, b"\x02verbatim:\x05")?).ok()?;
    receives.push(piece(alloc, b"\x02verbatim:A\x05")?).ok()?;
    receives.push(Got::End).ok()?;
    Some(receives)
}

fn fault(alloc: Global) -> Option<Queue<Got>> {
    let mut receives = Queue::new(alloc);
    receives.push(Got::Fault).ok()?;
    Some(receives)
}

// The first life of session `a`, which takes each line that it is sent.
fn life(alloc: Global, receives: Queue<Got>, stop: bool) -> Option<Part> {
    Some(Part {
        name: Name::new(b"a")?,
        life: 1,
        start: true,
        sends: Queue::new(alloc),
        receives,
        interrupt: true,
        stop,
    })
}

fn only(alloc: Global, part: Part) -> Option<Scripted> {
    let mut parts = Vec::new(alloc);
    parts.push(part).ok()?;
    Some(Scripted::new(alloc, parts))
}

/// Children without a life.
pub fn none(alloc: Global) -> Scripted {
    Scripted::new(alloc, Vec::new(alloc))
}

/// A child that gives its banner, the answer `A` to its line, and its end.
pub fn answering(alloc: Global) -> Option<Scripted> {
    only(alloc, life(alloc, answers(alloc)?, true)?)
}

/// One of which nothing can be read, and which can't be stopped.
pub fn unreadable(alloc: Global) -> Option<Scripted> {
    only(alloc, life(alloc, fault(alloc)?, false)?)
}
