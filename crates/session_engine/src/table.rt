//! The lives of a host, by the names of their sessions.
ghost use Rattle.std.specs.Prelude.{◌≡◌, ◌<◌, IfSome, List, vec_len, if◌then◌else◌};
ghost use Rattle.session_engine.specs.Named.{place_from, without_named};
ghost use Rattle.session_engine.specs.Host.{name_of, life_in};
ghost use Rattle.session_engine.specs.inside.Tables.{has_number, TakesOut, FeedsIf, GoesOnAt};
ghost use Rattle.session_engine.specs.Host.{Lives};
ghost use Rattle.session_engine.specs.Named.{first_named};
ghost use Rattle.session_engine.specs.World.{Going};
ghost use Rattle.session_engine.specs.inside.Tables.{line_in, waits_at};

use block_tree::OutOfMemory;
use plugin_core::{Life, Step};
use worksheet::Name;

/// A life that goes on, and the session that it is of. A `World` has it as a `Going`, callers of the host as a
/// `LifeView`; a `Seat` is its session and number alone.
#[derive(Drop)]
pub(crate) struct Running {
    pub(crate) name: Name,
    pub(crate) life: Life,
}

/// Where the life of this session is.
pub(crate) fn place_of(lives: &Vec<Running>, name: Name) -> Option<usize>
    ensures found { result ≡ place_from name_of name 0 lives.now.items }
    ensures within { IfSome result (λ place. place < vec_len lives.now) }
{
    for i in 0..lives.len() {
        if lives[i].name == name {
            return Some(i);
        }
    }
    None
}

/// Whether the life of this session goes on and has this number.
pub(crate) fn has_life(lives: &Vec<Running>, name: Name, number: u32) -> bool
    ensures { result ≡ has_number number (life_in lives.now.items name) }
{
    match place_of(lives, name) {
        Some(place) => lives[place].life.number() == number,
        None => false,
    }
}

/// Takes the life of this session out.
pub(crate) fn remove_life(lives: &mut Vec<Running>, name: Name) -> Option<Running>
    ensures { TakesOut name lives.old.items lives.new.items result }
{
    match place_of(lives, name) {
        Some(place) => Some(lives.remove(place)),
        None => None,
    }
}

/// Gives a piece to the life of this session, if it has this number.
pub(crate) fn feed(
    lives: &mut Vec<Running>,
    name: Name,
    number: u32,
    piece: &[u8],
) -> Option<Result<Step, OutOfMemory>>
    requires { GoesOnAt lives.old.items name }
    ensures { FeedsIf name number piece.now lives.old.items lives.new.items result }
{
    let Some(place) = place_of(lives, name) else {
        return None;
    };
    if lives[place].life.number() != number {
        return None;
    }
    let running = &mut lives[place];
    Some(running.life.piece(piece))
}

/// Takes the life of this session out, where it is over.
pub(crate) fn settle(lives: &mut Vec<Running>, name: Name, over: bool)
    ensures { lives.new.items
        ≡ (if over then without_named name_of name lives.old.items else lives.old.items) }
{
    if over {
        let _ = remove_life(lives, name);
    }
}

/// The field of the first item that waits in the life of this session, where that is a line.
pub(crate) fn first_line(lives: &Vec<Running>, name: Name) -> Option<u32>
    ensures { (ls : List Going) → Lives lives.now.items ls
        → result ≡ line_in (first_named (λ l. l.name) name ls) }
{
    match place_of(lives, name) {
        Some(place) => lives[place].life.first_line(),
        None => None,
    }
}

/// Whether the line of this field waits in the life of this session.
pub(crate) fn waits_of(lives: &Vec<Running>, name: Name, id: u32) -> bool
    ensures { (ls : List Going) → Lives lives.now.items ls
        → result ≡ waits_at id (first_named (λ l. l.name) name ls) }
{
    match place_of(lives, name) {
        Some(place) => lives[place].life.waits_for(id),
        None => false,
    }
}
