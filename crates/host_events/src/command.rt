//! What a user asks of the host (docs/dev/HOST.md, "Events").
ghost use Rattle.std.specs.Prelude.{◌≡◌};

use block_tree::{Octets, Sequence};
use worksheet::Op;

/// A command. The first six change the worksheet as their ops do. An `id` or `after` is the number of
/// a field.
#[derive(Debug, Drop)]
pub enum Command {
    /// A new session, which is started with these words, its program first. `tab` says that its
    /// interpreter answers completion requests.
    Session {
        name: Octets,
        tab: bool,
        words: Sequence<Octets>,
    },
    /// A new field directly after the field `after`, or first where that is 0.
    New {
        after: u32,
        session: Octets,
        input: Octets,
    },
    /// Another input for a field. Its answer is taken away, or the reason why it has none.
    Set {
        id: u32,
        input: Octets,
    },
    /// A field goes. Its number isn't given out again.
    Remove {
        id: u32,
    },
    /// A field goes directly after the field `after`, or to the front where that is 0.
    Move {
        id: u32,
        after: u32,
    },
    /// The answer of a field is taken away, or the reason why it has none.
    Clear {
        id: u32,
    },
    /// The input of a field is sent to the interpreter of its session, which is started where it
    /// isn't running. The field's answer is taken away, or the reason why it has none.
    Eval {
        id: u32,
    },
    /// The interpreter of a field's session is asked what can stand at a cursor in its input; it is
    /// started where it isn't running. The cursor is the number of bytes before it. The worksheet stays
    /// as it is, and so does the request, whatever becomes of the field.
    Complete {
        id: u32,
        cursor: u32,
    },
    /// The interpreter of a field's session is asked what can stand at a cursor in this text, as by a
    /// Complete: the text stands in the place of the field's input. The worksheet stays as it is.
    CompleteText {
        id: u32,
        cursor: u32,
        text: Octets,
    },
    /// The interpreter of a session is stopped, and the items that wait in it are lost. The name may be
    /// any bytes.
    Stop {
        name: Octets,
    },
    /// The journal is rewritten into the area that isn't active, with the ops that make the same
    /// worksheet. Neither the worksheet nor the interpreters change.
    Checkpoint,
}

impl Command {
    ghost use Rattle.host_events.specs.Commands.{op_of};

    /// The op of a command that only changes the worksheet. An Eval, a Complete, a CompleteText, a
    /// Stop and a Checkpoint have none.
    pub fn into_op(self) -> Option<Op>
        ensures { result ≡ op_of self }
    {
        match self {
            Command::Session { name, tab, words } => Some(Op::Session { name, tab, words }),
            Command::New {
                after,
                session,
                input,
            } => Some(Op::New {
                after,
                session,
                input,
            }),
            Command::Set { id, input } => Some(Op::Set { id, input }),
            Command::Remove { id } => Some(Op::Remove { id }),
            Command::Move { id, after } => Some(Op::Move { id, after }),
            Command::Clear { id } => Some(Op::Clear { id }),
            Command::Eval { .. }
            | Command::Complete { .. }
            | Command::CompleteText { .. }
            | Command::Stop { .. }
            | Command::Checkpoint => None,
        }
    }
}
