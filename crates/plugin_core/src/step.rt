//! What a life tells.
ghost use Rattle.std.specs.Prelude.{◌≡◌, None};

use crate::Item;
pub use block_tree::Reason;
use block_tree::{Block, Octets, Queue};
use scheme_text::{BadCompletion, Completions};

/// What an outer block answers.
#[derive(Drop)]
pub enum Answered {
    /// The banner, which is the first block of an interpreter: the output of this block.
    Banner(Block),
    /// The answer to a line: the number of its field, the prompt that the line had, and the output.
    Line {
        id: u32,
        prompt: Octets,
        output: Block,
    },
    /// The answer to a request of completions: the number of its field, and what the output tells.
    Complete {
        id: u32,
        result: Result<Completions, BadCompletion>,
    },
}

/// The end of a life. (docs/use/PROTOCOL.md, how a life ends.)
#[derive(Drop)]
pub struct Ended {
    /// The fault of its stream, or the reason that `finish` was given.
    pub reason: Reason,
    /// The items without an answer, in order.
    pub lost: Queue<Item>,
}

/// What a piece of an interpreter's output gives.
#[derive(Drop)]
pub struct Step {
    /// The answer that it closes.
    pub answered: Option<Answered>,
    /// The default input of that answer, for the next line.
    pub default_input: Option<Octets>,
    /// The bytes that are to be sent now.
    pub send: Option<Octets>,
    /// The end of the life, at a fault of its stream.
    pub ended: Option<Ended>,
}

impl Step {
    /// What a piece gives that closes no answer and brings no fault.
    pub(crate) fn nothing() -> Step
        ensures { result ≡ record {
          answered = None;
          default_input = None;
          send = None;
          ended = None;
        } }
    {
        Step {
            answered: None,
            default_input: None,
            send: None,
            ended: None,
        }
    }
}
