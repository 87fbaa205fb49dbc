//! What an interpreter is asked.
ghost use Rattle.std.specs.Prelude.{◌≡◌, IfOk};
ghost use Rattle.plugin_core.specs.Items.{bytes_of, IsAskable};

use block_tree::{Octets, OutOfMemory, Text};
use scheme_text::write_request;
use std::alloc::Global;

/// What an interpreter is asked: one at a time, in the order of their coming.
#[derive(Debug, Drop)]
pub enum Item {
    /// A line of input, for the field with this number. The caller sees to it that its text has no line
    /// feed, which would make two lines of it; the inputs of a worksheet have none.
    Line { id: u32, text: Octets },
    /// A request of completions for the field with this number. The cursor is the number of bytes of
    /// the text before it, and stands in front of a character or at the end.
    /// (docs/use/PROTOCOL.md, completion.)
    Complete { id: u32, text: Text, cursor: usize },
}

/// The bytes that are sent for an item.
pub(crate) fn bytes_for(alloc: Global, item: &Item) -> Result<Octets, OutOfMemory>
    requires { IsAskable item.now }
    ensures { IfOk result (λ bytes. bytes ≡ bytes_of item.now) }
{
    match item {
        Item::Line { id: _, text } => {
            let mut bytes = text.as_slice().to_vec(alloc)?;
            bytes.push(b'\n')?;
            Ok(Octets::from_vec(bytes))
        }
        Item::Complete {
            id: _,
            text,
            cursor,
        } => write_request(alloc, text.as_str(), *cursor),
    }
}
