//! Text that is held back, and written where there is no room for more.
ghost use Rattle.std.specs.Prelude.{◌≡◌, ◌≤◌, ◌+◌, ◌++◌, ◌∷◌, [], IfOk, OnOk, length};
ghost use Rattle.std.specs.Fmt.{decimal};
ghost use Rattle.std.specs.Io.KnownBytes.{Appends, append_known};
ghost use Rattle.block_tree.specs.Tree.{Tree};
ghost use Rattle.meta_format.specs.Limits.{limits};
ghost use Rattle.meta_format.specs.Spelling.{Spells};
ghost use Rattle.sheet_text.specs.Blocks.{tree_text};

use crate::filling::fill;
use crate::numbers::{MOST_DIGITS, put_byte, put_number};
use crate::table::MOST_PRINTED;
use sheet_text::WriteFault;
use std::alloc::{AllocError, Global};
use std::io::Write;
use std::marker::Model;

/// The most bytes that are held.
const SIZE: usize = 65_536;

/// Text that is held back, in memory that is taken once. Contracts see its bytes.
#[derive(Drop)]
pub struct Room {
    bytes: Vec<u8>,
    used: usize,
}

impl Model for Room {
    ghost use Rattle.std.specs.Prelude.{◌≡◌, ◌≤◌, ℕ, List, length, take};

    ghost Value = { List ℕ };

    ghost view = { λ r. take r.used r.bytes.items };

    ghost invariant = { λ r. (length r.bytes.items ≡ 65536) × (r.used ≤ 65536) };
}

impl Room {
    /// Nothing is held. All memory is taken here.
    pub fn new(alloc: Global) -> Result<Room, AllocError>
        ensures { IfOk result (λ room. room ≡ []) }
    {
        let bytes = vec![in alloc; 0; SIZE]?;
        Ok(Room { bytes, used: 0 })
    }

    /// Writes all that is held.
    pub fn write_out<W: Write>(&mut self, out: &mut W) -> Result<(), WriteFault>
        ensures none { OnOk result (self.new ≡ []) }
        ensures wrote { OnOk result (Appends (W.contents out.old) (W.contents out.new) self.old) }
    {
        out.write_all(&self.bytes[..self.used])
            .map_err(|_| WriteFault)?;
        self.used = 0;
        Ok(())
    }

    /// Writes what is held where there is no room for so many bytes more.
    #[inline(always)]
    fn make_place<W: Write>(&mut self, len: usize, out: &mut W) -> Result<(), WriteFault>
        requires { len ≤ 65536 }
        ensures place { OnOk result (length self.new + len ≤ 65536) }
        ensures kept { OnOk result (Appends (append_known (W.contents out.old) self.old)
            (append_known (W.contents out.new) self.new) []) }
    {
        if SIZE - self.used < len {
            return self.write_out(out);
        }
        Ok(())
    }

    /// Puts two numbers, each with a space after it.
    pub fn put_numbers<W: Write>(
        &mut self,
        first: usize,
        second: usize,
        out: &mut W,
    ) -> Result<(), WriteFault>
        ensures { OnOk result (Appends (append_known (W.contents out.old) self.old)
            (append_known (W.contents out.new) self.new)
            ((decimal first ++ 32 ∷ []) ++ (decimal second ++ 32 ∷ []))) }
    {
        self.make_place(2 * MOST_DIGITS + 2, out)?;
        let used = put_number(first, self.bytes.as_mut_slice(), self.used);
        self.used = put_number(second, self.bytes.as_mut_slice(), used);
        Ok(())
    }

    /// Puts a line feed.
    #[inline(always)]
    pub fn end_line<W: Write>(&mut self, out: &mut W) -> Result<(), WriteFault>
        ensures { OnOk result (Appends (append_known (W.contents out.old) self.old)
            (append_known (W.contents out.new) self.new) (10 ∷ [])) }
    {
        self.make_place(1, out)?;
        self.used = put_byte(b'\n', self.bytes.as_mut_slice(), self.used);
        Ok(())
    }

    /// Puts a block with all its tags on one line, as `tree_text` of `sheet_text` writes it, from bytes that spell it.
    pub fn put_spelled<W: Write>(&mut self, bytes: &[u8], out: &mut W) -> Result<(), WriteFault>
        requires { (b : Tree) × Spells limits b bytes.now }
        ensures { OnOk result ((b : Tree) → Spells limits b bytes.now
            → Appends (append_known (W.contents out.old) self.old)
            (append_known (W.contents out.new) self.new) (tree_text b)) }
    {
        let mut at = 0;
        while at < bytes.len() {
            self.make_place(2 * MOST_PRINTED, out)?;
            let place = fill(bytes, at, self.bytes.as_mut_slice(), self.used);
            self.used = place.used;
            at = place.at;
        }
        Ok(())
    }
}
