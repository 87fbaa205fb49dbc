//! An output that keeps text back.
ghost use Rattle.std.specs.Prelude.{◌≡◌, [], Bool, true};
ghost use Rattle.std.specs.Result.{is_ok};
ghost use Rattle.std.specs.Io.Buffered.{writer_buffer};

use std::io;
use std::io::{BufWriter, Write};

/// An output that may keep text back until it is flushed.
///
/// No contract can say what a call on a real stream brings about. That the call was made, after all that was
/// written, the relation says: generic code has it by that call alone.
pub trait Outlet: Write {
    ghost use Rattle.std.specs.Io.KnownBytes.{Keeps};

    /// The output before the call, whether all was flushed, and the output after it.
    ghost flushed: { Self → Bool → Self → Type 0 };

    /// Flushes what is kept back, and writes nothing else.
    fn flush_out(&mut self) -> io::Result<()>
        ensures flushed { flushed self.old (is_ok result) self.new }
        ensures kept { Keeps (Self.contents self.old) (Self.contents self.new) };
}

impl<W: Write + Drop> Outlet for BufWriter<W> {
    ghost flushed = { λ _ all after. all ≡ true → writer_buffer after ≡ [] };

    fn flush_out(&mut self) -> io::Result<()> {
        self.flush()
    }
}
