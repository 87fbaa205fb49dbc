//! What a program says on a stream, a message at a time.
ghost use Rattle.std.specs.Prelude.{◌≡◌, Some};
ghost use Rattle.std.specs.Io.KnownBytes.{Appends};
ghost use Rattle.offline_programs.specs.Faults as printed;

use crate::{RunFault, fault_text};
use sheet_text::WriteFault;
use std::io::{BufWriter, Stderr, Write};

/// A text that is said as a whole.
pub trait Message {
    ghost use Rattle.std.specs.Prelude.{IfSome, List, OnOk, Option, ℕ};
    ghost use Rattle.std.specs.Io.KnownBytes.{Appends};

    /// Its bytes, where a contract can know them.
    ghost text: { Self → Option (List ℕ) };

    /// Writes it.
    fn write<W: Write>(&self, out: &mut W) -> Result<(), WriteFault>
        ensures { OnOk result (IfSome (text self.now) (Appends (W.contents out.old)
            (W.contents out.new))) };
}

/// A stream on which messages are said.
///
/// No contract can say what a real stream does with one. That it was tried, and which, the relation says: generic
/// code has it by the call alone.
pub trait Says: Write {
    ghost use Rattle.std.specs.Prelude.{◌≡◌, Bool, IfSome, List, Option, true, ℕ};
    ghost use Rattle.std.specs.Io.KnownBytes.{Appends};

    /// The stream before the call, the bytes of the message, whether it went out, and the stream after it.
    ghost tried: { Self → Option (List ℕ) → Bool → Self → Type 0 };

    /// Says a message, and whether all of it went out.
    fn say<M: Message>(&mut self, message: &M) -> bool
        ensures tried { tried self.old (M.text message.now) result self.new }
        ensures text { result ≡ true → IfSome (M.text message.now)
            (Appends (Self.contents self.old) (Self.contents self.new)) };
}

impl Says for Stderr {
    ghost tried = { λ _ _ _ _. Unit {0} };

    fn say<M: Message>(&mut self, message: &M) -> bool {
        message.write(self).is_ok()
    }
}

/// Bytes in memory.
impl Says for Vec<u8> {
    ghost tried = { λ _ _ _ _. Unit {0} };

    fn say<M: Message>(&mut self, message: &M) -> bool {
        message.write(self).is_ok()
    }
}

/// What it keeps back is flushed after each message.
impl<W: Write + Drop> Says for BufWriter<W> {
    ghost tried = { λ _ _ _ _. Unit {0} };

    fn say<M: Message>(&mut self, message: &M) -> bool {
        message.write(self).is_ok() && self.flush().is_ok()
    }
}

impl Message for RunFault {
    ghost text = { λ fault. Some (printed.fault_text fault) };

    fn write<W: Write>(&self, out: &mut W) -> Result<(), WriteFault> {
        fault_text(*self, out)
    }
}
