//! The same over any writer, which is stamped with the log before each text.
ghost use Rattle.std.specs.Prelude.{◌≡◌, List, ℕ, true};
ghost use Rattle.std.specs.Io.KnownBytes.{Appends};
ghost use Rattle.report_order.specs.Log.{all_durable};
ghost use Rattle.report_order.specs.Order.{added_to};
ghost use Rattle.report_order.specs.Stamps.{ServesByText, ok_text};

use crate::serving::put_durably;
use crate::{Log, ServeFault};
use std::io::Write;

/// A writer of which it can be said what it held at which moment of a log.
pub trait Stamps: Write {
    ghost use Rattle.std.specs.Prelude.{List, Option, ℕ};
    ghost use Rattle.report_order.specs.Log.{LogHistory};

    /// There was a moment at which the writer held these bytes and the log had this history. Generic code has it by the call alone, so
    /// of no other pair.
    ghost held_at: { Option (List ℕ) → LogHistory → Type 0 };

    /// Does nothing. It is called for its relation.
    fn stamp<L: Log>(&self, log: &L)
        ensures held { held_at (Self.contents self.now) (L.history log.now) };
}

/// Writes that an op is done, and says whether that went out.
pub(crate) fn write_ok<W: Write>(out: &mut W) -> bool
    ensures ok { result ≡ true → Appends (W.contents out.old) (W.contents out.new) ok_text }
{
    write!(out, "ok\n").is_ok()
}

/// Puts each op on the log, and writes that it is done when it is durable.
pub fn serve_writing<L: Log, W: Stamps>(
    ops: &[u32],
    log: &mut L,
    out: &mut W,
) -> Result<(), ServeFault>
    ensures serves { (before : List ℕ) → (L.history log.old).now ≡ all_durable before
        → ServesByText W.held_at (added_to before ops.now) (L.history log.new) (W.contents out.old)
        (W.contents out.new) result }
{
    for op in ops {
        if put_durably(*op, log).is_err() {
            return Err(ServeFault::Log);
        }
        out.stamp(log);
        if !write_ok(out) {
            return Err(ServeFault::Output);
        }
    }
    Ok(())
}
