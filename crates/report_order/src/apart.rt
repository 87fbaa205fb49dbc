//! The control: one op, with a clause of the log and one of the text, which no relation ties.
ghost use Rattle.std.specs.Prelude.{◌≡◌, ◌++◌, ◌∷◌, [], List, ℕ, OnOk};
ghost use Rattle.std.specs.Io.KnownBytes.{Appends};
ghost use Rattle.report_order.specs.Log.{LeavesAlways, all_durable};
ghost use Rattle.report_order.specs.Order.{BeginsWith};
ghost use Rattle.report_order.specs.Stamps.{ok_text};

use crate::serving::put_durably;
use crate::stamping::write_ok;
use crate::{Log, ServeFault};
use std::io::Write;

/// Puts an op on the log, and writes that it is done. **The text comes first here**, and each clause is met: what is on the log at Ok and
/// at every moment, and what is written at Ok. So such clauses say nothing of the order of the two.
pub fn serve_apart<L: Log, W: Write>(op: u32, log: &mut L, out: &mut W) -> Result<(), ServeFault>
    ensures puts { (ops : List ℕ) → (L.history log.old).now ≡ all_durable ops
        → OnOk result ((L.history log.new).now ≡ all_durable (ops ++ op ∷ [])) }
    ensures moments { (ops : List ℕ) → (L.history log.old).now ≡ all_durable ops
        → LeavesAlways (BeginsWith ops) (L.history log.old) (L.history log.new) }
    ensures wrote { OnOk result (Appends (W.contents out.old) (W.contents out.new) ok_text) }
{
    if !write_ok(out) {
        return Err(ServeFault::Output);
    }
    if put_durably(op, log).is_err() {
        return Err(ServeFault::Log);
    }
    Ok(())
}
