//! Ops that are put on a log and then reported, to whoever is lent the log.
ghost use Rattle.std.specs.Prelude.{◌≡◌, ◌++◌, ◌∷◌, [], List, ℕ, OnOk};
ghost use Rattle.report_order.specs.Log.{LeavesAlways, all_durable};
ghost use Rattle.report_order.specs.Order.{BeginsWith, ServedInOrder, added_to};

use crate::{Log, LogFault};

/// What is lent the log when it reports that an op is done.
pub trait OpReporter {
    ghost use Rattle.std.specs.Prelude.{Bool, ℕ};
    ghost use Rattle.report_order.specs.Log.{LogHistory};

    /// The teller before the call, the op, the history of the log at that moment, whether all of the text went out, and the teller
    /// after it. Generic code has it by the call alone, so the history that stands there is that of the log as it was then.
    ghost tried: { Self → ℕ → LogHistory → Bool → Self → Type 0 };

    /// Reports that this op is done on this log, and says whether the text went out.
    fn tell<L: Log>(&mut self, op: u32, log: &L) -> bool
        ensures tried { tried self.old op (L.history log.now) result self.new };
}

/// Why not all ops were done and reported.
#[derive(Clone, Copy, Debug, PartialEq, Eq)]
pub enum ServeFault {
    /// The log failed. The op may be on it or not.
    Log,
    /// The op couldn't be reported. It is on the log.
    Output,
}

/// Puts an op on the log. It is durable before this returns.
pub(crate) fn put_durably<L: Log>(op: u32, log: &mut L) -> Result<(), LogFault>
    ensures puts { (ops : List ℕ) → (L.history log.old).now ≡ all_durable ops
        → OnOk result ((L.history log.new).now ≡ all_durable (ops ++ op ∷ [])) }
    ensures moments { (ops : List ℕ) → (L.history log.old).now ≡ all_durable ops
        → LeavesAlways (BeginsWith ops) (L.history log.old) (L.history log.new) }
{
    log.put(op)?;
    log.sync()
}

/// Puts each op on the log, and reports it when it is durable.
pub fn serve<L: Log, T: OpReporter>(
    ops: &[u32],
    log: &mut L,
    teller: &mut T,
) -> Result<(), ServeFault>
    ensures served { (before : List ℕ) → (L.history log.old).now ≡ all_durable before
        → ServedInOrder T.tried (added_to before ops.now) (L.history log.new) teller.old teller.new
        result }
{
    for op in ops {
        if put_durably(*op, log).is_err() {
            return Err(ServeFault::Log);
        }
        if !teller.tell(*op, log) {
            return Err(ServeFault::Output);
        }
    }
    Ok(())
}
