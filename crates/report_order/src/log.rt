//! A log that ops are put on.
ghost use Rattle.report_order.specs.Log.{LogHistory, MakesDurable, Puts};

/// A call on a log failed.
#[derive(Clone, Copy, Debug, PartialEq, Eq)]
pub struct LogFault;

/// A log that ops are put on, one after another.
pub trait Log {
    /// What contracts see of it.
    ghost history: { Self → LogHistory };

    /// Puts an op after the others. A crash may leave it or not.
    fn put(&mut self, op: u32) -> Result<(), LogFault>
        ensures puts { Puts op result (history self.old) (history self.new) };

    /// Makes durable what was put.
    fn sync(&mut self) -> Result<(), LogFault>
        ensures syncs { MakesDurable result (history self.old) (history self.new) };
}
