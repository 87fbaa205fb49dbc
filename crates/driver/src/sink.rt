//! Where a run prints what comes of it.

use crate::report::Show;
use disk_model::Disk;
use host_events::{Outcome, Reply};
use offline_programs::RunFault;
use session_engine::Host;

/// Where texts go, one after the other.
///
/// No contract can say what a stream does with a text. That one was tried, and how the host's disk was then, the relation
/// `tried` says: code that knows no more of a sink than this trait has it by the call alone. So an order of such facts is one of
/// calls. Which text it was is known where all of it went out (`Tries`).
pub trait Sink {
    ghost use Rattle.std.specs.Prelude.{◌+◌, ◌<◌, ◌^◌, IfErr, is_ok, length};
    ghost use Rattle.session_engine.specs.World.{World};
    ghost use Rattle.session_engine.specs.Host.{IsHost};
    ghost use Rattle.tellings.specs.Voice.{CutShort, IsWithheld};
    ghost use Rattle.driver.specs.Place.{SinkRules, Tries, TriesLast};
    ghost use Rattle.driver.specs.Reports.{printed_text};
    ghost use Rattle.driver.specs.Reports as report;

    /// The texts that it prints, what was printed so far where that is known, and what may come of trying one.
    ghost rules: { SinkRules Self };

    // Of each call: `Output` where the stream failed: then of a voice that writes in lines a beginning of the text went out, of
    // another one a part; `OutOfMemory` where a voice that takes memory has none for it: then whole lines of it went out at most.

    /// Prints what commands gave that were taken as one group, one of each line from this one on.
    fn lines<D: Disk>(
        &mut self,
        host: &Host<D>,
        first: u64,
        outcomes: &[Outcome],
    ) -> Result<(), RunFault>
        requires { first + length outcomes.now < 2 ^ 64 }
        ensures tries { (w : World) → IsHost host.now w
            → Tries rules self.old host.now.store.disk (printed_text rules.voice w
            (report.lines first outcomes.now)) (is_ok result) self.new }
        ensures err { IfErr result (IsWithheld rules.voice) }
        ensures cut { (w : World) → IsHost host.now w
            → IfErr result (CutShort rules.voice.in_lines (rules.written self.old) (rules.written self.new)
            (printed_text rules.voice w (report.lines first outcomes.now))) };

    /// Prints what events gave whose lines have no number, those of lives and of a script, and flushes nothing: `followed` comes
    /// after it.
    fn lives<D: Disk>(&mut self, host: &Host<D>, outcomes: &[Outcome]) -> Result<(), RunFault>
        ensures tries { (w : World) → IsHost host.now w
            → Tries rules self.old host.now.store.disk (printed_text rules.voice w
            (report.lives outcomes.now)) (is_ok result) self.new }
        ensures err { IfErr result (IsWithheld rules.voice) }
        ensures cut { (w : World) → IsHost host.now w
            → IfErr result (CutShort rules.voice.in_lines (rules.written self.old) (rules.written self.new)
            (printed_text rules.voice w (report.lives outcomes.now))) };

    /// Prints the replies to what followed effects.
    fn followed<D: Disk>(&mut self, host: &Host<D>, replies: &[Reply]) -> Result<(), RunFault>
        ensures tries { (w : World) → IsHost host.now w
            → Tries rules self.old host.now.store.disk (printed_text rules.voice w
            (report.followed replies.now)) (is_ok result) self.new }
        ensures err { IfErr result (IsWithheld rules.voice) }
        ensures cut { (w : World) → IsHost host.now w
            → IfErr result (CutShort rules.voice.in_lines (rules.written self.old) (rules.written self.new)
            (printed_text rules.voice w (report.followed replies.now))) };

    /// Prints this.
    fn show<D: Disk>(&mut self, host: &Host<D>, show: Show) -> Result<(), RunFault>
        ensures tries { (w : World) → IsHost host.now w
            → Tries rules self.old host.now.store.disk (printed_text rules.voice w
            (report.shown show)) (is_ok result) self.new }
        ensures err { IfErr result (IsWithheld rules.voice) }
        ensures cut { (w : World) → IsHost host.now w
            → IfErr result (CutShort rules.voice.in_lines (rules.written self.old) (rules.written self.new)
            (printed_text rules.voice w (report.shown show))) };

    /// Prints a fault, last of all. Whether that went out.
    fn print_fault<D: Disk>(&mut self, host: &Host<D>, why: RunFault) -> bool
        ensures { TriesLast rules self.old host.now.store.disk (rules.voice.fault why) result
            self.new };
}
