//! A sink over a voice and a stream.
ghost use Rattle.std.specs.Prelude.{IfErr, OnOk};
ghost use Rattle.std.specs.Io.KnownBytes.{Appends};
ghost use Rattle.session_engine.specs.World.{World};
ghost use Rattle.session_engine.specs.Host.{IsHost};
ghost use Rattle.tellings.specs.Voice.{CutShort, IsWithheld, lives_text};
ghost use Rattle.child_edge.specs.Reported.{spoken};
ghost use Rattle.driver.specs.Reports.{lives_report};

use crate::report::Show;
use crate::sink::Sink;
use crate::stamped::Stamped;
use disk_model::Disk;
use host_events::{Outcome, Reply};
use offline_programs::RunFault;
use session_engine::Host;
use std::io::Write;
use std::slice;
use tellings::Tells;

/// A voice that prints on a stream, which is stamped before each text.
#[derive(Drop)]
pub struct Voiced<T, W> {
    pub tells: T,
    pub writer: W,
}

/// Prints what came of one life, where that says something.
fn print_life<D: Disk, T: Tells, W: Write>(
    host: &Host<D>,
    outcome: &Outcome,
    tells: &T,
    writer: &mut W,
) -> Result<(), RunFault>
    ensures ok { (w : World) → IsHost host.now w
        → OnOk result (Appends (W.contents writer.old) (W.contents writer.new)
        (lives_text T.voice w (spoken outcome.now.reply))) }
    ensures err { IfErr result (IsWithheld T.voice) }
    ensures cut { (w : World) → IsHost host.now w
        → IfErr result (CutShort T.voice.in_lines (W.contents writer.old) (W.contents writer.new)
        (lives_text T.voice w (spoken outcome.now.reply))) }
{
    match &outcome.reply {
        Reply::Nothing => Ok(()),
        reply => tells.lives(host, slice::from_ref(reply), writer),
    }
}

/// Prints what came of each life.
fn print_lives<D: Disk, T: Tells, W: Write>(
    host: &Host<D>,
    outcomes: &[Outcome],
    tells: &T,
    writer: &mut W,
) -> Result<(), RunFault>
    ensures ok { (w : World) → IsHost host.now w
        → OnOk result (Appends (W.contents writer.old) (W.contents writer.new)
        (lives_report T.voice w outcomes.now)) }
    ensures err { IfErr result (IsWithheld T.voice) }
    ensures cut { (w : World) → IsHost host.now w
        → IfErr result (CutShort T.voice.in_lines (W.contents writer.old) (W.contents writer.new)
        (lives_report T.voice w outcomes.now)) }
{
    for outcome in outcomes {
        if let Err(fault) = print_life(host, outcome, tells, writer) {
            return Err(fault);
        }
    }
    Ok(())
}

impl<T: Tells, W: Stamped> Sink for Voiced<T, W> {
    ghost use Rattle.driver.specs.Place.{sink_rules};

    // When a text was tried the stream held what was printed before it, and the disk was in this state.
    ghost rules = { sink_rules T.voice (λ k. W.contents k.writer) (λ k disk text whole l. W.held (W.contents k.writer) disk) };

    fn lines<D: Disk>(
        &mut self,
        host: &Host<D>,
        first: u64,
        outcomes: &[Outcome],
    ) -> Result<(), RunFault> {
        self.writer.stamp(host);
        self.tells
            .outcomes(first, host.sheet(), outcomes, &mut self.writer)
    }

    fn lives<D: Disk>(&mut self, host: &Host<D>, outcomes: &[Outcome]) -> Result<(), RunFault> {
        self.writer.stamp(host);
        print_lives(host, outcomes, &self.tells, &mut self.writer)
    }

    fn followed<D: Disk>(&mut self, host: &Host<D>, replies: &[Reply]) -> Result<(), RunFault> {
        self.writer.stamp(host);
        self.tells.events(host, replies, &mut self.writer)
    }

    fn show<D: Disk>(&mut self, host: &Host<D>, show: Show) -> Result<(), RunFault> {
        self.writer.stamp(host);
        match show {
            Show::Note(note) => self.tells.note(note, &mut self.writer),
            Show::Sheet(line) => self.tells.sheet(line, host, &mut self.writer),
            Show::Field(line, id) => self.tells.field(line, id, host, &mut self.writer),
            Show::Export(line, format) => {
                self.tells
                    .export(line, format, host.sheet(), &mut self.writer)
            }
        }
    }

    fn print_fault<D: Disk>(&mut self, host: &Host<D>, why: RunFault) -> bool {
        self.writer.stamp(host);
        self.tells.fault(why, &mut self.writer)
    }
}
