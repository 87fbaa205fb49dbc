//! The formats of what is printed.
use crate::{Boundary, Note};
use disk_model::Disk;
use host_events::{Outcome, Reply};
use offline_programs::RunFault;
use session_engine::Host;
use sheet_export::Format;
use std::io::Write;
use worksheet::Sheet;

/// A format of what is printed. Each call but `lives` flushes what it writes.
///
/// `Output` where the writer fails: of a voice that writes in lines a beginning of the text went out, of another one a part, and no clause says
/// which. `OutOfMemory` where a voice that takes memory has none for a line: the lines before it went out, and nothing else.
pub trait Tells {
    ghost use Rattle.std.specs.Prelude.{IfErr, OnOk, ◌≡◌, ◌+◌, ◌<◌, ◌^◌, false, length, true};
    ghost use Rattle.std.specs.Io.KnownBytes.{Appends};
    ghost use Rattle.session_engine.specs.World.{World};
    ghost use Rattle.session_engine.specs.Host.{IsHost};
    ghost use Rattle.tellings.specs.Voice.{CutShort, IsWithheld, KeepsToLines, Unwritten, Voice, WroteFront, lives_text, numbered_text};

    /// The texts that it writes.
    ghost voice: { Voice };

    /// They are lines where the voice says so.
    ghost to_lines: { KeepsToLines voice };

    /// Tells what stands first or last. Only a voice that takes memory can fail there.
    fn frame<W: Write>(&self, frame: Boundary, writer: &mut W) -> Result<(), RunFault>
        ensures ok { OnOk result (Appends (W.contents writer.old) (W.contents writer.new)
            (voice.frame frame)) }
        ensures still { voice.takes_memory ≡ false → writer.new ≡ writer.old }
        ensures err { IfErr result (λ why. (voice.takes_memory ≡ true) × IsWithheld voice why) }
        ensures cut { IfErr result (CutShort voice.in_lines (W.contents writer.old) (W.contents writer.new)
            (voice.frame frame)) }
        ensures unwritten { IfErr result (Unwritten writer.old writer.new) };

    /// Tells what comes of a line, or of a wait, apart from replies.
    fn note<W: Write>(&self, note: Note, writer: &mut W) -> Result<(), RunFault>
        ensures ok { OnOk result (Appends (W.contents writer.old) (W.contents writer.new)
            (voice.note note)) }
        ensures err { IfErr result (IsWithheld voice) }
        ensures cut { IfErr result (CutShort voice.in_lines (W.contents writer.old) (W.contents writer.new)
            (voice.note note)) }
        ensures unwritten { IfErr result (Unwritten writer.old writer.new) };

    /// Tells what commands gave that were taken together, one on each line from this one on, where this is the
    /// worksheet after them.
    fn outcomes<W: Write>(
        &self,
        first: u64,
        sheet: &Sheet,
        outcomes: &[Outcome],
        writer: &mut W,
    ) -> Result<(), RunFault>
        requires { first + length outcomes.now < 2 ^ 64 }
        ensures ok { OnOk result (Appends (W.contents writer.old) (W.contents writer.new)
            (numbered_text voice first sheet.now.contents outcomes.now)) }
        ensures err { IfErr result (IsWithheld voice) }
        ensures cut { IfErr result (CutShort voice.in_lines (W.contents writer.old) (W.contents writer.new)
            (numbered_text voice first sheet.now.contents outcomes.now)) };

    /// Tells what came of lives, or of a script's lines that have no number, with what this host knows of each life, and
    /// flushes nothing: `events` of what followed is called after it.
    fn lives<D: Disk, W: Write>(
        &self,
        host: &Host<D>,
        replies: &[Reply],
        writer: &mut W,
    ) -> Result<(), RunFault>
        ensures ok { (w : World) → IsHost host.now w
            → OnOk result (Appends (W.contents writer.old) (W.contents writer.new)
            (lives_text voice w replies.now)) }
        ensures err { IfErr result (IsWithheld voice) }
        ensures cut { (w : World) → IsHost host.now w
            → IfErr result (CutShort voice.in_lines (W.contents writer.old) (W.contents writer.new)
            (lives_text voice w replies.now)) };

    /// Tells what came of lives, with what this host knows of each.
    fn events<D: Disk, W: Write>(
        &self,
        host: &Host<D>,
        replies: &[Reply],
        writer: &mut W,
    ) -> Result<(), RunFault>
        ensures ok { (w : World) → IsHost host.now w
            → OnOk result (Appends (W.contents writer.old) (W.contents writer.new)
            (lives_text voice w replies.now)) }
        ensures err { IfErr result (IsWithheld voice) }
        ensures cut { (w : World) → IsHost host.now w
            → IfErr result (CutShort voice.in_lines (W.contents writer.old) (W.contents writer.new)
            (lives_text voice w replies.now)) };

    /// Tells the worksheet, for which this line asks.
    fn sheet<D: Disk, W: Write>(
        &self,
        line: u64,
        host: &Host<D>,
        writer: &mut W,
    ) -> Result<(), RunFault>
        ensures ok { (w : World) → IsHost host.now w
            → OnOk result (Appends (W.contents writer.old) (W.contents writer.new)
            (voice.sheet line w)) }
        ensures err { IfErr result (IsWithheld voice) }
        ensures cut { (w : World) → IsHost host.now w
            → IfErr result (CutShort voice.in_lines (W.contents writer.old) (W.contents writer.new)
            (voice.sheet line w)) };

    /// Tells the field with this number, for which this line asks, or that there is none.
    fn field<D: Disk, W: Write>(
        &self,
        line: u64,
        id: u32,
        host: &Host<D>,
        writer: &mut W,
    ) -> Result<(), RunFault>
        ensures ok { (w : World) → IsHost host.now w
            → OnOk result (Appends (W.contents writer.old) (W.contents writer.new)
            (voice.field line id w)) }
        ensures err { IfErr result (IsWithheld voice) }
        ensures cut { (w : World) → IsHost host.now w
            → IfErr result (CutShort voice.in_lines (W.contents writer.old) (W.contents writer.new)
            (voice.field line id w)) }
        ensures unwritten { IfErr result (Unwritten writer.old writer.new) };

    /// Tells this worksheet in a format, for which this line asks, or that it isn't written in it.
    fn export<W: Write>(
        &self,
        line: u64,
        format: Format,
        sheet: &Sheet,
        writer: &mut W,
    ) -> Result<(), RunFault>
        ensures ok { OnOk result (Appends (W.contents writer.old) (W.contents writer.new)
            (voice.exported line format sheet.now.contents)) }
        ensures err { IfErr result (IsWithheld voice) }
        ensures cut { IfErr result (CutShort voice.in_lines (W.contents writer.old) (W.contents writer.new)
            (voice.exported line format sheet.now.contents)) }
        ensures unwritten { IfErr result (Unwritten writer.old writer.new) };

    /// Tells a fault, last of all, and whether that went out.
    fn fault<W: Write>(&self, why: RunFault, writer: &mut W) -> bool
        ensures reported { result ≡ true
            → Appends (W.contents writer.old) (W.contents writer.new) (voice.fault why) }
        ensures front { voice.in_lines ≡ true → WroteFront false (W.contents writer.old) (W.contents writer.new)
            (voice.fault why) }
        ensures still { voice.takes_memory ≡ false → writer.new ≡ writer.old };
}
