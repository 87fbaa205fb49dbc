//! What is to be seen while a check goes on.
ghost use Rattle.std.specs.Prelude.{◌≡◌, OnOk, Some};
ghost use Rattle.std.specs.Io.KnownBytes.{Appends};
ghost use Rattle.sheet_check.specs.Screen as screen;
ghost use Rattle.sheet_check.specs.declared.progress.Sight.TheVariants as sight;

use check_report::VerdictCounts;
use offline_programs::{Message, Says};
use sheet_text::WriteFault;
use std::io;
use std::io::Write;

/// What is to be seen of a check.
#[derive(Clone, Copy, Debug, PartialEq, Eq)]
pub enum Sight {
    /// What the fields came to that were checked so far, and how many are to be checked in all.
    Line {
        /// What came of those so far.
        counts: VerdictCounts,
        /// How many fields are checked.
        all: u32,
    },
    /// Nothing: no byte of what was shown before stays.
    Nothing,
}

/// Whoever shows how far a check is.
pub trait Progress {
    ghost use Rattle.sheet_check.specs.declared.progress.Sight.{Sight};

    /// The progress before something is shown, what that is, and the progress after it.
    ghost shows: { Self → Sight → Self → Type 0 };

    /// Shows this in the place of what was shown before. No one learns that it can't be shown: a
    /// check ends as it would without.
    fn show(&mut self, sight: Sight)
        ensures { shows self.old sight self.new };
}

/// A line of a terminal that is rewritten, as `12 of 340, 1 differs`. Each sight is one message.
#[derive(Drop)]
pub struct ProgressLine<W: Says> {
    writer: Option<W>,
}

impl<W: Says> ProgressLine<W> {
    /// On the line of this terminal, where there is one; else nothing is shown. A terminal that
    /// can't be written is given up.
    pub fn on(terminal: Option<W>) -> ProgressLine<W>
        ensures { result.writer ≡ terminal }
    {
        ProgressLine { writer: terminal }
    }
}

/// How many differ, where some do.
fn write_differ<W: Write>(differ: u32, out: &mut W) -> io::Result<()>
    ensures { OnOk result (Appends (W.contents out.old) (W.contents out.new)
        (screen.differ_part differ)) }
{
    match differ {
        0 => Ok(()),
        1 => write!(out, ", 1 differs"),
        _ => write!(out, ", {differ} differ"),
    }
}

/// How many were left unanswered, where some were.
fn write_unanswered<W: Write>(unanswered: u32, out: &mut W) -> io::Result<()>
    ensures { OnOk result (Appends (W.contents out.old) (W.contents out.new)
        (screen.unanswered_part unanswered)) }
{
    match unanswered {
        0 => Ok(()),
        _ => write!(out, ", {unanswered} unanswered"),
    }
}

/// Writes a line with how far the check is, in the place of what the terminal's line shows.
fn write_line<W: Write>(counts: VerdictCounts, all: u32, out: &mut W) -> io::Result<()>
    ensures { OnOk result (Appends (W.contents out.old) (W.contents out.new)
        (screen.sight_text (sight.Line counts all))) }
{
    let checked = counts.total();
    write!(out, "\r{checked} of {all}")?;
    write_differ(counts.differ, out)?;
    write_unanswered(counts.unanswered, out)?;
    write!(out, "\x1b[K")
}

/// Writes a sight.
fn write_sight<W: Write>(sight: Sight, out: &mut W) -> io::Result<()>
    ensures { OnOk result (Appends (W.contents out.old) (W.contents out.new)
        (screen.sight_text sight)) }
{
    match sight {
        Sight::Line { counts, all } => write_line(counts, all, out),
        Sight::Nothing => write!(out, "\r\x1b[K"),
    }
}

impl Message for Sight {
    ghost text = { λ seen. Some (screen.sight_text seen) };

    fn write<W: Write>(&self, out: &mut W) -> Result<(), WriteFault> {
        write_sight(*self, out).map_err(|_| WriteFault)
    }
}

impl<W: Says + Drop> Progress for ProgressLine<W> {
    ghost use Rattle.sheet_check.specs.Screen.{LineShows};

    ghost shows = { λ p sight q. LineShows W.contents W.tried p.writer sight q.writer };

    fn show(&mut self, sight: Sight) {
        if let Some(writer) = &mut self.writer
            && !writer.say(&sight)
        {
            self.writer = None;
        }
    }
}
