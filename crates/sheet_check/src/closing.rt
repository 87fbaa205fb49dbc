//! The counts of a check, which are written at its end.
ghost use Rattle.std.specs.Prelude.{◌≡◌, IfErr, IfNone, IfSome, OnOk};
ghost use Rattle.std.specs.Io.KnownBytes.{Appends};
ghost use Rattle.check_report.specs.Reports.{closing_text};
ghost use Rattle.sheet_check.specs.declared.progress.Sight.TheVariants as sight;
ghost use Rattle.sheet_check.specs.inside.Checking.{CountsWritten};

use crate::progress::{Progress, Sight};
use check_report::{ReportFormat, VerdictCounts, close_report};
use offline_programs::RunFault;
use std::io::Write;

/// Writes what stands last in a report, and flushes it.
fn tell_closing<W: Write>(
    format: ReportFormat,
    counts: VerdictCounts,
    writer: &mut W,
) -> Result<(), RunFault>
    ensures ok { OnOk result (Appends (W.contents writer.old) (W.contents writer.new)
        (closing_text format counts)) }
    ensures err { IfErr result (λ why. why ≡ RunFault.Output) }
{
    close_report(format, counts, writer).map_err(|_| RunFault::Output)
}

/// Tells the counts of a check, where it came to its end on its copy. Where there was no memory for a copy nothing was shown, and the line of
/// progress is taken away.
pub(crate) fn tell_counts<W: Write, P: Progress>(
    format: ReportFormat,
    answer: Option<Result<VerdictCounts, RunFault>>,
    progress: &mut P,
    writer: &mut W,
) -> Result<VerdictCounts, RunFault>
    ensures counts { CountsWritten format (W.contents writer.old)
        (W.contents writer.new) answer result }
    ensures none { IfNone answer ((writer.new ≡ writer.old) × P.shows progress.old sight.Nothing
        progress.new) }
    ensures some { IfSome answer (λ _. progress.new ≡ progress.old) }
{
    match answer {
        Some(counted) => match counted {
            Ok(counts) => match tell_closing(format, counts, writer) {
                Ok(()) => Ok(counts),
                Err(fault) => Err(fault),
            },
            Err(fault) => Err(fault),
        },
        None => {
            progress.show(Sight::Nothing);
            Err(RunFault::OutOfMemory)
        }
    }
}
