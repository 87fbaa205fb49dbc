//! A report in JUnit's XML.
ghost use Rattle.std.specs.Prelude.{OnOk};
ghost use Rattle.std.specs.Io.KnownBytes.{Appends};
ghost use Rattle.check_report.specs.Points.{point};
ghost use Rattle.check_report.specs.Junit as junit;

use crate::cases::Case;
use crate::verdict::Verdict;
use crate::writing::{write_bytes, write_id, write_number};
use crate::xml::write_text;
use sheet_json::Took;
use sheet_text::WriteFault;
use std::io::Write;

/// Writes what stands in front of the first case.
pub(crate) fn write_head<W: Write>(out: &mut W) -> Result<(), WriteFault>
    ensures { OnOk result (Appends (W.contents out.old) (W.contents out.new) junit.head) }
{
    write_bytes(
        b"<?xml version=\"1.0\" encoding=\"UTF-8\"?>\n\
        <testsuites>\n\
        <testsuite name=\"tmhost check\">\n",
        out,
    )
}

/// Writes what stands after the last case.
pub(crate) fn write_tail<W: Write>(out: &mut W) -> Result<(), WriteFault>
    ensures { OnOk result (Appends (W.contents out.old) (W.contents out.new) junit.tail) }
{
    write_bytes(b"</testsuite>\n</testsuites>\n", out)
}

/// Writes the name of a case: the number of its field, and its input.
#[tactic(auto, using(crate::proofs::Written::steps))]
fn write_title<W: Write>(id: u32, input: &[u8], out: &mut W) -> Result<(), WriteFault>
    ensures { OnOk result (Appends (W.contents out.old) (W.contents out.new)
        (junit.case_title id input.now)) }
{
    write_bytes(b"field ", out)?;
    write_id(id, out)?;
    write_bytes(b": ", out)?;
    write_text(input, out)?;
    Ok(())
}

/// Writes milliseconds as seconds, with three digits after the point.
#[tactic(auto, using(crate::proofs::Written::steps))]
fn write_seconds<W: Write>(millis: u64, out: &mut W) -> Result<(), WriteFault>
    ensures { OnOk result (Appends (W.contents out.old) (W.contents out.new)
        (junit.seconds_text millis)) }
{
    write_number(millis / 1000, out)?;
    write_bytes(b".", out)?;
    write_number(millis / 100 % 10, out)?;
    write_number(millis / 10 % 10, out)?;
    write_number(millis % 10, out)?;
    Ok(())
}

/// Writes the seconds that a case took, where they are known.
#[tactic(auto, using(crate::proofs::Written::steps))]
fn write_time<W: Write>(took: Option<Took>, out: &mut W) -> Result<(), WriteFault>
    ensures { OnOk result (Appends (W.contents out.old) (W.contents out.new)
        (junit.time_part took)) }
{
    let Some(took) = took else {
        return Ok(());
    };
    write_bytes(b" time=\"", out)?;
    write_seconds(took.millis, out)?;
    write_bytes(b"\"", out)?;
    Ok(())
}

/// Writes the name of a case's session, and its own.
#[tactic(auto, using(crate::proofs::Written::steps))]
fn write_names<W: Write>(
    id: u32,
    session: &[u8],
    input: &[u8],
    out: &mut W,
) -> Result<(), WriteFault>
    ensures { OnOk result (Appends (W.contents out.old) (W.contents out.new)
        (junit.case_names id session.now input.now)) }
{
    write_bytes(b"<testcase classname=\"", out)?;
    write_text(session, out)?;
    write_bytes(b"\" name=\"", out)?;
    write_title(id, input, out)?;
    write_bytes(b"\"", out)?;
    Ok(())
}

/// Writes what begins a case: its names, and what it took.
#[tactic(auto, using(crate::proofs::Written::steps))]
fn write_start<W: Write>(
    id: u32,
    session: &[u8],
    input: &[u8],
    took: Option<Took>,
    out: &mut W,
) -> Result<(), WriteFault>
    ensures { OnOk result (Appends (W.contents out.old) (W.contents out.new)
        (junit.case_start id session.now input.now took)) }
{
    write_names(id, session, input, out)?;
    write_time(took, out)?;
    write_bytes(b">", out)?;
    Ok(())
}

/// Writes what stands in front of what is reported of a case.
fn write_result_start<W: Write>(verdict: Verdict, out: &mut W) -> Result<(), WriteFault>
    ensures { OnOk result (Appends (W.contents out.old) (W.contents out.new)
        (junit.result_start verdict)) }
{
    match verdict {
        Verdict::Same => Ok(()),
        Verdict::Differs => write_bytes(b"<failure message=\"differs\">", out),
        Verdict::Unanswered => write_bytes(b"<error message=\"unanswered\">", out),
        Verdict::LeftOut => write_bytes(b"<skipped message=\"left out\">", out),
        Verdict::New => write_bytes(b"<skipped message=\"new\">", out),
    }
}

/// Writes what stands after it.
fn write_result_end<W: Write>(verdict: Verdict, out: &mut W) -> Result<(), WriteFault>
    ensures { OnOk result (Appends (W.contents out.old) (W.contents out.new)
        (junit.result_end verdict)) }
{
    match verdict {
        Verdict::Same => write_bytes(b"</testcase>\n", out),
        Verdict::Differs => write_bytes(b"</failure></testcase>\n", out),
        Verdict::Unanswered => write_bytes(b"</error></testcase>\n", out),
        Verdict::LeftOut | Verdict::New => write_bytes(b"</skipped></testcase>\n", out),
    }
}

/// Writes a case.
#[tactic(auto, using(crate::proofs::Written::steps))]
pub(crate) fn write_case<W: Write>(
    case: &Case<'_>,
    reported: &[u8],
    out: &mut W,
) -> Result<(), WriteFault>
    ensures { OnOk result (Appends (W.contents out.old) (W.contents out.new)
        (junit.junit_case (point case.now.field.now.id case.now.field.now.session
        case.now.field.now.input case.now.verdict case.now.took reported.now))) }
{
    write_start(
        case.field.id,
        case.field.session.as_slice(),
        case.field.input.as_bytes(),
        case.took,
        out,
    )?;
    write_result_start(case.verdict, out)?;
    write_text(reported, out)?;
    write_result_end(case.verdict, out)?;
    Ok(())
}
