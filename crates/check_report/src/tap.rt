//! A report as TAP, version 13.
ghost use Rattle.std.specs.Prelude.{OnOk};
ghost use Rattle.std.specs.Io.KnownBytes.{Appends};
ghost use Rattle.check_report.specs.Points.{point};
ghost use Rattle.check_report.specs.Tap as tap;

use crate::cases::Case;
use crate::verdict::Verdict;
use crate::writing::{write_bytes, write_id, write_number};
use sheet_json::Took;
use sheet_text::WriteFault;
use std::io::Write;

/// Writes the line of the version, which stands first.
pub(crate) fn write_version<W: Write>(out: &mut W) -> Result<(), WriteFault>
    ensures { OnOk result (Appends (W.contents out.old) (W.contents out.new) tap.version_line) }
{
    write_bytes(b"TAP version 13\n", out)
}

/// Writes the plan, which stands last.
#[tactic(auto, using(crate::proofs::Written::steps))]
pub(crate) fn write_plan<W: Write>(count: u64, out: &mut W) -> Result<(), WriteFault>
    ensures { OnOk result (Appends (W.contents out.old) (W.contents out.new)
        (tap.plan_line count)) }
{
    write_bytes(b"1..", out)?;
    write_number(count, out)?;
    write_bytes(b"\n", out)?;
    Ok(())
}

/// Writes whether a test point is passed.
fn write_result<W: Write>(verdict: Verdict, out: &mut W) -> Result<(), WriteFault>
    ensures { OnOk result
        (Appends (W.contents out.old) (W.contents out.new) (tap.result_words verdict)) }
{
    match verdict {
        Verdict::Same | Verdict::LeftOut | Verdict::New => write_bytes(b"ok ", out),
        Verdict::Differs | Verdict::Unanswered => write_bytes(b"not ok ", out),
    }
}

/// Writes the directive of a test point, where it has one, and the end of its line.
fn write_directive<W: Write>(verdict: Verdict, out: &mut W) -> Result<(), WriteFault>
    ensures { OnOk result
        (Appends (W.contents out.old) (W.contents out.new) (tap.directive verdict)) }
{
    match verdict {
        Verdict::LeftOut => write_bytes(b" # SKIP left out\n", out),
        Verdict::New => write_bytes(b" # SKIP new\n", out),
        Verdict::Same | Verdict::Differs | Verdict::Unanswered => write_bytes(b"\n", out),
    }
}

/// Writes the description of a test point.
#[tactic(auto, using(crate::proofs::Written::steps))]
fn write_description<W: Write>(id: u32, session: &[u8], out: &mut W) -> Result<(), WriteFault>
    ensures { OnOk result (Appends (W.contents out.old) (W.contents out.new)
        (tap.description id session.now)) }
{
    write_bytes(b" - field ", out)?;
    write_id(id, out)?;
    write_bytes(b" of ", out)?;
    write_bytes(session, out)?;
    Ok(())
}

/// Writes the line of a test point.
#[tactic(auto, using(crate::proofs::Written::steps))]
fn write_point_line<W: Write>(
    number: u64,
    id: u32,
    session: &[u8],
    verdict: Verdict,
    out: &mut W,
) -> Result<(), WriteFault>
    ensures { OnOk result (Appends (W.contents out.old) (W.contents out.new)
        (tap.point_line number id session.now verdict)) }
{
    write_result(verdict, out)?;
    write_number(number, out)?;
    write_description(id, session, out)?;
    write_directive(verdict, out)?;
    Ok(())
}

/// Writes a byte of a comment, and the mark in front of it where it is the first one of its line.
#[tactic(auto, using(crate::proofs::Written::steps))]
fn write_byte<W: Write>(begins: bool, byte: u8, out: &mut W) -> Result<(), WriteFault>
    ensures { OnOk result (Appends (W.contents out.old) (W.contents out.new)
        (tap.comment_byte begins byte)) }
{
    if begins {
        write_bytes(&[b'#', b' ', byte], out)
    } else {
        write_bytes(&[byte], out)
    }
}

/// Ends the last line of comments, where it isn't ended.
fn write_end<W: Write>(begins: bool, out: &mut W) -> Result<(), WriteFault>
    ensures { OnOk result (Appends (W.contents out.old) (W.contents out.new)
        (tap.comments_end begins)) }
{
    if begins {
        Ok(())
    } else {
        write_bytes(b"\n", out)
    }
}

/// Writes each line of a text as a comment.
#[tactic(auto, using(crate::proofs::Comments::comment_steps))]
fn write_comments<W: Write>(text: &[u8], out: &mut W) -> Result<(), WriteFault>
    ensures { OnOk result (Appends (W.contents out.old) (W.contents out.new)
        (tap.comments text.now)) }
{
    let mut rest = text;
    let mut begins = true;
    while let Some((byte, others)) = rest.split_first() {
        write_byte(begins, *byte, out)?;
        begins = *byte == b'\n';
        rest = others;
    }
    write_end(begins, out)?;
    Ok(())
}

/// Writes how many milliseconds an evaluation took.
#[tactic(auto, using(crate::proofs::Written::steps))]
fn write_duration<W: Write>(millis: u64, out: &mut W) -> Result<(), WriteFault>
    ensures { OnOk result (Appends (W.contents out.old) (W.contents out.new)
        (tap.duration_line millis)) }
{
    write_bytes(b"  duration_ms: ", out)?;
    write_number(millis, out)?;
    write_bytes(b"\n", out)?;
    Ok(())
}

/// Writes whether an interpreter was started for it.
fn write_started<W: Write>(started: bool, out: &mut W) -> Result<(), WriteFault>
    ensures { OnOk result (Appends (W.contents out.old) (W.contents out.new)
        (tap.started_line started)) }
{
    if started {
        write_bytes(b"  started: true\n", out)
    } else {
        write_bytes(b"  started: false\n", out)
    }
}

/// Writes what an evaluation took as a block of YAML.
#[tactic(auto, using(crate::proofs::Written::steps))]
fn write_yaml<W: Write>(took: Took, out: &mut W) -> Result<(), WriteFault>
    ensures { OnOk result (Appends (W.contents out.old) (W.contents out.new)
        (tap.yaml_block took)) }
{
    write_bytes(b"  ---\n", out)?;
    write_duration(took.millis, out)?;
    write_started(took.started, out)?;
    write_bytes(b"  ...\n", out)?;
    Ok(())
}

/// The same, where it is known.
#[tactic(auto, using(crate::proofs::Written::steps))]
fn write_took<W: Write>(took: Option<Took>, out: &mut W) -> Result<(), WriteFault>
    ensures { OnOk result (Appends (W.contents out.old) (W.contents out.new)
        (tap.took_block took)) }
{
    match took {
        None => Ok(()),
        Some(took) => write_yaml(took, out),
    }
}

/// Writes a test point, what it took, and what is reported of it as comments.
#[tactic(auto, using(crate::proofs::Written::steps))]
pub(crate) fn write_point<W: Write>(
    case: &Case<'_>,
    reported: &[u8],
    out: &mut W,
) -> Result<(), WriteFault>
    ensures { OnOk result (Appends (W.contents out.old) (W.contents out.new)
        (tap.tap_point case.now.number (point case.now.field.now.id case.now.field.now.session
        case.now.field.now.input case.now.verdict case.now.took reported.now))) }
{
    write_point_line(
        case.number,
        case.field.id,
        case.field.session.as_slice(),
        case.verdict,
        out,
    )?;
    write_took(case.took, out)?;
    write_comments(reported, out)?;
    Ok(())
}
