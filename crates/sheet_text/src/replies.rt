//! Replies as they are printed.
ghost use Rattle.std.specs.Prelude.{◌≡◌, ◌∷◌, OnOk};
ghost use Rattle.std.specs.Io.KnownBytes.{Appends};
ghost use Rattle.sheet_text.specs.Texts as printed;
ghost use Rattle.sheet_text.specs.Replies as child;
ghost use Rattle.sheet_text.specs.Escape.{in_quotes};

use crate::escape::{write_line, write_quoted};
use crate::fault::WriteFault;
use block_tree::Octets;
use host_events::{ChildReply, Closed, Reply};
use plugin_core::{Ended, Reason};
use scheme_text::{BadCompletion, Completions};
use std::io::Write;
use worksheet::Name;

/// The name of the reason why a life ended.
pub fn reason_name(reason: Reason) -> &'static str
    ensures { result.now ≡ child.reason_name reason }
{
    match reason {
        Reason::StartRefused => "StartRefused",
        Reason::Ended => "Ended",
        Reason::ReadFault => "ReadFault",
        Reason::SendFault => "SendFault",
        Reason::Stalled => "Stalled",
        Reason::BadTag => "BadTag",
        Reason::TooDeep => "TooDeep",
        Reason::TooLong => "TooLong",
        Reason::Stopped => "Stopped",
    }
}

/// Writes the line of a banner.
#[tactic(auto, using(crate::proofs::Appending::steps))]
fn write_banner<W: Write>(name: Name, out: &mut W) -> Result<(), WriteFault>
    ensures { OnOk result
        (Appends (W.contents out.old) (W.contents out.new) (child.banner_line name)) }
{
    out.write_all(b"banner ").map_err(|_| WriteFault)?;
    out.write_all(name.as_slice()).map_err(|_| WriteFault)?;
    out.write_all(b"\n").map_err(|_| WriteFault)?;
    Ok(())
}

/// Writes texts between quotes, each after a space.
fn write_texts<W: Write>(texts: &[Octets], out: &mut W) -> Result<(), WriteFault>
    ensures { OnOk result
        (Appends (W.contents out.old) (W.contents out.new) (child.spaced_texts texts.now)) }
{
    for text in texts {
        write_spaced(text.as_slice(), out)?;
    }
    Ok(())
}

/// Writes a space, and a text between quotes.
#[tactic(auto, using(crate::proofs::Appending::steps))]
fn write_spaced<W: Write>(text: &[u8], out: &mut W) -> Result<(), WriteFault>
    ensures { OnOk result
        (Appends (W.contents out.old) (W.contents out.new) (32 ∷ in_quotes text.now)) }
{
    out.write_all(b" ").map_err(|_| WriteFault)?;
    write_quoted(text, out)?;
    Ok(())
}

/// Writes what an answer to a request for completions gave.
#[tactic(auto, using(crate::proofs::Appending::steps))]
fn write_completed<W: Write>(
    id: u32,
    reported: &Result<Completions, BadCompletion>,
    out: &mut W,
) -> Result<(), WriteFault>
    ensures { OnOk result
        (Appends (W.contents out.old) (W.contents out.new) (child.completed_line id reported.now)) }
{
    write!(out, "completed {id}").map_err(|_| WriteFault)?;
    match reported {
        Ok(reported) => {
            write_spaced(reported.root.as_slice(), out)?;
            write_texts(reported.rest.as_slice(), out)?;
        }
        Err(_) => out.write_all(b" bad").map_err(|_| WriteFault)?,
    }
    out.write_all(b"\n").map_err(|_| WriteFault)?;
    Ok(())
}

/// Writes what an answer closed.
fn write_closed<W: Write>(
    name: Name,
    closed: &Option<Closed>,
    out: &mut W,
) -> Result<(), WriteFault>
    ensures { OnOk result
        (Appends (W.contents out.old) (W.contents out.new) (child.closed_line name closed.now)) }
{
    match closed {
        None => Ok(()),
        Some(Closed::Banner(_)) => write_banner(name, out),
        Some(Closed::Line(id)) => writeln!(out, "answered {id}").map_err(|_| WriteFault),
        Some(Closed::Complete(id, reported)) => write_completed(*id, reported, out),
    }
}

/// Writes a default input.
#[tactic(auto, using(crate::proofs::Appending::steps))]
fn write_default<W: Write>(
    name: Name,
    input: &Option<Octets>,
    out: &mut W,
) -> Result<(), WriteFault>
    ensures { OnOk result
        (Appends (W.contents out.old) (W.contents out.new) (child.default_line name input.now)) }
{
    let Some(input) = input else {
        return Ok(());
    };
    out.write_all(b"default ").map_err(|_| WriteFault)?;
    out.write_all(name.as_slice()).map_err(|_| WriteFault)?;
    out.write_all(b" ").map_err(|_| WriteFault)?;
    write_line(input.as_slice(), out)?;
    out.write_all(b"\n").map_err(|_| WriteFault)?;
    Ok(())
}

/// Writes the end of a life.
#[tactic(auto, using(crate::proofs::Appending::steps))]
fn write_ended<W: Write>(name: Name, ended: &Option<Ended>, out: &mut W) -> Result<(), WriteFault>
    ensures { OnOk result
        (Appends (W.contents out.old) (W.contents out.new) (child.ended_line name ended.now)) }
{
    let Some(ended) = ended else {
        return Ok(());
    };
    out.write_all(b"ended ").map_err(|_| WriteFault)?;
    out.write_all(name.as_slice()).map_err(|_| WriteFault)?;
    writeln!(
        out,
        " {} lost {}",
        reason_name(ended.reason),
        ended.lost.len()
    )
    .map_err(|_| WriteFault)?;
    Ok(())
}

/// Writes what is printed of a life.
#[tactic(auto, using(crate::proofs::Appending::steps))]
fn write_child<W: Write>(reported: &ChildReply, out: &mut W) -> Result<(), WriteFault>
    ensures { OnOk result
        (Appends (W.contents out.old) (W.contents out.new) (child.child_text reported.now)) }
{
    write_closed(reported.name, &reported.closed, out)?;
    write_default(reported.name, &reported.default_input, out)?;
    write_ended(reported.name, &reported.ended, out)?;
    Ok(())
}

/// Writes the lines of a reply: `ok`, `field ID`, `asked`, `refused N NAME` with the number and the
/// name of the refusal, or what came of a life, of which each line is written that there is:
/// `banner NAME` or `answered ID` or `completed ID TEXTS`, `default NAME TEXT`, `ended NAME REASON
/// lost N`. A reply that nothing came of has no line.
///
/// After a `WriteFault` a part of the text may have gone out.
pub fn reply_text<W: Write>(reply: &Reply, out: &mut W) -> Result<(), WriteFault>
    ensures { OnOk result
        (Appends (W.contents out.old) (W.contents out.new) (printed.reply_text reply.now)) }
{
    match reply {
        Reply::Done => out.write_all(b"ok\n").map_err(|_| WriteFault)?,
        Reply::Field(id) => writeln!(out, "field {id}").map_err(|_| WriteFault)?,
        Reply::Asked(_) => out.write_all(b"asked\n").map_err(|_| WriteFault)?,
        Reply::Refused(refusal) => {
            writeln!(out, "refused {} {}", refusal.number(), refusal.name()).map_err(
                |_| WriteFault,
            )?
        }
        Reply::Child(reported) => write_child(reported, out)?,
        Reply::Nothing => {}
    }
    Ok(())
}
