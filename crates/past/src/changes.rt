//! A change that a payload is, and its line.
ghost use Rattle.std.specs.Prelude.{◌≡◌, ◌∷◌, ◌++◌, [], List, None, IfErr, IfOk, IsErrOf, OnErr, OnOk, codes};
ghost use Rattle.std.specs.Fmt.{decimal};
ghost use Rattle.sheet_text.specs.Replies.{reason_name};
ghost use Rattle.std.specs.Io.KnownBytes.{Appends};
ghost use Rattle.past.specs.History as printed;
ghost use Rattle.recovery.specs.Code.{IsPayloadOf};
ghost use Rattle.recovery.specs.Sheets.{Makes};
ghost use Rattle.recovery.specs.inside.Taken.{Refuses};
ghost use Rattle.worksheet.specs.Checks.{first_refusal};
ghost use Rattle.worksheet.specs.Ops.{sheet_of};
ghost use Rattle.worksheet.specs.declared.op.Op.{Op};

use block_tree::Reason;
use journal::{OpenCause, Payload};
use recovery::{DecodeFault, decode};
use sheet_text::{WriteFault, reason_name};
use std::alloc::Global;
use std::io::Write;
use worksheet::{Op, Sheet};

/// The op of a payload, where the worksheet so far allows it. A payload that is no op's, or whose op is
/// refused, is reported as `Damaged` with its gate.
pub(crate) fn op_of(alloc: Global, sheet: &Sheet, payload: &Payload) -> Result<Op, OpenCause>
    ensures own { IfOk result (λ op. IsPayloadOf op payload.now.bytes) }
    ensures allowed { IfOk result (λ op. first_refusal sheet.now.contents op ≡ None) }
    ensures refused { (ops : List Op) → Makes ops sheet.now.contents
        → IfErr result (Refuses ops payload.now) }
    ensures passing { IsErrOf result OpenCause.Disk → ⊥ }
{
    let op = match decode(alloc, payload.bytes.as_slice()) {
        Ok(op) => op,
        Err(DecodeFault::Unreadable) => return Err(OpenCause::Damaged(payload.gate)),
        Err(DecodeFault::OutOfMemory) => return Err(OpenCause::OutOfMemory),
    };
    if sheet.check(&op).is_err() {
        return Err(OpenCause::Damaged(payload.gate));
    }
    Ok(op)
}

/// Does an op that the worksheet allows.
pub(crate) fn do_op(sheet: &mut Sheet, op: Op) -> Result<(), OpenCause>
    requires { first_refusal sheet.old.contents op ≡ None }
    ensures ok { (ops : List Op) → sheet.old.contents ≡ sheet_of ops
        → OnOk result (sheet.new.contents ≡ sheet_of (ops ++ op ∷ [])) }
    ensures as_before { OnErr result (sheet.new.contents ≡ sheet.old.contents) }
    ensures cause { IfErr result (λ cause. cause ≡ OpenCause.OutOfMemory) }
{
    match sheet.apply(op) {
        Ok(()) => Ok(()),
        Err(_) => Err(OpenCause::OutOfMemory),
    }
}

/// A word, and the name of a session after it.
fn write_named<W: Write>(word: &[u8], name: &[u8], out: &mut W) -> Result<(), WriteFault>
    ensures { OnOk result
        (Appends (W.contents out.old) (W.contents out.new) (word.now ++ name.now)) }
{
    out.write_all(word).map_err(|_| WriteFault)?;
    out.write_all(name).map_err(|_| WriteFault)
}

/// That an interpreter's life ended before a field was answered, and why.
fn write_lost<W: Write>(id: u32, reason: Reason, out: &mut W) -> Result<(), WriteFault>
    ensures { OnOk result (Appends (W.contents out.old) (W.contents out.new)
        (codes "lost " ++ decimal id ++ codes " " ++ reason_name reason)) }
{
    let name = reason_name(reason);
    write!(out, "lost {id} {name}").map_err(|_| WriteFault)
}

/// What an op changes, where the next new field has this number.
fn write_change<W: Write>(op: &Op, next: u32, out: &mut W) -> Result<(), WriteFault>
    ensures { OnOk result (Appends (W.contents out.old) (W.contents out.new)
        (printed.text_of_change next op.now)) }
{
    match op {
        Op::Session { name, .. } => write_named(b"session ", name.as_slice(), out),
        Op::New { session, .. } => {
            write!(out, "new {next}").map_err(|_| WriteFault)?;
            write_named(b" ", session.as_slice(), out)
        }
        Op::Set { id, .. } => write!(out, "set {id}").map_err(|_| WriteFault),
        Op::Remove { id } => write!(out, "remove {id}").map_err(|_| WriteFault),
        Op::Move { id, after } => write!(out, "move {id} {after}").map_err(|_| WriteFault),
        Op::Clear { id } => write!(out, "eval {id}").map_err(|_| WriteFault),
        Op::Answer { id, .. } => write!(out, "answered {id}").map_err(|_| WriteFault),
        Op::Lost { id, reason } => write_lost(*id, *reason, out),
        Op::Ids { next } => write!(out, "ids {next}").map_err(|_| WriteFault),
    }
}

/// The line of the change with this number, where the next new field has the number `next`.
pub(crate) fn write_line<W: Write>(
    number: u64,
    op: &Op,
    next: u32,
    out: &mut W,
) -> Result<(), WriteFault>
    ensures { OnOk result (Appends (W.contents out.old) (W.contents out.new)
        (printed.change_line number next op.now)) }
{
    write!(out, "{number} ").map_err(|_| WriteFault)?;
    write_change(op, next, out)?;
    out.write_all(b"\n").map_err(|_| WriteFault)
}
