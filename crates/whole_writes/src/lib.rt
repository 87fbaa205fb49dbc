//! Bytes that go out whole, or a beginning of them.
#![tactic(auto)]

ghost use Rattle.std.specs.Prelude.{OnOk};
ghost use Rattle.std.specs.Io.KnownBytes.{Appends};
ghost use Rattle.whole_writes.specs.Fronts.{BeganWith};

use std::io::{Error, ErrorKind, Result, Write};

/// Writes all of these bytes, as `write_all` of the standard library does: a write that was interrupted is tried again, and one that
/// takes nothing is a failure. The library says nothing of a writer that failed. Here a beginning of the bytes went out, and nothing else.
///
/// `Err` with what the writer gave, or `WriteZero`.
#[tactic(auto, using(crate::proofs::Writing::write_steps))]
pub fn write_whole<W: Write>(writer: &mut W, bytes: &[u8]) -> Result<()>
    ensures ok { OnOk result (Appends (W.contents writer.old) (W.contents writer.new) bytes.now) }
    ensures front { BeganWith (W.contents writer.old) (W.contents writer.new) bytes.now }
{
    let mut rest = bytes;
    for _ in 0..u64::MAX {
        if rest.is_empty() {
            return Ok(());
        }
        match writer.write(rest) {
            Ok(0) => break,
            Ok(taken) => (_, rest) = rest.split_at(taken),
            Err(why) => {
                if why.kind() != ErrorKind::Interrupted {
                    return Err(why);
                }
            }
        }
    }
    Err(Error::from(ErrorKind::WriteZero))
}
