//! Lines of JSON, each made whole before its first byte is written.
ghost use Rattle.std.specs.Prelude.{◌≡◌, ℕ, IfErr, IfOk, List, Option, option_map};
ghost use Rattle.serde_json.specs.View.{view};
ghost use Rattle.sheet_json.specs.Objects.{event_data, telling_data};
ghost use Rattle.sheet_json.specs.Sheets.{telling_line};
ghost use Rattle.sheet_json.specs.Tellings.{EventReported, Telling};
ghost use Rattle.tellings.specs.Json.{event_line, in_json};
ghost use Rattle.tellings.specs.Voice.{IsWithheld, Unwritten, WroteLine};

use offline_programs::RunFault;
use serde_json::Value;
use sheet_json::reported_bytes;
use std::alloc::{AllocError, Global};
use std::io::Write;
use whole_writes::write_whole;

/// Writes a line that is made. Where the writer fails a beginning of it went out.
#[tactic(auto, using(crate::proofs::Cut::cut_steps))]
fn write_bytes<W: Write>(bytes: &[u8], writer: &mut W) -> Result<(), RunFault>
    ensures wrote { WroteLine result (W.contents writer.old) (W.contents writer.new) bytes.now }
    ensures err { IfErr result (λ why. why ≡ RunFault.Output) }
{
    match write_whole(writer, bytes) {
        Ok(()) => Ok(()),
        Err(_) => Err(RunFault::Output),
    }
}

/// Writes a value on its line.
fn write_line<W: Write>(alloc: Global, value: &Value, writer: &mut W) -> Result<(), RunFault>
    ensures wrote { (t : Telling) → view value.now ≡ telling_data t
        → WroteLine result (W.contents writer.old) (W.contents writer.new) (telling_line t) }
    ensures err { IfErr result (IsWithheld in_json) }
    ensures unwritten { IfErr result (Unwritten writer.old writer.new) }
{
    match reported_bytes(alloc, value) {
        Ok(bytes) => write_bytes(bytes.as_slice(), writer),
        Err(_) => Err(RunFault::OutOfMemory),
    }
}

/// Writes what was made on its line.
pub(crate) fn write_made<W: Write>(
    alloc: Global,
    made: Result<Value, AllocError>,
    writer: &mut W,
) -> Result<(), RunFault>
    ensures wrote { (t : Telling) → IfOk made (λ value. view value ≡ telling_data t)
        → WroteLine result (W.contents writer.old) (W.contents writer.new) (telling_line t) }
    ensures err { IfErr result (IsWithheld in_json) }
    ensures unwritten { IfErr result (Unwritten writer.old writer.new) }
{
    match made {
        Ok(value) => write_line(alloc, &value, writer),
        Err(_) => Err(RunFault::OutOfMemory),
    }
}

/// Writes what was made of a life, where anything was.
pub(crate) fn write_if<W: Write>(
    alloc: Global,
    made: Result<Option<Value>, AllocError>,
    writer: &mut W,
) -> Result<(), RunFault>
    ensures wrote { (session : List ℕ) (life : ℕ) (e : Option EventReported)
        → IfOk made (λ value. option_map view value ≡ option_map (event_data session life) e)
        → WroteLine result (W.contents writer.old) (W.contents writer.new)
        (event_line session life e) }
    ensures err { IfErr result (IsWithheld in_json) }
    ensures unwritten { IfErr result (Unwritten writer.old writer.new) }
{
    match made {
        Ok(Some(value)) => write_line(alloc, &value, writer),
        Ok(None) => Ok(()),
        Err(_) => Err(RunFault::OutOfMemory),
    }
}
