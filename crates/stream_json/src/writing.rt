//! Lines of JSON, each made whole before its first byte is written.
ghost use Rattle.std.specs.Prelude.{◌≡◌, IfErr, IfOk, OnOk, false};
ghost use Rattle.std.specs.Io.KnownBytes.{Appends};
ghost use Rattle.serde_json.specs.Data.{Data};
ghost use Rattle.serde_json.specs.View.{view};
ghost use Rattle.serde_json.specs.Written.{has_float};
ghost use Rattle.sheet_json.specs.Lines.{json_line};
ghost use Rattle.stream_json.specs.StreamObjects.{IsUnwritten};

use offline_programs::RunFault;
use serde_json::Value;
use sheet_json::line_bytes;
use std::alloc::{AllocError, Global};
use std::io::Write;

/// Writes a value on its line.
fn write_line<W: Write>(alloc: Global, value: &Value, out: &mut W) -> Result<(), RunFault>
    ensures ok { has_float (view value.now) ≡ false
        → OnOk result (Appends (W.contents out.old) (W.contents out.new)
        (json_line (view value.now))) }
    ensures err { IfErr result IsUnwritten }
{
    match line_bytes(alloc, value) {
        Ok(bytes) => out
            .write_all(bytes.as_slice())
            .map_err(|_| RunFault::Output),
        Err(_) => Err(RunFault::OutOfMemory),
    }
}

/// Writes what was made on its line.
pub(crate) fn write_made<W: Write>(
    alloc: Global,
    made: Result<Value, AllocError>,
    out: &mut W,
) -> Result<(), RunFault>
    ensures ok { (d : Data) → has_float d ≡ false → IfOk made (λ value. view value ≡ d)
        → OnOk result (Appends (W.contents out.old) (W.contents out.new) (json_line d)) }
    ensures err { IfErr result IsUnwritten }
{
    match made {
        Ok(value) => write_line(alloc, &value, out),
        Err(_) => Err(RunFault::OutOfMemory),
    }
}
