//! A report as lines of JSON.
ghost use Rattle.std.specs.Prelude.{◌≡◌, IfOk, IfSome, OnOk};
ghost use Rattle.std.specs.Io.KnownBytes.{Appends};
ghost use Rattle.serde_json.specs.View.{view};
ghost use Rattle.sheet_json.specs.Objects.{telling_data};
ghost use Rattle.sheet_json.specs.Sheets.{telling_line};
ghost use Rattle.check_report.specs.Json.{json_head, json_tail};
ghost use Rattle.check_report.specs.Reports.{case_in, telling_of};
ghost use Rattle.check_report.specs.inside.Closing.{first_part, second_part};

use crate::cases::Case;
use crate::verdict::{Verdict, VerdictCounts};
use crate::writing::{write_bytes, write_id};
use serde_json::Value;
use sheet_json::{
    differs_value, left_out_value, new_value, reported_bytes, same_value, unanswered_value,
};
use sheet_text::WriteFault;
use std::alloc::{AllocError, Global};
use std::io::Write;

/// What a field came to, as a value.
fn case_value(alloc: Global, case: &Case<'_>) -> Result<Value, AllocError>
    ensures { IfOk result (λ value. view value
        ≡ telling_data (telling_of (case_in case.now))) }
{
    match case.verdict {
        Verdict::Same => same_value(alloc, case.field, case.took),
        Verdict::Differs => differs_value(alloc, case.field, case.came, case.took),
        Verdict::Unanswered => unanswered_value(alloc, case.field, case.lost, case.took),
        Verdict::LeftOut => left_out_value(alloc, case.field, case.took),
        Verdict::New => new_value(alloc, case.field, case.came, case.took),
    }
}

/// The line of what a field came to, in memory. None where there is none for it.
pub(crate) fn case_in_memory(alloc: Global, case: &Case<'_>) -> Option<Vec<u8>>
    ensures { IfSome result (λ line. line.items
        ≡ telling_line (telling_of (case_in case.now))) }
{
    let Ok(value) = case_value(alloc, case) else {
        return None;
    };
    match reported_bytes(alloc, &value) {
        Ok(line) => Some(line),
        Err(_) => None,
    }
}

/// Writes what stands first.
pub(crate) fn write_hello<W: Write>(out: &mut W) -> Result<(), WriteFault>
    ensures { OnOk result (Appends (W.contents out.old) (W.contents out.new) json_head) }
{
    write_bytes(
        b"{\"format\":1,\"program\":\"tmhost\",\"protocol\":2,\"type\":\"hello\",\"version\":\"0.1.0\"}\n",
        out,
    )
}

/// Writes how many differ, how many are errors, and how many were left out.
#[tactic(auto, using(crate::proofs::Written::steps))]
fn write_first_part<W: Write>(counts: VerdictCounts, out: &mut W) -> Result<(), WriteFault>
    ensures { OnOk result (Appends (W.contents out.old) (W.contents out.new) (first_part counts)) }
{
    write_bytes(b"{\"differ\":", out)?;
    write_id(counts.differ, out)?;
    write_bytes(b",\"errors\":", out)?;
    write_id(counts.errors, out)?;
    write_bytes(b",\"left_out\":", out)?;
    write_id(counts.left_out, out)?;
    Ok(())
}

/// Writes the other counts, how many answers are new first, and what stands last.
#[tactic(auto, using(crate::proofs::Written::steps))]
fn write_second_part<W: Write>(counts: VerdictCounts, out: &mut W) -> Result<(), WriteFault>
    ensures { OnOk result (Appends (W.contents out.old) (W.contents out.new) (second_part counts)) }
{
    write_bytes(b",\"new\":", out)?;
    write_id(counts.new, out)?;
    write_bytes(b",\"same\":", out)?;
    write_id(counts.same, out)?;
    write_bytes(b",\"type\":\"compared\",\"unanswered\":", out)?;
    write_id(counts.unanswered, out)?;
    write_bytes(b"}\n{\"type\":\"end\"}\n", out)?;
    Ok(())
}

/// Writes the counts, and what stands last.
pub(crate) fn write_end<W: Write>(counts: VerdictCounts, out: &mut W) -> Result<(), WriteFault>
    ensures { OnOk result (Appends (W.contents out.old) (W.contents out.new) (json_tail counts)) }
{
    write_first_part(counts, out)?;
    write_second_part(counts, out)?;
    Ok(())
}
