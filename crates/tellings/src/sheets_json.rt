//! A host's worksheet, as lines of JSON.
ghost use Rattle.std.specs.Prelude.{◌≡◌, IfErr, IfOk, OnOk, Option, map, true};
ghost use Rattle.std.specs.Option.{option_map};
ghost use Rattle.std.specs.Io.KnownBytes.{Appends};
ghost use Rattle.serde_json.specs.View.{view};
ghost use Rattle.session_engine.specs.World.{Going, World, sheet_in};
ghost use Rattle.child_edge.specs.Seats.{life_view};
ghost use Rattle.session_engine.specs.Host.{IsHost};
ghost use Rattle.worksheet.specs.Checks.{field_in};
ghost use Rattle.sheet_json.specs.Objects.{session_data, telling_data};
ghost use Rattle.tellings.specs.Json as texts;
ghost use Rattle.tellings.specs.Voice.{CutShort, IsWithheld, Unwritten, WroteLine};

use crate::writing::write_made;
use disk_model::Disk;
use offline_programs::RunFault;
use serde_json::Value;
use session_engine::Host;
use session_engine::host::LifeView;
use sheet_json::{asked_field_value, part_value, refused_value, session_value, sheet_value};
use std::alloc::{AllocError, Global};
use std::io::Write;
use worksheet::{Field, Refusal, Session, Sheet};

/// One field of a print.
fn write_part<D: Disk, W: Write>(
    alloc: Global,
    line: u64,
    host: &Host<D>,
    field: &Field,
    writer: &mut W,
) -> Result<(), RunFault>
    ensures wrote { (w : World) → IsHost host.now w
        → WroteLine result (W.contents writer.old) (W.contents writer.new)
        (texts.part_line line w field.now) }
    ensures err { IfErr result (IsWithheld texts.in_json) }
    ensures unwritten { IfErr result (Unwritten writer.old writer.new) }
{
    let waits = host.is_waiting(field.id);
    write_made(alloc, part_value(alloc, line, field, waits), writer)
}

/// The fields of this worksheet, which is the host's, in order.
fn write_parts<D: Disk, W: Write>(
    alloc: Global,
    line: u64,
    host: &Host<D>,
    sheet: &Sheet,
    writer: &mut W,
) -> Result<(), RunFault>
    ensures ok { (w : World) → IsHost host.now w
        → OnOk result (Appends (W.contents writer.old) (W.contents writer.new)
        (texts.parts_text line w sheet.now.contents.fields)) }
    ensures err { IfErr result (IsWithheld texts.in_json) }
    ensures cut { (w : World) → IsHost host.now w
        → IfErr result (CutShort true (W.contents writer.old) (W.contents writer.new)
        (texts.parts_text line w sheet.now.contents.fields)) }
{
    let mut fields = sheet.fields();
    while let Some(field) = fields.next() {
        write_part(alloc, line, host, field, writer)?;
    }
    Ok(())
}

/// The number of a life, and how many items wait in it.
fn life_shown(life: Option<LifeView>) -> (Option<u32>, u32)
    ensures number { result.0 ≡ option_map (λ l. l.number) life }
    ensures waiting { (l : Option Going) → life ≡ option_map life_view l
        → result.1 ≡ texts.waiting_count l }
{
    match life {
        None => (None, 0),
        Some(life) => (Some(life.number), life.waiting),
    }
}

/// A session, with its life.
fn session_row<D: Disk>(
    alloc: Global,
    host: &Host<D>,
    session: &Session,
) -> Result<Value, AllocError>
    ensures { (w : World) → IsHost host.now w
        → IfOk result (λ value. view value ≡ session_data (texts.session_at w session.now)) }
{
    let (life, waiting) = life_shown(host.life(session.name));
    session_value(alloc, session, life, waiting)
}

/// The sessions of this worksheet, which is the host's, in order.
fn session_rows<D: Disk>(
    alloc: Global,
    host: &Host<D>,
    sheet: &Sheet,
) -> Result<Vec<Value>, AllocError>
    ensures { (w : World) → IsHost host.now w → IfOk result (λ rows. map view rows.items
        ≡ map session_data (map (texts.session_at w) sheet.now.contents.sessions)) }
{
    let mut rows = Vec::new(alloc);
    let mut sessions = sheet.sessions();
    while let Some(session) = sessions.next() {
        let row = session_row(alloc, host, session)?;
        rows.push(row)?;
    }
    Ok(rows)
}

/// What the fields and sessions are together.
fn whole<D: Disk>(alloc: Global, line: u64, host: &Host<D>) -> Result<Value, AllocError>
    ensures { (w : World) → IsHost host.now w
        → IfOk result (λ value. view value ≡ telling_data (texts.whole_reported line w)) }
{
    let rows = session_rows(alloc, host, host.sheet())?;
    sheet_value(alloc, line, host.sheet(), rows)
}

/// The worksheet, for which this line asks.
pub(crate) fn write_sheet<D: Disk, W: Write>(
    alloc: Global,
    line: u64,
    host: &Host<D>,
    writer: &mut W,
) -> Result<(), RunFault>
    ensures ok { (w : World) → IsHost host.now w
        → OnOk result (Appends (W.contents writer.old) (W.contents writer.new)
        (texts.sheet_json line w)) }
    ensures err { IfErr result (IsWithheld texts.in_json) }
    ensures cut { (w : World) → IsHost host.now w
        → IfErr result (CutShort true (W.contents writer.old) (W.contents writer.new)
        (texts.sheet_json line w)) }
{
    write_parts(alloc, line, host, host.sheet(), writer)?;
    write_made(alloc, whole(alloc, line, host), writer)?;
    Ok(())
}

/// The field with this number, for which this line asks, or that there is none.
pub(crate) fn write_field<D: Disk, W: Write>(
    alloc: Global,
    line: u64,
    id: u32,
    host: &Host<D>,
    writer: &mut W,
) -> Result<(), RunFault>
    ensures wrote { (w : World) → IsHost host.now w
        → WroteLine result (W.contents writer.old) (W.contents writer.new)
        (texts.field_json line w (field_in (sheet_in w).fields id)) }
    ensures err { IfErr result (IsWithheld texts.in_json) }
    ensures unwritten { IfErr result (Unwritten writer.old writer.new) }
{
    match host.sheet().field(id) {
        Some(field) => {
            let waits = host.is_waiting(field.id);
            write_made(alloc, asked_field_value(alloc, line, field, waits), writer)
        }
        None => write_made(alloc, refused_value(alloc, line, Refusal::NoField), writer),
    }
}
