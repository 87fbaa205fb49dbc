//! The worksheet at a path as it was, and the list of its changes.
ghost use Rattle.std.specs.Prelude.{◌≡◌, []};
ghost use Rattle.command_words.specs.Asked as asked;
ghost use Rattle.sheet_export.specs.Formats as exports;
ghost use Rattle.host_cli.specs.Tasks.{DoesExportAt, DoesHistory, DoesRestore, DoesShowAt, ExportsAfter, ExportsPast, RestoresAfter, ShowsAfter};
ghost use Rattle.host_cli.specs.WholeProgram.{LeavesAlone};

use crate::outside::{Outside, System, SystemView};
use crate::refusing::{refuse_changes, refuse_format};
use program_endings::{
    Ending, ExportForm, end_past, end_unheld, read_past, run_export_past, run_history, run_rescue,
    run_show_past,
};
use sheet_export::{Format, format_named, last_part};
use sheet_files::Places;
use sheet_text::read_number;
use std::alloc::Global;

/// `history` of the worksheet at a path.
pub(crate) fn history_at<Y: System>(alloc: Global, outside: &mut Outside<Y>, path: &str) -> Ending
    ensures does { DoesHistory ⟦<Y as SystemView>⟧.outer outside.old outside.new result path.now }
    ensures leaves { LeavesAlone outside.old outside.new (asked.history path.now) }
{
    match outside.places.hold() {
        Ok(()) => run_history(
            alloc,
            outside.places.open_to_read(path),
            &mut outside.output,
            &mut outside.errors,
        ),
        Err(why) => end_unheld(why, &mut outside.errors),
    }
}

/// `show` of the worksheet at a path after its first so many changes.
fn show_after<Y: System>(
    alloc: Global,
    outside: &mut Outside<Y>,
    path: &str,
    changes: u32,
) -> Ending
    ensures does { ShowsAfter ⟦<Y as SystemView>⟧.outer outside.old outside.new result path.now
        changes }
    ensures leaves { LeavesAlone outside.old outside.new (asked.show_at path.now []) }
{
    if let Err(why) = outside.places.hold() {
        return end_unheld(why, &mut outside.errors);
    }
    match read_past(alloc, outside.places.open_to_read(path), u64::from(changes)) {
        Ok(found) => run_show_past(found, &mut outside.output, &mut outside.errors),
        Err(why) => end_past(why, &mut outside.errors),
    }
}

/// `show --at` with this number.
pub(crate) fn show_past_at<Y: System>(
    alloc: Global,
    outside: &mut Outside<Y>,
    path: &str,
    changes: &str,
) -> Ending
    ensures does { DoesShowAt ⟦<Y as SystemView>⟧.outer outside.old outside.new result path.now
        changes.now }
    ensures leaves { LeavesAlone outside.old outside.new (asked.show_at path.now changes.now) }
{
    match read_number(changes.as_bytes()) {
        Some(changes) => show_after(alloc, outside, path, changes),
        None => refuse_changes(&mut outside.errors),
    }
}

/// This format, with the last part of a path as the title.
pub(crate) fn titled<'a>(format: Format, path: &'a str) -> ExportForm<'a>
    ensures { (result.format ≡ format) × (result.title.now ≡ exports.last_part path.now) }
{
    ExportForm {
        format,
        title: last_part(path.as_bytes()),
    }
}

/// `export` of the worksheet at a path after its first so many changes.
fn export_after<Y: System>(
    alloc: Global,
    outside: &mut Outside<Y>,
    format: Format,
    path: &str,
    changes: u32,
) -> Ending
    ensures does { ExportsAfter ⟦<Y as SystemView>⟧.outer outside.old outside.new result path.now
        format changes }
    ensures leaves { LeavesAlone outside.old outside.new (asked.export_at [] path.now []) }
{
    if let Err(why) = outside.places.hold() {
        return end_unheld(why, &mut outside.errors);
    }
    match read_past(alloc, outside.places.open_to_read(path), u64::from(changes)) {
        Ok(found) => run_export_past(
            alloc,
            found,
            &titled(format, path),
            &mut outside.output,
            &mut outside.errors,
        ),
        Err(why) => end_past(why, &mut outside.errors),
    }
}

/// `export` in a named format of the worksheet at a path after its first so many changes, of which this is the number as it is written.
pub(crate) fn export_as_past<Y: System>(
    alloc: Global,
    outside: &mut Outside<Y>,
    format: Format,
    path: &str,
    changes: &str,
) -> Ending
    ensures does { ExportsPast ⟦<Y as SystemView>⟧.outer outside.old outside.new result path.now
        changes.now format }
    ensures leaves { LeavesAlone outside.old outside.new (asked.export_at [] path.now changes.now) }
{
    match read_number(changes.as_bytes()) {
        Some(changes) => export_after(alloc, outside, format, path, changes),
        None => refuse_changes(&mut outside.errors),
    }
}

/// `export --at` in the format of this name.
pub(crate) fn export_past_at<Y: System>(
    alloc: Global,
    outside: &mut Outside<Y>,
    name: &str,
    path: &str,
    changes: &str,
) -> Ending
    ensures does { DoesExportAt ⟦<Y as SystemView>⟧.outer outside.old outside.new result name.now
        path.now changes.now }
    ensures leaves { LeavesAlone outside.old outside.new (asked.export_at name.now path.now
        changes.now) }
{
    match format_named(name) {
        Some(format) => export_as_past(alloc, outside, format, path, changes),
        None => refuse_format(&mut outside.errors),
    }
}

/// `restore` from a path to a new one, which is made only where there are so many changes.
fn restore_after<Y: System>(
    alloc: Global,
    outside: &mut Outside<Y>,
    path: &str,
    changes: u32,
    new: &str,
) -> Ending
    ensures does { RestoresAfter ⟦<Y as SystemView>⟧.outer outside.old outside.new result path.now
        new.now changes }
    ensures leaves { LeavesAlone outside.old outside.new (asked.restore path.now [] new.now) }
{
    if let Err(why) = outside.places.hold() {
        return end_unheld(why, &mut outside.errors);
    }
    match read_past(alloc, outside.places.open_to_read(path), u64::from(changes)) {
        Ok(found) => run_rescue(
            alloc,
            found,
            outside.places.create(new),
            &mut outside.output,
            &mut outside.errors,
        ),
        Err(why) => end_past(why, &mut outside.errors),
    }
}

/// `restore` with this number.
pub(crate) fn restore_at<Y: System>(
    alloc: Global,
    outside: &mut Outside<Y>,
    path: &str,
    changes: &str,
    new: &str,
) -> Ending
    ensures does { DoesRestore ⟦<Y as SystemView>⟧.outer outside.old outside.new result path.now
        changes.now new.now }
    ensures leaves { LeavesAlone outside.old outside.new (asked.restore path.now changes.now
        new.now) }
{
    match read_number(changes.as_bytes()) {
        Some(changes) => restore_after(alloc, outside, path, changes, new),
        None => refuse_changes(&mut outside.errors),
    }
}
