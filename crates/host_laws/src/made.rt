//! Calls whose contracts say with one word of these laws what those of the host and of the journal say in several.
ghost use Rattle.std.specs.Prelude.{◌≤◌, List, [], IfOk};
ghost use Rattle.disk_model.specs.Disk.{InModel, Leaves, bytes_on};
ghost use Rattle.worksheet.specs.declared.op.Op.{Op};
ghost use Rattle.worksheet.specs.Ops.{sheet_of};
ghost use Rattle.recovery.specs.Sheets.{IsSheetImage};
ghost use Rattle.host_laws.specs.OneHost.{JustOpened};
ghost use Rattle.host_laws.specs.Together.{GroupMeets, JoinedMeets, UpToMeets, WholeMeets};
ghost use Rattle.session_engine.specs.World.{World};
ghost use Rattle.session_engine.specs.Host.{IsHost};
ghost use Rattle.session_engine.specs.Joining.{ToBeTaken, TookJoined, asking};

use disk_model::Disk;
use host_events::{Event, Outcome};
use journal::{CreateFault, OpenFault, create};
use session_engine::{Edits, GroupFault, Host, JoinFault, Joins, Joint, Whole, WholeFault};
use std::alloc::Global;

/// A host that is opened was just opened on the image that its disk had: from there the laws of turns go on.
pub fn opened_host<D: Disk>(alloc: Global, disk: D) -> Result<Host<D>, OpenFault<D>>
    ensures { InModel (D.view disk) (IfOk result (λ host. (found : List Op)
        × JustOpened (D.view disk).room (bytes_on (D.view disk)) found host)) }
{
    Host::open(alloc, disk)
}

/// A crash after a worksheet was made leaves one without sessions and fields.
pub fn created_disk<D: Disk>(disk: D) -> Result<D, CreateFault<D>>
    requires { 11 ≤ (D.view disk).room }
    ensures { InModel (D.view disk)
        (IfOk result (λ d. Leaves (IsSheetImage (sheet_of [])) (D.view d).history.now)) }
{
    create(disk)
}

/// Between two calls nothing is owed to a host's disk, so a group that is played is one of which the laws of turns speak. The calls
/// of `sheet` are made for their contracts alone, which say that.
pub fn played_group<D: Disk>(
    host: &mut Host<D>,
    events: Vec<Event>,
) -> Result<Vec<Outcome>, GroupFault>
    ensures { GroupMeets events.items host.old result host.new }
{
    let _before = host.sheet();
    let played = host.play_group(events);
    let _after = host.sheet();
    played
}

/// The same of a group that stops at a refusal.
pub fn played_group_up_to<D: Disk>(
    host: &mut Host<D>,
    events: Vec<Event>,
) -> Result<Vec<Outcome>, GroupFault>
    ensures { UpToMeets events.items host.old result host.new }
{
    let _before = host.sheet();
    let played = host.play_group_up_to(events);
    let _after = host.sheet();
    played
}

/// The same of commands that are taken as a whole or not at all.
pub fn played_whole<D: Disk>(host: &mut Host<D>, edits: Edits) -> Result<Whole, WholeFault>
    ensures { WholeMeets edits host.old result host.new }
{
    let _before = host.sheet();
    let played = host.play_whole(edits);
    let _after = host.sheet();
    played
}

/// The same of events that others join, of a world that the host stands for: what joins them was answered by that, and nothing else is taken.
pub fn played_joining<D: Disk, J: Joins>(
    host: &mut Host<D>,
    events: Vec<Event>,
    joins: &mut J,
) -> Result<Joint, JoinFault>
    ensures meets { (w : World) → IsHost host.old w → (all : List Event)
        × ToBeTaken (asking J.joins joins.old joins.new) w events.items all
        × JoinedMeets w all host.old result host.new }
    ensures joined { (w : World) → IsHost host.old w → IfOk result
        (TookJoined (asking J.joins joins.old joins.new) w events.items host.old host.new) }
{
    let _before = host.sheet();
    let played = host.play_joining(events, joins);
    let _after = host.sheet();
    played
}
