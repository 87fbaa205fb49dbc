//! What a field came to is accepted: its answer is put into the worksheet on the disk, and then reported.
ghost use Rattle.std.specs.Prelude.{◌≡◌, ◌++◌, List, IfErr, IfOk, IfSome, OnOk, false, true};
ghost use Rattle.std.specs.Io.KnownBytes.{Appends};
ghost use Rattle.disk_model.specs.Disk.{DiskView};
ghost use Rattle.worksheet.specs.declared.op.Op.{Op};
ghost use Rattle.worksheet.specs.Checks.{has_field};
ghost use Rattle.worksheet.specs.Laws.{HasShortPrompt};
ghost use Rattle.session_engine.specs.World.{World};
ghost use Rattle.session_engine.specs.Host.{IsHost};
ghost use Rattle.child_edge.specs.Faithful.{at};
ghost use Rattle.live.specs.Records.{left};
ghost use Rattle.sheet_check.specs.Kept.{Stores};
ghost use Rattle.check_report.specs.Chosen.{is_chosen};
ghost use Rattle.check_report.specs.declared.report.ReportFormat.TheVariants as format;
ghost use Rattle.sheet_check.specs.Accept.{accepted_answer, accepting_by, answer_ops};
ghost use Rattle.sheet_check.specs.Evaluated.{came_if, reason_shown_in, shown_in};
ghost use Rattle.sheet_check.specs.Progress.{LeavesLine, MakesRoom};
ghost use Rattle.sheet_check.specs.inside.Accepting.{FieldBroke, Finds, NotPut, NotTaken, Puts, ShownTook, StampedSo, fault_of_acceptance, putting, storing};
ghost use Rattle.sheet_check.specs.inside.Checking.{question};

use crate::accept::{PutFault, accept};
use crate::driving::CopyDriver;
use crate::evaluating::evaluate;
use crate::places::FieldPlace;
use crate::progress::Progress;
use crate::telling::make_room;
use arrivals::Sources;
use block_tree::{OutOfMemory, Reason};
use check_report::{
    Chosen, Judgement, ReportFormat, Verdict, acceptance_in_memory, brings_error, write_and_flush,
};
use disk_model::Disk;
use driver::Stamped;
use host_events::HostFault;
use offline_programs::RunFault;
use recovery::Store;
use session_engine::Host;
use std::alloc::Global;
use std::io::Write;
use worksheet::{Answer, Field};

/// What a field came to, and all that takes memory of what is then done.
#[derive(Drop)]
pub(crate) struct Finding {
    pub(crate) judgement: Judgement,
    /// The answer that is accepted, where one is.
    pub(crate) answer: Option<Answer>,
    /// What is reported.
    pub(crate) text: Vec<u8>,
}

/// A copy of an answer.
fn copy_answer(answer: &Answer) -> Result<Answer, OutOfMemory>
    ensures { IfOk result (λ copy. copy ≡ answer.now) }
{
    let prompt = answer.prompt.copy()?;
    let output = answer.output.copy()?;
    Ok(Answer { prompt, output })
}

/// A copy of the answer that came, where one did.
fn copy_what_came(came: &Option<Answer>) -> Result<Option<Answer>, OutOfMemory>
    ensures { IfOk result (λ copy. copy ≡ came.now) }
{
    match came {
        None => Ok(None),
        Some(answer) => match copy_answer(answer) {
            Ok(copy) => Ok(Some(copy)),
            Err(why) => Err(why),
        },
    }
}

/// The answer that is accepted, where the one that came differs or is new.
fn answer_to_accept(came: &Option<Answer>, verdict: Verdict) -> Result<Option<Answer>, OutOfMemory>
    ensures { IfOk result (λ answer. answer ≡ accepted_answer came.now verdict) }
{
    match verdict {
        Verdict::Differs | Verdict::New => copy_what_came(came),
        Verdict::Same | Verdict::Unanswered | Verdict::LeftOut => Ok(None),
    }
}

/// What a field came to by the answer that came, or the reason why none did. None where there is no memory for it.
fn find(
    alloc: Global,
    chosen: &Chosen,
    field: &Field,
    came: &Option<Answer>,
    lost: Option<Reason>,
) -> Option<Finding>
    ensures { IfSome result (Finds chosen.now field.now came.now lost) }
{
    let verdict = chosen.judge(field, came);
    let Ok(answer) = answer_to_accept(came, verdict) else {
        return None;
    };
    match acceptance_in_memory(alloc, field, came, lost, verdict) {
        Some(text) => Some(Finding {
            judgement: Judgement {
                verdict,
                error: brings_error(came),
            },
            answer,
            text,
        }),
        None => None,
    }
}

/// What a field came to by what it shows on the copy now, of which an answer counts where its line was asked. None where there is no memory for it.
fn find_on_copy<D: Disk>(
    alloc: Global,
    chosen: &Chosen,
    host: &Host<D>,
    field: &Field,
    asked: bool,
) -> Option<Finding>
    ensures { (w : World) → IsHost host.now w → IfSome result (Finds chosen.now field.now
        (came_if asked (shown_in w field.now.id)) (reason_shown_in w field.now.id)) }
{
    match host.sheet().field(field.id) {
        None => find(alloc, chosen, field, &None, None),
        Some(now) if asked => find(alloc, chosen, field, &now.answer, now.lost),
        Some(now) => find(alloc, chosen, field, &None, now.lost),
    }
}

/// The fault of a check by why an answer wasn't accepted.
fn accept_fault(why: PutFault) -> RunFault
    ensures { result ≡ fault_of_acceptance why }
{
    match why {
        PutFault::Full => RunFault::Host(HostFault::JournalFull),
        PutFault::OutOfMemory => RunFault::OutOfMemory,
        PutFault::Disk => RunFault::Host(HostFault::Disk),
    }
}

/// Puts an answer into a field of the worksheet on the disk, where there is one.
fn put<D: Disk>(store: &mut Store<D>, id: u32, answer: Option<Answer>) -> Result<(), PutFault>
    requires open { store.old.closed ≡ false }
    requires there { has_field store.old.sheet.contents id ≡ true }
    requires short { HasShortPrompt answer }
    ensures written { store.old.gathers ≡ false → store.new.gathers ≡ false }
    ensures ok { (ops more : List Op) → (disk : DiskView) → Stores ops more disk store.old
        → OnOk result (Stores ops (more ++ answer_ops id answer) disk store.new) }
    ensures err { (ops more : List Op) → (disk : DiskView) → Stores ops more disk store.old
        → IfErr result (NotPut (storing ops more disk store.new) (answer_ops id answer)) }
{
    match answer {
        None => Ok(()),
        Some(answer) => accept(store, id, answer),
    }
}

/// Tells what a field came to, in the place of the line of progress.
fn tell<W: Write, P: Progress>(
    verdict: Verdict,
    text: &[u8],
    progress: &mut P,
    writer: &mut W,
) -> Result<(), RunFault>
    ensures ok { OnOk result (Appends (W.contents writer.old) (W.contents writer.new) text.now) }
    ensures err { IfErr result (λ why. why ≡ RunFault.Output) }
    ensures room { MakesRoom format.Accepting P.shows verdict progress.old progress.new }
{
    make_room(ReportFormat::Accepting, verdict, progress);
    write_and_flush(text, writer).map_err(|_| RunFault::Output)
}

/// Accepts what a field came to, and then tells it.
fn take<D: Disk, W: Stamped, P: Progress>(
    store: &mut Store<D>,
    id: u32,
    found: Finding,
    progress: &mut P,
    writer: &mut W,
) -> Result<Judgement, RunFault>
    requires open { store.old.closed ≡ false }
    requires there { has_field store.old.sheet.contents id ≡ true }
    requires short { HasShortPrompt found.answer }
    requires at_once { store.old.gathers ≡ false }
    ensures written { store.old.gathers ≡ false → store.new.gathers ≡ false }
    ensures ok { IfOk result (λ j. (j ≡ found.judgement)
        × Puts (putting store.old store.new) (answer_ops id found.answer)
        × Appends (W.contents writer.old) (W.contents writer.new) found.text.items) }
    ensures err { IfErr result (NotTaken (putting store.old store.new) (answer_ops id found.answer)
        (W.contents writer.old) (W.contents writer.new)) }
    ensures stamped { StampedSo W.held (W.contents writer.old) store.new.disk result }
    ensures room { IfOk result (λ j.
        MakesRoom format.Accepting P.shows j.verdict progress.old progress.new) }
    ensures left { IfErr result (λ _. LeavesLine P.shows progress.old progress.new) }
{
    let Finding {
        judgement,
        answer,
        text,
    } = found;
    match put(store, id, answer) {
        Ok(()) => (),
        Err(why) => return Err(accept_fault(why)),
    }
    writer.stamp_store(store);
    match tell(judgement.verdict, text.as_slice(), progress, writer) {
        Ok(()) => Ok(judgement),
        Err(fault) => Err(fault),
    }
}

/// Evaluates a field that is checked, and accepts and tells what that came to.
pub(crate) fn accept_shown<D: Disk, S: Disk, C: Sources, W: Stamped, P: Progress>(
    place: &FieldPlace<'_>,
    driver: &mut CopyDriver<D, C>,
    store: &mut Store<S>,
    progress: &mut P,
    writer: &mut W,
) -> Result<Judgement, RunFault>
    requires chosen { is_chosen place.now.manner.request.now.chosen place.now.field.now ≡ true }
    requires stands { (w : World) × IsHost driver.old.host w }
    requires open { store.old.closed ≡ false }
    requires there { has_field store.old.sheet.contents place.now.field.now.id ≡ true }
    requires at_once { store.old.gathers ≡ false }
    ensures written { store.old.gathers ≡ false → store.new.gathers ≡ false }
    ensures ok { (w : World) → IsHost driver.old.host w → IfOk result (ShownTook
        (accepting_by C.after C.clock C.wakes place.now.manner.request.now)
        (question 0 place.now.field.now) (at w driver.old.sources driver.old.host.store.disk)
        (left driver.new.host driver.new.sources (W.contents writer.old) (W.contents writer.new))
        (putting store.old store.new)) }
    ensures err { (w : World) → IsHost driver.old.host w → IfErr result (FieldBroke
        (accepting_by C.after C.clock C.wakes place.now.manner.request.now)
        place.now.field.now (at w driver.old.sources driver.old.host.store.disk)
        (left driver.new.host driver.new.sources (W.contents writer.old) (W.contents writer.new))
        (putting store.old store.new)) }
    ensures stamped { StampedSo W.held (W.contents writer.old) store.new.disk result }
    ensures room { IfOk result (λ j.
        MakesRoom format.Accepting P.shows j.verdict progress.old progress.new) }
    ensures left { IfErr result (λ _. LeavesLine P.shows progress.old progress.new) }
{
    worksheet::laws::ops_make_worksheets();
    let came = match evaluate(driver, place.manner.request.limit, place.field) {
        Ok(came) => came,
        Err(fault) => return Err(fault),
    };
    match find_on_copy(
        place.manner.alloc,
        &place.manner.request.chosen,
        &driver.host,
        place.field,
        came.is_there,
    ) {
        None => Err(RunFault::OutOfMemory),
        Some(found) => take(store, place.field.id, found, progress, writer),
    }
}
