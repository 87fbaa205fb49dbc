//! Which program runs for which words, over all that is outside.
ghost use Rattle.std.specs.Prelude.{◌≡◌, ◌≢◌, [], Err, map, string_bytes};
ghost use Rattle.command_words.specs.Asked.{eval_view, task_view};
ghost use Rattle.command_words.specs.Asked as asked;
ghost use Rattle.host_cli.specs.Tasks.{DoesCreate, DoesEval, DoesExport, DoesRescue, DoesShow, EvaluatesAs, ExportsAs, voice_by};
ghost use Rattle.host_cli.specs.WholeProgram.{FlushesOutput, DoesTask, EndsWithin, LeavesAlone, Performs};
ghost use Rattle.program_endings.specs.Ending.{TellsFault};
ghost use Rattle.offline_programs.specs.declared.fault.RunFault.TheVariants as fault;

use crate::blocks::{blocks, blocks_in_json};
use crate::checks::check_at;
use crate::finding::FoundIn;
use crate::outlet::Outlet;
use crate::outside::{Outside, Performed, System, SystemView, ended};
use crate::pasts::{export_as_past, export_past_at, history_at, restore_at, show_past_at, titled};
use crate::plans::read_plan;
use crate::refusing::{refuse_format, refuse_plan};
use crate::runs::{live_at, live_json_at, live_partial_at, run_at};
use crate::{refuse_unread_words, refuse_words};
use command_words::{EvalWords, Task, read_words};
use evaluation::Plan;
use offline_programs::{RunFault, Says};
use program_endings::{
    Ending, FieldSetting, GivenBack, Heard, Resources, end_program, end_unheld, read_rescued,
    run_create, run_evaluation, run_export, run_rescue, run_show,
};
use sheet_export::{Format, format_named};
use sheet_files::Places;
use std::alloc::Global;
use std::io;
use tellings::{InJson, InWords, Tells};

/// `create` at a path.
fn create_at<Y: System>(outside: &mut Outside<Y>, path: &str) -> Ending
    ensures does { DoesCreate ⟦<Y as SystemView>⟧.outer outside.old outside.new result path.now }
    ensures leaves { LeavesAlone outside.old outside.new (asked.create path.now) }
{
    match outside.places.hold() {
        Ok(()) => run_create(outside.places.create(path), &mut outside.errors),
        Err(why) => end_unheld(why, &mut outside.errors),
    }
}

/// `show` of the worksheet at a path.
fn show_at<Y: System>(alloc: Global, outside: &mut Outside<Y>, path: &str) -> Ending
    ensures does { DoesShow ⟦<Y as SystemView>⟧.outer outside.old outside.new result path.now }
    ensures leaves { LeavesAlone outside.old outside.new (asked.show path.now) }
{
    match outside.places.hold() {
        Ok(()) => run_show(
            alloc,
            outside.places.open_to_read(path),
            &mut outside.output,
            &mut outside.errors,
        ),
        Err(why) => end_unheld(why, &mut outside.errors),
    }
}

/// `eval` of the fields of the worksheet at a path, by a plan, printed in this voice.
fn eval_as<Y: System, T: Tells + Copy>(
    alloc: Global,
    mut outside: Outside<Y>,
    plan: Plan,
    tells: T,
    path: &str,
) -> Performed<Y>
    ensures does { EvaluatesAs ⟦<Y as SystemView>⟧.outer T.voice plan outside result.outside
        result.ending path.now }
    ensures leaves { (result.outside.input ≡ outside.input)
        × (result.outside.progress ≡ outside.progress) }
{
    if let Err(why) = outside.places.hold() {
        return ended(end_unheld(why, &mut outside.errors), outside);
    }
    let files = outside.places.open(path);
    let Outside {
        places,
        sources,
        input,
        output,
        mut errors,
        progress,
    } = outside;
    let setting = FieldSetting { alloc, plan, tells };
    let programs = FoundIn::<Y>::new(&places);
    let given = Resources {
        files,
        sources,
        output,
    };
    let GivenBack {
        ending,
        sources,
        output,
    } = run_evaluation(setting, programs, given, &mut errors);
    Performed {
        ending,
        outside: Outside {
            places,
            sources,
            input,
            output,
            errors,
            progress,
        },
    }
}

/// `eval` of the fields of the worksheet at a path, by a plan, in words or in lines of JSON.
fn eval_reported<Y: System>(
    alloc: Global,
    outside: Outside<Y>,
    plan: Plan,
    json: bool,
    path: &str,
) -> Performed<Y>
    ensures does { EvaluatesAs ⟦<Y as SystemView>⟧.outer (voice_by json) plan outside result.outside
        result.ending path.now }
    ensures leaves { (result.outside.input ≡ outside.input)
        × (result.outside.progress ≡ outside.progress) }
{
    if json {
        eval_as(alloc, outside, plan, InJson { alloc }, path)
    } else {
        eval_as(alloc, outside, plan, InWords, path)
    }
}

/// `eval` of the fields of the worksheet at a path, as its words ask for it.
fn eval_at<Y: System>(
    alloc: Global,
    mut outside: Outside<Y>,
    path: &str,
    words: EvalWords<'_>,
) -> Performed<Y>
    ensures does { DoesEval ⟦<Y as SystemView>⟧.outer outside result.outside result.ending path.now
        (eval_view words.entry) }
    ensures leaves { LeavesAlone outside result.outside (asked.eval path.now
        (eval_view words.entry)) }
{
    match read_plan(alloc, &words) {
        Ok(plan) => eval_reported(alloc, outside, plan, words.json, path),
        Err(why) => ended(refuse_plan(why, &mut outside.errors), outside),
    }
}

/// `rescue` from a path to a new one, which is made only where there is something to rescue.
fn rescue_at<Y: System>(alloc: Global, outside: &mut Outside<Y>, path: &str, new: &str) -> Ending
    ensures does { DoesRescue ⟦<Y as SystemView>⟧.outer outside.old outside.new result path.now
        new.now }
    ensures leaves { LeavesAlone outside.old outside.new (asked.rescue path.now new.now) }
{
    if let Err(why) = outside.places.hold() {
        return end_unheld(why, &mut outside.errors);
    }
    match read_rescued(alloc, outside.places.open_to_read(path)) {
        Ok(found) => run_rescue(
            alloc,
            found,
            outside.places.create(new),
            &mut outside.output,
            &mut outside.errors,
        ),
        Err(fault) => end_program(Err(fault), &mut outside.errors),
    }
}

/// `export` of the worksheet at a path, with the last part of the path as the title.
fn export_as<Y: System>(
    alloc: Global,
    outside: &mut Outside<Y>,
    format: Format,
    path: &str,
) -> Ending
    ensures does { ExportsAs ⟦<Y as SystemView>⟧.outer outside.old outside.new result path.now
        format }
    ensures leaves { LeavesAlone outside.old outside.new (asked.export [] path.now) }
{
    match outside.places.hold() {
        Ok(()) => run_export(
            alloc,
            outside.places.open_to_read(path),
            &titled(format, path),
            &mut outside.output,
            &mut outside.errors,
        ),
        Err(why) => end_unheld(why, &mut outside.errors),
    }
}

/// `export` in the format of this name.
fn export_at<Y: System>(alloc: Global, outside: &mut Outside<Y>, name: &str, path: &str) -> Ending
    ensures does { DoesExport ⟦<Y as SystemView>⟧.outer outside.old outside.new result name.now
        path.now }
    ensures leaves { LeavesAlone outside.old outside.new (asked.export name.now path.now) }
{
    match format_named(name) {
        Some(format) => export_as(alloc, outside, format, path),
        None => refuse_format(&mut outside.errors),
    }
}

/// Does a task: `blocks` reads the input, `run` its script and `live` its lines from it; `create`,
/// `run`, `live`, `eval`, `show`, `check`, `rescue`, `export`, `history` and `restore` work on the worksheet at
/// the path, once the places of closed streams are held. What they give goes to the output, and the line of a fault to the
/// errors. `check` alone has `progress` show something.
pub fn do_task<Y: System>(alloc: Global, task: Task<'_>, mut outside: Outside<Y>) -> Performed<Y>
    ensures does { DoesTask ⟦<Y as SystemView>⟧.outer outside result.outside result.ending
        (task_view task.entry) }
    ensures leaves { LeavesAlone outside result.outside (task_view task.entry) }
{
    match task {
        Task::Blocks => ended(blocks(alloc, &mut outside), outside),
        Task::BlocksJson => ended(blocks_in_json(alloc, &mut outside), outside),
        Task::Create(path) => ended(create_at(&mut outside, path), outside),
        Task::Run(path, words) => run_at(alloc, outside, path, words),
        Task::Live(path) => live_at(alloc, outside, path),
        Task::LiveJson(path) => live_json_at(alloc, outside, path),
        Task::LivePartial(path) => live_partial_at(alloc, outside, path),
        Task::Eval(path, words) => eval_at(alloc, outside, path, words),
        Task::Show(path) => ended(show_at(alloc, &mut outside, path), outside),
        Task::ShowJson(path) => ended(export_as(alloc, &mut outside, Format::Json, path), outside),
        Task::Check(path, words) => check_at(alloc, outside, path, words),
        Task::Rescue(path, new) => ended(rescue_at(alloc, &mut outside, path, new), outside),
        Task::Export(format, path) => ended(export_at(alloc, &mut outside, format, path), outside),
        Task::History(path) => ended(history_at(alloc, &mut outside, path), outside),
        Task::ShowAt(path, changes) => ended(
            show_past_at(alloc, &mut outside, path, changes),
            outside,
        ),
        Task::ShowJsonAt(path, changes) => ended(
            export_as_past(alloc, &mut outside, Format::Json, path, changes),
            outside,
        ),
        Task::ExportAt(format, path, changes) => ended(
            export_past_at(alloc, &mut outside, format, path, changes),
            outside,
        ),
        Task::Restore(path, changes, new) => ended(
            restore_at(alloc, &mut outside, path, changes, new),
            outside,
        ),
    }
}

/// The end of a program whose output can't be flushed: the fault `Output`, but where its status is 1 already.
fn end_unsent<E: Says>(alone: Ending, errors: &mut E) -> Ending
    ensures same { alone.status ≡ 1 → (result ≡ alone) × (errors.new ≡ errors.old) }
    ensures unsent { alone.status ≢ 1 → (result.status ≡ 1)
        × TellsFault (⟦<E as Heard>⟧.said errors.old errors.new) result.reported
        (Err fault.Output) }
{
    if alone.status == 1 {
        alone
    } else {
        end_program(Err(RunFault::Output), errors)
    }
}

/// Flushes what the output keeps back, at the end of the program.
fn flush_output<Y: System>(outside: &mut Outside<Y>, alone: Ending) -> Ending
    ensures { FlushesOutput ⟦<Y as SystemView>⟧.outer outside.old outside.new alone result }
{
    match outside.output.flush_out() {
        Ok(()) => alone,
        Err(_) => end_unsent(alone, &mut outside.errors),
    }
}

/// Does the task that the words ask for, or tells why there is none.
fn perform_unsent<Y: System>(
    alloc: Global,
    words: Result<Vec<String>, io::ErrorKind>,
    mut outside: Outside<Y>,
) -> Performed<Y>
    ensures { EndsWithin ⟦<Y as SystemView>⟧.outer (λ all. map string_bytes all.items) words outside
        result.outside result.ending }
{
    match words {
        Ok(words) => match read_words(alloc, words.as_slice()) {
            Ok(task) => do_task(alloc, task, outside),
            Err(error) => {
                let ending = refuse_words(&error, &mut outside.output, &mut outside.errors);
                Performed { ending, outside }
            }
        },
        Err(kind) => {
            let ending = refuse_unread_words(kind, &mut outside.errors);
            Performed { ending, outside }
        }
    }
}

/// The whole program: does the task that its words ask for, or tells why there is none, and flushes its
/// output. The words may be missing for this kind of error.
pub fn perform<Y: System>(
    alloc: Global,
    words: Result<Vec<String>, io::ErrorKind>,
    outside: Outside<Y>,
) -> Performed<Y>
    ensures { Performs ⟦<Y as SystemView>⟧.outer (λ all. map string_bytes all.items) words outside
        result.outside result.ending }
{
    let Performed {
        ending,
        mut outside,
    } = perform_unsent(alloc, words, outside);
    Performed {
        ending: flush_output(&mut outside, ending),
        outside,
    }
}
