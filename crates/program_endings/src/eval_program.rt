//! The program `eval` over a worksheet's files, from its files on.
ghost use Rattle.std.specs.Prelude.{◌≡◌, Err, IfErr, IfOk, Ok, true};
ghost use Rattle.evaluation.specs.declared.fault.EvalFault.TheVariants as evals;
ghost use Rattle.field_agenda.specs.Stages.{IsEnded};
ghost use Rattle.program_endings.specs.EvalProgram.{AnswersAfter, EndsEvaluated, EvaluatesTo, EvaluationBegun, EvaluationEnded, EvaluationOpened, FramedLast, LastOfEnd, LastOfFault, TellsEval, are_none_over, counts_status, eval_setting, evaluation_status, missing_fault, missing_last};
ghost use Rattle.program_endings.specs.Ending.{TellsFault};
ghost use Rattle.program_endings.specs.LiveProgram.{EndsFaulted, LiveUnopened};
ghost use Rattle.program_endings.specs.Records.{writing};
ghost use Rattle.program_endings.specs.Passing.{passed, run, run_so_far};

use crate::ending::ended;
use crate::live_program::{end_reported, is_printed, with_last};
use crate::messages::{NotEvaluated, StoppedAfter};
use crate::passing::{Completed, GivenBack, Resources};
use crate::seeing::{Both, Heard, Kinds};
use crate::telling::no_files;
use crate::{Ending, end_program};
use arrivals::Sources;
use driver::{OverStream, Stamped, Voiced, run_voiced};
use evaluation::{EvalEnd, EvalFault, Plan, Programs};
use field_agenda::{ByFields, FieldLines, Stage};
use offline_programs::{RunFault, Says};
use script_agenda::RunResources;
use sheet_files::Close;
use std::alloc::Global;
use std::io::Write;
use tellings::{Boundary, Counts, Overs, Tells};
use worksheet::Name;

/// Whether no field's time was over, and none was passed over.
fn are_none(overs: Option<Overs>) -> bool
    ensures { result ≡ are_none_over overs }
{
    match overs {
        None => true,
        Some(overs) => overs.over == 0 && overs.passed == 0,
    }
}

/// The status where an evaluation came to its end.
fn status_by(counts: Counts) -> u8
    ensures { result ≡ counts_status counts }
{
    if counts.unanswered == 0 && are_none(counts.overs) {
        0
    } else {
        1
    }
}

/// Which fields are evaluated, and how what comes of them is printed.
#[derive(Drop)]
pub struct FieldSetting<T> {
    /// Where memory is taken from.
    pub alloc: Global,
    pub plan: Plan,
    /// The voice of what is printed.
    pub tells: T,
}

/// What an evaluation answered.
type Evaluated<S, W> = Completed<Result<EvalEnd, EvalFault>, S, W>;

/// What the program answers after a run that came to its end so.
fn answer_at(stage: Stage) -> Result<EvalEnd, EvalFault>
    requires { IsEnded stage }
    ensures { (done : Unit {0}) → AnswersAfter (Ok done) stage result }
{
    match stage {
        Stage::Counted(end) => Ok(end),
        Stage::NoField(id) => Err(EvalFault::NoField(id)),
        Stage::NoProgram(name) => Err(EvalFault::NoProgram(name)),
        Stage::New => unreachable!(),
        Stage::Going => unreachable!(),
    }
}

/// What the program answers after a run that came so far.
fn answer_after(run: Result<(), RunFault>, stage: Stage) -> Result<EvalEnd, EvalFault>
    requires { IfOk run (λ done. IsEnded stage) }
    ensures { AnswersAfter run stage result }
{
    match run {
        Ok(()) => answer_at(stage),
        Err(why) => Err(EvalFault::Run(why)),
    }
}

/// Evaluates the fields of the worksheet on a disk, and closes the disk at the end.
fn evaluate_on<W: Stamped, D: Close, S: Sources, T: Tells + Copy, P: Programs + Drop>(
    setting: FieldSetting<T>,
    programs: P,
    outside: RunResources<D, S, W>,
) -> Evaluated<S, W>
    ensures { EvaluatesTo (eval_setting setting.plan programs P.finds T.voice W.held)
        (run_so_far ⟦<(D, S, W) as Kinds>⟧.seen outside result) result.whole result.answer }
{
    let FieldSetting { alloc, plan, tells } = setting;
    let voiced = Voiced {
        tells: FieldLines { tells },
        writer: outside.output,
    };
    let agenda = ByFields::new(alloc, plan, programs);
    let OverStream {
        disk,
        sources,
        writer,
        agenda,
        whole,
        answer,
    } = run_voiced(alloc, outside.disk, outside.sources, voiced, agenda);
    disk.close();
    let stage = agenda.stage();
    Completed {
        answer: answer_after(answer, stage),
        whole,
        sources,
        output: writer,
    }
}

/// Ends the program where an evaluation came to its end: where it stopped is a line.
fn end_evaluated<E: Says>(end: EvalEnd, errors: &mut E) -> Ending
    ensures status { result.status ≡ evaluation_status (Ok end) }
    ensures reported { TellsEval (⟦<E as Heard>⟧.said errors.old errors.new) result.reported
        (Ok end) }
{
    match end.stopped_after {
        None => ended(status_by(end.counts), true),
        Some(field) => ended(3, errors.say(&StoppedAfter { field })),
    }
}

/// What an evaluation was to have that isn't there.
#[derive(Clone, Copy, Debug, PartialEq, Eq)]
pub(crate) enum Missing {
    /// The field with this number.
    Field(u32),
    /// The program of this session.
    Program(Name),
}

/// The fault that it is.
fn fault_of(missing: Missing) -> EvalFault
    ensures { result ≡ missing_fault missing }
{
    match missing {
        Missing::Field(id) => EvalFault::NoField(id),
        Missing::Program(name) => EvalFault::NoProgram(name),
    }
}

/// What stands last for it.
fn last_of(missing: Missing) -> Boundary
    ensures { result ≡ missing_last missing }
{
    match missing {
        Missing::Field(id) => Boundary::NoField(id),
        Missing::Program(name) => Boundary::NoProgram(name),
    }
}

/// Ends the program where a field or a program isn't there, which goes to both streams where its voice has it: as
/// what stands last on one, and as its line on the other.
#[tactic(auto, using(crate::proofs::Began::began_so))]
pub(crate) fn end_without<W: Write, E: Says, T: Tells>(
    missing: Missing,
    tells: &T,
    output: &mut W,
    errors: &mut E,
) -> Ending
    ensures last { FramedLast T.voice W.contents output.old output.new result.reported
        (missing_last missing) }
    ensures status { result.status ≡ 1 }
    ensures reported { TellsEval (⟦<E as Heard>⟧.said errors.old errors.new) result.reported
        (Err (missing_fault missing)) }
{
    let last = last_of(missing);
    let said = tells.frame(last, output).is_ok();
    let why = fault_of(missing);
    let reported = errors.say(&NotEvaluated { why });
    ended(1, reported && said)
}

/// Whether a fault goes to the output, where its voice has it: a run prints its own, but where its output failed.
fn tell_run_fault<W: Write, T: Tells>(why: RunFault, whole: bool, tells: &T, output: &mut W) -> bool
    ensures { EndsFaulted T.voice (writing W.contents output.old output.new) whole result why }
{
    if is_printed(why) {
        return whole;
    }
    tells.fault(why, output)
}

/// Ends the program by a fault, which is printed on standard error, where what stands last went out or didn't.
fn end_faulted<E: Says>(why: RunFault, said: bool, errors: &mut E) -> Ending
    ensures last { result.reported ≡ true → said ≡ true }
    ensures status { result.status ≡ 1 }
    ensures reported { TellsFault (⟦<E as Heard>⟧.said errors.old errors.new) result.reported
        (Err why) }
{
    with_last(end_program(Err(why), errors), said)
}

/// Ends the program where a run had a fault, of whose last text this is known.
fn end_broken<W: Write, E: Says, T: Tells>(
    why: RunFault,
    whole: bool,
    tells: &T,
    output: &mut W,
    errors: &mut E,
) -> Ending
    ensures last { LastOfFault T.voice
        (⟦<(W, E) as Both>⟧.streams output.old output.new errors.old errors.new) whole result
        (evals.Run why) }
    ensures status { result.status ≡ 1 }
    ensures reported { TellsEval (⟦<E as Heard>⟧.said errors.old errors.new) result.reported
        (Err (evals.Run why)) }
{
    let said = tell_run_fault(why, whole, tells, output);
    end_faulted(why, said, errors)
}

/// Ends the program where an evaluation had a fault, which goes to both streams where its voice has it.
fn end_faulty<W: Write, E: Says, T: Tells>(
    fault: EvalFault,
    whole: bool,
    tells: &T,
    output: &mut W,
    errors: &mut E,
) -> Ending
    ensures last { LastOfFault T.voice
        (⟦<(W, E) as Both>⟧.streams output.old output.new errors.old errors.new) whole result
        fault }
    ensures status { result.status ≡ 1 }
    ensures reported { TellsEval (⟦<E as Heard>⟧.said errors.old errors.new) result.reported
        (Err fault) }
{
    match fault {
        EvalFault::NoField(id) => end_without(Missing::Field(id), tells, output, errors),
        EvalFault::NoProgram(name) => end_without(Missing::Program(name), tells, output, errors),
        EvalFault::Run(why) => end_broken(why, whole, tells, output, errors),
    }
}

/// Ends the program where the evaluation came to its end: the voice's last message is printed.
fn end_framed<W: Write, E: Says, T: Tells>(
    end: EvalEnd,
    tells: &T,
    output: &mut W,
    errors: &mut E,
) -> Ending
    ensures { LastOfEnd T.voice
        (⟦<(W, E) as Both>⟧.streams output.old output.new errors.old errors.new) result end }
{
    match tells.frame(Boundary::End, output) {
        Ok(()) => end_evaluated(end, errors),
        Err(why) => end_reported(Err(why), tells, output, errors),
    }
}

/// Ends the program by what the run answered, of whose last text this is known.
fn end_evaluation<W: Write, E: Says, T: Tells>(
    answer: Result<EvalEnd, EvalFault>,
    whole: bool,
    tells: &T,
    output: &mut W,
    errors: &mut E,
) -> Ending
    ensures { EndsEvaluated T.voice
        (⟦<(W, E) as Both>⟧.streams output.old output.new errors.old errors.new) whole result
        answer }
{
    match answer {
        Ok(end) => end_framed(end, tells, output, errors),
        Err(fault) => end_faulty(fault, whole, tells, output, errors),
    }
}

/// Evaluates the fields of the worksheet on a disk, and reports how that ended.
fn end_on<W: Stamped, E: Says, D: Close, S: Sources, T: Tells + Copy, P: Programs + Drop>(
    setting: FieldSetting<T>,
    programs: P,
    outside: RunResources<D, S, W>,
    errors: &mut E,
) -> GivenBack<Ending, S, W>
    ensures { EvaluationBegun (eval_setting setting.plan programs P.finds T.voice W.held)
        (run ⟦<(D, S, W) as Kinds>⟧.seen outside result) (⟦<E as Heard>⟧.said errors.old errors.new)
        result.ending }
{
    let tells = setting.tells;
    let Completed {
        answer,
        whole,
        sources,
        mut output,
    } = evaluate_on(setting, programs, outside);
    GivenBack {
        ending: end_evaluation(answer, whole, &tells, &mut output, errors),
        sources,
        output,
    }
}

/// Writes the voice's first message, evaluates, and reports how that ended.
fn end_greeted<W: Stamped, E: Says, D: Close, S: Sources, T: Tells + Copy, P: Programs + Drop>(
    setting: FieldSetting<T>,
    programs: P,
    mut outside: RunResources<D, S, W>,
    errors: &mut E,
) -> GivenBack<Ending, S, W>
    ensures { EvaluationEnded (eval_setting setting.plan programs P.finds T.voice W.held)
        (run ⟦<(D, S, W) as Kinds>⟧.seen outside result) (⟦<E as Heard>⟧.said errors.old errors.new)
        result.ending }
{
    match setting.tells.frame(Boundary::Hello, &mut outside.output) {
        Ok(()) => end_on(setting, programs, outside, errors),
        Err(why) => {
            let RunResources {
                disk,
                sources,
                mut output,
            } = outside;
            disk.close();
            GivenBack {
                ending: end_reported(Err(why), &setting.tells, &mut output, errors),
                sources,
                output,
            }
        }
    }
}

/// The whole program `eval` on its files, or on why they weren't opened. Each program that it needs is looked for
/// first, by `programs`. What comes of each field goes to the output, flushed at once, and the counts at the end. The line of a
/// fault goes to `errors`, and so does that of the place where a strict evaluation stopped. Sources and output
/// are given back.
pub fn run_evaluation<
    W: Stamped,
    E: Says,
    D: Close,
    S: Sources,
    T: Tells + Copy,
    P: Programs + Drop,
>(
    setting: FieldSetting<T>,
    programs: P,
    given: Resources<D, S, W>,
    errors: &mut E,
) -> GivenBack<Ending, S, W>
    ensures unopened { IfErr given.files
        (LiveUnopened T.voice (passed ⟦<(D, S, W) as Kinds>⟧.seen given result)
        (⟦<E as Heard>⟧.said errors.old errors.new) result.ending) }

    ensures files { IfOk given.files
        (EvaluationOpened (eval_setting setting.plan programs P.finds T.voice W.held)
        (passed ⟦<(D, S, W) as Kinds>⟧.seen given result)
        (⟦<E as Heard>⟧.said errors.old errors.new) result.ending) }
{
    let Resources {
        files,
        sources,
        mut output,
    } = given;
    match files {
        Ok(disk) => {
            let outside = RunResources {
                disk,
                sources,
                output,
            };
            end_greeted(setting, programs, outside, errors)
        }
        Err(why) => GivenBack {
            ending: end_reported(Err(no_files(why)), &setting.tells, &mut output, errors),
            sources,
            output,
        },
    }
}
