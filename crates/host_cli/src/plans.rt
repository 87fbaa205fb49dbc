//! What the words of `eval` ask for, and what those of `check` do beside its request.
ghost use Rattle.std.specs.Prelude.{◌≡◌, Err, IfErr, IfOk, Ok, true};
ghost use Rattle.command_words.specs.Asked.{eval_view};
ghost use Rattle.host_cli.specs.Plans.{AsksNoPlan, AsksPlan, check_jobs_asked, check_jobs_by, from_asked, jobs_asked, jobs_by, jobs_unwritten, numbers_of_several, limit_asked, named_asked, numbers_in, several_refused, spared_asked, word_text, word_texts, which_asked};
ghost use Rattle.host_cli.specs.Plans as plan;
ghost use Rattle.host_cli.specs.inside.Reading.{IsWhy};
ghost use Rattle.host_cli.specs.inside.Within.{within};
ghost use Rattle.sheet_text.specs.Script.{number_written};

use block_tree::{OutOfMemory, Sequence};
use check_report::ReportFormat as Report;
use command_words::EvalWords;
use evaluation::{Plan, Spared, Which};
use live::MOST_SECONDS;
use sheet_text::read_number;
use std::alloc::Global;

/// The most sessions in which fields may wait at a time.
const MOST_JOBS: u32 = 64;

/// Why the words of `eval` ask for nothing that there is.
#[derive(Clone, Copy, Debug, PartialEq, Eq)]
pub enum PlanFault {
    /// They name no time.
    Seconds,
    /// A word that is to be the number of a field is none.
    Id,
    /// They name fields, and one to begin with.
    Both,
    /// They name no number of sessions.
    Jobs,
    /// Sessions are to go side by side, and to stop after the first field that goes wrong.
    Strict,
    /// Those of sessions that were changed are to be evaluated, and fields are chosen otherwise, too.
    Changed,
    /// There was no memory for them.
    OutOfMemory,
}

/// Why the words of `check` name no number of sessions.
#[derive(Clone, Copy, Debug, PartialEq, Eq)]
pub enum JobsFault {
    /// They name no number from 1 to 64.
    Number,
    /// Answers that differ or are new are to be accepted, too.
    Accepting,
}

/// Why several worksheets aren't checked as the words of `check` ask for it.
#[derive(Clone, Copy, Debug, PartialEq, Eq)]
pub enum SeveralFault {
    /// Their reports are in words alone.
    Format,
    /// Answers that differ or are new are to be accepted.
    Accepting,
    /// Fields are to be left out by their numbers.
    LeftOut,
    /// Fields are to be compared by their numbers.
    Compared,
}

/// The number that a text writes, from 1 to a limit. None where it writes none of these.
fn read_within(text: &str, most: u32) -> Option<u32>
    ensures { result ≡ within most (number_written text.now) }
{
    match read_number(text.as_bytes()) {
        None => None,
        Some(number) => {
            if 1 <= number && number <= most {
                Some(number)
            } else {
                None
            }
        }
    }
}

/// The time that a field may take, where there is a limit. None where the words name no time.
#[tactic(auto, using(crate::proofs::Within::limits))]
pub(crate) fn read_limit(text: Option<&str>) -> Option<Option<u32>>
    ensures { result ≡ limit_asked (word_text text.entry) }
{
    let Some(text) = text else {
        return Some(None);
    };
    match read_within(text, MOST_SECONDS) {
        None => None,
        Some(seconds) => Some(Some(seconds)),
    }
}

/// In how many sessions fields may wait at a time where no words write that: one where an evaluation is strict or a
/// check accepts, and where there is a limit of time.
fn unwritten_jobs(in_turn: bool, timeout: Option<&str>) -> u32
    ensures { result ≡ jobs_unwritten in_turn (word_text timeout.entry) }
{
    if in_turn {
        return 1;
    }
    match timeout {
        None => MOST_JOBS,
        Some(_) => 1,
    }
}

/// In how many sessions fields may wait at a time, by the words that write it, and those of the limit of time.
#[tactic(auto, using(crate::proofs::Within::jobs))]
fn read_jobs(text: Option<&str>, strict: bool, timeout: Option<&str>) -> Result<u32, PlanFault>
    ensures { result ≡ jobs_asked (word_text text.entry) strict (word_text timeout.entry) }
{
    let Some(text) = text else {
        return Ok(unwritten_jobs(strict, timeout));
    };
    match read_within(text, MOST_JOBS) {
        None => Err(PlanFault::Jobs),
        Some(jobs) => allow_jobs(jobs, strict),
    }
}

/// So many, where it isn't strict.
fn allow_jobs(jobs: u32, strict: bool) -> Result<u32, PlanFault>
    ensures { result ≡ jobs_by true strict jobs }
{
    if strict {
        Err(PlanFault::Strict)
    } else {
        Ok(jobs)
    }
}

/// So many of a check, where it accepts nothing.
fn allow_check_jobs(jobs: u32, accept: bool) -> Result<u32, JobsFault>
    ensures { result ≡ check_jobs_by true accept jobs }
{
    if accept {
        Err(JobsFault::Accepting)
    } else {
        Ok(jobs)
    }
}

/// How many sessions of a check may go side by side.
#[tactic(auto, using(crate::proofs::Within::check_jobs))]
pub(crate) fn read_check_jobs(
    text: Option<&str>,
    accept: bool,
    timeout: Option<&str>,
) -> Result<u32, JobsFault>
    ensures { result ≡ check_jobs_asked (word_text text.entry) accept (word_text timeout.entry) }
{
    let Some(text) = text else {
        return Ok(unwritten_jobs(accept, timeout));
    };
    match read_within(text, MOST_JOBS) {
        None => Err(JobsFault::Number),
        Some(jobs) => allow_check_jobs(jobs, accept),
    }
}

/// Whether these are the paths of several worksheets.
pub(crate) fn are_several(paths: &[&str]) -> bool
    ensures { result ≡ plan.are_several (word_texts paths.now) }
{
    paths.len() > 1
}

/// Why several worksheets aren't checked where numbers of fields are named: these are those of one of them. None where none are.
fn numbers_fault(left_out: Option<&str>, compared: Option<&str>) -> Option<SeveralFault>
    ensures { result ≡ numbers_of_several (word_text left_out.entry) (word_text compared.entry) }
{
    match (left_out, compared) {
        (None, None) => None,
        (None, Some(_)) => Some(SeveralFault::Compared),
        (Some(_), _) => Some(SeveralFault::LeftOut),
    }
}

/// Why several worksheets aren't checked in this format, with these fields left out, and these compared. None
/// where they are.
pub(crate) fn several_fault(
    format: Report,
    left_out: Option<&str>,
    compared: Option<&str>,
) -> Option<SeveralFault>
    ensures { result ≡ several_refused format (word_text left_out.entry)
        (word_text compared.entry) }
{
    match format {
        Report::Text | Report::Whole => numbers_fault(left_out, compared),
        Report::Tap | Report::Junit | Report::Json => Some(SeveralFault::Format),
        Report::Accepting => Some(SeveralFault::Accepting),
    }
}

/// The numbers that words write. None where one of them writes none.
#[tactic(auto, using(crate::proofs::NumbersRead::number_steps))]
fn read_numbers(alloc: Global, words: &[&str]) -> Result<Option<Sequence<u32>>, OutOfMemory>
    ensures { IfOk result (λ ids. ids ≡ numbers_in (word_texts words.now)) }
{
    let mut ids = Vec::new(alloc);
    for word in words {
        let Some(id) = read_number(word.as_bytes()) else {
            return Ok(None);
        };
        ids.push(id)?;
    }
    Ok(Some(Sequence::from_vec(ids)))
}

/// The fields that are named, or all where none is.
fn read_named(alloc: Global, words: &[&str]) -> Result<Which, PlanFault>
    ensures ok { IfOk result (λ which. named_asked (word_texts words.now) ≡ Ok which) }
    ensures err { IfErr result (IsWhy (named_asked (word_texts words.now))) }
{
    if words.is_empty() {
        return Ok(Which::All);
    }
    match read_numbers(alloc, words) {
        Ok(Some(ids)) => Ok(Which::Named(ids)),
        Ok(None) => Err(PlanFault::Id),
        Err(_) => Err(PlanFault::OutOfMemory),
    }
}

/// The field with a number and those after it, where no others are named.
fn read_from(from: &str, words: &[&str]) -> Result<Which, PlanFault>
    ensures { result ≡ from_asked from.now (word_texts words.now) }
{
    if !words.is_empty() {
        return Err(PlanFault::Both);
    }
    match read_number(from.as_bytes()) {
        Some(id) => Ok(Which::From(id)),
        None => Err(PlanFault::Id),
    }
}

/// The fields that are asked for.
fn read_which(alloc: Global, from: Option<&str>, words: &[&str]) -> Result<Which, PlanFault>
    ensures ok { IfOk result
        (λ which. which_asked (word_text from.entry) (word_texts words.now) ≡ Ok which) }
    ensures err { IfErr result (IsWhy (which_asked (word_text from.entry) (word_texts words.now))) }
{
    match from {
        None => read_named(alloc, words),
        Some(from) => read_from(from, words),
    }
}

/// Whether the words of `eval` choose fields by something else than `--changed`.
fn chooses_fields(words: &EvalWords<'_>) -> bool
    ensures { result ≡ plan.chooses_fields (eval_view words.now) }
{
    words.unanswered || words.from.is_some() || !words.ids.is_empty()
}

/// Which fields keep what they show, where no words refuse it.
fn spared_by(changed: bool, unanswered: bool) -> Spared
    ensures { result ≡ plan.spared_by changed unanswered }
{
    if changed {
        Spared::Unchanged
    } else if unanswered {
        Spared::Answered
    } else {
        Spared::Nothing
    }
}

/// Which of the fields that are asked for keep what they show.
fn read_spared(words: &EvalWords<'_>) -> Result<Spared, PlanFault>
    ensures { result ≡ spared_asked (eval_view words.now) }
{
    if words.changed && chooses_fields(words) {
        Err(PlanFault::Changed)
    } else {
        Ok(spared_by(words.changed, words.unanswered))
    }
}

/// Whether an evaluation stops where something goes wrong.
fn stops_early(words: &EvalWords<'_>) -> bool
    ensures { result ≡ plan.stops_early (eval_view words.now) }
{
    words.strict || words.stop_at_error
}

/// What the words of `eval` ask for.
pub(crate) fn read_plan(alloc: Global, words: &EvalWords<'_>) -> Result<Plan, PlanFault>
    ensures ok { IfOk result (AsksPlan (eval_view words.now)) }
    ensures err { IfErr result (AsksNoPlan (eval_view words.now)) }
{
    let Some(limit) = read_limit(words.timeout) else {
        return Err(PlanFault::Seconds);
    };
    let strict = stops_early(words);
    let jobs = match read_jobs(words.jobs, strict, words.timeout) {
        Ok(jobs) => jobs,
        Err(why) => return Err(why),
    };
    let spared = match read_spared(words) {
        Ok(spared) => spared,
        Err(why) => return Err(why),
    };
    match read_which(alloc, words.from, words.ids.as_slice()) {
        Ok(which) => Ok(Plan {
            which,
            spared,
            strict,
            at_errors: words.stop_at_error,
            limit,
            keep_going: words.keep_going,
            jobs,
        }),
        Err(why) => Err(why),
    }
}
