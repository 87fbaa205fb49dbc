//! What an evaluation is asked for, where it stands, and what it comes to.
ghost use Rattle.std.specs.Prelude.{◌≡◌, ◌<◌, ◌^◌, count_by, length};
ghost use Rattle.evaluation.specs.Meant as meant;

use crate::choosing::{is_answered, is_lacking};
use crate::lasts::Last;
use block_tree::Sequence;
use check_report::brings_error;
use live::Hold;
use tellings::{Counts, Overs};
use worksheet::{Field, Sheet};

/// Which fields of a worksheet an evaluation is asked for.
#[derive(Debug, Drop)]
pub enum Which {
    /// All of them but prose: fields of a session whose program is `true` alone, which answers nothing.
    All,
    /// Those with these numbers.
    Named(Sequence<u32>),
    /// The one with this number, and those after it, but prose.
    From(u32),
}

/// Which of the fields that are asked for aren't evaluated: they keep what they show.
#[derive(Clone, Copy, Debug, PartialEq, Eq)]
pub enum Spared {
    /// None of them.
    Nothing,
    /// Those that show an answer.
    Answered,
    /// Those of sessions in which each field but prose shows one, as none does whose line was changed.
    Unchanged,
}

/// What an evaluation is asked for.
#[derive(Debug, Drop)]
pub struct Plan {
    /// Which fields it is asked for.
    pub which: Which,
    /// Which of these aren't evaluated.
    pub spared: Spared,
    /// Whether it stops after the first field whose `eval` left no item waiting, or that shows no answer.
    pub strict: bool,
    /// Whether a strict one also stops after a field whose answer is an error.
    pub at_errors: bool,
    /// How many seconds a field may take, where there is a limit: from when it was asked, or the last of those that wait with it, and again
    /// from each banner or answer of one of them.
    pub limit: Option<u32>,
    /// Whether fields are asked after one of their session that shows no answer, where they would be passed over.
    pub keep_going: bool,
    /// In how many sessions fields may wait for answers at a time: 1 for one field after another.
    pub jobs: u32,
}

/// Where an evaluation stands.
#[derive(Debug, Drop)]
pub struct Stand {
    /// How many of the fields that are to be evaluated were asked or passed over.
    pub taken: usize,
    /// How many of these were before the first that may wait and whose interpreter wasn't interrupted.
    pub first: usize,
    /// The field that was asked last.
    pub field: u32,
    /// The wait for its answer, and for those of the fields that wait beside it.
    pub held: Hold,
    /// Whether the time was over, so that an interpreter was interrupted.
    pub warned: bool,
    /// Whether no item waited for an answer right after its `eval`.
    pub at_once: bool,
    /// How many fields were asked.
    pub asked: u64,
    /// For how many the time was over.
    pub overs: u64,
    /// The field of each session that was asked last.
    pub lasts: Sequence<Last>,
}

/// Where an evaluation came to its end.
#[derive(Clone, Copy, Debug, PartialEq, Eq)]
pub struct EvalEnd {
    /// The number of the field after which it stopped, where it did.
    pub stopped_after: Option<u32>,
    /// What it came to.
    pub counts: Counts,
}

/// Whether it is said how many fields were over and passed over, of which so many weren't asked.
fn counts_overs(plan: &Plan, passed: u64) -> bool
    ensures { result ≡ meant.counts_overs plan.now passed }
{
    plan.limit.is_some() || (!plan.strict && 0 < passed)
}

/// How many fields were over, and passed over, where that is said.
fn overs_by(plan: &Plan, all: u64, stand: &Stand) -> Option<Overs>
    ensures { result ≡ meant.overs_by plan.now all stand.now }
{
    let passed = all.saturating_sub(stand.asked);
    if counts_overs(plan, passed) {
        Some(Overs {
            over: stand.overs,
            passed,
        })
    } else {
        None
    }
}

/// Whether a field shows an answer that is an error.
fn shows_error(field: &Field) -> bool
    ensures { result ≡ meant.shows_error field.now }
{
    brings_error(&field.answer)
}

/// What the fields of a worksheet show.
struct Shown {
    /// How many show an answer.
    answered: usize,
    /// How many of these an error.
    errors: usize,
}

/// How many fields of a worksheet show an answer, and how many an error.
fn shown_in(sheet: &Sheet) -> Shown
    requires { length sheet.now.contents.fields < 2 ^ 31 }
    ensures { result ≡ record {
      answered = count_by meant.is_answered sheet.now.contents.fields;
      errors = count_by meant.shows_error sheet.now.contents.fields;
    } }
{
    Shown {
        answered: sheet.fields().filter(|field| is_answered(field)).count(),
        errors: sheet.fields().filter(|field| shows_error(field)).count(),
    }
}

/// What an evaluation of so many fields came to. Prose isn't counted as unanswered.
pub fn counts_of(plan: &Plan, all: u64, sheet: &Sheet, stand: &Stand) -> Counts
    requires { length sheet.now.contents.fields < 2 ^ 31 }
    ensures { result ≡ meant.evaluation_counts plan.now all sheet.now.contents stand.now }
{
    let Shown { answered, errors } = shown_in(sheet);
    Counts {
        answered,
        unanswered: sheet
            .fields()
            .filter(|field| is_lacking(sheet, field))
            .count(),
        errors,
        overs: overs_by(plan, all, stand),
    }
}
