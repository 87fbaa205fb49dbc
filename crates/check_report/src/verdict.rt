//! What evaluations come to, and their counts.
ghost use Rattle.std.specs.Prelude.{◌≡◌, ◌+◌, ◌≤◌, ◌<◌, ◌^◌, Some};
ghost use Rattle.check_report.specs.Verdicts.{Compared, counted_with, total};
ghost use Rattle.check_report.specs.Verdicts as verdicts;

use worksheet::Answer;

/// What another evaluation came to.
#[derive(Clone, Copy, Debug, PartialEq, Eq)]
pub enum Verdict {
    /// The output that came is the one that the field shows.
    Same,
    /// Another output came.
    Differs,
    /// No answer came.
    Unanswered,
    /// What came isn't compared.
    LeftOut,
    /// An answer came to a field that shows none.
    New,
}

/// What another evaluation is counted as.
#[derive(Clone, Copy, Debug, PartialEq, Eq)]
pub struct Judgement {
    /// What it came to.
    pub verdict: Verdict,
    /// Whether an answer came that is an error, or has one in it.
    pub error: bool,
}

/// How many evaluations came to what: one for each field that is checked, so 10,000 at most.
#[derive(Clone, Copy, Debug, PartialEq, Eq)]
pub struct VerdictCounts {
    /// Those whose output is the one that the field shows.
    pub same: u32,
    /// Those whose output is another.
    pub differ: u32,
    /// Those to which no answer came.
    pub unanswered: u32,
    /// Those that aren't compared.
    pub left_out: u32,
    /// Those of which an answer came that is an error, or has one in it, whatever they came to.
    pub errors: u32,
    /// Those of fields that show no answer, to which one came.
    pub new: u32,
}

impl VerdictCounts {
    /// Of no evaluation.
    pub fn none() -> VerdictCounts
        ensures { result ≡ record {
          same = 0;
          differ = 0;
          unanswered = 0;
          left_out = 0;
          errors = 0;
          new = 0;
        } }
    {
        VerdictCounts {
            same: 0,
            differ: 0,
            unanswered: 0,
            left_out: 0,
            errors: 0,
            new: 0,
        }
    }

    /// With one more error, where it is one.
    fn with_error(self, error: bool) -> VerdictCounts
        requires { self.errors < 2 ^ 31 }
        ensures { result ≡ verdicts.with_error error self }
    {
        let mut counts = self;
        if error {
            counts.errors += 1;
        }
        counts
    }

    /// With one more that came to this.
    fn with_verdict(self, verdict: Verdict) -> VerdictCounts
        requires { total self < 2 ^ 31 }
        ensures { result ≡ verdicts.with_verdict verdict self }
    {
        let mut counts = self;
        match verdict {
            Verdict::Same => counts.same += 1,
            Verdict::Differs => counts.differ += 1,
            Verdict::Unanswered => counts.unanswered += 1,
            Verdict::LeftOut => counts.left_out += 1,
            Verdict::New => counts.new += 1,
        }
        counts
    }

    /// With one more.
    #[tactic(auto, using(crate::proofs::Totals::counting))]
    pub fn with(self, judgement: Judgement) -> VerdictCounts
        requires few { total self < 2 ^ 31 }
        requires errors { self.errors ≤ total self }
        ensures counted { result ≡ counted_with judgement self }
        ensures bound { total result ≡ total self + 1 }
        ensures errors { result.errors ≤ total result }
    {
        self.with_error(judgement.error)
            .with_verdict(judgement.verdict)
    }

    /// Of how many evaluations they are.
    pub fn total(self) -> u64
        ensures { result ≡ total self }
    {
        u64::from(self.same)
            + u64::from(self.differ)
            + u64::from(self.unanswered)
            + u64::from(self.left_out)
            + u64::from(self.new)
    }
}

/// Compares the output of the answer that a field shows with that of the answer that came.
fn compare_outputs(shown: &Answer, came: &Answer) -> Verdict
    ensures { Compared (Some shown.now) (Some came.now) result }
{
    if came.output == shown.output {
        Verdict::Same
    } else {
        Verdict::Differs
    }
}

/// Compares the answer that a field shows, where it shows one, with the one that came.
fn compare_answers(shown: &Option<Answer>, came: &Answer) -> Verdict
    ensures { Compared shown.now (Some came.now) result }
{
    match shown {
        None => Verdict::New,
        Some(shown) => compare_outputs(shown, came),
    }
}

/// The same, where one came.
pub(crate) fn compare(shown: &Option<Answer>, came: &Option<Answer>) -> Verdict
    ensures { Compared shown.now came.now result }
{
    match came {
        None => Verdict::Unanswered,
        Some(came) => compare_answers(shown, came),
    }
}
