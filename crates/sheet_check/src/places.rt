//! The fields of a worksheet, each of which has its turn, and the counts after it.
ghost use Rattle.std.specs.Prelude.{◌≡◌, ◌+◌, ◌≤◌, ◌<◌, ◌^◌};
ghost use Rattle.check_report.specs.Verdicts.{counted_with, total};
ghost use Rattle.sheet_check.specs.declared.progress.Sight.TheVariants as sight;

use crate::manner::CheckManner;
use crate::progress::{Progress, Sight};
use check_report::{Judgement, VerdictCounts};
use worksheet::Field;

/// The place of a field in a check.
#[derive(Clone, Copy)]
pub(crate) struct FieldPlace<'a> {
    pub(crate) manner: CheckManner<'a>,
    pub(crate) field: &'a Field,
    /// What those before it came to.
    pub(crate) counts: VerdictCounts,
    /// How many fields are checked in all.
    pub(crate) all: u32,
}

impl FieldPlace<'_> {
    /// Which case of the report the field is, where it is one.
    pub(crate) fn number(&self) -> u64
        requires { total self.now.counts < 2 ^ 31 }
        ensures { result ≡ total self.now.counts + 1 }
    {
        self.counts.total() + 1
    }

    /// The counts with what the field came to, which are shown.
    pub(crate) fn counted<P: Progress>(
        &self,
        judgement: Judgement,
        progress: &mut P,
    ) -> VerdictCounts
        requires few { total self.now.counts < 2 ^ 31 }
        requires errors { self.now.counts.errors ≤ total self.now.counts }
        ensures counted { result ≡ counted_with judgement self.now.counts }
        ensures bound { total result ≡ total self.now.counts + 1 }
        ensures errors { result.errors ≤ total result }
        ensures shown { P.shows progress.old (sight.Line result self.now.all) progress.new }
    {
        let counts = self.counts.with(judgement);
        progress.show(Sight::Line {
            counts,
            all: self.all,
        });
        counts
    }
}
