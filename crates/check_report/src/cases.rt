//! A field that was evaluated again, as it is reported.

use crate::verdict::Verdict;
use block_tree::Reason;
use sheet_json::Took;
use worksheet::{Answer, Field};

/// What a field came to that was evaluated again, as one case of a report.
#[derive(Clone, Copy)]
pub struct Case<'a> {
    /// Which case of the report it is, from 1.
    pub number: u64,
    /// The field, as the worksheet has it.
    pub field: &'a Field,
    /// The answer that came, where one did.
    pub came: &'a Option<Answer>,
    /// The reason that the field then shows for no answer, where it shows one.
    pub lost: Option<Reason>,
    /// What that came to.
    pub verdict: Verdict,
    /// What the evaluation took, where that is known.
    pub took: Option<Took>,
}
