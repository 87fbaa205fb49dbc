//! What a check of a worksheet asks for, and how it reports what came: in words, as TAP, in JUnit's XML, or as lines
//! of JSON.
#![tactic(auto)]

mod brief;
mod cases;
mod chosen;
mod errors;
mod hunks;
mod ids;
mod junit;
pub mod laws;
mod objects;
mod report;
mod request;
mod tap;
mod verdict;
mod wording;
mod words;
mod writing;
mod xml;

pub use cases::Case;
pub use chosen::{Chosen, Ids};
pub use errors::{brings_error, tells_error};
pub use ids::read_ids;
pub use report::{ReportFault, ReportFormat, close_report, is_written, open_report, report_case};
pub use request::{FieldWords, ReportWords, Request, RequestFault, read_request};
pub use verdict::{Judgement, Verdict, VerdictCounts};
pub use words::acceptance_in_memory;
pub use writing::write_and_flush;
