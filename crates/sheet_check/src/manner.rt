//! What a check is asked for.

use check_report::Request;
use std::alloc::Global;
use worksheet::Sheet;

/// What is checked and how it is reported, and where memory is taken from for it.
#[derive(Clone, Copy)]
pub struct CheckManner<'a> {
    pub alloc: Global,
    pub request: &'a Request,
}

/// A worksheet that is checked, and how.
#[derive(Clone, Copy)]
pub(crate) struct Suite<'a> {
    pub(crate) manner: CheckManner<'a>,
    pub(crate) sheet: &'a Sheet,
}

/// How a worksheet is checked: what is asked for, and in how many sessions at a time.
#[derive(Clone, Copy)]
pub struct CheckSetup<'a> {
    pub manner: CheckManner<'a>,
    /// How many sessions have a field at work at a time, at most. With 1 one field goes after another.
    pub jobs: u32,
}
