//! What a check is asked for.
ghost use Rattle.std.specs.Prelude.{◌≡◌, IfErr, IfOk, None, Some, false, option_map, true};
ghost use Rattle.check_report.specs.Requests as asked;

use crate::chosen::{Chosen, Ids};
use crate::ids::read_ids;
use crate::report::ReportFormat;
use block_tree::Sequence;
use std::alloc::Global;
use worksheet::Name;

/// What a check is asked for: which fields, how long each may take, and how it reports them.
#[derive(Debug, Drop)]
pub struct Request {
    pub chosen: Chosen,
    /// How many seconds a field may take, where there is a limit (`docs/use/CHECK.md` says from when on).
    pub limit: Option<u32>,
    pub format: ReportFormat,
}

/// Why words ask for no check.
#[derive(Clone, Copy, Debug, PartialEq, Eq)]
pub enum RequestFault {
    /// There is no format of that name.
    Format,
    /// No session can have that name.
    Session,
    /// They aren't numbers of fields.
    Ids,
    /// There was no memory for them.
    OutOfMemory,
    /// In that format nothing is accepted.
    Accepting,
    /// In that format no outputs are whole, or answers that differ are to be accepted, too.
    Whole,
    /// They name a format, and ask for lines of JSON beside it.
    Both,
}

/// The format of this name: `text`, `tap`, `junit` or `json`. None where there is none of it.
fn format_named(name: &str) -> Option<ReportFormat>
    ensures { result ≡ asked.report_named name.now }
{
    match name {
        "text" => Some(ReportFormat::Text),
        "tap" => Some(ReportFormat::Tap),
        "junit" => Some(ReportFormat::Junit),
        "json" => Some(ReportFormat::Json),
        _ => None,
    }
}

/// The format with a name.
fn read_named(name: &str) -> Result<ReportFormat, RequestFault>
    ensures { result ≡ asked.named_or_none (asked.report_named name.now) }
{
    match format_named(name) {
        Some(format) => Ok(format),
        None => Err(RequestFault::Format),
    }
}

/// The format that is asked for, by whether lines of JSON are, and by its name.
fn read_format(json: bool, name: Option<&str>) -> Result<ReportFormat, RequestFault>
    ensures { result ≡ asked.format_asked json (option_map (λ text. text.now) name.entry) }
{
    match (json, name) {
        (false, None) => Ok(ReportFormat::Text),
        (true, None) => Ok(ReportFormat::Json),
        (false, Some(name)) => read_named(name),
        (true, Some(_)) => Err(RequestFault::Both),
    }
}

/// The report in a format, where answers that differ are accepted. None where that format has none.
fn accepting(format: ReportFormat) -> Option<ReportFormat>
    ensures { result ≡ asked.accepting format }
{
    match format {
        ReportFormat::Text | ReportFormat::Accepting => Some(ReportFormat::Accepting),
        ReportFormat::Whole | ReportFormat::Tap | ReportFormat::Junit | ReportFormat::Json => None,
    }
}

/// The report in a format, with whole outputs. None where that format has none.
fn in_whole(format: ReportFormat) -> Option<ReportFormat>
    ensures { result ≡ asked.in_whole format }
{
    match format {
        ReportFormat::Text | ReportFormat::Whole => Some(ReportFormat::Whole),
        ReportFormat::Tap | ReportFormat::Junit | ReportFormat::Json | ReportFormat::Accepting =>
            None,
    }
}

/// The same, where nothing is accepted.
fn in_whole_alone(format: ReportFormat, accept: bool) -> Option<ReportFormat>
    ensures { result ≡ asked.report_asked accept true format }
{
    if accept { None } else { in_whole(format) }
}

/// The report that is asked for.
fn read_report(words: ReportWords<'_>) -> Result<ReportFormat, RequestFault>
    ensures ok { IfOk result (asked.AsksReport (asked.report_view words.entry)) }
    ensures err { IfErr result (asked.AsksNone (asked.report_view words.entry)
        (asked.field_words None None None false)) }
{
    let format = match read_format(words.json, words.format) {
        Ok(format) => format,
        Err(why) => return Err(why),
    };
    if words.whole {
        return match in_whole_alone(format, words.accept) {
            Some(format) => Ok(format),
            None => Err(RequestFault::Whole),
        };
    }
    if !words.accept {
        return Ok(format);
    }
    match accepting(format) {
        Some(format) => Ok(format),
        None => Err(RequestFault::Accepting),
    }
}

/// The session that is asked for.
fn read_session(name: Option<&str>) -> Result<Option<Name>, RequestFault>
    ensures ok { IfOk result (λ session.
        asked.session_asked (option_map (λ text. text.now) name.entry) ≡ Some session) }
    ensures err { IfErr result (λ why. (why ≡ RequestFault.Session)
        × (asked.session_asked (option_map (λ text. text.now) name.entry) ≡ None)) }
{
    match name {
        None => Ok(None),
        Some(name) => match Name::new(name.as_bytes()) {
            Some(name) => Ok(Some(name)),
            None => Err(RequestFault::Session),
        },
    }
}

/// The numbers of the fields that are left out.
fn read_left_out(alloc: Global, text: Option<&str>) -> Result<Sequence<Ids>, RequestFault>
    ensures ok { IfOk result (λ ids.
        asked.ids_asked (option_map (λ text. text.now) text.entry) ≡ Some ids) }
    ensures err { IfErr result (asked.AsksNone (asked.report_words false false false None)
        (asked.field_words None (option_map (λ text. text.now) text.entry) None false)) }
{
    let Some(text) = text else {
        return Ok(Sequence::new(alloc));
    };
    match read_ids(alloc, text.as_bytes()) {
        Ok(Some(ids)) => Ok(ids),
        Ok(None) => Err(RequestFault::Ids),
        Err(_) => Err(RequestFault::OutOfMemory),
    }
}

/// The numbers of the fields that are compared, where any are named.
fn read_compared(alloc: Global, text: Option<&str>) -> Result<Option<Sequence<Ids>>, RequestFault>
    ensures ok { IfOk result (λ ids.
        asked.compared_asked (option_map (λ text. text.now) text.entry) ≡ Some ids) }
    ensures err { IfErr result (asked.AsksNone (asked.report_words false false false None)
        (asked.field_words None None (option_map (λ text. text.now) text.entry) false)) }
{
    let Some(text) = text else {
        return Ok(None);
    };
    match read_ids(alloc, text.as_bytes()) {
        Ok(Some(ids)) => Ok(Some(ids)),
        Ok(None) => Err(RequestFault::Ids),
        Err(_) => Err(RequestFault::OutOfMemory),
    }
}

/// The words that say how a check reports.
#[derive(Clone, Copy, Debug)]
pub struct ReportWords<'a> {
    /// Whether answers that differ are accepted.
    pub accept: bool,
    /// Whether outputs are whole.
    pub whole: bool,
    /// Whether lines of JSON are asked for.
    pub json: bool,
    /// The name of a format.
    pub format: Option<&'a str>,
}

/// The words that say which fields are checked.
#[derive(Clone, Copy, Debug)]
pub struct FieldWords<'a> {
    /// The session that they are of.
    pub only: Option<&'a str>,
    /// The numbers of those that are left out.
    pub left_out: Option<&'a str>,
    /// The numbers of those that are compared.
    pub compared: Option<&'a str>,
    /// Whether those that show no answer are checked too.
    pub all: bool,
}

/// The fields that the words ask for.
fn read_chosen(alloc: Global, words: FieldWords<'_>) -> Result<Chosen, RequestFault>
    ensures ok { IfOk result (asked.AsksFields (asked.fields_view words.entry)) }
    ensures err { IfErr result (asked.AsksNone (asked.report_words false false false None)
        (asked.fields_view words.entry)) }
{
    let only = match read_session(words.only) {
        Ok(only) => only,
        Err(why) => return Err(why),
    };
    let left_out = match read_left_out(alloc, words.left_out) {
        Ok(left_out) => left_out,
        Err(why) => return Err(why),
    };
    match read_compared(alloc, words.compared) {
        Ok(compared) => Ok(Chosen {
            only,
            left_out,
            compared,
            all: words.all,
        }),
        Err(why) => Err(why),
    }
}

/// What the words of a command line ask for: a report, and which fields are checked; within this limit of time, in
/// seconds, where there is one.
pub fn read_request(
    alloc: Global,
    report: ReportWords<'_>,
    fields: FieldWords<'_>,
    limit: Option<u32>,
) -> Result<Request, RequestFault>
    ensures ok { IfOk result (asked.Asks (asked.report_view report.entry)
        (asked.fields_view fields.entry)) }
    ensures within { IfOk result (λ request. request.limit ≡ limit) }
    ensures err { IfErr result (asked.AsksNone (asked.report_view report.entry)
        (asked.fields_view fields.entry)) }
{
    let format = match read_report(report) {
        Ok(format) => format,
        Err(why) => return Err(why),
    };
    match read_chosen(alloc, fields) {
        Ok(chosen) => Ok(Request {
            chosen,
            limit,
            format,
        }),
        Err(why) => Err(why),
    }
}
