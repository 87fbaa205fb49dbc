//! Laws of the definitions that the contracts cite. Each function does nothing: its contract is the
//! law.
ghost use Rattle.check_report.specs.Laws.{HunksTurnOneIntoTheOther, JsonIsItsLines, OthersAreAsShown, ReportsAreTheirTexts, TapIsItsPoints, TextsAreNoTags, XmlHasNoMarks};

/// Reports as TAP and in JUnit's XML are those of their points, and those as JSON the lines of their
/// tellings, so the laws below are about them.
pub fn reports_are_their_texts()
    ensures { ReportsAreTheirTexts }
{}

/// The lines of a report as TAP are the version, a point for each field, numbered from 1, the plan, and
/// comments.
pub fn tap_is_its_points()
    ensures { TapIsItsPoints }
{}

/// Each telling of a report as JSON is one line.
#[tactic(auto, using(crate::proofs::JsonLines::json_is_its_lines))]
pub fn json_is_its_lines()
    ensures { JsonIsItsLines }
{}

/// No text in XML has `<`, `>` or `"`, and each `&` in it begins a reference.
pub fn xml_has_no_marks()
    ensures { XmlHasNoMarks }
{}

/// The tags of a report in JUnit's XML are those of one in which nothing is reported.
pub fn texts_are_no_tags()
    ensures { TextsAreNoTags }
{}

/// The hunk of a difference turns the output that a field shows into the one that came: all lines around those
/// that it marks are the same in both.
pub fn hunks_turn_one_into_the_other()
    ensures { HunksTurnOneIntoTheOther }
{}

/// An output in which no picture stands is shown as in a worksheet.
#[tactic(auto, using(crate::proofs::Unpictured::others_as_shown))]
pub fn others_are_as_shown()
    ensures { OthersAreAsShown }
{}
