//! Laws of the definitions that the contracts cite. Each function does nothing: its contract is the
//! law.
ghost use Rattle.std.specs.Prelude.{◌≡◌, ◌↔◌, IsTrue};
ghost use Rattle.block_tree.specs.Tree.{Tree};
ghost use Rattle.scheme_text.specs.Answers.{IsReportedBy};
ghost use Rattle.scheme_text.specs.Laws.{OneRequest, QuotedIsRead, QuotesOneText, SaysOneList};
ghost use Rattle.scheme_text.specs.Laws.{ReportedAsAValue, WrittenTuplesAreRead};
ghost use Rattle.scheme_text.specs.Same.{same_completions};
ghost use Rattle.scheme_text.specs.declared.answer.Completions.{Completions};

/// The bytes between two quotes stand for one text at most.
pub fn quotes_one_text()
    ensures { QuotesOneText }
{}

/// No bytes are the requests of two inputs, or of two cursors.
pub fn one_request()
    ensures { OneRequest }
{}

/// A text says one list of strings at most: the forms of an answer don't overlap.
pub fn says_one_list()
    ensures { SaysOneList }
{}

/// An output tells one value of completions at most.
pub fn one_completion()
    ensures { (b : Tree) (c d : Completions) → IsReportedBy b c → IsReportedBy b d → c ≡ d }
{}

/// What is written between quotes, as in a request, is read as what was to be written.
pub fn quoted_is_read()
    ensures { QuotedIsRead }
{}

/// A tuple of any strings, each written between quotes after a space, says these strings.
pub fn written_tuples_are_read()
    ensures { WrittenTuplesAreRead }
{}

/// The value `reported_by`, which definitions of other crates keep, is what the output tells; it is bad
/// where the output tells nothing.
pub fn reported_as_a_value()
    ensures { ReportedAsAValue }
{}

/// What `==` answers of two values, `same_completions`, is true exactly where they are one.
pub fn equal_completions()
    ensures { (c d : Completions) → IsTrue (same_completions c d) ↔ (c ≡ d) }
{}
