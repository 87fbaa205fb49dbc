//! Laws of the definitions that the contracts cite. Each function does nothing: its contract is the
//! law.
ghost use Rattle.sheet_export.specs.Replay.{ScriptsMakeThemAgain, ScriptsRun, ScriptsRunAlike, ScriptsSayTheirOps};
ghost use Rattle.sheet_export.specs.Laws.{FieldLinesAreRead, NoTextClosesItsFence, PicturesAreBase64, SessionLinesAreRead, SpansNest, TextsHaveNoMarks};

/// No text of a page has `<`, `>`, `"` or an apostrophe, and each `&` in it begins a reference.
pub fn texts_have_no_marks()
    ensures { TextsHaveNoMarks }
{}

/// The one markup in an output are the spans of its formulas and errors, which nest, and its pictures, in whose
/// addresses base64 alone stands: no text begins or ends one.
pub fn spans_nest()
    ensures { SpansNest }
{
    pictures_are_base64();
}

/// What stands in the address of a picture is base64 alone.
pub fn pictures_are_base64()
    ensures { PicturesAreBase64 }
{
    sheet_notebook::laws::base64_is_its_alone();
}

/// Each line of a script that makes a session is read as the command that makes it.
pub fn session_lines_are_read()
    ensures { SessionLinesAreRead }
{}

/// Each line of a script that makes a field is read as the command that makes it.
pub fn field_lines_are_read()
    ensures { FieldLinesAreRead }
{
    sheet_text::laws::numbers_are_decimals();
}

/// Nowhere in a text of Markdown stand as many backquotes as its fence has, so no line of it ends its
/// code block.
pub fn no_text_closes_its_fence()
    ensures { NoTextClosesItsFence }
{}

/// The ops of a script's lines are allowed from an empty worksheet on, and make the same sessions, and
/// fields of the same sessions and inputs in the same order, numbered from 1.
pub fn scripts_make_them_again()
    ensures { ScriptsMakeThemAgain }
{
    worksheet::laws::rewrite_makes_the_same();
}

/// The lines of a script are read as commands that give these ops.
pub fn scripts_say_their_ops()
    ensures { ScriptsSayTheirOps }
{
    sheet_text::laws::numbers_are_decimals();
}

/// Each run of a script's lines over an empty worksheet replies that they were done, and `print` after
/// them prints what they make; or memory was refused at one of them.
pub fn scripts_run_alike()
    ensures { ScriptsRunAlike }
{
    scripts_make_them_again();
    scripts_say_their_ops();
}

/// A run of a script's lines over an empty worksheet, in which memory is never refused, makes these, and
/// `print` after them prints them.
pub fn scripts_run()
    ensures { ScriptsRun }
{
    scripts_make_them_again();
    scripts_say_their_ops();
}
