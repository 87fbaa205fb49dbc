//! Laws of the definitions. Each function does nothing: its contract is the law.
ghost use Rattle.sheet_notebook.specs.Laws.{Base64IsItsAlone, FormulasAreStill, FormulasAfterAreStill};

/// What stands bare in Markdown for a formula is no more than text there: it has no control byte and no
/// backquote, and nothing in it begins a link, an image, an element, a remark or an address.
pub fn formulas_are_still()
    ensures { FormulasAreStill }
{}

/// The same of one after a text that was printed; and these two are all that `print` shows of such an output.
pub fn formulas_after_are_still()
    ensures { FormulasAfterAreStill }
{}

/// Base64 has letters, digits, `+`, `/` and `=` alone.
pub fn base64_is_its_alone()
    ensures { Base64IsItsAlone }
{}
