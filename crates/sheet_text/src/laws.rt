//! Laws of the definitions that the contracts cite. Each function does nothing: its contract is the
//! law.
ghost use Rattle.sheet_text.specs.Laws.{InputsComeBack, LinesAreTheInput, NumbersAreDecimals};

/// The bytes of a number in a script are its decimal.
pub fn numbers_are_decimals()
    ensures { NumbersAreDecimals }
{}

/// The lines of an input with U+2028 between each two are the input, and in none of them stands one.
pub fn lines_are_the_input()
    ensures { LinesAreTheInput }
{}

/// An input without a line feed comes back from the text with a line feed for each U+2028.
pub fn inputs_come_back()
    ensures { InputsComeBack }
{}
