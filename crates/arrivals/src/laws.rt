//! Laws of the definitions that the contracts cite. Each function does nothing: its contract is the
//! law.
ghost use Rattle.arrivals.specs.Laws.{LinesAreOfBstr};

/// Where no line is too long, the lines of an input are those that `bstr` gives of it.
pub fn lines_are_of_bstr()
    ensures { LinesAreOfBstr }
{}
