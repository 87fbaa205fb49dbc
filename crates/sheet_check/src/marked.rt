//! What marks say.
ghost use Rattle.std.specs.Prelude.{◌≡◌, not};
ghost use Rattle.sheet_check.specs.Marks as marked;

use crate::marks::Mark;

/// Whether a mark says that the time of the field with this number was over.
fn is_over(mark: Mark, id: u32) -> bool
    ensures { result ≡ marked.is_over id mark }
{
    match mark {
        Mark::Over(one) => one == id,
        Mark::Asked | Mark::NoMemory => false,
    }
}

/// Whether it says that a line was asked.
fn is_asked(mark: Mark) -> bool
    ensures { result ≡ marked.is_asked mark }
{
    match mark {
        Mark::Asked => true,
        Mark::NoMemory | Mark::Over(_) => false,
    }
}

/// Whether the mark says that there was no memory for the line of a field.
fn is_no_memory(mark: Mark) -> bool
    ensures { result ≡ marked.is_no_memory mark }
{
    match mark {
        Mark::NoMemory => true,
        Mark::Asked | Mark::Over(_) => false,
    }
}

/// Whether the time of the field with this number was over.
fn is_late(marks: &[Mark], id: u32) -> bool
    ensures { result ≡ marked.is_late marks.now id }
{
    marks.iter().any(|mark| is_over(*mark, id))
}

/// Whether a field's time wasn't over.
pub(crate) fn is_in_time(marks: &[Mark], id: u32) -> bool
    ensures { result ≡ not (marked.is_late marks.now id) }
{
    !is_late(marks, id)
}

/// Whether a line was asked.
pub(crate) fn was_asked(marks: &[Mark]) -> bool
    ensures { result ≡ marked.was_asked marks.now }
{
    marks.iter().any(|mark| is_asked(*mark))
}

/// Whether one of these marks says that there was no memory for the line of a field.
pub(crate) fn lacked_memory(marks: &[Mark]) -> bool
    ensures { result ≡ marked.lacked_memory marks.now }
{
    marks.iter().any(|mark| is_no_memory(*mark))
}
