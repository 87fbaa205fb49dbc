//! Laws of the definitions that the contracts cite. Each function does nothing: its contract is the law.
ghost use Rattle.plugin_core.specs.AskPoints.{AnswersByAskPoints, SendsWhatIsAsked};
ghost use Rattle.plugin_core.specs.Laws.{OneReading, OneStep, ShortPrompts};
ghost use Rattle.plugin_core.specs.Whole.{TellsTheAnswer, TellsTheCompletion};
ghost use Rattle.plugin_core.specs.Waits.{WaitsWhatIsUnanswered};

/// The answers of a past are those that its ask points give: each is the first block that starts at or
/// after its ask point, and this is where the stream ends after the later of two events, the one that
/// closes the answer before and the one that accepts the item.
pub fn answers_by_ask_points()
    ensures { AnswersByAskPoints }
{}

/// What is sent is what is asked: an event that doesn't end the life sends the bytes of the item that it
/// asks. This is the item for which it is the later of two events, the one that closes the answer before
/// and the one that accepts the item.
pub fn sends_what_is_asked()
    ensures { SendsWhatIsAsked }
{}

/// A stream has one reading: its blocks before its fault, and that fault.
pub fn streams_read_one_way()
    ensures { OneReading }
{
    meta_format::one_reading();
    meta_format::one_fault();
}

/// A piece gives one step: what lives tell of it that stand for one past is the same.
pub fn one_step()
    ensures { OneStep }
{
    streams_read_one_way();
}

/// The prompt after any past has at most 1,024 bytes.
pub fn short_prompts()
    ensures { ShortPrompts }
{}

/// What a piece tells of a line is the output of a whole block of the stream that answers this line by
/// its ask point, and whose last byte came in this piece; and the prompt that the line had.
pub fn tells_the_answer()
    ensures { TellsTheAnswer }
{}

/// What a piece tells of a request of completions is what the output of a whole block of the stream
/// tells, which answers this request by its ask point, and whose last byte came in this piece.
pub fn tells_the_completion()
    ensures { TellsTheCompletion }
{}

/// A field's line waits exactly where it was accepted and no block answers it so far.
pub fn waits_what_is_unanswered()
    ensures { WaitsWhatIsUnanswered }
{}
