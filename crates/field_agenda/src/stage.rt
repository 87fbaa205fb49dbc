//! How far an evaluation is, and what is being done for it.
ghost use Rattle.std.specs.Prelude.{◌≡◌};
ghost use Rattle.evaluation.specs.Evaluation.{not_begun};

use block_tree::Sequence;
use evaluation::EvalEnd;
use evaluation::plan::Stand;
use live::Hold;
use std::alloc::Global;
use worksheet::Name;

/// How far an evaluation is.
#[derive(Clone, Copy, Debug)]
pub enum Stage {
    /// It hasn't looked at the worksheet yet.
    New,
    /// Fields are asked.
    Going,
    /// It came to its end here, and that is printed.
    Counted(EvalEnd),
    /// No field has this number, which is asked for: nothing is done.
    NoField(u32),
    /// The program of this session isn't there, of which a field is to be evaluated: nothing is done.
    NoProgram(Name),
}

/// What is being done.
#[derive(Clone, Copy, Debug)]
pub enum FieldDoing {
    /// Nothing: what was done is heeded.
    Nothing,
    /// Fields are asked.
    Ask,
    /// What lives have.
    Life,
    /// The interrupt for the field with this number, whose time is over.
    Over(u32),
    /// The end of the two seconds after an interrupt.
    Stall,
}

/// The place before anything was asked.
pub(crate) fn nothing_asked(alloc: Global) -> Stand
    ensures { result ≡ not_begun }
{
    Stand {
        taken: 0,
        first: 0,
        field: 0,
        held: Hold::Free,
        warned: false,
        at_once: false,
        asked: 0,
        overs: 0,
        lasts: Sequence::new(alloc),
    }
}
