//! Answers to requests of completions.
ghost use Rattle.std.specs.Prelude.{◌≡◌, IfOk, IsErrOf, Ok, Err};
ghost use Rattle.scheme_text.specs.Answers.{IsReportedBy, rooted};
ghost use Rattle.scheme_text.specs.Reported.{no_completion, reported_by};
ghost use Rattle.scheme_text.specs.declared.answer.Completions as declared;

use crate::outputs::answer_text;
use crate::strings::read_strings;
use block_tree::{Block, Octets, Sequence};
use std::alloc::Global;

/// What can stand at a cursor. Where an interpreter knows nothing, both are empty.
#[derive(Debug, Drop)]
pub struct Completions {
    /// The part of the input that the completions go on from.
    pub root: Octets,
    /// The completions, each without the root in front of it.
    pub rest: Sequence<Octets>,
}

/// An answer that tells no completions, nor that there are none.
#[derive(Clone, Copy, Debug, PartialEq, Eq)]
pub struct BadCompletion;

/// Why no completions were read.
#[derive(Clone, Copy, Debug, PartialEq, Eq)]
pub enum AnswerFault {
    /// The answer tells none, nor that there are none.
    BadCompletion,
    /// Memory was refused.
    OutOfMemory,
}

/// The first string is the root. No memory is taken.
fn with_root(alloc: Global, mut strings: Vec<Octets>) -> Completions
    ensures { result ≡ rooted strings.items }
{
    if strings.is_empty() {
        return Completions {
            root: Octets::from_vec(Vec::new(alloc)),
            rest: Sequence::new(alloc),
        };
    }
    let root = strings.remove(0);
    Completions {
        root,
        rest: Sequence::from_vec(strings),
    }
}

/// The completions that an answer with this output tells: a tuple of strings, the root the first of
/// them, or that there are none. Any other output is bad.
///
/// (GNU TeXmacs manual, interfacing: tab-completion; strings of R5RS 6.3.5. docs/use/PROTOCOL.md,
/// completion.)
#[tactic(auto, using(crate::proofs::Telling::answer_rules))]
pub fn read_answer(alloc: Global, output: &Block) -> Result<Completions, AnswerFault>
    ensures ok { IfOk result (IsReportedBy output.now) }
    ensures bad { IsErrOf result AnswerFault.BadCompletion → (c : declared.Completions)
        → IsReportedBy output.now c → ⊥ }
    ensures value { IfOk result (λ c. reported_by output.now ≡ Ok c) }
    ensures bad_value { IsErrOf result AnswerFault.BadCompletion
        → reported_by output.now ≡ Err no_completion }
{
    let Some(text) = answer_text(output.node()) else {
        return Err(AnswerFault::BadCompletion);
    };
    match read_strings(alloc, text) {
        Ok(strings) => Ok(with_root(alloc, strings)),
        Err(fault) => Err(fault),
    }
}

/// Two are equal where their roots and their completions are; `equal_completions` is the law.
impl PartialEq for Completions {
    ghost use Rattle.scheme_text.specs.Same.{same_completions, same_completions_per};

    ghost eq = { same_completions };

    ghost laws = { same_completions_per };

    fn eq(&self, other: &Completions) -> bool {
        self.root == other.root && self.rest.as_slice() == other.rest.as_slice()
    }
}

impl Eq for Completions {
    ghost use Rattle.scheme_text.specs.Same.{same_completions_equiv};

    ghost laws = { same_completions_equiv };
}
