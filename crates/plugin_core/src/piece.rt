//! A piece of an interpreter's output.
ghost use Rattle.std.specs.Prelude.{◌≡◌, ◌≤◌, List, length, true, false, IfOk, OnErr, option_map, slice_get, is_some, unwrap_or, nat_le};
ghost use Rattle.std.specs.List.{find};
ghost use Rattle.meta_format.specs.Stream.{Outer};
ghost use Rattle.meta_format.specs.Found.{outer_of, outers};
ghost use Rattle.plugin_core.specs.Past.{Event};
ghost use Rattle.plugin_core.specs.Limits.{longest_prompt};
ghost use Rattle.plugin_core.specs.inside.Words.{prompt_in};
ghost use Rattle.plugin_core.specs.Items.{bytes_of, answer_to};

use crate::item::bytes_for;
use crate::limits::LONGEST_PROMPT;
use crate::{Answered, Ended, Item, Life, Reason, Step};
use block_tree::{Block, Octets, OutOfMemory, Queue, channel_text};
use meta_format::{FeedFault, Found};
use scheme_text::{AnswerFault, BadCompletion, read_answer};
use std::alloc::Global;
use std::collections::VecDeque;

/// What the closing of an answer tells.
#[derive(Drop)]
struct Closing {
    answered: Option<Answered>,
    default_input: Option<Octets>,
}

impl Life {
    ghost use Rattle.plugin_core.specs.Kept.{LifeHasPast, Takes};
    ghost use Rattle.plugin_core.specs.inside.Changes.{AnswerCloses, Passes, Breaks, EndsAt, closed_among, answer_first, ask_then, waiting_then};

    /// Takes the next piece of the interpreter's output, which may be cut anywhere, and returns the
    /// answer that it closes and what is to be sent now. A fault of the stream ends the life after that
    /// answer.
    ///
    /// After `OutOfMemory` the life is over. Blocks that answer nothing are dropped here.
    pub fn piece(&mut self, piece: &[u8]) -> Result<Step, OutOfMemory>
        requires { self.old.over ≡ false }
        ensures ok { (past : List Event) (before : List Outer) → LifeHasPast self.old past before
            → IfOk result (λ step. Takes past before piece.now step self.new) }
        ensures ended { IfOk result (λ step. self.new.over ≡ is_some step.ended) }
        ensures err { OnErr result (self.new.over ≡ true) }
        ensures number { self.new.number ≡ self.old.number }
    {
        let step = match self.reader.feed(piece) {
            Ok(found) => self.pass(found),
            Err(fault) => {
                self.over = true;
                self.end_at(fault)
            }
        };
        if step.is_err() {
            self.over = true;
        }
        step
    }

    /// The end of the life, after the answer that closes before the fault.
    fn end_at(&mut self, fault: FeedFault) -> Result<Step, OutOfMemory>
        requires works { fault ≡ FeedFault.Failed → ⊥ }
        requires over { self.old.over ≡ true }
        ensures ok { IfOk result (λ step. EndsAt fault self.old self.new step) }
        ensures over { self.new.over ≡ true }
        ensures number { self.new.number ≡ self.old.number }
    {
        match fault {
            FeedFault::BadTag { offset: _, found } => self.break_off(Reason::BadTag, found),
            FeedFault::TooDeep { offset: _, found } => self.break_off(Reason::TooDeep, found),
            FeedFault::TooLong { offset: _, found } => self.break_off(Reason::TooLong, found),
            FeedFault::OutOfMemory => Err(OutOfMemory),
            FeedFault::Failed => unreachable!(),
        }
    }

    /// The blocks of a piece without a fault.
    fn pass(&mut self, found: Vec<Found>) -> Result<Step, OutOfMemory>
        ensures ok { IfOk result
            (λ step. Passes (closed_among self.old.ask (outers found.items)) self.old self.new
            step) }
        ensures number { self.new.number ≡ self.old.number }
    {
        let Some(answer) = self.answer_in(found) else {
            return Ok(Step::nothing());
        };
        let closing = self.close(answer.block)?;
        let send = self.first_bytes()?;
        Ok(Step {
            answered: closing.answered,
            default_input: closing.default_input,
            send,
            ended: None,
        })
    }

    /// The blocks of a piece with a fault after them.
    fn break_off(&mut self, reason: Reason, found: Vec<Found>) -> Result<Step, OutOfMemory>
        requires { self.old.over ≡ true }
        ensures ok { IfOk result
            (λ step. Breaks
            (closed_among self.old.ask (outers found.items)) self.old self.new reason step) }
        ensures over { self.new.over ≡ true }
        ensures number { self.new.number ≡ self.old.number }
    {
        let closing = match self.answer_in(found) {
            Some(answer) => self.close(answer.block)?,
            None => Closing {
                answered: None,
                default_input: None,
            },
        };
        let lost = std::mem::replace(&mut self.waiting, VecDeque::new(self.alloc));
        Ok(Step {
            answered: closing.answered,
            default_input: closing.default_input,
            send: None,
            ended: Some(Ended {
                reason,
                lost: Queue::from_deque(lost),
            }),
        })
    }

    /// The block that closes the answer that is awaited, if one does.
    fn answer_in(&self, found: Vec<Found>) -> Option<Found>
        ensures { option_map outer_of result ≡ closed_among self.now.ask (outers found.items) }
    {
        match self.ask {
            Some(ask) => first_after(found, ask),
            None => None,
        }
    }

    /// The answer of the first item, or the banner, closes with this block.
    fn close(&mut self, block: Block) -> Result<Closing, OutOfMemory>
        ensures ok { IfOk result (λ closing. AnswerCloses self.old self.new block closing) }
        ensures over { self.new.over ≡ self.old.over }
        ensures number { self.new.number ≡ self.old.number }
    {
        let default_input = channel_text(self.alloc, &block, b"input")?;
        let next = self.prompt_after(&block)?;
        let output = block.into_output(self.alloc)?;
        let prompt = std::mem::replace(&mut self.prompt, next);
        let answered = self.answer_first(prompt, output)?;
        self.ask = self.next_ask();
        Ok(Closing {
            answered,
            default_input,
        })
    }

    /// The prompt of a block, or else the latest one.
    fn prompt_after(&self, block: &Block) -> Result<Octets, OutOfMemory>
        ensures value { IfOk result (λ prompt. prompt
            ≡ unwrap_or (prompt_in block.now) self.now.prompt) }
        ensures short { IfOk result (λ prompt. length prompt ≤ longest_prompt) }
    {
        match prompt_of_block(self.alloc, block)? {
            Some(prompt) => Ok(prompt),
            None => self.prompt.copy(),
        }
    }

    /// What is returned for the answer to the first item, or for the banner.
    fn answer_first(
        &mut self,
        prompt: Octets,
        output: Block,
    ) -> Result<Option<Answered>, OutOfMemory>
        ensures answered { IfOk result (λ reported. reported
            ≡ answer_first self.old.greeted self.old.waiting prompt output) }
        ensures kept { self.new ≡ record self.old {
          greeted = true;
          waiting = waiting_then self.old.greeted self.old.waiting;
        } }
    {
        if !self.greeted {
            self.greeted = true;
            return Ok(Some(Answered::Banner(output)));
        }
        match self.waiting.pop_front() {
            Some(item) => Ok(Some(answer(self.alloc, item, prompt, output)?)),
            None => Ok(None),
        }
    }

    /// The ask point of the first item, where the answer before it closes now.
    fn next_ask(&self) -> Option<u64>
        ensures { result ≡ ask_then self.now.waiting self.now.reader.offset }
    {
        if self.waiting.is_empty() {
            None
        } else {
            Some(self.reader.offset())
        }
    }

    /// The bytes of the first item.
    fn first_bytes(&self) -> Result<Option<Octets>, OutOfMemory>
        ensures { IfOk result (λ bytes. bytes
            ≡ option_map bytes_of (slice_get self.now.waiting 0)) }
    {
        match self.waiting.front() {
            Some(item) => Ok(Some(bytes_for(self.alloc, item)?)),
            None => Ok(None),
        }
    }
}

/// The first block that starts at or after the ask point.
fn first_after(found: Vec<Found>, ask: u64) -> Option<Found>
    ensures { result ≡ find (λ block. nat_le ask block.start) found.items }
{
    found.into_iter().find(|block| ask <= block.start)
}

/// The prompt of a block, cut to its first bytes.
fn prompt_of_block(alloc: Global, block: &Block) -> Result<Option<Octets>, OutOfMemory>
    ensures { IfOk result (λ prompt. prompt ≡ prompt_in block.now) }
{
    match channel_text(alloc, block, b"prompt")? {
        Some(text) => {
            let mut bytes = text.into_vec();
            bytes.truncate(LONGEST_PROMPT);
            Ok(Some(Octets::from_vec(bytes)))
        }
        None => Ok(None),
    }
}

/// What is returned for an answer to an item.
fn answer(alloc: Global, item: Item, prompt: Octets, output: Block) -> Result<Answered, OutOfMemory>
    ensures { IfOk result (λ reported. reported ≡ answer_to item prompt output) }
{
    match item {
        Item::Line { id, text: _ } => Ok(Answered::Line { id, prompt, output }),
        Item::Complete {
            id,
            text: _,
            cursor: _,
        } => {
            let result = match read_answer(alloc, &output) {
                Ok(completions) => Ok(completions),
                Err(AnswerFault::BadCompletion) => Err(BadCompletion),
                Err(AnswerFault::OutOfMemory) => return Err(OutOfMemory),
            };
            Ok(Answered::Complete { id, result })
        }
    }
}
