//! One life of an interpreter.
ghost use Rattle.std.specs.Prelude.{◌≡◌, ◌≤◌, ◌↔◌, ◌∷◌, ◌⊎◌, List, [], false, length, Some, None, IfOk, IfErr, OnErr, IsErrOf};
ghost use Rattle.std.specs.List.{list_any};
ghost use Rattle.meta_format.specs.Stream.{Outer};
ghost use Rattle.plugin_core.specs.Past.{Event, accepted};
ghost use Rattle.plugin_core.specs.Items.{waiting_of, prompt_of, first_line_of, is_line_of, IsAskable};
ghost use Rattle.plugin_core.specs.Limits.{longest_prompt, most_waiting};

use crate::item::bytes_for;
use crate::limits::MOST_WAITING;
use crate::{Ended, Item, Reason};
use block_tree::{Octets, OutOfMemory, Queue};
use meta_format::Reader;
use std::alloc::Global;
use std::collections::VecDeque;
use std::marker::Model;

/// One life of an interpreter, from the item that it is begun for to its end.
///
/// It takes the items that are accepted and the pieces of the interpreter's output, and returns the
/// answers that these pieces close. A life stands for its past, which is the list of these events: that
/// is the relation `LifeHasPast`, which `begin` gives and `accept` and `piece` carry on.
#[derive(Drop)]
pub struct Life {
    pub(crate) alloc: Global,
    pub(crate) number: u32,
    pub(crate) over: bool,
    pub(crate) reader: Reader,
    /// The ask point of the first item that waits, or of the banner.
    pub(crate) ask: Option<u64>,
    /// Whether the banner has closed.
    pub(crate) greeted: bool,
    pub(crate) waiting: VecDeque<Item>,
    pub(crate) prompt: Octets,
}

impl Model for Life {
    ghost use Rattle.std.specs.Prelude.{◌≡◌, ◌≤◌, false, length};
    ghost use Rattle.std.specs.List.{AllByRecursion};
    ghost use Rattle.plugin_core.specs.Items.{IsAskable};
    ghost use Rattle.plugin_core.specs.Kept.{InterpreterView, IsFed};
    ghost use Rattle.plugin_core.specs.Limits.{longest_prompt, most_waiting};

    ghost Value = { InterpreterView };

    ghost view = { λ life. record { number = life.number; over = life.over; reader = life.reader; ask = life.ask; greeted = life.greeted; waiting = life.waiting.items; prompt = life.prompt } };

    ghost invariant = { λ life. (length life.waiting.items ≤ most_waiting) × (life.over ≡ false → IsFed life.reader) × (length life.prompt ≤ longest_prompt) × AllByRecursion IsAskable life.waiting.items };
}

/// Why an item was not accepted. It is given back.
#[derive(Debug, Drop)]
pub enum AcceptFault {
    /// 1,024 items wait.
    Full(Item),
    /// Memory was refused. No clause can tell when that is: it stands for a growth that was really refused.
    OutOfMemory(Item),
}

impl Life {
    ghost use Rattle.plugin_core.specs.Kept.{LifeHasPast, Accepts};
    ghost use Rattle.plugin_core.specs.inside.Changes.{Joins};

    /// A life with this number that begins with an item, before the first byte of its stream. The item is
    /// asked once the banner has closed. Where memory is refused the item is given back.
    pub fn begin(alloc: Global, number: u32, item: Item) -> Result<Life, (Item, OutOfMemory)>
        requires { IsAskable item }
        ensures ok { IfOk result (λ life. LifeHasPast life (accepted item ∷ []) []) }
        ensures number { IfOk result (λ life. life.number ≡ number) }
        ensures err { IfErr result (λ refused. refused.0 ≡ item) }
    {
        let prompt = match Octets::from_slice(alloc, b"> ") {
            Ok(prompt) => prompt,
            Err(_) => return Err((item, OutOfMemory)),
        };
        let mut waiting = VecDeque::new(alloc);
        match waiting.push_back(item) {
            Ok(()) => {}
            Err(refused) => return Err((refused.value, OutOfMemory)),
        }
        Ok(Life {
            alloc,
            number,
            over: false,
            reader: Reader::new(alloc),
            ask: Some(0),
            greeted: false,
            waiting,
            prompt,
        })
    }

    /// Takes one more item. The bytes are to be sent to the interpreter now: they are there where the
    /// item is asked at once, since the banner has closed and nothing else waits.
    ///
    /// An error gives the item back, and changes nothing.
    pub fn accept(&mut self, item: Item) -> Result<Option<Octets>, AcceptFault>
        requires goes_on { self.old.over ≡ false }
        requires askable { IsAskable item }
        ensures ok { (past : List Event) (blocks : List Outer) → LifeHasPast self.old past blocks
            → IfOk result (λ sent. Accepts past blocks item sent self.new) }
        ensures full { (past : List Event) (blocks : List Outer) → LifeHasPast self.old past blocks
            → IsErrOf result (AcceptFault.Full item)
            ↔ (length (waiting_of past blocks) ≡ most_waiting) }
        ensures err { IfErr result (λ fault. (fault ≡ AcceptFault.Full item) ⊎ (fault
            ≡ AcceptFault.OutOfMemory item)) }
        ensures same { OnErr result (self.new ≡ self.old) }
        ensures number { self.new.number ≡ self.old.number }
        ensures over { self.new.over ≡ false }
    {
        self.join(item)
    }

    /// Puts an item after those that wait.
    fn join(&mut self, item: Item) -> Result<Option<Octets>, AcceptFault>
        requires goes_on { self.old.over ≡ false }
        requires askable { IsAskable item }
        ensures ok { IfOk result (λ sent. Joins self.old self.new item sent) }
        ensures full { IsErrOf result (AcceptFault.Full item)
            ↔ (length self.old.waiting ≡ most_waiting) }
        ensures err { IfErr result (λ fault. (fault ≡ AcceptFault.Full item) ⊎ (fault
            ≡ AcceptFault.OutOfMemory item)) }
        ensures same { OnErr result (self.new ≡ self.old) }
        ensures number { self.new.number ≡ self.old.number }
        ensures over { self.new.over ≡ false }
    {
        if self.waiting.len() >= MOST_WAITING {
            return Err(AcceptFault::Full(item));
        }
        let at_once = self.greeted && self.waiting.is_empty();
        let sent = if at_once {
            match bytes_for(self.alloc, &item) {
                Ok(bytes) => Some(bytes),
                Err(_) => return Err(AcceptFault::OutOfMemory(item)),
            }
        } else {
            None
        };
        match self.waiting.push_back(item) {
            Ok(()) => {}
            Err(refused) => return Err(AcceptFault::OutOfMemory(refused.value)),
        }
        if at_once {
            self.ask = Some(self.reader.offset());
        }
        Ok(sent)
    }

    /// Ends the life for a reason from outside, and hands on the items without an answer. No memory is
    /// taken.
    pub fn finish(self, reason: Reason) -> Ended
        requires { self.over ≡ false }
        ensures { (past : List Event) (blocks : List Outer) → LifeHasPast self past blocks
            → result ≡ record { reason = reason; lost = waiting_of past blocks } }
    {
        Ended {
            reason,
            lost: Queue::from_deque(self.waiting),
        }
    }

    /// How many items have no answer yet, the one that is asked among them: at most 1,024.
    ///
    /// Of a life that is over nothing is claimed but that the call returns.
    pub fn waiting(&self) -> u32
        ensures { (past : List Event) (blocks : List Outer) → LifeHasPast self.now past blocks
            → result ≡ length (waiting_of past blocks) }
    {
        self.waiting.len() as u32
    }

    /// Whether a line for the field with this number has no answer yet.
    ///
    /// Of a life that is over nothing is claimed but that the call returns.
    pub fn waits_for(&self, id: u32) -> bool
        ensures { (past : List Event) (blocks : List Outer) → LifeHasPast self.now past blocks
            → result ≡ list_any (λ item. is_line_of id item) (waiting_of past blocks) }
    {
        has_line(&self.waiting, id)
    }

    /// The field of the first item without an answer, where that is a line. No memory is taken.
    ///
    /// Of a life that is over nothing is claimed but that the call returns.
    pub fn first_line(&self) -> Option<u32>
        ensures { (past : List Event) (blocks : List Outer) → LifeHasPast self.now past blocks
            → result ≡ first_line_of (waiting_of past blocks) }
    {
        first_line_in(&self.waiting)
    }

    /// The prompt that an item asked now would have: that of the latest answer that has one, cut to its
    /// first 1,024 bytes, or `> ` where none has.
    ///
    /// Of a life that is over nothing is claimed but that it has at most 1,024 bytes.
    pub fn prompt(&self) -> &[u8]
        ensures prompt { (past : List Event) (blocks : List Outer)
            → LifeHasPast self.now past blocks → result.now ≡ prompt_of past blocks }
        ensures short { length result.now ≤ longest_prompt }
    {
        self.prompt.as_slice()
    }

    /// The number that the life was begun with.
    pub fn number(&self) -> u32
        ensures { result ≡ self.now.number }
    {
        self.number
    }

    /// Whether a piece has ended the life: by a fault of its stream, or by lack of memory.
    pub fn over(&self) -> bool
        ensures { result ≡ self.now.over }
    {
        self.over
    }
}

/// The field of the first of these items, where that is a line.
fn first_line_in(items: &VecDeque<Item>) -> Option<u32>
    ensures { result ≡ first_line_of items.now.items }
{
    match items.front() {
        Some(Item::Line { id, text: _ }) => Some(*id),
        Some(
            Item::Complete {
                id: _,
                text: _,
                cursor: _,
            },
        ) => None,
        None => None,
    }
}

/// Whether a line for the field with this number is among these items.
fn has_line(items: &VecDeque<Item>, id: u32) -> bool
    ensures { result ≡ list_any (λ item. is_line_of id item) items.now.items }
{
    items.iter().any(|item| is_line(item, id))
}

fn is_line(item: &Item, id: u32) -> bool
    ensures { result ≡ is_line_of id item.now }
{
    match item {
        Item::Line { id: other, text: _ } => *other == id,
        Item::Complete {
            id: _,
            text: _,
            cursor: _,
        } => false,
    }
}
