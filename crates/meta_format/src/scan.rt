//! One byte after another.

ghost use Rattle.std.specs.Prelude.{◌≡◌, ◌≤◌, ◌<◌, ◌+◌, ◌-◌, ℕ, List, [], ◌++◌, length, OnOk, IfErr, true, false, slice_index, nat_eq};
ghost use Rattle.std.specs.List.{list_all};
ghost use Rattle.block_tree.specs.Shape.{is_tag_byte, longest_tag, most_levels};
ghost use Rattle.meta_format.specs.inside.Scan.{most_of, mode_of, scan_state, IsFresh, IsPlaced, AreLevels, Steps, StepsAt};
ghost use Rattle.meta_format.specs.Stream.{Outer};
ghost use Rattle.meta_format.specs.inside.Levels.{IsHeld, stack_marks};
ghost use Rattle.meta_format.specs.inside.Machine.{is_bad_tag, is_late, outside, run};
ghost use Rattle.meta_format.specs.Spelling.{is_separator as separates, is_special};
ghost use Rattle.meta_format.specs.declared.scan.Place.TheVariants as place;
ghost use Rattle.meta_format.specs.declared.scan.Stop.TheVariants as stop;

use crate::bounds::Bounds;
use crate::level::{Level, add_letter, add_letters, add_level, end_level};
use block_tree::{Block, LONGEST_TAG, MOST_LEVELS, OutOfMemory, Tag, TagName};
use std::alloc::{AllocFailed, Global};

/// Where the last byte has led.
#[derive(Clone, Copy, Debug, PartialEq, Eq)]
pub enum Place {
    /// After noise or an outer block.
    Outside,
    /// After a 2, in the name of its tag.
    Tag,
    /// In a body.
    Body,
    /// In a body, after a 27 whose second byte is to come.
    Escape,
}

/// What is kept of the bytes so far: of an open block its levels, and of a closed one nothing.
#[derive(Drop)]
pub struct Scanner {
    /// How many bytes were taken.
    pub at: u64,
    /// Where the open block starts.
    pub start: u64,
    pub place: Place,
    /// The name so far, in a tag.
    pub name: Vec<u8>,
    pub levels: Vec<Level>,
}

/// An outer block of a stream, found.
#[derive(Drop)]
pub struct Found {
    /// The offset of its 2 in the stream, in bytes from 0.
    pub start: u64,
    /// The offset after its closing 5.
    pub stop: u64,
    /// The block.
    pub block: Block,
}

/// Why a scan stops: a fault at the byte that `at` counts to, or lack of memory.
#[derive(Clone, Copy, Debug, PartialEq)]
pub enum Stop {
    BadTag,
    TooDeep,
    TooLong,
    OutOfMemory,
}

impl From<OutOfMemory> for Stop {
    ghost use Rattle.std.specs.Prelude.{◌≡◌};
    ghost use Rattle.meta_format.specs.declared.scan.Stop.TheVariants.{OutOfMemory};

    ghost from_gives = { λ _ e. e ≡ OutOfMemory };

    fn from(_e: OutOfMemory) -> Stop {
        Stop::OutOfMemory
    }
}

impl<T: Drop> From<AllocFailed<T>> for Stop {
    ghost use Rattle.std.specs.Prelude.{◌≡◌};
    ghost use Rattle.meta_format.specs.declared.scan.Stop.TheVariants.{OutOfMemory};

    ghost from_gives = { λ _ e. e ≡ OutOfMemory };

    fn from(_e: AllocFailed<T>) -> Stop {
        Stop::OutOfMemory
    }
}

pub fn is_separator(c: u8) -> bool
    ensures { result ≡ separates c }
{
    c == b':' || c == b'#'
}

/// Whether a byte that does not close the block that starts there is one too many.
fn is_too_long(bounds: Bounds, start: u64, at: u64) -> bool
    requires begun { start ≤ at }
    requires block { 0 < bounds.block }
    ensures { result ≡ is_late (most_of bounds) start at }
{
    at >= bounds.stream || at - start >= bounds.block - 1
}

fn is_wrong_in_tag(name: &[u8], c: u8) -> bool
    ensures { result ≡ is_bad_tag longest_tag name.now c }
{
    c < 32
        || (is_separator(c) && name.is_empty())
        || (!is_separator(c) && name.len() == LONGEST_TAG)
}

impl Scanner {
    /// Before the first byte.
    pub fn new(alloc: Global) -> Scanner
        ensures fresh { IsFresh result }
        ensures mode { mode_of result ≡ outside }
    {
        Scanner {
            at: 0,
            start: 0,
            place: Place::Outside,
            name: Vec::new(alloc),
            levels: Vec::new(alloc),
        }
    }

    #[tactic(auto, using(crate::proofs::Held::held_rules, crate::proofs::Openings::none_open))]
    fn step_outside(&mut self, bounds: Bounds, c: u8) -> Result<Option<Found>, Stop>
        requires none { self.old.levels.items ≡ [] }
        requires nameless { self.old.name.items ≡ [] }
        requires block { 0 < bounds.block }
        ensures steps { StepsAt place.Outside (most_of bounds) self.old c result self.new }
        ensures placed { OnOk result (IsPlaced bounds.block self.new) }
    {
        let at = self.at;
        if at >= bounds.stream {
            return Err(Stop::TooLong);
        }
        self.at = at + 1;
        if c == 2 {
            self.start = at;
            self.place = Place::Tag;
        } else {
            self.place = Place::Outside;
        }
        Ok(None)
    }

    #[tactic(auto, using(crate::proofs::Tags::name_rules, crate::proofs::Openings::open_rules, crate::proofs::Held::held_rules))]
    fn step_in_tag(&mut self, alloc: Global, bounds: Bounds, c: u8) -> Result<Option<Found>, Stop>
        requires begun { self.old.start ≤ self.old.at }
        requires bytes { list_all is_tag_byte self.old.name.items ≡ true }
        requires few { length self.old.name.items ≤ longest_tag }
        requires shallow { length self.old.levels.items < most_levels }
        requires levels { AreLevels self.old.levels.items }
        requires block { 0 < bounds.block }
        requires held { IsHeld bounds.block self.old.start self.old.at
            (stack_marks self.old.levels.items) (length self.old.name.items) }
        ensures steps { StepsAt place.Tag (most_of bounds) self.old c result self.new }
        ensures placed { OnOk result (IsPlaced bounds.block self.new) }
    {
        let at = self.at;
        if is_wrong_in_tag(self.name.as_slice(), c) {
            return Err(Stop::BadTag);
        }
        if is_too_long(bounds, self.start, at) {
            return Err(Stop::TooLong);
        }
        self.at = at + 1;
        if is_separator(c) {
            let tag = Tag {
                channel: c == b'#',
                name: TagName::from_slice(alloc, self.name.as_slice())?,
            };
            self.name.clear();
            add_level(alloc, &mut self.levels, tag)?;
            self.place = Place::Body;
            return Ok(None);
        }
        self.name.push(c)?;
        self.place = Place::Tag;
        Ok(None)
    }

    /// Takes the 2 of a block in the body of another.
    #[tactic(auto, using(crate::proofs::Held::held_rules))]
    fn begin_inner(&mut self, bounds: Bounds) -> Result<Option<Found>, Stop>
        requires some { 0 < length self.old.levels.items }
        requires begun { self.old.start ≤ self.old.at }
        requires nameless { self.old.name.items ≡ [] }
        requires levels { AreLevels self.old.levels.items }
        requires block { 0 < bounds.block }
        requires held { IsHeld bounds.block self.old.start self.old.at
            (stack_marks self.old.levels.items) 0 }
        ensures steps { StepsAt place.Body (most_of bounds) self.old 2 result self.new }
        ensures placed { OnOk result (IsPlaced bounds.block self.new) }
    {
        if self.levels.len() >= MOST_LEVELS as usize {
            return Err(Stop::TooDeep);
        }
        let at = self.at;
        if is_too_long(bounds, self.start, at) {
            return Err(Stop::TooLong);
        }
        self.at = at + 1;
        self.place = Place::Tag;
        Ok(None)
    }

    /// Takes the 5 that ends the innermost block, and gives it where it is the outer one.
    #[tactic(auto, using(crate::proofs::Openings::open_rules, crate::proofs::Held::held_rules))]
    fn end_block(&mut self, alloc: Global, bounds: Bounds) -> Result<Option<Found>, Stop>
        requires some { 0 < length self.old.levels.items }
        requires begun { self.old.start ≤ self.old.at }
        requires nameless { self.old.name.items ≡ [] }
        requires levels { AreLevels self.old.levels.items }
        requires block { 0 < bounds.block }
        requires held { IsHeld bounds.block self.old.start self.old.at
            (stack_marks self.old.levels.items) 0 }
        ensures steps { StepsAt place.Body (most_of bounds) self.old 5 result self.new }
        ensures placed { OnOk result (IsPlaced bounds.block self.new) }
    {
        let at = self.at;
        let start = self.start;
        let closes = self.levels.len() == 1;
        if at >= bounds.stream || (!closes && is_too_long(bounds, start, at)) {
            return Err(Stop::TooLong);
        }
        self.at = at + 1;
        match end_level(alloc, &mut self.levels)? {
            Some(node) => {
                let Ok(block) = Block::new(node) else {
                    unreachable!()
                };
                self.place = Place::Outside;
                Ok(Some(Found {
                    start,
                    stop: at + 1,
                    block,
                }))
            }
            None => {
                self.place = Place::Body;
                Ok(None)
            }
        }
    }

    /// Takes a byte of a text that spells itself.
    #[tactic(auto, using(crate::proofs::Openings::open_rules, crate::proofs::Held::held_rules))]
    fn take_text(&mut self, bounds: Bounds, c: u8) -> Result<Option<Found>, Stop>
        requires plain { is_special c ≡ false }
        requires some { 0 < length self.old.levels.items }
        requires begun { self.old.start ≤ self.old.at }
        requires nameless { self.old.name.items ≡ [] }
        requires levels { AreLevels self.old.levels.items }
        requires block { 0 < bounds.block }
        requires held { IsHeld bounds.block self.old.start self.old.at
            (stack_marks self.old.levels.items) 0 }
        ensures steps { StepsAt place.Body (most_of bounds) self.old c result self.new }
        ensures placed { OnOk result (IsPlaced bounds.block self.new) }
    {
        let at = self.at;
        if is_too_long(bounds, self.start, at) {
            return Err(Stop::TooLong);
        }
        add_letter(&mut self.levels, c)?;
        self.at = at + 1;
        self.place = Place::Body;
        Ok(None)
    }

    /// Takes noise, many bytes at once.
    pub fn skip_noise(&mut self, bounds: Bounds, noise: &[u8])
        requires outside { self.old.place ≡ place.Outside }
        requires placed { IsPlaced bounds.block self.old }
        requires silent { (k : ℕ) → k < length noise.now
            → nat_eq (slice_index noise.now k) 2 ≡ false }
        requires early { self.old.at + length noise.now ≤ bounds.stream }
        ensures runs { (out : List Outer) (rest : List ℕ)
            → run (most_of bounds) (scan_state self.old out) (noise.now ++ rest)
            ≡ run (most_of bounds) (scan_state self.new out) rest }
        ensures placed { IsPlaced bounds.block self.new }
    {
        self.at += noise.len() as u64;
    }

    /// Takes bytes of a text that spell themselves, many at once.
    #[tactic(auto, using(crate::proofs::Letters::took_text, crate::proofs::Letters::placed_text))]
    pub fn take_run(&mut self, bounds: Bounds, text: &[u8]) -> Result<(), Stop>
        requires body { self.old.place ≡ place.Body }
        requires placed { IsPlaced bounds.block self.old }
        requires plain { (k : ℕ) → k < length text.now
            → is_special (slice_index text.now k) ≡ false }
        requires early { self.old.at + length text.now ≤ bounds.stream }
        requires short { self.old.at + length text.now < bounds.block + self.old.start }
        ensures runs { OnOk result ((out : List Outer) (rest : List ℕ)
            → run (most_of bounds) (scan_state self.old out) (text.now ++ rest)
            ≡ run (most_of bounds) (scan_state self.new out) rest) }
        ensures placed { OnOk result (IsPlaced bounds.block self.new) }
        ensures memory { IfErr result (λ e. e ≡ stop.OutOfMemory) }
    {
        add_letters(&mut self.levels, text)?;
        self.at += text.len() as u64;
        Ok(())
    }

    /// Takes a 27, whose second byte is to come.
    #[tactic(auto, using(crate::proofs::Held::held_rules))]
    fn begin_escape(&mut self, bounds: Bounds) -> Result<Option<Found>, Stop>
        requires some { 0 < length self.old.levels.items }
        requires begun { self.old.start ≤ self.old.at }
        requires nameless { self.old.name.items ≡ [] }
        requires levels { AreLevels self.old.levels.items }
        requires block { 0 < bounds.block }
        requires held { IsHeld bounds.block self.old.start self.old.at
            (stack_marks self.old.levels.items) 0 }
        ensures steps { StepsAt place.Body (most_of bounds) self.old 27 result self.new }
        ensures placed { OnOk result (IsPlaced bounds.block self.new) }
    {
        let at = self.at;
        if is_too_long(bounds, self.start, at) {
            return Err(Stop::TooLong);
        }
        self.at = at + 1;
        self.place = Place::Escape;
        Ok(None)
    }

    fn step_in_body(&mut self, alloc: Global, bounds: Bounds, c: u8) -> Result<Option<Found>, Stop>
        requires some { 0 < length self.old.levels.items }
        requires begun { self.old.start ≤ self.old.at }
        requires nameless { self.old.name.items ≡ [] }
        requires levels { AreLevels self.old.levels.items }
        requires block { 0 < bounds.block }
        requires held { IsHeld bounds.block self.old.start self.old.at
            (stack_marks self.old.levels.items) 0 }
        ensures steps { StepsAt place.Body (most_of bounds) self.old c result self.new }
        ensures placed { OnOk result (IsPlaced bounds.block self.new) }
    {
        match c {
            2 => self.begin_inner(bounds),
            5 => self.end_block(alloc, bounds),
            27 => self.begin_escape(bounds),
            _ => self.take_text(bounds, c),
        }
    }

    #[tactic(auto, using(crate::proofs::Openings::open_rules, crate::proofs::Held::held_rules))]
    fn step_in_escape(&mut self, bounds: Bounds, c: u8) -> Result<Option<Found>, Stop>
        requires some { 0 < length self.old.levels.items }
        requires begun { self.old.start ≤ self.old.at }
        requires nameless { self.old.name.items ≡ [] }
        requires levels { AreLevels self.old.levels.items }
        requires block { 0 < bounds.block }
        requires held { IsHeld bounds.block self.old.start self.old.at
            (stack_marks self.old.levels.items) 1 }
        ensures steps { StepsAt place.Escape (most_of bounds) self.old c result self.new }
        ensures placed { OnOk result (IsPlaced bounds.block self.new) }
    {
        let at = self.at;
        if is_too_long(bounds, self.start, at) {
            return Err(Stop::TooLong);
        }
        self.at = at + 1;
        self.place = Place::Body;
        if c != 2 && c != 5 && c != 27 {
            add_letter(&mut self.levels, 27)?;
        }
        add_letter(&mut self.levels, c)?;
        Ok(None)
    }

    /// Takes one byte, and gives the block that it closes.
    pub fn step(&mut self, alloc: Global, bounds: Bounds, c: u8) -> Result<Option<Found>, Stop>
        requires placed { IsPlaced bounds.block self.old }
        requires block { 0 < bounds.block }
        ensures steps { Steps (most_of bounds) self.old c result self.new }
        ensures placed { OnOk result (IsPlaced bounds.block self.new) }
    {
        match self.place {
            Place::Outside => self.step_outside(bounds, c),
            Place::Tag => self.step_in_tag(alloc, bounds, c),
            Place::Body => self.step_in_body(alloc, bounds, c),
            Place::Escape => self.step_in_escape(bounds, c),
        }
    }
}
