//! Evaluations.
ghost use Rattle.std.specs.Prelude.{◌≡◌, false, true, Some, None, IfOk, IfErr, IsErrOf, OnOk, OnErr, List, ℕ, ◌<◌, vec_len, vec_capacity};
ghost use Rattle.disk_model.specs.Disk.{InModel, LeavesOnly, Rises, SameDisk};
ghost use Rattle.worksheet.specs.declared.op.Op.TheVariants as op;
ghost use Rattle.recovery.specs.Sheets.{GathersOn, IsEither, IsReady, SameStore};
ghost use Rattle.plugin_core.specs.Items.{IsAskable};
ghost use Rattle.plugin_core.specs.declared.item.Item.TheVariants as item_of;
ghost use Rattle.session_engine.specs.inside.Tables.{Asked, CanGoBack, GoesOnAt};
ghost use Rattle.session_engine.specs.Host.{number_in};

use crate::engine::{Engine, refused};
use crate::table::{Running, place_of, settle, waits_of};
use block_tree::{Octets, OutOfMemory, Sequence};
use disk_model::Disk;
use host_events::{Effect, HostFault, Outcome, Reply};
use journal::Frame;
use plugin_core::{Item, Life, MOST_WAITING};
use recovery::PrepareFault;
use std::alloc::Global;
use worksheet::{Field, Name, Op, Refusal};

/// The most lives that a host begins.
pub(crate) const MOST_LIVES: u32 = 100_000;

/// The line of a field.
fn line_of(alloc: Global, field: &Field) -> Result<Item, OutOfMemory>
    ensures { IfOk result (λ line. line ≡ item_of.Line field.now.id field.now.input) }
{
    let text = Octets::from_slice(alloc, field.input.as_bytes())?;
    Ok(Item::Line { id: field.id, text })
}

/// A copy of a session's words.
fn copy_words(alloc: Global, words: &Sequence<Octets>) -> Result<Sequence<Octets>, OutOfMemory>
    ensures { IfOk result (λ copy. copy ≡ words.now) }
{
    let mut copy = Vec::new(alloc);
    for word in words.as_slice() {
        copy.push(word.copy()?)?;
    }
    Ok(Sequence::from_vec(copy))
}

/// Makes room for one life more.
fn make_place(lives: &mut Vec<Running>) -> Result<(), OutOfMemory>
    ensures items { lives.new.items ≡ lives.old.items }
    ensures room { OnOk result (vec_len lives.new < vec_capacity lives.new) }
{
    lives.reserve(1)
}

/// Gives an item to the life of this session, or begins one with it. It returns which life has it, and what is to be sent now.
fn ask(
    alloc: Global,
    lives: &mut Vec<Running>,
    next: u32,
    name: Name,
    item: Item,
) -> Result<(u32, Option<Octets>), OutOfMemory>
    requires going { GoesOnAt lives.old.items name }
    requires askable { IsAskable item }
    ensures ok { IfOk result
        (λ reported. Asked name next item lives.old.items lives.new.items
        (record { number = reported.0; sent = reported.1 })) }
    ensures err { OnErr result (lives.new.items ≡ lives.old.items) }
{
    match place_of(lives, name) {
        Some(place) => {
            let running = &mut lives[place];
            match running.life.accept(item) {
                Ok(sent) => Ok((running.life.number(), sent)),
                Err(_) => Err(OutOfMemory),
            }
        }
        None => {
            if make_place(lives).is_err() {
                return Err(OutOfMemory);
            }
            match Life::begin(alloc, next, item) {
                Ok(life) => {
                    lives.push_reserved(Running { name, life });
                    Ok((next, None))
                }
                Err(_) => Err(OutOfMemory),
            }
        }
    }
}

impl<D: Disk> Engine<D> {
    ghost use Rattle.host_events.specs.declared.event.Event.TheVariants as event_of;
    ghost use Rattle.host_events.specs.declared.command.Command.TheVariants as command_of;
    ghost use Rattle.session_engine.specs.inside.Engines.{StandsAt, Works, TookAt, FailedAt};
    ghost use Rattle.session_engine.specs.inside.Commits.{RefusesEval};
    ghost use Rattle.session_engine.specs.World.{World, life_of, session_of_field, sheet_in};
    ghost use Rattle.session_engine.specs.inside.Parts.{eval_refusals, start_words, asks, with_item};
    ghost use Rattle.session_engine.specs.Refused.{queue_refusals};
    ghost use Rattle.session_engine.specs.inside.Words.{lives_are_spent};
    ghost use Rattle.session_engine.specs.Host.{HasField};
    ghost use Rattle.session_engine.specs.inside.Commits.{reported_asked, begun_with_words, Evaluated};
    ghost use Rattle.host_events.specs.declared.outcome.HostFault.TheVariants as hosts;
    ghost use Rattle.std.specs.Result.{result_err};
    ghost use Rattle.worksheet.specs.Checks.{first_of, has_field};

    /// Whether a session takes one item more.
    pub(crate) fn queue(&self, name: Name) -> Result<(), Refusal>
        ensures { (w : World) → StandsAt self.now w
            → result_err result ≡ first_of (queue_refusals w (life_of w name)) }
    {
        match place_of(&self.lives, name) {
            Some(place) => {
                if self.lives[place].life.waiting() as usize >= MOST_WAITING {
                    return Err(Refusal::QueueFull);
                }
                Ok(())
            }
            None => {
                if self.begun >= MOST_LIVES {
                    return Err(Refusal::LivesSpent);
                }
                Ok(())
            }
        }
    }

    /// A record of the Clear that goes with one line more of a session, where the session takes one and there
    /// is room and memory.
    fn prepare_clear(&mut self, name: Name, id: u32) -> Result<Frame, Refusal>
        requires works { Works self.old }
        requires field { has_field self.old.store.sheet.contents id ≡ true }
        ensures store { SameStore self.old.store self.new.store }
        ensures lives { self.new.lives ≡ self.old.lives }
        ensures begun { self.new.begun ≡ self.old.begun }
        ensures frame { IfOk result (IsReady self.new.store (op.Clear id)) }
        ensures ok { (w : World) → StandsAt self.old w → session_of_field w id ≡ name
            → IfOk result (λ _. first_of (eval_refusals w id) ≡ None) }
        ensures err { (w : World) → StandsAt self.old w → session_of_field w id ≡ name
            → IfErr result (RefusesEval w id) }
    {
        if let Err(refusal) = self.queue(name) {
            return Err(refusal);
        }
        let prepared = self.store.prepare(&Op::Clear { id });
        match prepared {
            Ok(frame) => Ok(frame),
            Err(PrepareFault::Full) => Err(Refusal::JournalFull),
            Err(PrepareFault::OutOfMemory) => Err(Refusal::OutOfMemory),
            Err(PrepareFault::Closed) => unreachable!(),
        }
    }

    /// Asks an item of a session: it begins a life, or joins the one that goes on.
    pub(crate) fn ask_session(&mut self, name: Name, item: Item) -> Result<Outcome, OutOfMemory>
        requires works { Works self.old }
        requires askable { IsAskable item }
        ensures ok { (w : World) → StandsAt self.old w
            → lives_are_spent w.begun (life_of w name) ≡ false → HasField (sheet_in w) name item
            → IfOk result (λ o. (o ≡ asks w name item (life_of w name))
            × StandsAt self.new (with_item w name item (life_of w name))) }
        ensures err { OnErr result ((self.new.lives.items ≡ self.old.lives.items)
            × (self.new.begun ≡ self.old.begun)) }
        ensures store { self.new.store ≡ self.old.store }
        ensures back { OnOk result
            (CanGoBack name self.old.lives.items self.old.begun self.new.lives.items
            self.new.begun) }
    {
        let words = self.words_for(name)?;
        let (number, sent) = ask(self.alloc, &mut self.lives, self.begun + 1, name, item)?;
        Ok(self.outcome_of_ask(name, number, words, sent))
    }

    /// What is returned for an item that is asked.
    fn outcome_of_ask(
        &mut self,
        name: Name,
        life: u32,
        words: Option<Sequence<Octets>>,
        sent: Option<Octets>,
    ) -> Outcome
        requires { self.old.begun < 4294967295 }
        ensures reported { result ≡ reported_asked name life words sent }
        ensures begun { self.new.begun ≡ begun_with_words self.old.begun words }
        ensures store { self.new.store ≡ self.old.store }
        ensures lives { self.new.lives ≡ self.old.lives }
    {
        let effect = match words {
            Some(words) => {
                self.begun += 1;
                Some(Effect::Start { name, life, words })
            }
            None => match sent {
                Some(bytes) => Some(Effect::Send { name, life, bytes }),
                None => None,
            },
        };
        Outcome {
            reply: Reply::Asked(life),
            effect,
        }
    }

    /// The input of a field is asked. Refusals come first; then the record of its Clear and all memory; then the
    /// line joins its life; then the Clear is committed, and where the disk fails a life begun for it is removed.
    pub(crate) fn eval(&mut self, id: u32) -> Result<Outcome, HostFault>
        requires { Works self.old }
        ensures same { SameDisk self.old.store.disk self.new.store.disk }
        ensures gathers { GathersOn self.old.store self.new.store }
        ensures at_once { IsErrOf result HostFault.Disk → self.old.store.gathers ≡ false }
        ensures took { (w : World) → StandsAt self.old w
            → IfOk result (TookAt w (event_of.Command (command_of.Eval id)) self.old self.new) }
        ensures failed { (w : World) → StandsAt self.old w
            → IfErr result (FailedAt w (event_of.Command (command_of.Eval id)) self.old self.new) }
    {
        let (name, line) = match self.store.sheet().field(id) {
            Some(field) => (field.session, line_of(self.alloc, field)),
            None => return Ok(refused(Refusal::NoField)),
        };
        if waits_of(&self.lives, name, id) {
            return Ok(refused(Refusal::InFlight));
        }
        match self.prepare_clear(name, id) {
            Ok(frame) => match line {
                Ok(line) => self.evaluate(name, id, line, frame),
                Err(_) => Ok(refused(Refusal::OutOfMemory)),
            },
            Err(refusal) => Ok(refused(refusal)),
        }
    }

    /// Asks the line of a field, and commits its Clear.
    fn evaluate(
        &mut self,
        name: Name,
        id: u32,
        line: Item,
        frame: Frame,
    ) -> Result<Outcome, HostFault>
        requires works { Works self.old }
        requires ready { IsReady self.old.store (op.Clear id) frame }
        requires askable { IsAskable line }
        ensures same { SameDisk self.old.store.disk self.new.store.disk }
        ensures gathers { GathersOn self.old.store self.new.store }
        ensures at_once { IsErrOf result HostFault.Disk → self.old.store.gathers ≡ false }
        ensures ok { (w : World) → StandsAt self.old w
            → lives_are_spent w.begun (life_of w name) ≡ false → HasField (sheet_in w) name line
            → IfOk result (Evaluated w (record { session = name; id = id; line = line }) self.old
            self.new) }
        ensures contents { OnErr result (self.new.store.sheet.contents
            ≡ self.old.store.sheet.contents) }
        ensures numbers { (other : List ℕ)
            → OnErr result (number_in self.new.lives.items other
            ≡ number_in self.old.lives.items other) }
        ensures fault { IfErr result (λ fault. (fault ≡ hosts.Disk)
            × Rises self.old.store.disk.faults self.new.store.disk.faults) }
        ensures moments { (w : World) → StandsAt self.old w
            → InModel self.old.store.disk
            (LeavesOnly
            (IsEither w.ops
            (op.Clear id)) self.old.store.disk.history self.new.store.disk.history) }
    {
        let begun = self.begun;
        match self.ask_session(name, line) {
            Ok(outcome) => match self.store.commit_ready(Op::Clear { id }, frame) {
                Ok(()) => Ok(outcome),
                Err(_) => {
                    settle(&mut self.lives, name, self.begun != begun);
                    Err(HostFault::Disk)
                }
            },
            Err(_) => Ok(refused(Refusal::OutOfMemory)),
        }
    }

    /// The words that a life of this session is to be started with, where none goes on.
    fn words_for(&self, name: Name) -> Result<Option<Sequence<Octets>>, OutOfMemory>
        ensures { (w : World) → StandsAt self.now w
            → IfOk result (λ words. words ≡ start_words w name (life_of w name)) }
    {
        match place_of(&self.lives, name) {
            Some(_) => Ok(None),
            None => match self.store.sheet().session(name.as_slice()) {
                Some(session) => Ok(Some(copy_words(self.alloc, &session.words)?)),
                None => Ok(Some(Sequence::new(self.alloc))),
            },
        }
    }
}
