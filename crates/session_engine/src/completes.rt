//! Requests of completions.
ghost use Rattle.std.specs.Prelude.{◌≡◌, true, false, IfOk, IfErr, OnOk};
ghost use Rattle.std.specs.Result.{result_err};
ghost use Rattle.std.specs.Str.{IsCharBoundary};
ghost use Rattle.worksheet.specs.Checks.{is_input as input_test};
ghost use Rattle.plugin_core.specs.Items.{IsAskable};
ghost use Rattle.plugin_core.specs.declared.item.Item.TheVariants as item_of;

use crate::engine::{Engine, refused};
use block_tree::{Octets, OutOfMemory, Text};
use disk_model::Disk;
use host_events::Outcome;
use plugin_core::Item;
use worksheet::check::is_input;
use worksheet::{Field, Name, Refusal, text_of};

/// The request of completions at a cursor of a field's input.
fn request_of(field: &Field, cursor: u32) -> Result<Item, OutOfMemory>
    ensures { IfOk result (λ item. item ≡ item_of.Complete field.now.id field.now.input cursor) }
{
    let text = field.input.copy()?;
    Ok(Item::Complete {
        id: field.id,
        text,
        cursor: cursor as usize,
    })
}

/// The text of an input, or that these bytes are none.
fn read_input(bytes: Octets) -> Result<Text, Refusal>
    ensures ok { IfOk result (λ text. (text ≡ bytes) × (input_test bytes ≡ true)) }
    ensures err { IfErr result (λ refusal. (refusal ≡ Refusal.BadInput)
        × (input_test bytes ≡ false)) }
{
    if is_input(bytes.as_slice()) {
        Ok(text_of(bytes))
    } else {
        Err(Refusal::BadInput)
    }
}

impl<D: Disk> Engine<D> {
    ghost use Rattle.host_events.specs.declared.command.Command.{Command};
    ghost use Rattle.host_events.specs.declared.command.Command.TheVariants as command_of;
    ghost use Rattle.host_events.specs.declared.event.Event.TheVariants as event_of;
    ghost use Rattle.session_engine.specs.inside.Engines.{StandsAt, Works, TookAt};
    ghost use Rattle.session_engine.specs.inside.Commits.{GivesRequest, RefusesRequest};
    ghost use Rattle.session_engine.specs.World.{World, sheet_in};
    ghost use Rattle.session_engine.specs.Refused.{cursor_refusals, tab_refusals};
    ghost use Rattle.session_engine.specs.inside.Words.{takes_tab};
    ghost use Rattle.worksheet.specs.Checks.{field_in, first_of, session_named};

    /// Whether the interpreter of a session answers requests of completions.
    fn has_tab(&self, name: Name) -> bool
        ensures { (w : World) → StandsAt self.now w
            → result ≡ takes_tab (session_named (sheet_in w).sessions name) }
    {
        match self.store.sheet().session(name.as_slice()) {
            Some(session) => session.tab,
            None => false,
        }
    }

    /// The field with this number, whose session answers requests of completions.
    fn field_with_tab(&self, id: u32) -> Result<&Field, Refusal>
        ensures ok { (w : World) → StandsAt self.now w
            → IfOk result (λ field. field_in (sheet_in w).fields id ≡ Some field.now) }
        ensures refuses { (w : World) → StandsAt self.now w
            → result_err result ≡ first_of (tab_refusals w id) }
    {
        let Some(field) = self.store.sheet().field(id) else {
            return Err(Refusal::NoField);
        };
        if !self.has_tab(field.session) {
            return Err(Refusal::NoTab);
        }
        Ok(field)
    }

    /// Whether a session may be asked at this cursor of a text.
    fn check_cursor(&self, name: Name, text: &Text, cursor: u32) -> Result<(), Refusal>
        ensures ok { OnOk result (IsCharBoundary text.now cursor) }
        ensures refuses { (w : World) → StandsAt self.now w
            → result_err result ≡ first_of (cursor_refusals w name text.now cursor) }
    {
        if !text.as_str().is_char_boundary(cursor as usize) {
            return Err(Refusal::BadCursor);
        }
        self.queue(name)
    }

    /// The request of completions at a cursor of a field's input, and the session that is asked it;
    /// or why it is refused.
    fn completion(&self, id: u32, cursor: u32) -> Result<(Name, Item), Refusal>
        ensures ok { (w : World) → StandsAt self.now w
            → IfOk result
            (λ asked. GivesRequest w (command_of.Complete id cursor) asked.0 asked.1) }
        ensures askable { IfOk result (λ asked. IsAskable asked.1) }
        ensures err { (w : World) → StandsAt self.now w
            → IfErr result (RefusesRequest w (command_of.Complete id cursor)) }
    {
        let field = match self.field_with_tab(id) {
            Ok(field) => field,
            Err(refusal) => return Err(refusal),
        };
        if let Err(refusal) = self.check_cursor(field.session, &field.input, cursor) {
            return Err(refusal);
        }
        match request_of(field, cursor) {
            Ok(item) => Ok((field.session, item)),
            Err(_) => Err(Refusal::OutOfMemory),
        }
    }

    /// The same of a text in the place of the field's input.
    fn completion_of_text(
        &self,
        id: u32,
        cursor: u32,
        bytes: Octets,
    ) -> Result<(Name, Item), Refusal>
        ensures ok { (w : World) → StandsAt self.now w
            → IfOk result
            (λ asked. GivesRequest w (command_of.CompleteText id cursor bytes) asked.0 asked.1) }
        ensures askable { IfOk result (λ asked. IsAskable asked.1) }
        ensures err { (w : World) → StandsAt self.now w
            → IfErr result (RefusesRequest w (command_of.CompleteText id cursor bytes)) }
    {
        let field = match self.field_with_tab(id) {
            Ok(field) => field,
            Err(refusal) => return Err(refusal),
        };
        let text = match read_input(bytes) {
            Ok(text) => text,
            Err(refusal) => return Err(refusal),
        };
        if let Err(refusal) = self.check_cursor(field.session, &text, cursor) {
            return Err(refusal);
        }
        let cursor = cursor as usize;
        Ok((field.session, Item::Complete { id, text, cursor }))
    }

    /// A session is asked this request.
    fn ask_for(&mut self, name: Name, request: Item) -> Outcome
        requires works { Works self.old }
        requires askable { IsAskable request }
        ensures took { (w : World) (c : Command) → StandsAt self.old w
            → GivesRequest w c name request
            → TookAt w (event_of.Command c) self.old self.new result }
        ensures store { self.new.store ≡ self.old.store }
    {
        match self.ask_session(name, request) {
            Ok(outcome) => outcome,
            Err(_) => refused(Refusal::OutOfMemory),
        }
    }

    /// Completions are asked for the input of a field.
    pub(crate) fn complete(&mut self, id: u32, cursor: u32) -> Outcome
        requires { Works self.old }
        ensures took { (w : World) → StandsAt self.old w
            → TookAt w (event_of.Command (command_of.Complete id cursor)) self.old self.new result }
        ensures store { self.new.store ≡ self.old.store }
    {
        match self.completion(id, cursor) {
            Ok((name, request)) => self.ask_for(name, request),
            Err(refusal) => refused(refusal),
        }
    }

    /// Completions are asked for a text in the place of the input of a field.
    pub(crate) fn complete_text(&mut self, id: u32, cursor: u32, text: Octets) -> Outcome
        requires { Works self.old }
        ensures took { (w : World) → StandsAt self.old w
            → TookAt w (event_of.Command
            (command_of.CompleteText id cursor text)) self.old self.new result }
        ensures store { self.new.store ≡ self.old.store }
    {
        match self.completion_of_text(id, cursor, text) {
            Ok((name, request)) => self.ask_for(name, request),
            Err(refusal) => refused(refusal),
        }
    }
}
