//! Commands that only change the worksheet.
ghost use Rattle.std.specs.Prelude.{◌≡◌, ◌∷◌, ◌++◌, ◌↔◌, [], None, true, false, is_some, length, IsErrOf, OnErr, OnOk};
ghost use Rattle.host_events.specs.Commands.{op_of};
ghost use Rattle.host_events.specs.declared.event.Event.TheVariants as event;

use host_events::{Command, Event};
use std::alloc::Global;
use std::marker::Model;

/// Commands that only change the worksheet, in order.
#[derive(Drop)]
pub struct Edits {
    // As events, which is what a host takes.
    events: Vec<Event>,
}

impl Model for Edits {
    ghost use Rattle.std.specs.Prelude.{List};
    ghost use Rattle.host_events.specs.declared.event.Event.{Event};
    ghost use Rattle.session_engine.specs.Whole.{OnlyEdits};

    ghost Value = { List Event };

    ghost view = { λ edits. edits.events.items };

    ghost invariant = { λ edits. OnlyEdits edits.events.items };
}

/// Why a command wasn't added.
#[derive(Clone, Copy, Debug, PartialEq, Eq)]
pub enum AddFault {
    /// It does more than change the worksheet, or something else.
    NotAnEdit,
    /// There is no memory for it.
    OutOfMemory,
}

/// Whether a command only changes the worksheet.
pub fn is_edit(command: &Command) -> bool
    ensures { result ≡ is_some (op_of command.now) }
{
    match command {
        Command::Session { .. }
        | Command::New { .. }
        | Command::Set { .. }
        | Command::Remove { .. }
        | Command::Move { .. }
        | Command::Clear { .. } => true,
        Command::Eval { .. }
        | Command::Complete { .. }
        | Command::CompleteText { .. }
        | Command::Stop { .. }
        | Command::Checkpoint => false,
    }
}

impl Edits {
    ghost use Rattle.session_engine.specs.Whole.{OnlyEdits};

    /// No command. It holds no memory yet.
    pub fn new(alloc: Global) -> Edits
        ensures { result ≡ [] }
    {
        Edits {
            events: Vec::new(alloc),
        }
    }

    /// Adds a command after the others. At `Err` it is dropped, and nothing has changed.
    pub fn add(&mut self, command: Command) -> Result<(), AddFault>
        ensures added { OnOk result ((is_some (op_of command) ≡ true)
            × (self.new ≡ self.old ++ event.Command command ∷ [])) }
        ensures not_an_edit { IsErrOf result AddFault.NotAnEdit ↔ (op_of command ≡ None) }
        ensures kept { OnErr result (self.new ≡ self.old) }
    {
        if !is_edit(&command) {
            return Err(AddFault::NotAnEdit);
        }
        match self.events.push(Event::Command(command)) {
            Ok(()) => Ok(()),
            Err(_) => Err(AddFault::OutOfMemory),
        }
    }

    /// How many there are.
    pub fn len(&self) -> usize
        ensures len { result ≡ length self.now }
        ensures edits { OnlyEdits self.now }
    {
        self.events.len()
    }

    /// Whether there is none.
    pub fn is_empty(&self) -> bool
        ensures { result ≡ true ↔ (self.now ≡ []) }
    {
        self.events.is_empty()
    }

    /// The events of them.
    pub fn into_events(self) -> Vec<Event>
        ensures events { result.items ≡ self }
        ensures edits { OnlyEdits result.items }
    {
        self.events
    }
}
