//! What a check lends a driver: programs of which none is looked for, and a sink that prints nothing.
ghost use Rattle.std.specs.Prelude.{◌≡◌, ◌++◌, ◌∷◌, [], IfErr, OnOk};
ghost use Rattle.sheet_check.specs.Marks.{KeptFront, line_marks, note_marks, refusal_marks, reply_marks, shown_marks};

use block_tree::Sequence;
use disk_model::Disk;
use driver::{Show, Sink};
use evaluation::Programs;
use host_events::{Outcome, Reply};
use offline_programs::RunFault;
use session_engine::Host;
use tellings::Note;
use worksheet::Refusal;

/// No program is looked for: each counts as there.
#[derive(Drop)]
pub(crate) struct AllThere;

impl Programs for AllThere {
    ghost use Rattle.sheet_check.specs.Driven.{counts_as_there};

    ghost finds = { counts_as_there };

    fn has(&self, _name: &[u8]) -> bool {
        true
    }
}

/// What is kept of what would be printed.
#[derive(Clone, Copy, Debug, PartialEq, Eq)]
pub(crate) enum Mark {
    /// The line of a field was asked.
    Asked,
    /// There was no memory for it.
    NoMemory,
    /// The time of the field with this number was over.
    Over(u32),
}

/// A sink that prints nothing, and keeps marks, in the order in which it would print.
#[derive(Drop)]
pub(crate) struct Marks {
    pub(crate) kept: Sequence<Mark>,
}

impl Marks {
    /// Keeps a mark after the others. `OutOfMemory`: it isn't kept.
    fn keep(&mut self, mark: Mark) -> Result<(), RunFault>
        ensures ok { OnOk result (self.new.kept ≡ self.old.kept ++ mark ∷ []) }
        ensures err { IfErr result (λ why. why ≡ RunFault.OutOfMemory) }
        ensures unkept { IfErr result (λ why. self.new.kept ≡ self.old.kept) }
    {
        match self.kept.push(mark) {
            Ok(()) => Ok(()),
            Err(_) => Err(RunFault::OutOfMemory),
        }
    }

    /// Keeps that there was no memory for a line, where it was refused for that.
    fn keep_refusal(&mut self, why: Refusal) -> Result<(), RunFault>
        ensures ok { OnOk result (self.new.kept ≡ self.old.kept ++ refusal_marks why) }
        ensures err { IfErr result (λ why. why ≡ RunFault.OutOfMemory) }
        ensures unkept { IfErr result (λ why. self.new.kept ≡ self.old.kept) }
    {
        match why {
            Refusal::OutOfMemory => self.keep(Mark::NoMemory),
            _ => Ok(()),
        }
    }

    /// Keeps what a reply says of its line.
    fn keep_reply(&mut self, reply: &Reply) -> Result<(), RunFault>
        ensures ok { OnOk result (self.new.kept ≡ self.old.kept ++ reply_marks reply.now) }
        ensures err { IfErr result (λ why. why ≡ RunFault.OutOfMemory) }
        ensures unkept { IfErr result (λ why. self.new.kept ≡ self.old.kept) }
    {
        match reply {
            Reply::Asked(_) => self.keep(Mark::Asked),
            Reply::Refused(why) => self.keep_refusal(*why),
            Reply::Done | Reply::Field(_) | Reply::Child(_) | Reply::Nothing => Ok(()),
        }
    }

    /// Keeps what the replies to lines say, one after another.
    fn keep_lines(&mut self, outcomes: &[Outcome]) -> Result<(), RunFault>
        ensures ok { OnOk result (self.new.kept ≡ self.old.kept ++ line_marks outcomes.now) }
        ensures err { IfErr result (λ why. why ≡ RunFault.OutOfMemory) }
        ensures cut { IfErr result (λ why. KeptFront self.old.kept self.new.kept
            (line_marks outcomes.now)) }
    {
        for outcome in outcomes {
            if let Err(fault) = self.keep_reply(&outcome.reply) {
                return Err(fault);
            }
        }
        Ok(())
    }

    /// Keeps the number of the field whose time was over, where that is noted.
    fn keep_noted(&mut self, note: Note) -> Result<(), RunFault>
        ensures ok { OnOk result (self.new.kept ≡ self.old.kept ++ note_marks note) }
        ensures err { IfErr result (λ why. why ≡ RunFault.OutOfMemory) }
        ensures unkept { IfErr result (λ why. self.new.kept ≡ self.old.kept) }
    {
        match note {
            Note::Over(id, _) => self.keep(Mark::Over(id)),
            Note::Bad(_)
            | Note::Nothing(_)
            | Note::Waited(_, _)
            | Note::Interrupted(_, _, _)
            | Note::Warned(_, _)
            | Note::Counted(_)
            | Note::Undone(_, _) => Ok(()),
        }
    }

    /// Keeps what is shown, where it says that the time of a field was over.
    fn keep_shown(&mut self, show: Show) -> Result<(), RunFault>
        ensures ok { OnOk result (self.new.kept ≡ self.old.kept ++ shown_marks show) }
        ensures err { IfErr result (λ why. why ≡ RunFault.OutOfMemory) }
        ensures unkept { IfErr result (λ why. self.new.kept ≡ self.old.kept) }
    {
        match show {
            Show::Note(note) => self.keep_noted(note),
            Show::Sheet(_) => Ok(()),
            Show::Field(_, _) => Ok(()),
            Show::Export(_, _) => Ok(()),
        }
    }
}

impl Sink for Marks {
    ghost use Rattle.sheet_check.specs.Marks.{mark_rules};

    ghost rules = { mark_rules };

    fn lines<D: Disk>(
        &mut self,
        _host: &Host<D>,
        _first: u64,
        outcomes: &[Outcome],
    ) -> Result<(), RunFault> {
        self.keep_lines(outcomes)
    }

    fn lives<D: Disk>(&mut self, _host: &Host<D>, _outcomes: &[Outcome]) -> Result<(), RunFault> {
        Ok(())
    }

    fn followed<D: Disk>(&mut self, _host: &Host<D>, _replies: &[Reply]) -> Result<(), RunFault> {
        Ok(())
    }

    fn show<D: Disk>(&mut self, _host: &Host<D>, show: Show) -> Result<(), RunFault> {
        self.keep_shown(show)
    }

    fn print_fault<D: Disk>(&mut self, _host: &Host<D>, _why: RunFault) -> bool {
        true
    }
}
