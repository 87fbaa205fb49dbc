//! Laws of the definitions that the contracts of `session_engine` cite (docs/dev/HOST.md, "Laws"). Each function does nothing: its contract is
//! the law. `hosts_in_turn` is the theorem of many hosts on one disk. Those of `made` make the call that they speak of.
#![tactic(auto)]

ghost use Rattle.host_laws.specs.Apart.{OthersAreSilent, SessionsAreIndependent, SessionsSeeTheirOwn};
ghost use Rattle.host_laws.specs.Calls.{CallsLeavePrefixes};
ghost use Rattle.host_laws.specs.OneHost.{StepsLeavePrefixes};
ghost use Rattle.host_laws.specs.Together.{GroupsAreTurns, GroupsUpToAreTurns};
ghost use Rattle.host_laws.specs.Turns.{AnswersAreReported, EvaluatedAgain, EvaluatedAgainInTurn, HostsInTurn, PlaysAreTurns, ReportedAnswersStay, StepsAreTurns};
ghost use Rattle.host_laws.specs.Laws.{AnEventDoesOneThing, EachCommandHasAReply, EachEventHasAnOutcome, NothingIsShownInFlight, NothingOfAnEndedLife, NumbersAreGivenOnce, OutcomesLeadToOneWorld};

mod made;

pub use made::{
    created_disk, opened_host, played_group, played_group_up_to, played_joining, played_whole,
};

/// The same is reported to a session whatever others' interpreters do. Take two histories without
/// refusals, from worlds alike for it. Where they agree in the merged list of all commands and this
/// session's child events, and in the numbers of its lives, they give it equal replies, effects and
/// answers.
pub fn sessions_are_independent()
    ensures { SessionsAreIndependent }
{
    plugin_core::streams_read_one_way();
}

/// So they lead to worksheets that differ in answers of other sessions' fields and in reasons alone.
pub fn sessions_see_their_own()
    ensures { SessionsSeeTheirOwn }
{
    plugin_core::streams_read_one_way();
}

/// An event that isn't of a session tells nothing of its lives, and has no effect on its child.
pub fn others_are_silent()
    ensures { OthersAreSilent }
{}

/// Hosts one after another on one disk, each from its opening to a crash. The worksheet is the one
/// found first with the ops of a prefix of each host's events in turn. Each prefix has all events whose
/// outcomes were returned. A field that shows an answer shows what was found first, or the whole block
/// that answered its line.
pub fn hosts_in_turn()
    ensures { HostsInTurn }
{
    recovery::one_sheet();
}

/// A play of events is a part of such a turn, wherever a crash comes in it and wherever it stops.
pub fn plays_are_turns()
    ensures { PlaysAreTurns }
{}

/// So are events that a caller gives a host one by one, each by a step. A crash within a step makes a
/// turn that returned what the steps before it returned. One after it makes a turn that returned its
/// outcome too.
pub fn steps_are_turns()
    ensures { StepsAreTurns }
{}

/// So are groups, which one gate commits: a crash within such a play, and one after it, whatever it answers.
pub fn groups_are_turns()
    ensures { GroupsAreTurns }
{}

/// So are groups that stop at a refusal.
pub fn groups_up_to_are_turns()
    ensures { GroupsUpToAreTurns }
{}

/// One host from its opening to a crash, whose caller gives it one event after another: all that the contracts of
/// its calls say of that, in one statement.
pub fn steps_leave_prefixes()
    ensures { StepsLeavePrefixes }
{}

/// The same of one whose caller gives it groups of events, too.
pub fn calls_leave_prefixes()
    ensures { CallsLeavePrefixes }
{}

/// An answer that was reported is shown, whichever hosts come after, until an op sets, clears, removes or answers its field, or
/// keeps a reason for it.
pub fn reported_answers_stay()
    ensures { ReportedAnswersStay }
{}

/// Where an event puts an answer into a field, its outcome says that the line of that field was answered.
pub fn answers_are_reported()
    ensures { AnswersAreReported }
{}

/// What a field shows after an accepted evaluation of it is what a whole block answered after it, or
/// nothing.
pub fn evaluated_again()
    ensures { EvaluatedAgain }
{}

/// The same of hosts one after another: what is shown in the end came after the evaluation, in whichever host.
pub fn evaluated_again_in_turn()
    ensures { EvaluatedAgainInTurn }
{}

/// Every event has an outcome in every world.
pub fn each_event_has_an_outcome()
    ensures { EachEventHasAnOutcome }
{}

/// What an event does is settled, but that a command may be refused for lack of memory.
pub fn an_event_does_one_thing()
    ensures { AnEventDoesOneThing }
{
    plugin_core::streams_read_one_way();
}

/// What was returned for a list of events settles the world that they have led to.
pub fn outcomes_lead_to_one_world()
    ensures { OutcomesLeadToOneWorld }
{
    plugin_core::streams_read_one_way();
}

/// Each command has a reply of its own, whatever comes of it.
pub fn each_command_has_a_reply()
    ensures { EachCommandHasAReply }
{}

/// The lives that a host starts are numbered 1, 2 and so on. Of one session at most one goes on.
pub fn numbers_are_given_once()
    ensures { NumbersAreGivenOnce }
{}

/// Nothing that comes of a life that has ended does anything: the reply is Nothing, it gives no op and
/// changes no life. So nothing of an earlier interpreter's life answers a later line.
pub fn nothing_of_an_ended_life()
    ensures { NothingOfAnEndedLife }
{}

/// No field in flight shows an answer. Each line that waits is the input of a field of its session, and
/// no field has two.
pub fn nothing_is_shown_in_flight()
    ensures { NothingIsShownInFlight }
{}
