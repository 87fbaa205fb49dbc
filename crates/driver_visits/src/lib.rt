//! That whatever is driven over a disk is an invocation of the theorem (crate `theorem`), and that what it had printed when it was cut
//! off was durable: premise A6, as a law of every sink whose relation names the disk, as that of `run`, `live` and `eval` does. And that
//! what `check --accept` leaves at its end is an acceptance of the theorem. So premise A7 holds of each program that opened its worksheet.
//! The functions do nothing: their contracts are the laws.
#![tactic(auto)]

ghost use Rattle.driver.specs.Noted.{noting_rules};
ghost use Rattle.driver.specs.Place.{agenda_rules, rules, source_rules};
ghost use Rattle.line_agenda.specs.LinesRules.{lines_rules};
ghost use Rattle.script_agenda.specs.Run.{running_rules};
ghost use Rattle.field_agenda.specs.FieldLines.{by_field_lines};
ghost use Rattle.field_agenda.specs.FieldsRules.{fields_rules};
ghost use Rattle.driver_visits.specs.Acceptances.{AcceptancesAreFiled};
ghost use Rattle.driver_visits.specs.Copied.{AcceptedAreWhole};
ghost use Rattle.driver_visits.specs.Visits.{DrivenIsVisit, PrintedIsDurable};
ghost use Rattle.sheet_check.specs.Evaluated.{way};

mod crashed;
mod filed;
mod runs;

use arrivals::Sources;
pub use crashed::{AfterCrash, RanThenCrashed, run_then_crash};
use driver::{Agenda, Sink, Stamped};
use evaluation::Programs;
pub use filed::{AcceptedThenOpened, accept_then_open};
pub use runs::{RanThenOpened, run_then_open};
use tellings::Tells;

/// Whatever is driven over a disk that keeps the model is a visit, to its end or to a fault.
pub fn driven_is_visit<S: Sources, K: Sink, A: Agenda>()
    ensures { DrivenIsVisit (rules (agenda_rules A.rules A.joins)
        (source_rules S.after S.wakes S.clock) K.rules) }
{}

/// What was printed was durable then, and stays so whenever a crash comes.
pub fn printed_is_durable<S: Sources, K: Sink, A: Agenda>()
    ensures { PrintedIsDurable (rules (agenda_rules A.rules A.joins)
        (source_rules S.after S.wakes S.clock) K.rules) }
{}

/// The same two of lines that are taken as they come, in the words of the contract of `live`, `run --json` and `run --timeout`.
pub fn lines_are_visits<S: Sources, T: Tells, W: Stamped>()
    ensures visit { DrivenIsVisit (rules lines_rules (source_rules S.after S.wakes S.clock)
        (noting_rules T.voice W.held)) }
    ensures durable { PrintedIsDurable (rules lines_rules (source_rules S.after S.wakes S.clock)
        (noting_rules T.voice W.held)) }
{}

/// Of a script that is run, in the words of the contract of `run`.
pub fn scripts_are_visits<S: Sources, W: Stamped>()
    ensures visit { DrivenIsVisit (running_rules (source_rules S.after S.wakes S.clock) W.held) }
    ensures durable { PrintedIsDurable (running_rules (source_rules S.after S.wakes S.clock)
        W.held) }
{}

/// And of the fields of a worksheet that are evaluated, in the words of the contract of `eval`.
pub fn fields_are_visits<P: Programs, S: Sources, T: Tells, W: Stamped>()
    ensures visit { DrivenIsVisit (rules (fields_rules P.finds)
        (source_rules S.after S.wakes S.clock) (noting_rules (by_field_lines T.voice) W.held)) }
    ensures durable { PrintedIsDurable (rules (fields_rules P.finds)
        (source_rules S.after S.wakes S.clock) (noting_rules (by_field_lines T.voice) W.held)) }
{}

/// What `check --accept` accepts were whole blocks on its copy, which answered the lines of their fields, over whatever disk.
pub fn accepted_are_whole<S: Sources>()
    ensures { AcceptedAreWhole (way S.after S.clock S.wakes) }
{}

/// What `check --accept` leaves is an acceptance, in the words of its contract, to its end or to a fault.
pub fn acceptances_are_filed<S: Sources, W: Stamped>()
    ensures { AcceptancesAreFiled (way S.after S.clock S.wakes) W.contents W.held }
{}
