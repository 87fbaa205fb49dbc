//! A law of every run of a script. The function does nothing: its contract is the law.
ghost use Rattle.driver.specs.Place.{source_rules};
ghost use Rattle.script_agenda.specs.InOrder.{ScriptComesInOrder};

use arrivals::Sources;
use driver::Sink;

/// The lines that a run took are those of its script, in order, each once.
pub fn script_comes_in_order<S: Sources, K: Sink>()
    ensures { ScriptComesInOrder (source_rules S.after S.wakes S.clock) K.rules }
{}
