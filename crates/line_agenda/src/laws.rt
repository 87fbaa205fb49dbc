//! Laws of every run of lines. The functions do nothing: their contracts are the laws.
ghost use Rattle.driver.specs.Place.{source_rules};
ghost use Rattle.line_agenda.specs.TransactionLines.{WholesAreTransactions};
ghost use Rattle.line_agenda.specs.InputOrder.{LinesComeInOrder};

use arrivals::Sources;
use driver::Sink;

/// The lines that a run took are those of its input, in order, each once.
pub fn lines_come_in_order<S: Sources, K: Sink>()
    ensures { LinesComeInOrder (source_rules S.after S.wakes S.clock) K.rules }
{}

/// Commands that a run takes all or not at all are those of a transaction of its input, all of them and in order.
pub fn wholes_are_transactions<S: Sources, K: Sink>()
    ensures { WholesAreTransactions (source_rules S.after S.wakes S.clock) K.rules }
{}
