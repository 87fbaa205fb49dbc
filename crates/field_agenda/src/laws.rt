//! Laws of every run of fields. The functions do nothing: their contracts are the laws.
ghost use Rattle.driver.specs.Place.{source_rules};
ghost use Rattle.field_agenda.specs.LooksFirst.{FieldsAreLookedFor};
ghost use Rattle.field_agenda.specs.Stages.{FieldsComeToAnEnd};

use arrivals::Sources;
use driver::Sink;
use evaluation::Programs;

/// A run of fields after which nothing is left to be done came to its end: what it came to was counted, or a field or a program isn't there.
pub fn fields_come_to_an_end<P: Programs, S: Sources, K: Sink>()
    ensures { FieldsComeToAnEnd P.finds (source_rules S.after S.wakes S.clock) K.rules }
{}

/// Each field that is asked for is there, and each program that is needed was found, in every run that does anything; where one isn't, that is the run's end.
pub fn fields_are_looked_for<P: Programs, S: Sources, K: Sink>()
    ensures { FieldsAreLookedFor P.finds (source_rules S.after S.wakes S.clock) K.rules }
{}
