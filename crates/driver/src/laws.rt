//! Laws of every run. The functions do nothing: their contracts are the laws.
ghost use Rattle.driver.specs.Place.{agenda_rules, rules, source_rules};
ghost use Rattle.driver.specs.Laws.{FaultsAreTrue, RepliesFollowSyncs, RunsAreCutAnywhere, RunsLead, RunsLeaveFronts};

use crate::agenda::Agenda;
use crate::sink::Sink;
use arrivals::Sources;

/// The first steps of a run are a run.
pub fn runs_are_cut_anywhere<S: Sources, K: Sink, A: Agenda>()
    ensures { RunsAreCutAnywhere (rules (agenda_rules A.rules A.joins)
        (source_rules S.after S.wakes S.clock) K.rules) }
{}

/// What is printed of events is printed when all that they gave is durable.
pub fn replies_follow_syncs<S: Sources, K: Sink, A: Agenda>()
    ensures { RepliesFollowSyncs (rules (agenda_rules A.rules A.joins)
        (source_rules S.after S.wakes S.clock) K.rules) }
{}

/// The events of a run led from its first world to its last one.
pub fn runs_lead<S: Sources, K: Sink, A: Agenda>()
    ensures { RunsLead (rules (agenda_rules A.rules A.joins) (source_rules S.after S.wakes S.clock)
        K.rules) }
{}

/// At every moment each image of the disk is one of the worksheet after some of the first events.
pub fn runs_leave_fronts<S: Sources, K: Sink, A: Agenda>()
    ensures { RunsLeaveFronts (rules (agenda_rules A.rules A.joins)
        (source_rules S.after S.wakes S.clock) K.rules) }
{}

/// A fault of a program over a disk is true of the disk, where those of its agenda are: that the disk failed is a fault only where it did.
pub fn faults_are_true<S: Sources, K: Sink, A: Agenda>()
    ensures { FaultsAreTrue (rules (agenda_rules A.rules A.joins)
        (source_rules S.after S.wakes S.clock) K.rules) }
{}
