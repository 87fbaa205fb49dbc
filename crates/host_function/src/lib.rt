//! What the host does, as a function that computes (docs/dev/HOST.md, "What an event does"). Each function does nothing: its contract is a law, that
//! the relation which the contracts of `session_engine` cite is that function, up to the choice which is left to a host.
#![tactic(auto)]

ghost use Rattle.host_function.specs.Function.{GivesIsAFunction, MemoryIsTheOnlyChoice, ReadingIsAFunction, RunsIsAFunction};

/// A stream has the blocks and the fault that a machine finds byte by byte, and no others: the one part of the relation that speaks of what
/// there is, and not of how it is found.
pub fn a_stream_reads_as_is_computed()
    ensures { ReadingIsAFunction }
{
    plugin_core::streams_read_one_way();
}

/// An event has an outcome and leads to a world by the relation exactly where the function gives these, for memory that is refused to it or
/// for memory that isn't.
pub fn an_event_gives_what_is_computed()
    ensures { GivesIsAFunction }
{
    plugin_core::streams_read_one_way();
}

/// The same of a list of events, for one such choice each.
pub fn events_give_what_is_computed()
    ensures { RunsIsAFunction }
{
    plugin_core::streams_read_one_way();
}

/// Where none of the outcomes is a refusal for lack of memory, they are what the function gives where memory is refused to no event.
pub fn memory_is_the_only_choice()
    ensures { MemoryIsTheOnlyChoice }
{
    plugin_core::streams_read_one_way();
}
