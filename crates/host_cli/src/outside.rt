//! All that is outside of the program, as one value.
ghost use Rattle.std.specs.Prelude.{◌≡◌};
ghost use Rattle.driver.specs.Place.{source_rules};
ghost use Rattle.host_cli.specs.Outside.{OutsideView, disks_seen, outside_view, output_seen, streams_seen};

use crate::Outlet;
use driver::Stamped;
use offline_programs::Says;
use partial_output::TellsPartial;
use program_endings::{Ending, Resources};
use sheet_check::Progress;
use sheet_files::{Close, FilesFault, Places};
use std::io::Read;

/// Of what kinds all that is outside of the program is.
pub trait System {
    /// Where a worksheet lies.
    type Disk: Close + Drop;
    /// Where disks are, each at a path.
    type Places: Places<Self::Disk> + Drop;
    /// Interpreters, whose turn it is of these and the input, and a clock.
    type Sources: TellsPartial + Drop;
    /// Standard input.
    type Input: Read + Drop;
    /// Standard output.
    type Output: Outlet + Says + Stamped + Drop;
    /// Standard error.
    type Errors: Says + Drop;
    /// Whoever shows how far a check is.
    type Progress: Progress + Drop;
}

/// How contracts see what is outside, of each system: `⟦<Y as SystemView>⟧.outer`.
pub trait SystemView: System {
    ghost outer: { OutsideView Self.Disk Self.Places Self.Sources Self.Input Self.Output Self.Errors };
}

impl<Y: System> SystemView for Y {
    ghost outer = { outside_view Y.Places.Places (disks_seen Y.Disk.Disk Y.Disk.closed) (source_rules Y.Sources.after Y.Sources.wakes Y.Sources.clock) Y.Sources.begins
        (streams_seen Y.Input.Read (output_seen Y.Output.Write Y.Output.held Y.Output.flushed Y.Output.tried) Y.Errors.Write Y.Errors.tried) };
}

/// All that is outside of the program. Each task lends the fields that it needs.
#[derive(Drop)]
pub struct Outside<Y: System> {
    pub places: Y::Places,
    pub sources: Y::Sources,
    pub input: Y::Input,
    pub output: Y::Output,
    pub errors: Y::Errors,
    pub progress: Y::Progress,
}

/// What is left of that while a program has the sources and the output.
pub(crate) struct Remaining<Y: System> {
    pub(crate) places: Y::Places,
    pub(crate) input: Y::Input,
    pub(crate) errors: Y::Errors,
    pub(crate) progress: Y::Progress,
}

/// How the program ended, and what is outside of it then.
#[derive(Drop)]
pub struct Performed<Y: System> {
    pub ending: Ending,
    pub outside: Outside<Y>,
}

/// What a program is given, these files beside it, and what is left.
pub(crate) fn give<Y: System>(
    outside: Outside<Y>,
    files: Result<Y::Disk, FilesFault>,
) -> (Resources<Y::Disk, Y::Sources, Y::Output>, Remaining<Y>)
    ensures given { result.0 ≡ record {
      files = files;
      sources = outside.sources;
      output = outside.output;
    } }
    ensures kept { result.1 ≡ record {
      places = outside.places;
      input = outside.input;
      errors = outside.errors;
      progress = outside.progress;
    } }
{
    let Outside {
        places,
        sources,
        input,
        output,
        errors,
        progress,
    } = outside;
    let given = Resources {
        files,
        sources,
        output,
    };
    let kept = Remaining {
        places,
        input,
        errors,
        progress,
    };
    (given, kept)
}

impl<Y: System> Remaining<Y> {
    /// All that is outside, once the program has given the sources and the output back.
    pub(crate) fn with(self, sources: Y::Sources, output: Y::Output) -> Outside<Y>
        ensures { result ≡ record {
          places = self.places;
          sources = sources;
          input = self.input;
          output = output;
          errors = self.errors;
          progress = self.progress;
        } }
    {
        let Remaining {
            places,
            input,
            errors,
            progress,
        } = self;
        Outside {
            places,
            sources,
            input,
            output,
            errors,
            progress,
        }
    }
}

/// The end of a program after which this is outside.
pub(crate) fn ended<Y: System>(ending: Ending, outside: Outside<Y>) -> Performed<Y>
    ensures { result ≡ record { ending = ending; outside = outside } }
{
    Performed { ending, outside }
}
