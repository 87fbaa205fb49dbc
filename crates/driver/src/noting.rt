//! A sink that notes whether the last text went out.

use crate::report::Show;
use crate::sink::Sink;
use disk_model::Disk;
use host_events::{Outcome, Reply};
use offline_programs::RunFault;
use session_engine::Host;

/// A sink, and whether all of the text went out that was tried last.
#[derive(Drop)]
pub struct Noting<K> {
    pub sink: K,
    pub whole: bool,
}

impl<K: Sink> Sink for Noting<K> {
    ghost use Rattle.std.specs.Prelude.{◌≡◌};
    ghost use Rattle.driver.specs.Place.{sink_rules};

    ghost rules = { sink_rules K.rules.voice (λ k. K.rules.written k.sink)
        (λ k disk text whole l. K.rules.tried k.sink disk text whole l.sink × (l.whole ≡ whole)) };

    fn lines<D: Disk>(
        &mut self,
        host: &Host<D>,
        first: u64,
        outcomes: &[Outcome],
    ) -> Result<(), RunFault> {
        let done = self.sink.lines(host, first, outcomes);
        self.whole = done.is_ok();
        done
    }

    fn lives<D: Disk>(&mut self, host: &Host<D>, outcomes: &[Outcome]) -> Result<(), RunFault> {
        let done = self.sink.lives(host, outcomes);
        self.whole = done.is_ok();
        done
    }

    fn followed<D: Disk>(&mut self, host: &Host<D>, replies: &[Reply]) -> Result<(), RunFault> {
        let done = self.sink.followed(host, replies);
        self.whole = done.is_ok();
        done
    }

    fn show<D: Disk>(&mut self, host: &Host<D>, show: Show) -> Result<(), RunFault> {
        let done = self.sink.show(host, show);
        self.whole = done.is_ok();
        done
    }

    fn print_fault<D: Disk>(&mut self, host: &Host<D>, why: RunFault) -> bool {
        self.whole = self.sink.print_fault(host, why);
        self.whole
    }
}
