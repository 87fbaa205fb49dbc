//! Children by the descriptors of their outputs, and an input by its own.
ghost use Rattle.std.specs.Prelude.{◌≡◌, IfSome, true};
ghost use Rattle.arrivals.specs.Watching.{InputMayCome, MayCome, asked};

use crate::sources::{Input, Sources, WatchFault, Woken};
use block_tree::Octets;
use child_calls::{ChildFault, Children, Outputs, ReceiveFault, Received, Seat};
use libc::net::{POLLIN, poll};
use libc::types::pollfd;
use std::alloc::{AllocError, Global};
use std::os::fd::RawFd;
use std::time::{Clock, Duration};
use worksheet::Name;

/// The most children that are watched: a worksheet has at most so many sessions.
const MOST_CHILDREN: usize = 64;

/// The places of one poll: the input's, and those of the children.
const MOST_PLACES: usize = 65;

/// How often a poll is tried: once, and again at most 1,000 times where it was interrupted.
const MOST_POLLS: u32 = 1_001;

/// How long lives have that may be about to answer, in microseconds; a system adds some 50 to it.
const MOMENT: u64 = 1;

/// A place that is left out of a poll.
const LEFT_OUT: pollfd = pollfd {
    fd: -1,
    events: POLLIN,
    revents: 0,
};

/// Children and an input, watched by `poll`. Each call on a child is handed on as it is.
///
/// A watch first goes on with the lives that were ready at the last poll, of which each gets its turn once,
/// and polls when none of them is left; of a poll the input is returned first. A life that was stopped
/// since then has no turn. Nothing is read, and an idle watch without a limit takes no processor time.
///
/// Where a poll finds some lives, but not each that the last one found, there is a moment and one more poll:
/// those may be about to answer too, and what is there together costs one group.
///
/// A child that closed its output, and an input at its end, are ready for ever: a caller takes the end of
/// the first, which stops it, and holds the other back. At most 64 children are watched, those that were
/// started first, and a limit above 2,147,483,647 milliseconds counts as that many. All memory of a watch
/// is taken at the beginning.
#[derive(Drop)]
pub struct Polled<C: Outputs + Drop, K: Clock + Drop> {
    children: C,
    input: RawFd,
    clock: K,
    ready: Vec<Seat>,
    found: [pollfd; MOST_PLACES],
}

impl<C: Outputs + Drop, K: Clock + Drop> Polled<C, K> {
    /// These children and the input of this descriptor, by this clock.
    pub fn new(
        alloc: Global,
        children: C,
        input: RawFd,
        clock: K,
    ) -> Result<Polled<C, K>, AllocError> {
        let ready = Vec::with_capacity(alloc, MOST_CHILDREN)?;
        Ok(Polled {
            children,
            input,
            clock,
            ready,
            found: [LEFT_OUT; MOST_PLACES],
        })
    }

    /// The next life that was ready at the last poll and still runs.
    fn next_ready(&mut self) -> Option<Seat>
        ensures { self.new.children ≡ self.old.children }
    {
        while let Some(seat) = self.ready.pop() {
            let Seat { name, life } = seat;
            if self.children.is_running(seat) {
                return Some(Seat { name, life });
            }
        }
        None
    }

    /// The places of a poll: that of the input first, then those of the children.
    fn places(&self, input: Input) -> [pollfd; MOST_PLACES] {
        let mut places = [LEFT_OUT; MOST_PLACES];
        if let Input::Empty = input {
            places[0].fd = self.input;
        }
        for at in 1..MOST_PLACES {
            if let Some((_, fd)) = self.children.output(at - 1) {
                places[at].fd = fd;
            }
        }
        places
    }

    /// Keeps the lives that a poll found ready, the one that was started first as the next.
    fn keep_ready(&mut self, places: &[pollfd; MOST_PLACES])
        ensures { self.new.children ≡ self.old.children }
    {
        self.ready.clear();
        for at in (1..MOST_PLACES).rev() {
            if places[at].revents != 0 && self.ready.len() < self.ready.capacity() {
                if let Some((seat, _)) = self.children.output(at - 1) {
                    self.ready.push_reserved(seat);
                }
            }
        }
    }

    /// Whether a poll found a life, but not each that the last one found.
    fn lacks_some(&self, places: &[pollfd; MOST_PLACES]) -> bool {
        let mut finds = false;
        let mut lacks = false;
        for at in 1..MOST_PLACES {
            let is_same = places[at].fd == self.found[at].fd;
            finds |= places[at].revents != 0;
            lacks |= is_same && places[at].revents == 0 && self.found[at].revents != 0;
        }
        finds && lacks
    }

    /// Polls these places, and once more after a moment where some lives may be about to answer. Whether that
    /// could be done.
    fn look(&mut self, places: &mut [pollfd; MOST_PLACES], timeout: i32) -> bool
        ensures { self.new.children ≡ self.old.children }
    {
        if poll(places, timeout) < 0 {
            return false;
        }
        if self.lacks_some(places) {
            self.clock.sleep(Duration::from_micros(MOMENT));
            if poll(places, 0) < 0 {
                return false;
            }
        }
        self.found = *places;
        true
    }

    /// Looks once. `None` where a poll failed.
    fn poll_once(&mut self, input: Input, patience: Option<u64>, timeout: i32) -> Option<Woken>
        ensures comes { IfSome result (MayCome (asked input patience)) }
        ensures children { self.new.children ≡ self.old.children }
    {
        let mut places = self.places(input);
        if !self.look(&mut places, timeout) {
            return None;
        }
        self.keep_ready(&places);
        if comes(input, places[0].revents != 0) {
            return Some(Woken::Input);
        }
        match self.next_ready() {
            Some(seat) => Some(Woken::Life(seat)),
            None if patience.is_some() => Some(Woken::TimeOver),
            None => None,
        }
    }
}

/// Whether the input has its turn, where a poll found its descriptor ready or not.
fn comes(input: Input, is_ready: bool) -> bool
    ensures { result ≡ true → InputMayCome input }
{
    match input {
        Input::HeldBack => false,
        Input::Empty => is_ready,
        Input::Ready => true,
    }
}

/// The limit of a poll in milliseconds; -1 is none. A line that is there already lets it wait for nothing.
fn timeout(input: Input, left: Option<u64>) -> i32 {
    if let Input::Ready = input {
        return 0;
    }
    match left {
        None => -1,
        Some(millis) if millis < 2_147_483_647 => millis as i32,
        Some(_) => i32::MAX,
    }
}

impl<C: Outputs + Drop, K: Clock + Drop> Children for Polled<C, K> {
    ghost after = { λ c call answer d. C.after c.children call answer d.children };

    fn start(&mut self, name: Name, life: u32, words: &[Octets]) -> Result<(), ChildFault> {
        self.children.start(name, life, words)
    }

    fn send(&mut self, name: Name, life: u32, bytes: &[u8]) -> Result<(), ChildFault> {
        self.children.send(name, life, bytes)
    }

    fn receive(&mut self, name: Name, life: u32) -> Result<Received, ReceiveFault> {
        self.children.receive(name, life)
    }

    fn interrupt(&mut self, name: Name, life: u32) -> Result<(), ChildFault> {
        self.children.interrupt(name, life)
    }

    fn stop(&mut self, name: Name, life: u32) -> Result<(), ChildFault> {
        // Its turn isn't that of a later life with this name and number, which another host may start.
        self.ready
            .retain(|seat| seat.name != name || seat.life != life);
        self.children.stop(name, life)
    }
}

impl<C: Outputs + Drop, K: Clock + Drop> Sources for Polled<C, K> {
    ghost use Rattle.std.specs.Prelude.{◌≡◌};

    // A watch makes no call on a child.
    ghost wakes = { λ old _ _ new. new.children ≡ old.children };

    ghost clock = { λ _ _. Unit {0} };

    /// Since the clock's own start; 0 where it can't be read.
    fn now(&self) -> u64 {
        match self.clock.monotonic() {
            Ok(time) => time
                .as_secs()
                .saturating_mul(1_000)
                .saturating_add(u64::from(time.subsec_millis())),
            Err(_) => 0,
        }
    }

    fn has_ready(&self) -> bool {
        for seat in self.ready.as_slice() {
            if self.children.is_running(*seat) {
                return true;
            }
        }
        false
    }

    fn watch(&mut self, input: Input, patience: Option<u64>) -> Result<Woken, WatchFault> {
        if let Some(seat) = self.next_ready() {
            return Ok(Woken::Life(seat));
        }
        let begun = self.now();
        for _ in 0..MOST_POLLS {
            let waited = self.now().saturating_sub(begun);
            let left = patience.map(|millis| millis.saturating_sub(waited));
            if let Some(woken) = self.poll_once(input, patience, timeout(input, left)) {
                return Ok(woken);
            }
        }
        Err(WatchFault)
    }
}
