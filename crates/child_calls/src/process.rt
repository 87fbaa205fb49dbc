//! The process of a life, and what launches it.
use crate::children::ChildFault;
use block_tree::Octets;

/// A process with pipes on its input and its output.
///
/// The relation `did` says what a call on it may answer and what it leads to.
pub trait Process {
    ghost use Rattle.std.specs.Prelude.{◌≡◌, ◌<◌, ◌≤◌, IfOk, length};
    ghost use Rattle.child_calls.specs.Answers.{sent};
    ghost use Rattle.child_calls.specs.Calls.{Answer};
    ghost use Rattle.child_calls.specs.Deeds.{Deed, was_read};
    ghost use Rattle.child_calls.specs.Deeds as deed;

    /// The process before a call on it, the call, its answer, and the process after it.
    ghost did: { Self → Deed → Answer → Self → Type 0 };

    /// Writes these bytes to its input, all of them or an unknown front.
    fn write(&mut self, bytes: &[u8]) -> Result<(), ChildFault>
        ensures { did self.old (deed.write bytes.now) (sent result) self.new };

    /// Reads its output once, into this room, which isn't empty, and gives how many bytes came: 0 at its end.
    fn read(&mut self, room: &mut [u8]) -> Result<usize, ChildFault>
        requires { 0 < length room.old }
        ensures gave { did self.old deed.read (was_read result room.new) self.new }
        ensures size { length room.new ≡ length room.old }
        ensures fits { IfOk result (λ count. count ≤ length room.old) };

    /// Kills it, closes its pipes, and waits until it is gone.
    fn end(&mut self) -> Result<(), ChildFault>
        ensures { did self.old deed.stop (sent result) self.new };
}

/// What launches processes.
///
/// The relations say what its calls may answer and what they lead to.
pub trait Launcher {
    ghost use Rattle.std.specs.Prelude.{ℕ, List, Option};
    ghost use Rattle.std.specs.Result.{result_ok};
    ghost use Rattle.child_calls.specs.Answers.{sent};
    ghost use Rattle.child_calls.specs.Calls.{Answer};

    /// The processes that it launches.
    type Process: Process + Drop;

    /// The launcher before, the words, the process that was launched (none: a fault), and the launcher after.
    ghost launched: { Self → List (List ℕ) → Option Self.Process → Self → Type 0 };

    /// The launcher and the process before, what was answered, and both after.
    ghost signalled: { Self → Self.Process → Answer → Self → Self.Process → Type 0 };

    /// Launches a process with these words, its program first.
    fn launch(&mut self, words: &[Octets]) -> Result<Self::Process, ChildFault>
        ensures { launched self.old words.now (result_ok result) self.new };

    /// Sends a process the signal SIGINT, and waits until it is sent.
    fn interrupt(&mut self, process: &mut Self::Process) -> Result<(), ChildFault>
        ensures { signalled self.old process.old (sent result) self.new process.new };
}
