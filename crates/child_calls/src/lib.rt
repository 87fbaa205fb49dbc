//! Calls on the child processes of interpreters: what each may lead to, real processes, and children that
//! answer by a script.
#![tactic(auto)]

pub mod children;
pub mod lives;
pub mod process;
pub mod processes;
pub mod scripted;
pub mod seat;

pub use children::{ChildFault, Children, Outputs, ReceiveFault, Received};
pub use lives::Lives;
pub use process::{Launcher, Process};
pub use processes::{Processes, Spawned, Spawner};
pub use scripted::{Got, Part, PieceBytes, Scripted};
pub use seat::Seat;
