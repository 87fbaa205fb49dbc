//! A worksheet's two files, and the places of the standard streams. How a program ends over them stands
//! in `program_endings`.
#![tactic(auto)]

mod closing;
mod disk_file;
mod file_disk;
mod files_fault;
mod holding;
mod memory_file;
mod names;
mod opening;
mod openings;
mod outputs;
mod pairing;
mod places;
mod programs;
mod sheet_file;
mod system_file;

pub use closing::Close;
pub use disk_file::{DiskFile, OpenedFile};
pub use file_disk::FileDisk;
pub use files_fault::{FilesFault, HoldFault, MakeFault};
pub use holding::{ClosedStreams, Held, hold_closed};
pub use memory_file::MemoryFile;
pub use names::Names;
pub use openings::{Openings, Pair};
pub use outputs::is_output;
pub use pairing::{FileNames, folder_of};
pub use places::{FilePlaces, Places};
pub use sheet_file::{Identity, Lock, SheetFile};
pub use system_file::SystemFile;
