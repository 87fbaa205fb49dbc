//! A disk of two areas, and what a crash at any moment may leave of it.
//!
//! [`Disk`] is what a journal asks of its disk. [`MemoryDisk`] keeps the model and can be crashed at
//! each moment of its past; [`FuseDisk`] is a disk whose calls fail from some call on.
#![tactic(auto)]

mod crash;
mod disk;
mod fuse;
pub mod laws;
mod memory;

pub use crash::{Choice, Fill};
pub use disk::{Area, Disk, DiskFault, GREATEST_ROOM};
pub use fuse::{FuseDisk, FuseMode};
pub use memory::{MemoryDisk, overwrite};

/// A growth was refused. Nothing has changed.
pub use std::alloc::AllocError as OutOfMemory;
