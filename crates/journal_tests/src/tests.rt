//! What no clause says: the worked examples, byte by byte, and what happens where a disk or memory fails.
mod batches;
mod crashes;
mod desk;
mod disks;
mod groups;
mod memory;
mod openings;
mod records;
mod rewrites;
mod sizes;
mod windows;
