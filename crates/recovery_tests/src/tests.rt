//! What no clause says: the worked examples, byte by byte, and what happens where a disk or memory fails.
mod codes;
mod commits;
mod desk;
mod memory;
mod openings;
mod rescues;
mod sizes;
mod worksheets;
