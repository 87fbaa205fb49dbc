//! What no clause says: worked examples, the limits, and refused memory.
mod answers;
mod desk;
mod memory;
