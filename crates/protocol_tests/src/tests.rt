//! What no clause says of the protocol: that calls succeed where memory is to be had, worked examples, limits,
//! random streams, and refused memory.
mod blocks;
mod completions;
mod lives;
mod streams;
