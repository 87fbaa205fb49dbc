//! What no clause says of what goes to interpreters and comes from them, and of lines and texts: children of
//! which each byte counts, real ones, lines out of reads of any size, and texts where no memory is left.
mod children;
mod desk;
mod lines;
mod made_up;
mod polled;
mod processes;
mod talkers;
mod texts;
