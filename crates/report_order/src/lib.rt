//! Ops that are put on a log and then reported: that each is durable before it is reported is a clause. It is a model of such a clause, and no
//! part of the program.
#![tactic(auto)]

mod apart;
mod log;
mod serving;
mod stamping;

pub use apart::serve_apart;
pub use log::{Log, LogFault};
pub use serving::{OpReporter, ServeFault, serve};
pub use stamping::{Stamps, serve_writing};
