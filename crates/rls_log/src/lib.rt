//! Operations in order, kept as the bytes that spell them.
#![tactic(auto)]

mod context;
mod entry;
mod head;
mod large;
mod latest;
mod log;
mod missing;
mod reading;
mod scanning;

pub use head::{OpHead, OpKind};
pub use log::Log;
pub use reading::read_log;
