//! Commands and sessions over a disk, and groups whose members work by them: what a stop at any moment leaves, and what holds of all
//! files and messages.
#![tactic(auto)]

mod command;
pub mod laws;
mod session;

pub use command::run_on_disk;
pub use session::serve_on_disk;
