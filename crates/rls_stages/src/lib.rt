//! What the commands and the session share: the kept file, lines as edits, and how a failure is told.
#![tactic(auto)]

mod errors;
mod lines;
mod loading;
mod saving;
mod telling;

pub use errors::{LineError, OpenError, WorkError};
pub use lines::{edit_of, perform_edit, perform_line};
pub use loading::{load, open};
pub use saving::file_of;
pub use telling::{tell_failure, write_line};
