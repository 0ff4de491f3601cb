//! Where a text changes: what operations that are accepted insert and delete, for editors that keep a copy of the text.
#![tactic(auto)]

mod bytes;
mod change;
mod edits;
mod finding;
pub mod laws;
mod receiving;
mod taking;
mod telling;

pub use bytes::take_bytes;
pub use change::Change;
pub use edits::{push_own, undo};
pub use receiving::{receive, release};
pub use taking::{release_all, take};
