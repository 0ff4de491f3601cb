//! An editor's line protocol over a replica file.
//! Why: CHOICES.md, 85, 107, 130, 133, 134, 147, 148.
#![tactic(auto)]

mod answering;
mod change_lines;
mod costs;
mod cursors;
mod desk;
mod draft;
mod intake;
pub mod laws;
mod orders;
mod places;
mod replies;
mod seat;
mod serving;
mod showing;
mod telling;
mod words;

pub use serving::serve;
pub use words::begins_session;
