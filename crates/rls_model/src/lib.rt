//! What histories, replicas and worlds mean, and the laws that hold of them.
//! Why: CHOICES.md, 1, 2, 3, 4, 6, 7, 8, 11, 16, 21, 58.
#![tactic(auto)]

mod counts;
mod edit;
mod event;
pub mod laws;
mod parts;
mod receipt;

pub use counts::Counts;
pub use edit::{Edit, EditError};
pub use event::{Event, Outcome, StepError};
pub use parts::{EpochPart, EpochParts, Members, Parts, Rows, Stem, Stems, TextRun, TextRuns};
pub use receipt::{Receipt, Refusal, Refusals, Release, Taken};
