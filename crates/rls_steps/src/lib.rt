//! Undo by steps: what a member did is taken back all the way, and done again.
//! Why: CHOICES.md, 117, 118, 125, 149, 162, 170, 171, 172, 173, 184, 187, 188.
#![tactic(auto)]

mod bound;
mod changing;
mod dropping;
mod finding;
mod height;
mod inserting;
mod interval;
mod key;
mod labelling;
mod latest;
pub mod laws;
mod lookup;
mod name_row;
mod name_run;
mod names;
mod pending;
mod piece;
mod places;
mod returning;
mod splitting;
mod steps;
mod sweeping;
mod undoing;

pub use piece::{Labels, Piece, Step};
pub use steps::{StepError, Steps, Turn};
