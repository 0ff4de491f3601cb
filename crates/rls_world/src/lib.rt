//! Worlds of members that edit and exchange messages, and the trial: a long valid course of events that a number decides.
//! Why: CHOICES.md, 15, 71.
#![tactic(auto)]

mod draws;
mod trials;
mod world;

pub use trials::{Summary, trial};
pub use world::World;
