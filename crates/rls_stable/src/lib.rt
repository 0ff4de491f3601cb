//! What every member has accepted.
#![tactic(auto)]

mod acks;
mod rows;

pub use acks::Acks;
