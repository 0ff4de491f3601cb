//! What a replica consists of, what it answers and how it changes, and the laws that tie this to histories.
#![tactic(auto)]

pub mod laws;
