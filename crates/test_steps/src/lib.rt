//! What the crates of tests share: interpreters of tables of steps, for replicas and for worlds, and bytes in digits.
#![tactic(auto)]

pub mod answers;
pub mod bytes;
pub mod rows;
pub mod steps;
pub mod told;
pub mod worlds;
