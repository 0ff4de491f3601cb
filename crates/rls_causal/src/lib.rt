//! Operations that wait for their causes.
#![tactic(auto)]

mod held;
mod iter;
mod queue;

pub use held::{Held, Put};
pub use iter::HeldOps;
