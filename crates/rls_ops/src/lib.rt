//! Operations and messages.
//! Why: CHOICES.md, 31.
#![tactic(auto)]

mod message;
mod op;
mod remaining;
mod same;
mod shape;
pub mod size;

pub use message::Message;
pub use op::{Body, Op, Ops, Shape, covers};
pub use remaining::RemainingOps;
pub use rls_runs::Text;
