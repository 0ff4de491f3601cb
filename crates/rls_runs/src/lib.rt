//! Runs of identifiers, lists of them, and texts.
//! Why: CHOICES.md, 214.
#![tactic(auto)]

mod run;
mod run_list;
mod runs;
mod sequence;
mod text;

pub use run::{Run, RunError};
pub use run_list::RunList;
pub use runs::{PushError, Runs};
pub use sequence::Sequence;
pub use text::Text;
