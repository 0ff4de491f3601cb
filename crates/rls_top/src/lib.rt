//! All that the program does.
//! Why: CHOICES.md, 40, 42.
#![tactic(auto)]

mod command;
mod editing;
pub mod laws;
mod made;
mod making;
mod reading;
mod showing;
mod stages;
mod taking;
mod telling;
mod words;

pub use command::run;
pub use rls_report::{CommandError, Failure, Fault, LineFault};
pub use words::{Command, FileCommand};
