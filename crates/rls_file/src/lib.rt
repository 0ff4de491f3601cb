//! Replica files: what those of all forms say, journals of form 1 read, and a replica stored as a file and loaded again.
//! Why: CHOICES.md, 23, 50.
#![tactic(auto)]

mod head;
pub mod laws;
mod lengths;
mod loading;
mod puts;
mod reading;
mod saving;

pub use head::form;
pub use loading::{FileError, decode_file, load_file};
pub use reading::journal;
pub use saving::{SaveError, encode_file};
