//! Places that travel: anchors as words, which other members read.
//! Why: CHOICES.md, 152.
#![tactic(auto)]

pub mod laws;
mod reading;
mod writing;

pub use reading::place_of;
pub use writing::place_word;
