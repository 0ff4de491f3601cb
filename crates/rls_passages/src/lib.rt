//! Passages: texts that were inserted apart stand apart.
//! Why: CHOICES.md, 239.
#![tactic(auto)]

pub mod laws;
