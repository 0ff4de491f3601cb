//! Texts with an identifier for each character.
#![tactic(auto)]

mod document;
mod plain;

pub use document::{Document, RunMap};
pub use plain::VecDocument;
