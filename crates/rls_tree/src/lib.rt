//! The text of a document as a balanced tree of blocks, each a maximal run of identifiers with its characters.
//! Why: docs/DECISIONS.md, 101; CHOICES.md, 52, 189, 216.
#![tactic(auto)]

mod document;
mod insertion;
mod places;
mod removal;
mod rest;
mod tree;

pub use rls_blocks::{Block, Node};
pub use tree::BlockTree;
