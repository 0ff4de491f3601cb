//! Blocks, each a run of identifiers with its characters, as a balanced tree; and what is put into such a tree or taken out of it.
//! Why: docs/DECISIONS.md, 101.
#![tactic(auto)]

mod balance;
mod block;
mod build;
mod change;
mod cut;
mod insert;
mod node;
mod patch;
mod put;
mod remove;
mod rest;
mod side;
mod split;

pub use block::{Block, part_of_text};
pub use build::tree_of;
pub use insert::insert_at;
pub use node::{Link, Node, Place};
pub use patch::{Patch, push_block, push_runs, with_patches};
pub use remove::remove_range;
pub use rest::{Part, Rest, with_rest};
