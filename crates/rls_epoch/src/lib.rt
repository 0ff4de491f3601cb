//! The epochs that are kept: one connected tree below a topmost epoch (RenamableLogootSplit:
//! Nicolas, Oster and Perrin).
#![tactic(auto)]

mod climb;
mod entries;
mod epochs;
mod greatest;
mod heads;
mod images;
mod jumps;
mod keeping;
mod known;
mod learning;
mod listing;
mod mark;
mod marks;
mod maxima;
mod nodes;
mod parts;
mod placed;
mod retaining;
mod translating;
mod tree;
mod ways;

pub use epochs::Epochs;
pub use retaining::Retained;
