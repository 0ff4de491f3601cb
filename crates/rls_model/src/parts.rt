//! The parts of a replica, as a snapshot holds them.

use rls_ident::{EpochName, Vector};
use rls_log::Log;
use rls_ops::Ops;
use rls_runs::{Run, Runs, Sequence, Text};

/// The offsets of one author's number that were used: from low to the one before next. The base with this author and number has
/// no other character.
#[derive(Clone, Copy, Debug, PartialEq, Eq)]
pub struct Stem {
    pub author: u32,
    /// The number of the author's operation that began the stem.
    pub s0: u32,
    /// The lowest used offset, 0 or less.
    pub low: i32,
    /// The next unused offset, from 1 on.
    pub next: u32,
}

/// The stems of all authors, by author and then by number.
pub type Stems = Sequence<Stem>;

/// What each other member is known to have accepted: one vector for each member but the own one, in order.
pub type Rows = Sequence<Vector>;

/// An epoch, and how it was opened.
#[derive(Drop)]
pub struct EpochPart {
    pub name: EpochName,
    /// The place in the list of the epoch in which it was opened; the topmost epoch has none.
    pub parent: Option<u64>,
    /// The identifiers that were renamed; none for the topmost epoch, which is kept by its name alone.
    pub former: Runs,
}

/// Epochs in increasing order, the topmost first.
pub type EpochParts = Sequence<EpochPart>;

/// A run of identifiers and their characters, as many.
#[derive(Drop)]
pub struct TextRun {
    pub run: Run,
    pub text: Text,
}

/// The maximal runs of a text with their characters, in increasing order.
pub type TextRuns = Sequence<TextRun>;

/// A list of members.
pub type Members = Sequence<u32>;

/// The parts of a replica.
#[derive(Drop)]
pub struct Parts {
    pub group: u64,
    /// The count of members, 1 to 64.
    pub members: u32,
    /// The replica's own number, below the count of members.
    pub me: u32,
    /// How many operations of each member were accepted.
    pub vector: Vector,
    /// The rows of the other members.
    pub rows: Rows,
    pub stems: Stems,
    /// The retained epochs.
    pub epochs: EpochParts,
    /// The text, by identifiers of the greatest epoch.
    pub text: TextRuns,
    /// The unstable operations, in the order in which they were accepted.
    pub log: Log,
    /// The waiting operations, by author and then by number.
    pub held: Ops,
    /// The members that have left, in increasing order.
    pub left: Members,
}
