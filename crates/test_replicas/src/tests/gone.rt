//! Deletions whose targets are gone from the text, which arrive at member 2 of a group of three.

use super::threes::BEGUN;
use super::tuples::{at, old};
use rls_ident::EpochName;
use test_steps::steps::Row;
use test_steps::steps::Step::{Acknowledge, Drop, Receive};
use test_steps::told::{Deed, MIDDLE, ORIGIN, Told};

/// A deletion of characters of `hello` is applied: its author, number and context, the first offset and the count; then what the
/// member shows.
macro_rules! deletes {
    ($author:expr, $seq:expr, $context:expr, $offset:expr, $count:expr, $shown:expr) => {
        (
            Receive((
                $author,
                $seq,
                $context,
                ORIGIN,
                Deed::Delete(old!($offset), $count),
            )),
            "applied",
            $shown,
        )
    };
}

/// A deletion of six characters of `hello`, which has five.
const MORE: Told<'static> = (0, 5, &[4, 0, 0], ORIGIN, Deed::Delete(old!(0), 6));

const UNKNOWN_OLD: &str =
    "unknown target 1 Spot { pos: 2147483647, replica: 0, seq: 1, offset: 5 }";

/// Deletions that overlap, and one that names a target that no one has.
pub const BY_OTHER_DELETIONS: &[Row] = &[
    BEGUN,
    deletes!(0, 2, &[1, 0, 0], 1, 1, "hllo [2, 0, 0] 0 2 Origin"),
    deletes!(0, 3, &[2, 0, 0], 3, 1, "hlo [3, 0, 0] 0 3 Origin"),
    deletes!(1, 1, &[1, 0, 0], 3, 1, "hlo [3, 1, 0] 0 4 Origin"),
    deletes!(1, 2, &[1, 1, 0], 0, 5, " [3, 2, 0] 0 5 Origin"),
    deletes!(0, 4, &[3, 0, 0], 1, 4, " [4, 2, 0] 0 6 Origin"),
    (Receive(MORE), UNKNOWN_OLD, " [4, 2, 0] 0 6 Origin"),
    (Receive(MORE), UNKNOWN_OLD, " [4, 2, 0] 0 6 Origin"),
];

/// The epoch of member 1's third operation.
const RENAMED: EpochName = EpochName::Of { replica: 1, seq: 3 };

/// The rename, and deletions in its epoch: of the second character, and of more than there are.
const RENAME: Told<'static> = (1, 3, &[4, 2, 0], ORIGIN, Deed::Rename(old!(0), 5));

const NARROW: Told<'static> = (
    1,
    4,
    &[5, 3, 0],
    RENAMED,
    Deed::Delete(at!(MIDDLE, 1, 3, 1), 1),
);

const WIDE: Told<'static> = (
    1,
    5,
    &[5, 4, 0],
    RENAMED,
    Deed::Delete(at!(MIDDLE, 1, 3, 0), 6),
);

const UNKNOWN_NEW: &str =
    "unknown target 1 Spot { pos: 2147483647, replica: 1, seq: 3, offset: 5 }";

const FOUR: &str = "hllo [2, 2, 0] 0 4 Origin";

const NAMED: &str = "hllo [4, 3, 0] 0 4 Of { replica: 1, seq: 3 }";

const FIVE: &str = "hllo [5, 3, 0] 0 5 Of { replica: 1, seq: 3 }";

const END: &str = "hllo [5, 4, 0] 0 6 Of { replica: 1, seq: 3 }";

/// One target is deleted again after the last deletion that named it is stable, after the log was shortened, after a rename, and in
/// the epoch of the rename.
pub const AFTER_OTHER_CHANGES: &[Row] = &[
    BEGUN,
    deletes!(0, 2, &[1, 0, 0], 1, 1, "hllo [2, 0, 0] 0 2 Origin"),
    deletes!(1, 1, &[1, 0, 0], 1, 1, "hllo [2, 1, 0] 0 3 Origin"),
    deletes!(1, 2, &[1, 1, 0], 1, 1, FOUR),
    (Acknowledge(1, &[1, 2, 0]), "true", FOUR),
    (Acknowledge(0, &[2, 2, 0]), "true", FOUR),
    deletes!(0, 3, &[2, 2, 0], 1, 1, "hllo [3, 2, 0] 0 5 Origin"),
    (Drop, "dropped", "hllo [3, 2, 0] 0 2 Origin"),
    deletes!(0, 4, &[3, 2, 0], 1, 1, "hllo [4, 2, 0] 0 3 Origin"),
    (Receive(RENAME), "applied", NAMED),
    deletes!(0, 5, &[4, 2, 0], 1, 1, FIVE),
    (Receive(NARROW), "applied", END),
    (Receive(WIDE), UNKNOWN_NEW, END),
];
