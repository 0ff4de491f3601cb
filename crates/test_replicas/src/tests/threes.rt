//! What comes of operations that arrive in a group of three.

use super::tuples::{at, old};
use rls_ident::EpochName;
use test_steps::steps::Row;
use test_steps::steps::Step::{Acknowledge, Receive, Release};
use test_steps::told::{Deed, ORIGIN, Told};

/// The insertion of `hello` by member 0, as its first operation.
const HELLO: Told<'static> = (0, 1, &[0, 0, 0], ORIGIN, Deed::Insert(old!(0), "hello"));

/// What member 2 shows then.
const ONE: &str = "hello [1, 0, 0] 0 1 Origin";

/// A fresh member 2 accepts it.
pub const BEGUN: Row = (Receive(HELLO), "applied", ONE);

/// The epoch of member 0's second operation.
const RENAMED: EpochName = EpochName::Of { replica: 0, seq: 2 };

/// A rename and a leave by member 0 after it, and a deletion by member 1.
const RENAME: Told<'static> = (0, 2, &[1, 0, 0], ORIGIN, Deed::Rename(old!(0), 5));

const LEAVE_LATER: Told<'static> = (0, 3, &[2, 0, 0], RENAMED, Deed::Leave);

const DELETION: Told<'static> = (1, 1, &[1, 0, 0], ORIGIN, Deed::Delete(old!(4), 1));

/// What member 2 shows after the rename, after the leave, and after the deletion.
const NAMED: &str = "hello [2, 0, 0] 2 2 Of { replica: 0, seq: 2 }";

const GONE: &str = "hello [3, 0, 0] 1 3 Of { replica: 0, seq: 2 }";

const ALL: &str = "hell [3, 1, 0] 0 4 Of { replica: 0, seq: 2 }";

/// Each kind that waited is released.
pub const RELEASED: &[Row] = &[
    (Receive(DELETION), "held", " [0, 0, 0] 1 0 Origin"),
    (Receive(LEAVE_LATER), "held", " [0, 0, 0] 2 0 Origin"),
    (Receive(RENAME), "held", " [0, 0, 0] 3 0 Origin"),
    (Receive(HELLO), "applied", "hello [1, 0, 0] 3 1 Origin"),
    (Release, "0 2 applied", NAMED),
    (Release, "0 3 applied", GONE),
    (Release, "1 1 applied", ALL),
    (Release, "none", ALL),
];

/// Operations of the wrong shape.
const NOBODY: Told<'static> = (3, 1, &[0, 0, 0], ORIGIN, Deed::Leave);

const CONTEXT: Told<'static> = (1, 1, &[0, 0], ORIGIN, Deed::Leave);

const EMPTY: Told<'static> = (1, 1, &[0, 0, 0], ORIGIN, Deed::Insert(at!(9, 1, 1, 0), ""));

const END: Told<'static> = (
    1,
    1,
    &[0, 0, 0],
    ORIGIN,
    Deed::Insert(at!(9, 1, 1, 1_073_741_823), "ab"),
);

const LONG: Told<'static> = (
    1,
    1,
    &[0, 0, 0],
    ORIGIN,
    Deed::Delete(at!(9, 1, 1, 0), 4_194_305),
);

/// What member 2 shows while it has nothing.
const FRESH: &str = " [0, 0, 0] 0 0 Origin";

/// A fresh member 2 is told them.
pub const SHAPES: &[Row] = &[
    (Receive(NOBODY), "Author", FRESH),
    (Receive(CONTEXT), "Context", FRESH),
    (Receive(EMPTY), "EmptyBody", FRESH),
    (Receive(END), "OffsetEnd", FRESH),
    (Receive(LONG), "TooLong { n: 4194305 }", FRESH),
];

/// The first and the third operation of member 1, which insert into its stem, and the third with another text.
const FIRST: Told<'static> = (1, 1, &[1, 0, 0], ORIGIN, Deed::Insert(at!(9, 1, 1, 0), "a"));

const LATE: Told<'static> = (1, 3, &[1, 2, 0], ORIGIN, Deed::Insert(at!(9, 1, 1, 2), "c"));

const OTHER: Told<'static> = (1, 3, &[1, 2, 0], ORIGIN, Deed::Insert(at!(9, 1, 1, 2), "d"));

/// Its second operation: with fewer causes than its first, in an epoch that isn't there, at an offset that was used, a deletion of
/// what no one has, and as it has to be.
const BACKWARD: Told<'static> = (1, 2, &[0, 1, 0], ORIGIN, Deed::Insert(at!(9, 1, 1, 1), "b"));

const WRONG: Told<'static> = (
    1,
    2,
    &[1, 1, 0],
    NO_EPOCH,
    Deed::Insert(at!(9, 1, 1, 1), "b"),
);

const NO_EPOCH: EpochName = EpochName::Of { replica: 0, seq: 1 };

const STEM: Told<'static> = (1, 2, &[1, 1, 0], ORIGIN, Deed::Insert(at!(9, 1, 1, 0), "b"));

const TARGET: Told<'static> = (1, 2, &[1, 1, 0], ORIGIN, Deed::Delete(at!(9, 1, 1, 1), 1));

const RIGHT: Told<'static> = (1, 2, &[1, 1, 0], ORIGIN, Deed::Insert(at!(9, 1, 1, 1), "b"));

/// An operation of member 2 itself.
const MINE: Told<'static> = (2, 1, &[1, 1, 0], ORIGIN, Deed::Leave);

/// Member 0 leaves, and then deletes.
const LEAVE: Told<'static> = (0, 2, &[1, 0, 0], ORIGIN, Deed::Leave);

const LEFT: Told<'static> = (0, 3, &[2, 0, 0], ORIGIN, Deed::Delete(old!(0), 1));

/// What member 2 shows after two operations, and once the third of member 1 waits.
const TWO: &str = "ahello [1, 1, 0] 0 2 Origin";

const STAND: &str = "ahello [1, 1, 0] 1 2 Origin";

/// Each thing that can come of an operation that arrives at member 2, which has two operations.
pub const ARRIVING: &[Row] = &[
    BEGUN,
    (Receive(HELLO), "repeated", ONE),
    (Receive(FIRST), "applied", TWO),
    (Acknowledge(1, &[1, 1, 0]), "true", TWO),
    (Receive(LATE), "held", STAND),
    (Receive(LATE), "held", STAND),
    (Receive(OTHER), "forked 1 3 c", STAND),
    (Receive(MINE), "own 1", STAND),
    (Receive(BACKWARD), "backward [1, 1, 0]", STAND),
    (Receive(WRONG), "wrong epoch Origin", STAND),
    (Receive(STEM), "wrong stem Some(1)", STAND),
    (
        Receive(TARGET),
        "unknown target 1 Spot { pos: 9, replica: 1, seq: 1, offset: 1 }",
        STAND,
    ),
    (Receive(LEAVE), "applied", "ahello [2, 1, 0] 1 3 Origin"),
    (Receive(LEFT), "left 2", "ahello [2, 1, 0] 1 3 Origin"),
    (Receive(RIGHT), "applied", "abhello [2, 2, 0] 1 4 Origin"),
    (Release, "1 3 applied", "abchello [2, 3, 0] 0 5 Origin"),
];
