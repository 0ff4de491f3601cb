//! The core called by itself: what a replica answers, and how it is afterwards.

use super::tuples::{at, old};
use rls_ident::EpochName;
use rls_replica::Replica;
use std::alloc::Global;
use std::test::Fail;
use test_steps::steps::{Change, HELLO, Question, Row, Step, Turn, fault};
use test_steps::told::{Deed, MIDDLE, ORIGIN, Told};

/// The epoch of member 0's second operation.
const RENAMED: EpochName = EpochName::Of { replica: 0, seq: 2 };

/// The insertion of `hello` by member 0, as its first operation.
const CAUSE: Told<'static> = (0, 1, &[0, 0], ORIGIN, Deed::Insert(old!(0), "hello"));

/// Insertions by member 0, as its second operation: two after the last character, and one at an offset that is used.
const LATE: Told<'static> = (0, 2, &[1, 0], ORIGIN, Deed::Insert(old!(5), "!"));

const OTHER: Told<'static> = (0, 2, &[1, 0], ORIGIN, Deed::Insert(old!(5), "?"));

const WITHIN: Told<'static> = (0, 2, &[1, 0], ORIGIN, Deed::Insert(old!(4), "!"));

/// Operations wait for their causes.
pub const WAITING: &[Row] = &[
    (Step::Receive(LATE), "held", " [0, 0] 1 0 Origin"),
    (Step::Receive(LATE), "held", " [0, 0] 1 0 Origin"),
    (Step::Receive(OTHER), "forked 0 2 !", " [0, 0] 1 0 Origin"),
    (Step::Release, "none", " [0, 0] 1 0 Origin"),
    (Step::Receive(CAUSE), "applied", "hello [1, 0] 1 1 Origin"),
    (Step::Release, "0 2 applied", "hello! [2, 0] 0 2 Origin"),
    (Step::Release, "none", "hello! [2, 0] 0 2 Origin"),
    (Step::Receive(CAUSE), "repeated", "hello! [2, 0] 0 2 Origin"),
    (Step::Receive(LATE), "repeated", "hello! [2, 0] 0 2 Origin"),
    (Step::Receive(OTHER), "repeated", "hello! [2, 0] 0 2 Origin"),
];

/// What waited is refused.
pub const WAITED_IN_VAIN: &[Row] = &[
    (Step::Receive(WITHIN), "held", " [0, 0] 1 0 Origin"),
    (Step::Receive(CAUSE), "applied", "hello [1, 0] 1 1 Origin"),
    (Step::Release, "0 2 wrong stem Some(5)", ONE),
];

/// What a member of two shows that has `hello` by member 0.
const ONE: &str = "hello [1, 0] 0 1 Origin";

/// What a member of two shows that has nothing.
const NONE: &str = " [0, 0] 0 0 Origin";

/// The author and the number of an operation of the first epoch with no causes, what it does, and what a fresh member 0 answers.
type Case = (u32, u32, Deed<'static>, &'static str);

/// Operations of the wrong shape, and others that don't fit a fresh member 0.
const CASES: &[Case] = &[
    (2, 1, Deed::Leave, "Author"),
    (1, 0, Deed::Leave, "Context"),
    (1, 2, Deed::Leave, "Context"),
    (1, 1, Deed::Insert(at!(9, 1, 1, 0), ""), "EmptyBody"),
    (1, 1, Deed::Delete(at!(5, 1, 1, 0), 4_194_305), TOO_LONG),
    (1, 1, Deed::Rename(at!(5, 1, 1, 0), 4_194_305), TOO_LONG),
    (
        1,
        1,
        Deed::Insert(at!(9, 1, 1, 1_073_741_823), "ab"),
        "OffsetEnd",
    ),
    (0, 1, Deed::Leave, "own 1"),
    (
        1,
        1,
        Deed::Insert(at!(9, 1, 1, 3), "a"),
        "wrong stem Some(0)",
    ),
    (1, 1, Deed::Insert(at!(9, 0, 1, 0), "a"), "wrong stem None"),
    (1, 1, Deed::Insert(at!(9, 1, 7, 0), "a"), "wrong stem None"),
    (1, 1, Deed::Delete(at!(5, 1, 1, 0), 1), UNKNOWN_FIVE),
];

const TOO_LONG: &str = "TooLong { n: 4194305 }";

const UNKNOWN_FIVE: &str = "unknown target 1 Spot { pos: 5, replica: 1, seq: 1, offset: 0 }";

/// The first operation that a fresh member 0 answers otherwise, or after which it isn't as it was.
fn fault_among(alloc: Global, cases: &[Case]) -> Result<Option<usize>, Fail> {
    for (i, (author, seq, deed, answer)) in cases.iter().enumerate() {
        let op: Told<'static> = (*author, *seq, &[0, 0], ORIGIN, *deed);
        let row = (Step::Receive(op), *answer, NONE);
        if fault(alloc, 0, &[row])?.is_some() {
            return Ok(Some(i));
        }
    }
    Ok(None)
}

#[test]
fn operations_are_refused(rt: HostRuntime) -> Result<(), Fail> {
    assert_eq!(rt; fault_among(rt.alloc(), CASES)?, None);
    Ok(())
}

/// An insertion by member 1 at the beginning.
const FIRST: Deed<'static> = Deed::Insert(at!(9, 1, 1, 0), "a");

/// It, in an epoch that member 0 doesn't have yet.
const EARLY: Told<'static> = (1, 1, &[0, 0], RENAMED, FIRST);

/// It, with fewer causes than member 1 is known to have.
const BACKWARD: Told<'static> = (1, 1, &[0, 0], ORIGIN, FIRST);

/// It, after the rename but not in the epoch of that.
const WRONG: Told<'static> = (1, 1, &[2, 0], ORIGIN, FIRST);

/// A deletion of what nobody has.
const UNKNOWN: Told<'static> = (1, 1, &[1, 0], ORIGIN, Deed::Delete(old!(5), 1));

/// The insertion as it has to be.
const RIGHT: Told<'static> = (1, 1, &[2, 0], RENAMED, FIRST);

const UNKNOWN_OLD: &str =
    "unknown target 1 Spot { pos: 2147483647, replica: 0, seq: 1, offset: 5 }";

const DUE: &str = "wrong epoch Of { replica: 0, seq: 2 }";

/// What member 0 shows after its rename, and after the insertion by member 1.
const TWO: &str = "hello [2, 0] 0 2 Of { replica: 0, seq: 2 }";

const THREE: &str = "ahello [2, 1] 0 3 Of { replica: 0, seq: 2 }";

/// Operations of member 1 are refused before and after a rename.
pub const LATER: &[Turn] = &[
    Turn::First((Step::Receive(EARLY), "wrong epoch Origin", NONE)),
    Turn::First((HELLO, "1", ONE)),
    Turn::SecondTakes("1 0 0 0 0", ONE),
    Turn::FirstTakes("0 0 0 0 0", ONE),
    Turn::First((Step::Edit(Change::Rename), "2", TWO)),
    Turn::First((Step::Receive(BACKWARD), "backward [1, 0]", TWO)),
    Turn::First((Step::Receive(WRONG), DUE, TWO)),
    Turn::First((Step::Receive(UNKNOWN), UNKNOWN_OLD, TWO)),
    Turn::First((Step::Receive(RIGHT), "applied", THREE)),
];

/// The insertion of `hello` by member 1, as its first operation.
const BEGUN: Told<'static> = (
    1,
    1,
    &[0, 0],
    ORIGIN,
    Deed::Insert(at!(MIDDLE, 1, 1, 0), "hello"),
);

/// Insertions before it, where one character fits: of two characters, and of one.
const PAIR: Told<'static> = (
    1,
    2,
    &[0, 1],
    ORIGIN,
    Deed::Insert(at!(MIDDLE, 1, 1, -1), "ab"),
);

const SINGLE: Told<'static> = (
    1,
    2,
    &[0, 1],
    ORIGIN,
    Deed::Insert(at!(MIDDLE, 1, 1, -1), "a"),
);

/// Stems grow at both ends.
pub const STEM_GROWS: &[Row] = &[
    (Step::Receive(BEGUN), "applied", "hello [0, 1] 0 1 Origin"),
    (
        Step::Receive(PAIR),
        "wrong stem Some(5)",
        "hello [0, 1] 0 1 Origin",
    ),
    (Step::Receive(SINGLE), "applied", "ahello [0, 2] 0 2 Origin"),
    (Step::Ask(Question::Runs), "1 1", "ahello [0, 2] 0 2 Origin"),
];

/// Member 1 leaves, and then inserts.
const LEAVE: Told<'static> = (1, 2, &[0, 1], ORIGIN, Deed::Leave);

const AFTER: Told<'static> = (
    1,
    3,
    &[0, 2],
    ORIGIN,
    Deed::Insert(at!(MIDDLE, 1, 3, 0), "a"),
);

const ALL_LEFT: &str = "hello [1, 2] 0 3 Origin";

/// Members leave.
pub const LEAVING: &[Row] = &[
    (Step::Ask(Question::Left(0)), "false", NONE),
    (Step::Edit(Change::Leave), "1", " [1, 0] 0 1 Origin"),
    (
        Step::Edit(Change::Insert(0, "a")),
        "Left",
        " [1, 0] 0 1 Origin",
    ),
    (Step::Edit(Change::Leave), "Left", " [1, 0] 0 1 Origin"),
    (Step::Receive(BEGUN), "applied", "hello [1, 1] 0 2 Origin"),
    (
        Step::Ask(Question::Left(1)),
        "false",
        "hello [1, 1] 0 2 Origin",
    ),
    (Step::Receive(LEAVE), "applied", ALL_LEFT),
    (Step::Receive(AFTER), "left 2", ALL_LEFT),
    (Step::Ask(Question::Left(0)), "true", ALL_LEFT),
    (Step::Ask(Question::Left(1)), "true", ALL_LEFT),
    (Step::Ask(Question::Itself), "7 0 2 5", ALL_LEFT),
];

/// What member 0 sends to member 1.
const MESSAGE: Step = Step::Ask(Question::Message(1));

/// Acknowledgements count.
pub const ACKNOWLEDGED: &[Row] = &[
    (HELLO, "1", ONE),
    (Step::Acknowledge(1, &[1, 1]), "false", ONE),
    (MESSAGE, "7 2 0 [1, 0] 1", ONE),
    (Step::Acknowledge(1, &[0, 0]), "false", ONE),
    (MESSAGE, "7 2 0 [1, 0] 1", ONE),
    (Step::Acknowledge(0, &[1, 0]), "false", ONE),
    (MESSAGE, "7 2 0 [1, 0] 1", ONE),
    (Step::Acknowledge(1, &[1, 0]), "true", ONE),
    (MESSAGE, "7 2 0 [1, 0] 0", ONE),
    (Step::Acknowledge(1, &[1, 0]), "false", ONE),
    (MESSAGE, "7 2 0 [1, 0] 0", ONE),
];

const PAST: &str = "Range { at: 6, total: 5 }";

const MOST: &str = "Range { at: 18446744073709551615, total: 5 }";

/// Edits are refused.
pub const REFUSED_EDITS: &[Row] = &[
    (Step::Edit(Change::Rename), "EmptyDocument", NONE),
    (HELLO, "1", ONE),
    (Step::Edit(Change::Delete(9, 0)), "EmptyEdit", ONE),
    (Step::Edit(Change::Delete(6, 1)), PAST, ONE),
    (
        Step::Edit(Change::Delete(2, 4)),
        "Range { at: 2, total: 5 }",
        ONE,
    ),
    (Step::Edit(Change::Delete(u64::MAX, u64::MAX)), MOST, ONE),
    (Step::Edit(Change::Insert(6, "a")), PAST, ONE),
    (Step::Edit(Change::Insert(6, "")), "EmptyEdit", ONE),
];

const MADE_SAME: Question = Question::Made(Change::Insert(0, "hello"), CAUSE);

const MADE_OTHER: Question = Question::Made(Change::Insert(0, "hallo"), CAUSE);

const MADE_LATE: Question = Question::Made(Change::Insert(1, "a"), CAUSE);

/// Member 0 leaves after an operation of member 1.
const HELD_LEAVE: Told<'static> = (0, 2, &[1, 1], ORIGIN, Deed::Leave);

/// Operations are made and replayed.
pub const MADE: &[Row] = &[
    (Step::Ask(MADE_SAME), "same", NONE),
    (Step::Ask(MADE_OTHER), "other", NONE),
    (Step::Ask(MADE_LATE), "Range { at: 1, total: 0 }", NONE),
    (Step::Receive(CAUSE), "own 1", NONE),
    (Step::Replay(CAUSE), "applied", ONE),
    (Step::Replay(HELD_LEAVE), "held", "hello [1, 0] 1 1 Origin"),
];

/// An operation, its cause and the cause again are taken.
pub const TAKEN: &[Row] = &[(
    Step::TakeOps(LATE, CAUSE, CAUSE),
    "1 1 1 1 0",
    "hello! [2, 0] 0 2 Origin",
)];

/// The operation and its cause arrive, and then all is released.
pub const RELEASED: &[Row] = &[
    (Step::Receive(LATE), "held", " [0, 0] 1 0 Origin"),
    (Step::Receive(CAUSE), "applied", "hello [1, 0] 1 1 Origin"),
    (Step::ReleaseAll, "0 1 0 0 0", "hello! [2, 0] 0 2 Origin"),
];

/// Messages are for members.
pub const FOR_MEMBERS: &[Turn] = &[
    Turn::First((Step::Ask(Question::Message(2)), "NotMember", ONE)),
    Turn::First((MESSAGE, "7 2 0 [1, 0] 0", ONE)),
];

const OTHER_GROUP: &str = "OtherGroup { group: 7, members: 2 }";

/// A member of another group takes no message.
pub const FOR_A_GROUP: &[Turn] = &[
    Turn::SecondTakes(OTHER_GROUP, NONE),
    Turn::First((HELLO, "1", ONE)),
    Turn::SecondTakes(OTHER_GROUP, NONE),
];

/// What member 1 shows after its rename.
const RENAMED_BY_SECOND: &str = "hello [1, 1] 0 2 Of { replica: 1, seq: 1 }";

/// Replicas tell of themselves.
pub const ASKED: &[Turn] = &[
    Turn::Second((Step::Edit(Change::Rename), "1", RENAMED_BY_SECOND)),
    Turn::First((Step::Ask(Question::Itself), "7 0 2 5", ONE)),
    Turn::First((Step::Ask(Question::Text(1, 3)), "ell", ONE)),
    Turn::First((Step::Ask(Question::Ident(4)), "4 Ok(4)", ONE)),
    Turn::First((Step::Ask(Question::Runs), "1 1", ONE)),
];

/// The own number and the count of members of a replica.
fn numbers(alloc: Global, replica: &Replica) -> Result<String, Fail> {
    let (me, members) = (replica.me(), replica.members());
    Ok(format!(in alloc; "{me} of {members}")?)
}

/// The same of a fresh replica, or why there is none.
fn born(alloc: Global, me: u32, members: u32) -> Result<String, Fail> {
    match Replica::new(alloc, 7, me, members) {
        Ok(replica) => numbers(alloc, &replica),
        Err(error) => Ok(format!(in alloc; "{error:?}")?),
    }
}

/// An own number, a count of members, and what comes of them.
type Birth = (u32, u32, &'static str);

const BIRTHS: &[Birth] = &[
    (9, 0, "Members { members: 0 }"),
    (0, 65, "Members { members: 65 }"),
    (2, 2, "Me { me: 2 }"),
    (63, 64, "63 of 64"),
];

fn is_born(alloc: Global, birth: Birth) -> Result<bool, Fail> {
    let (me, members, expected) = birth;
    Ok(born(alloc, me, members)?.as_str() == expected)
}

#[test]
fn replicas_are_made(rt: HostRuntime) -> Result<(), Fail> {
    for (i, birth) in BIRTHS.iter().enumerate() {
        assert!(rt; is_born(rt.alloc(), *birth)?, "birth {i}");
    }
    Ok(())
}
