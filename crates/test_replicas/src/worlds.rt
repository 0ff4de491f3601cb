//! Worlds of members that are led from event to event.

use std::alloc::Global;
use std::test::Fail;
use test_steps::rows::{all_go, all_go_within};
use test_steps::worlds::{Row, all_list, fault_among, fault_with_drops};

const AN_INSERTION_MEETS_A_RENAME: &[Row] = &[
    "edit 0 insert 0 hello | 1 | hello [1, 0] 0 of 1 1 0 | 1 1 0",
    "send 0 1 | 0 | hello [1, 0] 0 of 1 1 0 | 1 1 0",
    "deliver 0 1 | 1 0 0 0 0 | hello [1, 0] 0 of 0 1 0 | 1 1 0",
    "drop 1 | dropped | hello [1, 0] 0 of 0 1 0 | 0 1 0",
    "deliver 0 1 | 0 0 1 0 0 | hello [1, 0] 0 of 0 1 0 | 0 1 0",
    "edit 0 rename | 2 | hello [2, 0] 0 of 2 2 5 | 2 2 5",
    "edit 1 insert 2 x | 1 | hexllo [1, 1] 0 of 1 1 0 | 1 1 0",
    "send 0 1 | 1 | hello [2, 0] 0 of 2 2 5 | 2 2 5",
    "send 1 0 | 2 | hexllo [1, 1] 0 of 1 1 0 | 1 1 0",
    "deliver 1 1 | 1 0 1 0 0 | hexllo [2, 1] 0 of 1 2 5 | 2 2 5",
    "drop 1 | dropped | hexllo [2, 1] 0 of 1 2 5 | 1 2 5",
    "deliver 1 1 | 0 0 2 0 0 | hexllo [2, 1] 0 of 1 2 5 | 1 2 5",
    "deliver 2 0 | 1 0 0 0 0 | hexllo [2, 1] 0 of 1 2 5 | 3 2 5",
    "drop 0 | dropped | hexllo [2, 1] 0 of 1 2 5 | 1 2 5",
    "deliver 2 0 | 0 0 1 0 0 | hexllo [2, 1] 0 of 1 2 5 | 1 2 5",
    "deliver 9 0 | NoMessage { message: 9 } | hexllo [2, 1] 0 of 1 2 5 | 1 2 5",
    "edit 2 leave | NoMember { member: 2 } | none | none",
    "send 0 1 | 3 | hexllo [2, 1] 0 of 1 2 5 | 1 2 5",
    "deliver 3 1 | 0 0 1 0 0 | hexllo [2, 1] 0 of 0 1 0 | 1 2 5",
    "drop 1 | dropped | hexllo [2, 1] 0 of 0 1 0 | 0 1 0",
    "send 1 0 | 4 | hexllo [2, 1] 0 of 0 1 0 | 0 1 0",
    "deliver 4 0 | 0 0 0 0 0 | hexllo [2, 1] 0 of 0 1 0 | 1 2 5",
    "drop 0 | dropped | hexllo [2, 1] 0 of 0 1 0 | 0 1 0",
];

const DROPPING_WAITS_FOR_ALL: &[Row] = &[
    "edit 0 insert 0 hello | 1 | hello [1, 0, 0] 0 of 1 1 0 | 1 1 0",
    "edit 0 insert 2 XY | 2 | heXYllo [2, 0, 0] 0 of 2 1 0 | 2 1 0",
    "edit 0 rename | 3 | heXYllo [3, 0, 0] 0 of 3 2 7 | 3 2 7",
    "drop 0 | dropped | heXYllo [3, 0, 0] 0 of 3 2 7 | 3 2 7",
    "send 0 1 | 0 | heXYllo [3, 0, 0] 0 of 3 2 7 | 3 2 7",
    "deliver 0 1 | 3 0 0 0 0 | heXYllo [3, 0, 0] 0 of 3 2 7 | 3 2 7",
    "send 0 2 | 1 | heXYllo [3, 0, 0] 0 of 3 2 7 | 3 2 7",
    "deliver 1 2 | 3 0 0 0 0 | heXYllo [3, 0, 0] 0 of 3 2 7 | 3 2 7",
    "send 1 0 | 2 | heXYllo [3, 0, 0] 0 of 3 2 7 | 3 2 7",
    "deliver 2 0 | 0 0 0 0 0 | heXYllo [3, 0, 0] 0 of 3 2 7 | 3 2 7",
    "drop 0 | dropped | heXYllo [3, 0, 0] 0 of 3 2 7 | 3 2 7",
    "send 2 0 | 3 | heXYllo [3, 0, 0] 0 of 3 2 7 | 3 2 7",
    "deliver 3 0 | 0 0 0 0 0 | heXYllo [3, 0, 0] 0 of 0 1 0 | 3 2 7",
    "drop 0 | dropped | heXYllo [3, 0, 0] 0 of 0 1 0 | 0 1 0",
];

const A_MEMBER_THAT_LEFT_HOLDS_NOTHING_UP: &[Row] = &[
    "edit 0 insert 0 hello | 1 | hello [1, 0, 0] 0 of 1 1 0 | 1 1 0",
    "edit 0 rename | 2 | hello [2, 0, 0] 0 of 2 2 5 | 2 2 5",
    "send 0 1 | 0 | hello [2, 0, 0] 0 of 2 2 5 | 2 2 5",
    "deliver 0 1 | 2 0 0 0 0 | hello [2, 0, 0] 0 of 2 2 5 | 2 2 5",
    "send 1 0 | 1 | hello [2, 0, 0] 0 of 2 2 5 | 2 2 5",
    "deliver 1 0 | 0 0 0 0 0 | hello [2, 0, 0] 0 of 2 2 5 | 2 2 5",
    "edit 2 leave | 1 |  [0, 0, 1] 0 of 1 1 0 | 1 1 0",
    "edit 2 leave | Edit(Left) |  [0, 0, 1] 0 of 1 1 0 | 1 1 0",
    "send 2 0 | 2 |  [0, 0, 1] 0 of 1 1 0 | 1 1 0",
    "deliver 2 0 | 1 0 0 0 0 | hello [2, 0, 1] 0 of 1 2 5 | 3 2 5",
    "drop 0 | dropped | hello [2, 0, 1] 0 of 1 2 5 | 1 2 5",
    "send 0 1 | 3 | hello [2, 0, 1] 0 of 1 2 5 | 1 2 5",
    "deliver 3 1 | 1 0 0 0 0 | hello [2, 0, 1] 0 of 0 1 0 | 3 2 5",
    "drop 1 | dropped | hello [2, 0, 1] 0 of 0 1 0 | 0 1 0",
    "send 1 0 | 4 | hello [2, 0, 1] 0 of 0 1 0 | 0 1 0",
    "deliver 4 0 | 0 0 0 0 0 | hello [2, 0, 1] 0 of 0 1 0 | 1 2 5",
    "drop 0 | dropped | hello [2, 0, 1] 0 of 0 1 0 | 0 1 0",
];

/// Three members have one text; each renames it and inserts a letter into it, and each message is taken twice, the last first.
const MESSAGES_COME_TWICE_AND_IN_REVERSE: &[Row] = &[
    "edit 0 insert 0 hello | 1 | hello [1, 0, 0] 0 of 1 1 0 | 1 1 0",
    "send 0 1 | 0 | hello [1, 0, 0] 0 of 1 1 0 | 1 1 0",
    "send 0 2 | 1 | hello [1, 0, 0] 0 of 1 1 0 | 1 1 0",
    "deliver 0 1 | 1 0 0 0 0 | hello [1, 0, 0] 0 of 1 1 0 | 1 1 0",
    "deliver 1 2 | 1 0 0 0 0 | hello [1, 0, 0] 0 of 1 1 0 | 1 1 0",
    "edit 0 rename | 2 | hello [2, 0, 0] 0 of 2 2 5 | 2 2 5",
    "edit 1 rename | 1 | hello [1, 1, 0] 0 of 2 2 5 | 2 2 5",
    "edit 2 rename | 1 | hello [1, 0, 1] 0 of 2 2 5 | 2 2 5",
    "edit 0 insert 2 A | 3 | heAllo [3, 0, 0] 0 of 3 2 5 | 3 2 5",
    "edit 1 insert 2 B | 2 | heBllo [1, 2, 0] 0 of 3 2 5 | 3 2 5",
    "edit 2 insert 2 C | 2 | heCllo [1, 0, 2] 0 of 3 2 5 | 3 2 5",
    "send 0 1 | 2 | heAllo [3, 0, 0] 0 of 3 2 5 | 3 2 5",
    "send 0 2 | 3 | heAllo [3, 0, 0] 0 of 3 2 5 | 3 2 5",
    "send 1 0 | 4 | heBllo [1, 2, 0] 0 of 3 2 5 | 3 2 5",
    "send 1 2 | 5 | heBllo [1, 2, 0] 0 of 3 2 5 | 3 2 5",
    "send 2 0 | 6 | heCllo [1, 0, 2] 0 of 3 2 5 | 3 2 5",
    "send 2 1 | 7 | heCllo [1, 0, 2] 0 of 3 2 5 | 3 2 5",
    "deliver 7 1 | 2 0 1 0 0 | heBCllo [1, 2, 2] 0 of 4 3 10 | 5 3 10",
    "deliver 7 1 | 0 0 3 0 0 | heBCllo [1, 2, 2] 0 of 4 3 10 | 5 3 10",
    "deliver 6 0 | 2 0 0 0 0 | heACllo [3, 0, 2] 0 of 5 3 10 | 5 3 10",
    "deliver 6 0 | 0 0 2 0 0 | heACllo [3, 0, 2] 0 of 5 3 10 | 5 3 10",
    "deliver 5 2 | 2 0 1 0 0 | heBCllo [1, 2, 2] 0 of 4 3 10 | 5 3 10",
    "deliver 5 2 | 0 0 3 0 0 | heBCllo [1, 2, 2] 0 of 4 3 10 | 5 3 10",
    "deliver 4 0 | 2 0 0 0 0 | heABCllo [3, 2, 2] 0 of 6 4 15 | 7 4 15",
    "deliver 4 0 | 0 0 2 0 0 | heABCllo [3, 2, 2] 0 of 6 4 15 | 7 4 15",
    "deliver 3 2 | 2 0 1 0 0 | heABCllo [3, 2, 2] 0 of 6 4 15 | 7 4 15",
    "deliver 3 2 | 0 0 3 0 0 | heABCllo [3, 2, 2] 0 of 6 4 15 | 7 4 15",
    "deliver 2 1 | 2 0 1 0 0 | heABCllo [3, 2, 2] 0 of 6 4 15 | 7 4 15",
    "deliver 2 1 | 0 0 3 0 0 | heABCllo [3, 2, 2] 0 of 6 4 15 | 7 4 15",
    "deliver 2 0 | 0 0 3 0 0 | heABCllo [3, 2, 2] 0 of 6 4 15 | 7 4 15",
    "deliver 2 2 | 0 0 3 0 0 | heABCllo [3, 2, 2] 0 of 6 4 15 | 7 4 15",
];

/// Two members delete one character, one of them after a rename that the other has not. A third takes both deletions, and the later
/// one is of another epoch than the one that makes its target known.
const A_TARGET_IS_KNOWN_THROUGH_A_DELETION_OF_ANOTHER_EPOCH: &[Row] = &[
    "edit 0 insert 0 hello | 1 | hello [1, 0, 0] 0 of 1 1 0 | 1 1 0",
    "send 0 1 | 0 | hello [1, 0, 0] 0 of 1 1 0 | 1 1 0",
    "send 0 2 | 1 | hello [1, 0, 0] 0 of 1 1 0 | 1 1 0",
    "deliver 0 1 | 1 0 0 0 0 | hello [1, 0, 0] 0 of 1 1 0 | 1 1 0",
    "deliver 1 2 | 1 0 0 0 0 | hello [1, 0, 0] 0 of 1 1 0 | 1 1 0",
    "edit 1 rename | 1 | hello [1, 1, 0] 0 of 2 2 5 | 2 2 5",
    "edit 1 delete 0 1 | 2 | ello [1, 2, 0] 0 of 3 2 5 | 3 2 5",
    "edit 2 delete 0 1 | 1 | ello [1, 0, 1] 0 of 2 1 0 | 2 1 0",
    "send 1 0 | 2 | ello [1, 2, 0] 0 of 3 2 5 | 3 2 5",
    "send 2 0 | 3 | ello [1, 0, 1] 0 of 2 1 0 | 2 1 0",
    "deliver 2 0 | 2 0 0 0 0 | ello [1, 2, 0] 0 of 3 2 5 | 3 2 5",
    "deliver 3 0 | 1 0 0 0 0 | ello [1, 2, 1] 0 of 3 2 5 | 4 2 5",
];

/// The tables, each with the count of members.
const TABLES: &[(u32, &[Row])] = &[
    (2, AN_INSERTION_MEETS_A_RENAME),
    (3, DROPPING_WAITS_FOR_ALL),
    (3, A_MEMBER_THAT_LEFT_HOLDS_NOTHING_UP),
    (3, MESSAGES_COME_TWICE_AND_IN_REVERSE),
    (3, A_TARGET_IS_KNOWN_THROUGH_A_DELETION_OF_ANOTHER_EPOCH),
];

/// The first row that goes otherwise than it has to without drops, or with them.
fn fault_either_way(alloc: Global, members: u32, rows: &[Row]) -> Result<Option<usize>, Fail> {
    match fault_among(alloc, members, rows)? {
        None => fault_with_drops(alloc, members, rows),
        Some(row) => Ok(Some(row)),
    }
}

#[test]
fn events_are_answered(rt: HostRuntime) -> Result<(), Fail> {
    all_go_within(
        TABLES,
        |(members, rows)| fault_either_way(rt.alloc(), *members, rows),
    )
}

/// Tables after which all members list the same identifiers, and these.
const LISTS: &[(u32, &[Row], &str)] = &[
    (
        2,
        AN_INSERTION_MEETS_A_RENAME,
        "{\"epoch\":[0,2],\"runs\":[{\"first\":[[2147483647,0,2,0]],\"length\":2},{\"first\":[[2147483647,0,2,1],[2147483647,0,1,1],[2147483647,1,1,0]],\"length\":1},{\"first\":[[2147483647,0,2,2]],\"length\":3}]}\n",
    ),
    (
        3,
        MESSAGES_COME_TWICE_AND_IN_REVERSE,
        "{\"epoch\":[2,1],\"runs\":[{\"first\":[[2147483647,2,1,0]],\"length\":2},{\"first\":[[2147483647,2,1,1],[2147483647,0,3,0]],\"length\":1},{\"first\":[[2147483647,2,1,1],[2147483647,1,2,0]],\"length\":1},{\"first\":[[2147483647,2,1,1],[2147483647,2,2,0]],\"length\":1},{\"first\":[[2147483647,2,1,2]],\"length\":3}]}\n",
    ),
];

#[test]
fn all_list_the_same(rt: HostRuntime) -> Result<(), Fail> {
    all_go(
        LISTS,
        |(members, rows, ids)| all_list(rt.alloc(), *members, rows, ids),
    )
}
