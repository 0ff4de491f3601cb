//! Messages between members.

use super::scenes::Scene::{Does, Edits, Repeats, Sends, Shows, Takes, Tells, Writes};
use super::scenes::{APPLIED, REFUSED, Scene, TOOK_NONE, Table, fault_after, play};
use crate::members::EDITED;
use std::alloc::Global;
use std::test::Fail;
use test_steps::bytes::{EMPTY_MESSAGE, HELLO_MESSAGE};
use test_steps::rows::{all_go, cut};

/// Members 0 and 1 of 2 in group 7.
const FRESH: &[Scene] = &[
    Writes(0, "new 7 0 2", "new 7 0 2\n"),
    Writes(1, "new 7 1 2", "new 7 1 2\n"),
];

/// Both have the insertion of `hello` by member 0, and know it of each other.
const PAIR: &[Scene] = &[
    Writes(0, "new 7 0 2", "new 7 0 2\n"),
    Writes(1, "new 7 1 2", "new 7 1 2\n"),
    Edits(0, b"i 0 hello\n", EDITED),
    Tells(0, 1, APPLIED),
    Tells(1, 0, TOOK_NONE),
];

/// A message is made, taken, and taken again.
const MESSAGES: &[Scene] = &[
    Sends(0, 1, EMPTY_MESSAGE),
    Does(0, ("send 2", b"", 4, "", "not a member 2\n")),
    Edits(0, b"i 0 hello\n", EDITED),
    Sends(0, 1, HELLO_MESSAGE),
    Takes(1, HELLO_MESSAGE, 0, APPLIED, ""),
    Writes(1, "text", "hello"),
    Repeats(1, HELLO_MESSAGE),
];

/// The message of 81 bytes in form 1.
const HELLO_IN_FORM_1: &str =
    "524c534d 01 0000000000000007 00000002 00000000 00000001 00000000 00000001 00000000 00000001 00000000 00000000 00 00 00000001 01 7fffffff 00000000 00000001 00000000 00000005 68656c6c6f";

/// The same in form 2.
const HELLO_IN_FORM_2: &str =
    "524c534d 02 0000000000000007 00000002 00000000 00000001 00000000 00000001 00000000 00000001 00000000 00000000 00 00 00000001 01 7fffffff 00000000 00000001 00000000 00000005 68656c6c6f";

const IN_FORM_1: &[Scene] = &[
    Takes(1, HELLO_IN_FORM_1, 0, APPLIED, ""),
    Writes(1, "text", "hello"),
];

const IN_FORM_2: &[Scene] = &[
    Takes(1, HELLO_IN_FORM_2, 0, APPLIED, ""),
    Writes(1, "text", "hello"),
];

/// A second operation comes before the first, and then another one of its number.
const WAITING_AND_FORKED: &[Scene] = &[
    Takes(
        1,
        "524c534d 03 0000000000000007 00000002 00000000 00000002 00000000 00000001 00000000 00000002 00000001 00000000 00 00 00000001 01 7fffffff 00000000 00000001 00000005 00000001 21",
        0,
        "applied 0 released 0 repeated 0 held 1 refused 0\n",
        "",
    ),
    Writes(1, "text", ""),
    Takes(
        1,
        "524c534d 03 0000000000000007 00000002 00000000 00000002 00000000 00000001 00000000 00000002 00000001 00000000 00 00 00000001 01 7fffffff 00000000 00000001 00000005 00000001 3f",
        5,
        REFUSED,
        "refused 0 2 forked\n",
    ),
    Takes(
        1,
        HELLO_MESSAGE,
        0,
        "applied 1 released 1 repeated 0 held 0 refused 0\n",
        "",
    ),
    Writes(1, "text", "hello!"),
];

/// What the members of a pair do at the same time: the script of member 0, that of member 1, the report of each, the report of each
/// message then, and the text and the listing of both, with ` | ` between them.
type Row = &'static str;

const AT_ONCE: &[Row] = &[
    // Both delete one character.
    "d 0 1\n | d 0 1\n | edits 1 released 0 refused 0\n | applied 1 released 0 repeated 0 held 0 refused 0\n | ello | {\"epoch\":null,\"runs\":[{\"first\":[[2147483647,0,1,1]],\"length\":4}]}\n",
    // An insertion beside a rename.
    "r\n | i 2 x\n | edits 1 released 0 refused 0\n | applied 1 released 0 repeated 0 held 0 refused 0\n | hexllo | {\"epoch\":[0,2],\"runs\":[{\"first\":[[2147483647,0,2,0]],\"length\":2},{\"first\":[[2147483647,0,2,1],[2147483647,0,1,1],[2147483647,1,1,0]],\"length\":1},{\"first\":[[2147483647,0,2,2]],\"length\":3}]}\n",
    // Two renames at once, each with an insertion after it.
    "r\ni 2 A\n | r\ni 2 B\n | edits 2 released 0 refused 0\n | applied 2 released 0 repeated 0 held 0 refused 0\n | heABllo | {\"epoch\":[1,1],\"runs\":[{\"first\":[[2147483647,1,1,0]],\"length\":2},{\"first\":[[2147483647,1,1,1],[2147483647,0,3,0]],\"length\":1},{\"first\":[[2147483647,1,1,1],[2147483647,1,2,0]],\"length\":1},{\"first\":[[2147483647,1,1,2]],\"length\":3}]}\n",
];

/// Whether the row goes as it has to.
fn goes(alloc: Global, row: Row) -> Result<bool, Fail> {
    let (first, rest) = cut(row)?;
    let (second, rest) = cut(rest)?;
    let (edited, rest) = cut(rest)?;
    let (applied, rest) = cut(rest)?;
    let (text, ids) = cut(rest)?;
    let scenes = [
        Edits(0, first.as_bytes(), edited),
        Edits(1, second.as_bytes(), edited),
        Tells(0, 1, applied),
        Tells(1, 0, applied),
        Shows(0, text, ids),
        Shows(1, text, ids),
    ];
    Ok(fault_after(alloc, PAIR, &scenes)?.is_none())
}

#[test]
fn members_edit_at_once(rt: HostRuntime) -> Result<(), Fail> {
    all_go(AT_ONCE, |row| goes(rt.alloc(), *row))
}

/// Member 1 deletes a character that nobody inserted.
const UNKNOWN_TARGET: &str =
    "524c534d 03 0000000000000007 00000002 00000001 00000000 00000001 00000001 00000001 00000001 00000000 00000000 00 01 00000001 00000001 01 00000005 00000001 00000001 00000000 00000001";

/// Messages of member 1 that member 0 refuses.
const REFUSALS: &[Scene] = &[
    Takes(
        0,
        UNKNOWN_TARGET,
        5,
        REFUSED,
        "refused 1 1 unknown target 5.1.1.0\n",
    ),
    Takes(
        0,
        "524c534d 03 0000000000000007 00000002 00000001 00000000 00000001 00000001 00000001 00000001 00000000 00000000 00 00 00000001 01 00000009 00000001 00000001 00000003 00000001 61",
        5,
        REFUSED,
        "refused 1 1 wrong stem 0\n",
    ),
    Takes(
        0,
        "524c534d 03 0000000000000007 00000002 00000001 00000000 00000001 00000001 00000001 00000001 00000000 00000000 01 00000000 00000001 00 00000001 01 00000009 00000001 00000001 00000000 00000001 61",
        5,
        REFUSED,
        "refused 1 1 wrong epoch origin\n",
    ),
    Takes(
        0,
        "524c534d 03 0000000000000007 00000002 00000001 00000000 00000001 00000001 00000001 00000001 00000000 00000000 00 01 00000000",
        5,
        REFUSED,
        "refused 1 1 empty\n",
    ),
    Takes(
        0,
        "524c534d 03 0000000000000007 00000002 00000001 00000000 00000001 00000001 00000000 00000001 00000000 00000000 00 00 00000001 01 00000009 00000000 00000001 00000000 00000001 61",
        5,
        REFUSED,
        "refused 0 1 own\n",
    ),
    // The message of 33 bytes in group 8.
    Takes(
        0,
        "524c534d 03 0000000000000008 00000002 00000000 00000000 00000000 00000000",
        4,
        "",
        "other group 8 2\n",
    ),
    Writes(0, "text", ""),
];

/// A message that knows less than one of its sender before it.
const BACKWARD: &[Scene] = &[Takes(0, UNKNOWN_TARGET, 5, REFUSED, "refused 1 1 backward 1 0\n")];

/// Member 1 of a pair leaves, and still takes messages.
const LEFT: &[Scene] = &[
    Writes(1, "leave", EDITED),
    Does(1, ("leave", b"", 6, "", "line 1: left\n")),
    Tells(0, 1, TOOK_NONE),
    Tells(1, 0, APPLIED),
    Takes(
        0,
        "524c534d 03 0000000000000007 00000002 00000001 00000001 00000002 00000001 00000001 00000002 00000001 00000001 00 00 00000001 01 00000009 00000001 00000002 00000000 00000001 61",
        5,
        REFUSED,
        "refused 1 2 left 1\n",
    ),
    Edits(0, b"i 5 !\n", EDITED),
    // Nobody is waited for any more, so all is stable and nothing is sent.
    Sends(
        0,
        1,
        "524c534d 03 0000000000000007 00000002 00000000 00000002 00000001 00000000",
    ),
    Takes(
        1,
        "524c534d 03 0000000000000007 00000002 00000000 00000002 00000001 00000001 00000000 00000002 00000001 00000001 00 00 00000001 01 7fffffff 00000000 00000001 00000005 00000001 21",
        0,
        APPLIED,
        "",
    ),
    Writes(1, "text", "hello!"),
];

/// Bytes that are no messages.
const MALFORMED: &[Scene] = &[
    Takes(1, "", 4, "", "malformed at 0\n"),
    // The message of 81 bytes without its last byte, and with one byte more.
    Takes(
        1,
        "524c534d 03 0000000000000007 00000002 00000000 00000001 00000000 00000001 00000000 00000001 00000000 00000000 00 00 00000001 01 7fffffff 00000000 00000001 00000000 00000005 68656c6c",
        4,
        "",
        "malformed at 76\n",
    ),
    Takes(
        1,
        "524c534d 03 0000000000000007 00000002 00000000 00000001 00000000 00000001 00000000 00000001 00000000 00000000 00 00 00000001 01 7fffffff 00000000 00000001 00000000 00000005 68656c6c6f 00",
        4,
        "",
        "malformed at 81\n",
    ),
    // There is no such kind of operation, and no such sender.
    Takes(
        1,
        "524c534d 03 0000000000000007 00000002 00000000 00000001 00000000 00000001 00000000 00000001 00000000 00000000 00 04 00000001 01 7fffffff 00000000 00000001 00000000 00000005 68656c6c6f",
        4,
        "",
        "malformed at 50\n",
    ),
    Takes(
        1,
        "524c534d 03 0000000000000007 00000002 00000002 00000001 00000000 00000001 00000000 00000001 00000000 00000000 00 00 00000001 01 7fffffff 00000000 00000001 00000000 00000005 68656c6c6f",
        4,
        "",
        "malformed at 17\n",
    ),
    Writes(1, "text", ""),
];

const TABLES: &[Table] = &[
    (FRESH, MESSAGES),
    (FRESH, IN_FORM_1),
    (FRESH, IN_FORM_2),
    (FRESH, WAITING_AND_FORKED),
    (FRESH, REFUSALS),
    (PAIR, BACKWARD),
    (PAIR, LEFT),
    (FRESH, MALFORMED),
];

#[test]
fn members_exchange_messages(rt: HostRuntime) -> Result<(), Fail> {
    play(rt.alloc(), TABLES)
}
