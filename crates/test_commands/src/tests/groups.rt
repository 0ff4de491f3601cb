//! Three members, of whom all have to have an operation before anything is dropped.

use super::scenes::Scene::{Edits, Tells, Writes};
use super::scenes::{APPLIED, REPEATED, Scene, TOOK_NONE, Table, play};
use crate::members::EDITED;
use std::test::Fail;

/// The report of a message with three operations.
const TOOK_THREE: &str = "applied 3 released 0 repeated 0 held 0 refused 0\n";

/// Three members, of whom the first inserts twice and renames.
const BEGUN: &[Scene] = &[
    Writes(0, "new 7 0 3", "new 7 0 3\n"),
    Writes(1, "new 7 1 3", "new 7 1 3\n"),
    Writes(2, "new 7 2 3", "new 7 2 3\n"),
    Edits(0, b"i 0 hello\n", EDITED),
    Edits(0, b"i 2 XY\n", EDITED),
    Edits(0, b"r\n", EDITED),
];

/// The numbers of member 0 while somebody lacks its three operations.
const WAITING: &str =
    "group 7\nme 0\nmembers 3\naccepted 3 0 0\ntotal 7\nruns 1\nheld 0\nunstable 3\nepochs 2\nformer 7\n";

/// The same once all have told that they have them.
const DROPPED: &str =
    "group 7\nme 0\nmembers 3\naccepted 3 0 0\ntotal 7\nruns 1\nheld 0\nunstable 0\nepochs 1\nformer 0\n";

/// The numbers of member 0 once member 2 has left, while member 1 hasn't told that it has the leave.
const LEFT: &str =
    "group 7\nme 0\nmembers 3\naccepted 3 0 1\ntotal 7\nruns 1\nheld 0\nunstable 1\nepochs 2\nformer 7\n";

/// The same once member 1 has told that.
const FREED: &str =
    "group 7\nme 0\nmembers 3\naccepted 3 0 1\ntotal 7\nruns 1\nheld 0\nunstable 0\nepochs 1\nformer 0\n";

const DROPPING_WAITS_FOR_ALL: &[Scene] = &[
    Writes(0, "stat", WAITING),
    Tells(0, 1, TOOK_THREE),
    Tells(0, 2, TOOK_THREE),
    Tells(1, 0, TOOK_NONE),
    Writes(0, "stat", WAITING),
    Tells(2, 0, TOOK_NONE),
    Writes(0, "stat", DROPPED),
];

const A_MEMBER_THAT_LEFT_HOLDS_NOTHING_UP: &[Scene] = &[
    Tells(0, 1, TOOK_THREE),
    Tells(1, 0, TOOK_NONE),
    Writes(2, "leave", EDITED),
    Tells(2, 0, APPLIED),
    Writes(0, "stat", LEFT),
    Tells(2, 1, APPLIED),
    Tells(1, 0, REPEATED),
    Writes(0, "stat", FREED),
    Writes(0, "text", "heXYllo"),
];

const TABLES: &[Table] = &[
    (BEGUN, DROPPING_WAITS_FOR_ALL),
    (BEGUN, A_MEMBER_THAT_LEFT_HOLDS_NOTHING_UP),
];

#[test]
fn three_members_drop_what_is_stable(rt: HostRuntime) -> Result<(), Fail> {
    play(rt.alloc(), TABLES)
}
