//! Commands of one member, one after another.

use super::scenes::Scene::{Does, Edits, Fails, Shows, Writes};
use super::scenes::{Scene, Table, fault_after, play};
use crate::members::EDITED;
use std::alloc::Global;
use std::test::Fail;
use test_steps::rows::{all_go_within, cut};

/// A fresh member 0 of 2 in group 7 inserts `hello`.
const BEGUN: &[Scene] = &[
    Writes(0, "new 7 0 2", "new 7 0 2\n"),
    Edits(0, b"i 0 hello\n", EDITED),
];

/// A sole member.
const SOLE: &[Scene] = &[Writes(0, "new 7 0 1", "new 7 0 1\n")];

/// One run of `hello`.
const ALONE: &[Scene] = &[Shows(
    0,
    "hello",
    "{\"epoch\":null,\"runs\":[{\"first\":[[2147483647,0,1,0]],\"length\":5}]}\n",
)];

/// A script, its report, and the text and the listing then, with ` | ` between them.
type Row = &'static str;

/// What scripts make of `hello`.
const SCRIPTS: &[&[Row]] = &[
    // An insertion after the last character.
    &[
        "i 5 !\n | edits 1 released 0 refused 0\n | hello! | {\"epoch\":null,\"runs\":[{\"first\":[[2147483647,0,1,0]],\"length\":6}]}\n",
    ],
    // One within the text.
    &[
        "i 2 XY\n | edits 1 released 0 refused 0\n | heXYllo | {\"epoch\":null,\"runs\":[{\"first\":[[2147483647,0,1,0]],\"length\":2},{\"first\":[[2147483647,0,1,1],[2147483647,0,2,0]],\"length\":2},{\"first\":[[2147483647,0,1,2]],\"length\":3}]}\n",
    ],
    // One before the first character.
    &[
        "i 0 A\n | edits 1 released 0 refused 0\n | Ahello | {\"epoch\":null,\"runs\":[{\"first\":[[2147483647,0,1,-1]],\"length\":6}]}\n",
    ],
    // Insertions where the offsets beside the text were used before: after its last character, and before its first.
    &[
        "d 4 1\ni 4 X\n | edits 2 released 0 refused 0\n | hellX | {\"epoch\":null,\"runs\":[{\"first\":[[2147483647,0,1,0]],\"length\":4},{\"first\":[[3221225471,0,3,0]],\"length\":1}]}\n",
    ],
    &[
        "i 0 A\nd 0 1\ni 0 B\n | edits 3 released 0 refused 0\n | Bhello | {\"epoch\":null,\"runs\":[{\"first\":[[1073741823,0,4,0]],\"length\":1},{\"first\":[[2147483647,0,1,0]],\"length\":5}]}\n",
    ],
    // A rename, and insertions at both ends after it.
    &[
        "i 2 XY\nr\n | edits 2 released 0 refused 0\n | heXYllo | {\"epoch\":[0,3],\"runs\":[{\"first\":[[2147483647,0,3,0]],\"length\":7}]}\n",
        "i 7 !\n | edits 1 released 0 refused 0\n | heXYllo! | {\"epoch\":[0,3],\"runs\":[{\"first\":[[2147483647,0,3,0]],\"length\":8}]}\n",
        "i 0 AB\n | edits 1 released 0 refused 0\n | ABheXYllo! | {\"epoch\":[0,3],\"runs\":[{\"first\":[[2147483647,0,3,-2]],\"length\":10}]}\n",
    ],
];

/// Performs the scripts of the rows over a fresh `hello`, and answers the first scene that goes otherwise than it has to.
fn fault(alloc: Global, rows: &[Row]) -> Result<Option<usize>, Fail> {
    let mut scenes = Vec::new(alloc);
    for row in rows {
        let (script, rest) = cut(*row)?;
        let (report, rest) = cut(rest)?;
        let (text, ids) = cut(rest)?;
        scenes.push(Edits(0, script.as_bytes(), report))?;
        scenes.push(Shows(0, text, ids))?;
    }
    fault_after(alloc, BEGUN, &scenes)
}

#[test]
fn scripts_change_the_text(rt: HostRuntime) -> Result<(), Fail> {
    all_go_within(SCRIPTS, |rows| fault(rt.alloc(), rows))
}

/// Deletions, and edits that a text of none refuses.
const DELETIONS: &[Scene] = &[
    Edits(0, b"d 1 3\n", EDITED),
    Shows(
        0,
        "ho",
        "{\"epoch\":null,\"runs\":[{\"first\":[[2147483647,0,1,0]],\"length\":1},{\"first\":[[2147483647,0,1,4]],\"length\":1}]}\n",
    ),
    Edits(0, b"d 0 2\n", EDITED),
    Shows(0, "", "{\"epoch\":null,\"runs\":[]}\n"),
    Fails(0, b"r\n", 6, "line 1: empty document\n"),
    Fails(0, b"d 9 0\n", 6, "line 1: empty edit\n"),
];

/// Scripts that are refused leave the text as it is.
const REFUSED_SCRIPTS: &[Scene] = &[
    Fails(0, b"i 0 A\ni 9 x\n", 6, "line 2: range 9 6\n"),
    Fails(0, b"i 0 A\nq\n", 4, "bad line 2\n"),
    Fails(0, b"i 01 A\n", 4, "bad line 1\n"),
    Fails(0, b"b 0\n", 6, "line 1: range 0 5\n"),
    Fails(0, b"b 6\n", 6, "line 1: range 6 5\n"),
    Edits(0, b"", "edits 0 released 0 refused 0\n"),
    Writes(0, "text", "hello"),
];

/// A member that leaves edits no more.
const LEAVES: &[Scene] = &[
    Writes(0, "leave", EDITED),
    Does(0, ("leave", b"", 6, "", "line 1: left\n")),
    Fails(0, b"i 0 a\n", 6, "line 1: left\n"),
    Writes(0, "text", "hello"),
];

/// A flag is one cluster of two characters, of four bytes each.
const FLAGS: &[Scene] = &[
    Edits(0, b"i 0 a\xf0\x9f\x87\xab\xf0\x9f\x87\xb7\n", EDITED),
    Fails(0, b"b 2\n", 6, "line 1: not a boundary 2\n"),
    Edits(0, b"b 3\n", EDITED),
    Writes(0, "text", "a"),
];

/// So is a letter with an accent.
const ACCENTS: &[Scene] = &[
    Edits(0, b"i 0 e\xcc\x81", EDITED),
    Fails(0, b"b 0\n", 6, "line 1: range 0 2\n"),
    Edits(0, b"b 2\n", EDITED),
    Writes(0, "text", ""),
];

const USAGE: &str =
    "usage: new GROUP ME MEMBERS | edit | text | ids | stat | send TO | take | leave | trial SEED STEPS\n";

/// What there is before there is a replica, and once it is made.
const NEW_REPLICAS: &[Scene] = &[
    Does(0, ("text", b"", 2, "", "no replica\n")),
    Does(0, ("edit", b"i 0 a", 2, "", "no replica\n")),
    Does(0, ("new 7 2 2", b"", 4, "", "bad me 2\n")),
    Does(0, ("new 7 0 65", b"", 4, "", "bad members 65\n")),
    Does(0, ("new 7 9 0", b"", 4, "", "bad members 0\n")),
    Does(0, ("text 1", b"", 1, "", USAGE)),
    Does(0, ("new 7 0", b"", 1, "", USAGE)),
    Does(0, ("new 07 0 2", b"", 1, "", USAGE)),
    Does(0, ("new 18446744073709551616 0 2", b"", 1, "", USAGE)),
    Writes(0, "new 7 0 2", "new 7 0 2\n"),
    Does(0, ("new 7 0 2", b"", 2, "", "replica exists\n")),
    Writes(0, "text", ""),
    Writes(
        0,
        "stat",
        "group 7\nme 0\nmembers 2\naccepted 0 0\ntotal 0\nruns 0\nheld 0\nunstable 0\nepochs 1\nformer 0\n",
    ),
];

const TABLES: &[Table] = &[
    (BEGUN, ALONE),
    (BEGUN, DELETIONS),
    (BEGUN, REFUSED_SCRIPTS),
    (BEGUN, LEAVES),
    (SOLE, FLAGS),
    (SOLE, ACCENTS),
    (&[], NEW_REPLICAS),
];

#[test]
fn a_member_edits(rt: HostRuntime) -> Result<(), Fail> {
    play(rt.alloc(), TABLES)
}
