//! Lines `b` at grapheme clusters that are longer than what is first read of a text.

use crate::members::{Step, fault_of_fresh};
use std::alloc::{AllocError, Global};
use std::test::Fail;

const NEW: Step<'static> = ("new 7 0 1", b"", 0, "new 7 0 1\n", "");

const EDITED: &str = "edits 2 released 0 refused 0\n";

/// A text: a front, then a piece this many times, then a back.
type Pieces = (&'static str, &'static str, u32, &'static str);

/// What comes of a line `b`.
#[derive(Clone, Copy)]
enum End {
    /// No cluster ends there.
    Refused,
    /// This text is left.
    Leaves(&'static str),
    /// This text of pieces is left.
    Keeps(Pieces),
}

use End::{Keeps, Leaves, Refused};
use test_steps::rows::all_go_within;

/// The text that is put in, where a cluster is to end in it, and what comes of this.
type Case = (Pieces, &'static str, End);

const ACCENT: &str = "\u{301}";

/// Half of a flag.
const FLAG: &str = "\u{1F1EB}";

/// A joiner and a woman.
const WOMEN: &str = "\u{200D}\u{1F469}";

/// A virama and a consonant.
const VIRAMA: &str = "\u{94D}\u{915}";

/// A leading consonant.
const LEADING: &str = "\u{1112}";

const CASES: &[Case] = &[
    // A letter with sixty accents: in the text, at both its ends, and within.
    (("xe", ACCENT, 60, "y"), "62", Leaves("xy")),
    (("xe", ACCENT, 60, "y"), "63", Keeps(("xe", ACCENT, 60, ""))),
    (("xe", ACCENT, 60, "y"), "1", Keeps(("e", ACCENT, 60, "y"))),
    (("xe", ACCENT, 60, "y"), "61", Refused),
    (("xe", ACCENT, 60, "y"), "9", Refused),
    (("xe", ACCENT, 60, "y"), "2", Refused),
    (("xe", ACCENT, 60, ""), "62", Leaves("x")),
    (("e", ACCENT, 60, "y"), "61", Leaves("y")),
    (("e", ACCENT, 60, "y"), "60", Refused),
    // Accents alone.
    (("", ACCENT, 20, ""), "20", Leaves("")),
    (("", ACCENT, 20, ""), "8", Refused),
    // Rows of halves of flags: two make a flag, counted from the row's start.
    (("x", FLAG, 70, "y"), "71", Keeps(("x", FLAG, 68, "y"))),
    (("x", FLAG, 70, "y"), "70", Refused),
    (("x", FLAG, 71, "y"), "72", Keeps(("x", FLAG, 70, "y"))),
    (("x", FLAG, 71, "y"), "71", Keeps(("x", FLAG, 69, "y"))),
    (("x", FLAG, 71, "y"), "70", Refused),
    (("", FLAG, 70, ""), "70", Keeps(("", FLAG, 68, ""))),
    (("", FLAG, 70, ""), "69", Refused),
    (("", FLAG, 71, ""), "71", Keeps(("", FLAG, 70, ""))),
    // Women joined by joiners.
    (("x\u{1F469}", WOMEN, 10, "y"), "22", Leaves("xy")),
    (("x\u{1F469}", WOMEN, 10, "y"), "21", Refused),
    (("x\u{1F469}", WOMEN, 10, "y"), "20", Refused),
    (("\u{1F469}", WOMEN, 10, ""), "21", Leaves("")),
    // A joiner joins nothing to a letter.
    (("x", WOMEN, 10, "y"), "21", Leaves("x\u{200D}y")),
    // Consonants with viramas between.
    (("x\u{915}", VIRAMA, 10, "y"), "22", Leaves("xy")),
    (("x\u{915}", VIRAMA, 10, "y"), "21", Refused),
    (("x\u{915}", VIRAMA, 10, "y"), "20", Refused),
    // Leading consonants of Hangul and a vowel.
    (("x", LEADING, 20, "\u{1161}y"), "22", Leaves("xy")),
    (("x", LEADING, 20, "\u{1161}y"), "21", Refused),
    // Letters alone.
    (("", "a", 20, ""), "20", Keeps(("", "a", 19, ""))),
    (("", "a", 20, "e\u{301}"), "22", Keeps(("", "a", 20, ""))),
];

/// A line end of two characters, which a script escapes.
const LINE_ENDS: &[Step<'static>] = &[
    NEW,
    (
        "edit",
        b"i 0 aaaaaaaaaaaaaaaaaaaa\\r\\nz\nb 21\n",
        6,
        "",
        "line 2: not a boundary 21\n",
    ),
    (
        "edit",
        b"i 0 aaaaaaaaaaaaaaaaaaaa\\r\\nz\nb 22\n",
        0,
        EDITED,
        "",
    ),
    ("text", b"", 0, "aaaaaaaaaaaaaaaaaaaaz", ""),
];

fn put(text: &mut String, pieces: &Pieces) -> Result<(), AllocError> {
    let (front, piece, count, back) = pieces;
    text.push_str(front)?;
    for _ in 0..*count {
        text.push_str(piece)?;
    }
    text.push_str(back)
}

fn text_of(alloc: Global, pieces: &Pieces) -> Result<String, AllocError> {
    let mut text = String::new(alloc);
    put(&mut text, pieces)?;
    Ok(text)
}

/// The script that puts the text in, and has a line `b`.
fn script_of(alloc: Global, pieces: &Pieces, at: &str) -> Result<String, AllocError> {
    let text = text_of(alloc, pieces)?;
    format!(in alloc; "i 0 {text}\nb {at}")
}

/// The first step that goes otherwise than it has to, of a member whose script gets this status, and whose text is this then.
fn fault_after<'x>(
    alloc: Global,
    script: &'x str,
    status: u8,
    report: &'x str,
    refusal: &'x str,
    left: &'x str,
) -> Result<Option<usize>, Fail> {
    let steps: &[Step<'_>] = &[
        NEW,
        ("edit", script.as_bytes(), status, report, refusal),
        ("text", b"", 0, left, ""),
    ];
    fault_of_fresh(alloc, steps)
}

/// The same of a script that is refused.
fn fault_refused(alloc: Global, script: &str, at: &str) -> Result<Option<usize>, Fail> {
    let refusal = format!(in alloc; "line 2: not a boundary {at}\n")?;
    fault_after(alloc, script, 6, "", &refusal, "")
}

/// The same of a script that leaves this text of pieces.
fn fault_kept(alloc: Global, script: &str, pieces: &Pieces) -> Result<Option<usize>, Fail> {
    let left = text_of(alloc, pieces)?;
    fault_after(alloc, script, 0, EDITED, "", &left)
}

fn fault_of(alloc: Global, case: &Case) -> Result<Option<usize>, Fail> {
    let (pieces, at, end) = case;
    let script = script_of(alloc, pieces, at)?;
    match end {
        Refused => fault_refused(alloc, &script, at),
        Leaves(left) => fault_after(alloc, &script, 0, EDITED, "", left),
        Keeps(left) => fault_kept(alloc, &script, left),
    }
}

#[test]
fn long_clusters(rt: HostRuntime) -> Result<(), Fail> {
    all_go_within(CASES, |case| fault_of(rt.alloc(), case))
}

#[test]
fn line_ends(rt: HostRuntime) -> Result<(), Fail> {
    assert_eq!(rt; fault_of_fresh(rt.alloc(), LINE_ENDS)?, None);
    Ok(())
}
