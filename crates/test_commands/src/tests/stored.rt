//! The files that commands read and store, byte by byte, in all forms.

use super::files::{
    ALONE, CUT, FRESH_2, FRESH_3, FRESH_4, FRESH_SECOND, MARKED, SPENT_2, SPENT_4, TYPED_2,
    TYPED_3, TYPED_4, USED_MARK, keeps, member_with,
};
use crate::members::{EDITED, Step};
use std::alloc::Global;
use std::test::Fail;
use test_steps::bytes::{HELLO_FILE, bytes};
use test_steps::rows::all_go;

/// A member's file, if there is one, what the member does, and its file afterwards.
type Row = (
    Option<&'static str>,
    &'static [Step<'static>],
    Option<&'static str>,
);

const SHOWS_HELLO: &[Step<'static>] = &[("text", b"", 0, "hello", "")];

const SHOWS_NOTHING: &[Step<'static>] = &[("text", b"", 0, "", "")];

/// A script of no edit stores the file in the newest form.
const STORES_HELLO: &[Step<'static>] = &[
    ("text", b"", 0, "hello", ""),
    ("edit", b"", 0, "edits 0 released 0 refused 0\n", ""),
    ("text", b"", 0, "hello", ""),
];

const STORES_NOTHING: &[Step<'static>] = &[
    ("text", b"", 0, "", ""),
    ("edit", b"", 0, "edits 0 released 0 refused 0\n", ""),
    ("text", b"", 0, "", ""),
];

/// The numbers of the member that typed `hello`.
const NUMBERS: &[Step<'static>] = &[(
    "stat",
    b"",
    0,
    "group 7\nme 0\nmembers 2\naccepted 1 0\ntotal 5\nruns 1\nheld 0\nunstable 1\nepochs 1\nformer 0\n",
    "",
)];

const NO_NUMBERS: &[Step<'static>] = &[("edit", b"i 0 a\n", 6, "", "line 1: numbers spent\n")];

const USAGE: &str =
    "usage: new GROUP ME MEMBERS | edit | text | ids | stat | send TO | take | leave | trial SEED STEPS\n";

const MAKES_FIRST: &[Step<'static>] = &[("new 7 0 2", b"", 0, "new 7 0 2\n", "")];

const MAKES_SECOND: &[Step<'static>] = &[("new 7 1 2", b"", 0, "new 7 1 2\n", "")];

const TYPES_HELLO: &[Step<'static>] = &[("edit", b"i 0 hello\n", 0, EDITED, "")];

const ROWS: &[Row] = &[
    // Nothing is stored by a text that is shown, or can't be.
    (None, &[("text", b"", 2, "", "no replica\n")], None),
    (
        Some(""),
        &[("text", b"", 3, "", "damaged at 0\n")],
        Some(""),
    ),
    (
        Some(CUT),
        &[("text", b"", 3, "", "damaged at 65\n")],
        Some(CUT),
    ),
    (
        Some(USED_MARK),
        &[("text", b"", 3, "", "damaged at 71\n")],
        Some(USED_MARK),
    ),
    (
        Some(HELLO_FILE),
        &[("txt", b"", 1, "", USAGE)],
        Some(HELLO_FILE),
    ),
    (
        Some(MARKED),
        &[("text", b"", 0, "hello!", "")],
        Some(MARKED),
    ),
    (Some(HELLO_FILE), SHOWS_HELLO, Some(HELLO_FILE)),
    (Some(FRESH_2), SHOWS_NOTHING, Some(FRESH_2)),
    (Some(FRESH_3), SHOWS_NOTHING, Some(FRESH_3)),
    (Some(TYPED_2), SHOWS_HELLO, Some(TYPED_2)),
    (Some(TYPED_3), SHOWS_HELLO, Some(TYPED_3)),
    (Some(TYPED_4), SHOWS_HELLO, Some(TYPED_4)),
    // Nor by numbers that are shown, or spent.
    (Some(TYPED_2), NUMBERS, Some(TYPED_2)),
    (Some(TYPED_3), NUMBERS, Some(TYPED_3)),
    (Some(TYPED_4), NUMBERS, Some(TYPED_4)),
    (Some(SPENT_2), NO_NUMBERS, Some(SPENT_2)),
    (Some(SPENT_4), NO_NUMBERS, Some(SPENT_4)),
    // Commands store the newest form, whatever form they read.
    (Some(FRESH_4), TYPES_HELLO, Some(TYPED_4)),
    (Some(HELLO_FILE), STORES_HELLO, Some(ALONE)),
    (Some(FRESH_2), STORES_NOTHING, Some(FRESH_4)),
    (Some(FRESH_3), STORES_NOTHING, Some(FRESH_4)),
    (Some(TYPED_2), STORES_HELLO, Some(TYPED_4)),
    (Some(TYPED_3), STORES_HELLO, Some(TYPED_4)),
    (Some(TYPED_4), STORES_HELLO, Some(TYPED_4)),
    (None, MAKES_FIRST, Some(FRESH_4)),
    (None, MAKES_SECOND, Some(FRESH_SECOND)),
];

/// Whether a member does this, and has the file afterwards.
fn goes(alloc: Global, row: &Row) -> Result<bool, Fail> {
    let (before, steps, after) = row;
    let mut member = member_with(alloc, *before)?;
    let fault = member.fault_among(alloc, steps)?;
    Ok(fault.is_none() && keeps(alloc, &member, *after)?)
}

/// The first row that goes otherwise than it has to. (No closure takes a row: its type has two lifetimes.)
fn first_fault(alloc: Global) -> Result<Option<usize>, Fail> {
    for (i, row) in ROWS.iter().enumerate() {
        if !goes(alloc, row)? {
            return Ok(Some(i));
        }
    }
    Ok(None)
}

#[test]
fn files_are_read_and_stored(rt: HostRuntime) -> Result<(), Fail> {
    assert_eq!(rt; first_fault(rt.alloc())?, None);
    Ok(())
}

/// How many bytes a file has.
const LENGTHS: &[(&str, usize)] = &[
    (HELLO_FILE, 74),
    (MARKED, 115),
    (FRESH_2, 62),
    (FRESH_3, 62),
    (FRESH_4, 66),
    (TYPED_2, 152),
    (TYPED_3, 156),
    (TYPED_4, 160),
    (ALONE, 96),
    (SPENT_2, 46),
    (SPENT_4, 50),
];

fn has_length(alloc: Global, (digits, length): &(&str, usize)) -> Result<bool, Fail> {
    Ok(bytes(alloc, digits)?.len() == *length)
}

#[test]
fn files_have_their_lengths(rt: HostRuntime) -> Result<(), Fail> {
    all_go(LENGTHS, |row| has_length(rt.alloc(), row))
}
