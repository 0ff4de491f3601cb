//! Undo and cursors: two members, of whom the first has entries and an anchor.

use super::pairs::{Members, Pair, Row, fault, text_of_settled};
use rls_anchor::{Anchor, AnchorError};
use rls_replica::{PastError, Replica};
use rls_undo::{Undo, UndoError, Undone};
use std::alloc::{AllocError, Global};
use std::test::Fail;
use test_steps::answers::edited;
use test_steps::rows::{all_go_within, change_of, number, word};
use test_steps::steps::{Change, edit_of};

/// The two members, and what the first one keeps.
#[derive(Drop)]
struct Undoers {
    members: Members,
    undo: Undo,
    anchor: Anchor,
}

fn text_of_undone(alloc: Global, answer: Result<Undone, UndoError>) -> Result<String, AllocError> {
    match answer {
        Ok(Undone { edits, chars }) => format!(in alloc; "{edits} {chars}"),
        Err(error) => format!(in alloc; "{error:?}"),
    }
}

fn text_of_place(alloc: Global, answer: Result<u64, PastError>) -> Result<String, AllocError> {
    format!(in alloc; "{answer:?}")
}

fn text_of_anchor(alloc: Global, anchor: &Anchor) -> Result<String, AllocError> {
    match anchor {
        Anchor::Beginning => String::from_str(alloc, "beginning"),
        Anchor::After { epoch, id } => {
            let (len, last) = (id.len(), id.last());
            format!(in alloc; "{epoch:?} {len} {last:?}")
        }
        Anchor::Before { epoch, id } => {
            let (len, last) = (id.len(), id.last());
            format!(in alloc; "before {epoch:?} {len} {last:?}")
        }
    }
}

/// Sets the anchor, if there is such a place.
fn set(
    alloc: Global,
    anchor: &mut Anchor,
    made: Result<Anchor, AnchorError>,
) -> Result<String, AllocError> {
    match made {
        Ok(there) => {
            *anchor = there;
            String::from_str(alloc, "set")
        }
        Err(AnchorError::Range { at, total }) => format!(in alloc; "{at} {total}"),
        Err(AnchorError::OutOfMemory) => Err(AllocError),
    }
}

/// An edit that leaves an entry.
fn edit(
    alloc: Global,
    undo: &mut Undo,
    replica: &mut Replica,
    change: Change,
) -> Result<String, AllocError> {
    let edit = edit_of(alloc, change)?;
    edited(alloc, undo.edit(replica, &edit))
}

fn skip(alloc: Global, undo: &mut Undo) -> Result<String, AllocError> {
    let some = undo.skip();
    format!(in alloc; "{some}")
}

fn keep(alloc: Global, undo: &mut Undo, n: u64) -> Result<String, AllocError> {
    undo.keep_last(n as usize);
    String::from_str(alloc, "kept")
}

impl Undoers {
    /// What is done with entries, or with the anchor: `edit` with an edit after it, which keeps an entry, `undo`, `skip` and
    /// `keep 2`, by which the last two are left; `settle entries` and `settle anchor`.
    fn enter(&mut self, alloc: Global, words: &'static str) -> Result<String, Fail> {
        let (verb, rest) = word(words);
        match verb {
            "edit" => {
                let change = change_of(rest)?;
                Ok(edit(alloc, &mut self.undo, &mut self.members.first, change)?)
            }
            "undo" => Ok(text_of_undone(alloc, self.undo.undo(&mut self.members.first))?),
            "skip" => Ok(skip(alloc, &mut self.undo)?),
            "keep" => Ok(keep(alloc, &mut self.undo, number(rest)?.0)?),
            "settle" => Ok(text_of_settled(alloc, self.settle(rest))?),
            _ => self.point(alloc, words),
        }
    }

    fn settle(&mut self, what: &str) -> Result<(), PastError> {
        match what {
            "entries" => self.undo.settle(&self.members.first),
            _ => self.anchor.settle(&self.members.first),
        }
    }

    /// What is done with the anchor alone: `set 3`, after the character before it, or `before 3`, before the character after it; `place`;
    /// and `show`, its epoch, the length of its identifier and the last of its tuples.
    fn point(&mut self, alloc: Global, words: &'static str) -> Result<String, Fail> {
        let (verb, rest) = word(words);
        let first = &self.members.first;
        match verb {
            "set" => Ok(set(alloc, &mut self.anchor, Anchor::at(first, number(rest)?.0))?),
            "before" => Ok(set(
                alloc,
                &mut self.anchor,
                Anchor::before(first, number(rest)?.0),
            )?),
            "place" => Ok(text_of_place(alloc, self.anchor.place(first))?),
            "show" => Ok(text_of_anchor(alloc, &self.anchor)?),
            _ => Err(Fail::new(words)),
        }
    }
}

impl Pair for Undoers {
    fn fresh(alloc: Global, members: u32) -> Result<Undoers, Fail> {
        Ok(Undoers {
            members: Members::fresh(alloc, members)?,
            undo: Undo::new(alloc),
            anchor: Anchor::Beginning,
        })
    }

    fn play(&mut self, alloc: Global, words: &'static str) -> Result<String, Fail> {
        match self.members.play(alloc, words)? {
            Some(answer) => Ok(answer),
            None => self.enter(alloc, words),
        }
    }

    fn first(&self) -> &Replica {
        &self.members.first
    }
}

/// An insertion is undone whole, around what another member wrote into it, also through that member's rename, and when all of it is
/// gone.
const INSERTIONS_ARE_UNDONE: &[Row] = &[
    "undo | Nothing | ",
    "skip | false | ",
    "pass insert 0 hello | 1 | hello",
    "edit insert 2 XY | 2 | heXYllo",
    "undo | 1 2 | hello",
    "edit insert 2 XY | 4 | heXYllo",
    "give | true | heXYllo",
    "other insert 3 z | 1 | heXYllo",
    "take | true | heXzYllo",
    "undo | 2 2 | hezllo",
    "edit insert 0 ab | 7 | abhezllo",
    "pass delete 0 2 | 8 | hezllo",
    "undo | 0 0 | hezllo",
    "edit insert 0 c | 9 | chezllo",
    "skip | true | chezllo",
    "edit insert 3 XY | 10 | cheXYzllo",
    "give | true | cheXYzllo",
    "other rename | 2 | cheXYzllo",
    "other insert 4 q | 3 | cheXYzllo",
    "take | true | cheXqYzllo",
    "undo | 2 2 | cheqzllo",
    "undo | Nothing | cheqzllo",
];

/// What was deleted comes back where it was, beside what another member wrote there, also through renames of both, settled or not.
const DELETIONS_ARE_UNDONE: &[Row] = &[
    "pass insert 0 hello | 1 | hello",
    "edit delete 1 3 | 2 | ho",
    "give | true | ho",
    "other insert 1 q | 1 | ho",
    "take | true | hqo",
    "undo | 1 3 | hqello",
    "edit delete 0 2 | 4 | ello",
    "pass rename | 5 | ello",
    "settle entries | Ok(()) | ello",
    "undo | 1 2 | hqello",
    "edit delete 4 2 | 7 | hqel",
    "give | true | hqel",
    "other rename | 2 | hqel",
    "other delete 0 1 | 3 | hqel",
    "take | true | qel",
    "undo | 1 2 | qello",
];

/// Several undos needn't give the texts before them, since what comes back has new identifiers: two backspaces, three deletions
/// forward, and typing with a backspace.
const UNDONE_NOT_ALL_THE_WAY: &[Row] = &[
    "pass insert 0 hello | 1 | hello",
    "edit delete 4 1 | 2 | hell",
    "edit delete 3 1 | 3 | hel",
    "undo | 1 1 | hell",
    "undo | 1 1 | helol",
    "pass delete 0 5 | 6 | ",
    "pass insert 0 hello | 7 | hello",
    "edit delete 1 1 | 8 | hllo",
    "edit delete 1 1 | 9 | hlo",
    "edit delete 1 1 | 10 | ho",
    "undo | 1 1 | hlo",
    "undo | 1 1 | hllo",
    "undo | 1 1 | hlleo",
    "pass delete 0 5 | 14 | ",
    "pass insert 0 hello | 15 | hello",
    "edit insert 5 abc | 16 | helloabc",
    "edit delete 7 1 | 17 | helloab",
    "undo | 1 1 | helloabc",
    "undo | 1 2 | helloc",
];

/// Entries whose identifiers differ in nothing but the last offset are undone one after another, across a deletion, when the first of
/// them are let go, and when they are settled after a rename, also one that takes their identifiers apart.
const ENTRIES_OF_ONE_BASE: &[Row] = &[
    "edit insert 0 ab | 1 | ab",
    "edit insert 2 c | 2 | abc",
    "edit delete 2 1 | 3 | ab",
    "edit insert 2 d | 4 | abd",
    "undo | 1 1 | ab",
    "undo | 1 1 | abc",
    "undo | 0 0 | abc",
    "undo | 1 2 | c",
    "undo | Nothing | c",
    "edit insert 1 de | 8 | cde",
    "edit insert 3 f | 9 | cdef",
    "edit insert 4 g | 10 | cdefg",
    "keep 2 | kept | cdefg",
    "edit delete 4 1 | 11 | cdef",
    "pass rename | 12 | cdef",
    "settle entries | Ok(()) | cdef",
    "undo | 1 1 | cdefg",
    "undo | 0 0 | cdefg",
    "undo | 1 1 | cdeg",
    "undo | Nothing | cdeg",
    "edit insert 4 XY | 15 | cdegXY",
    "give | true | cdegXY",
    "other insert 5 z | 1 | cdegXY",
    "take | true | cdegXzY",
    "pass rename | 16 | cdegXzY",
    "settle entries | Ok(()) | cdegXzY",
    "edit insert 7 ! | 17 | cdegXzY!",
    "skip | true | cdegXzY!",
    "undo | 2 2 | cdegz!",
    "undo | Nothing | cdegz!",
];

/// A cursor stays with its character, and at the character's place once that is gone.
const ANCHORS_STAY: &[Row] = &[
    "pass insert 0 hello | 1 | hello",
    "set 9 | 9 5 | hello",
    "place | Ok(0) | hello",
    "set 3 | set | hello",
    "place | Ok(3) | hello",
    "pass insert 1 XY | 2 | hXYello",
    "place | Ok(5) | hXYello",
    "pass delete 0 7 | 3 | ",
    "place | Ok(0) | ",
    "pass insert 0 ab | 4 | ab",
    "place | Ok(0) | ab",
];

/// Renames don't move a cursor; once settled it names the same character in the new epoch.
const ANCHORS_ARE_RENAMED: &[Row] = &[
    "pass insert 0 hello | 1 | hello",
    "show | beginning | hello",
    "set 3 | set | hello",
    "pass rename | 2 | hello",
    "place | Ok(3) | hello",
    "settle anchor | Ok(()) | hello",
    "place | Ok(3) | hello",
    "show | Of { replica: 0, seq: 2 } 1 Spot { pos: 2147483647, replica: 0, seq: 2, offset: 2 } | hello",
    "give | true | hello",
    "other insert 1 q | 1 | hello",
    "other rename | 2 | hello",
    "take | true | hqello",
    "place | Ok(4) | hqello",
    "pass insert 4 ! | 3 | hqel!lo",
    "place | Ok(4) | hqel!lo",
];

/// A cursor of the character after it stays before it, also when a line is opened above its line, and at the character's place once
/// that is gone. At the end of the text, where there is none, it is the other one.
const ANCHORS_STAY_BEFORE: &[Row] = &[
    "before 0 | set | ",
    "show | beginning | ",
    "pass insert 0 one/two | 1 | one/two",
    "place | Ok(0) | one/two",
    "before 8 | 8 7 | one/two",
    "before 7 | set | one/two",
    "pass insert 7 ! | 2 | one/two!",
    "place | Ok(7) | one/two!",
    "before 4 | set | one/two!",
    "place | Ok(4) | one/two!",
    "pass insert 4 new/ | 3 | one/new/two!",
    "place | Ok(8) | one/new/two!",
    "pass insert 9 X | 4 | one/new/tXwo!",
    "place | Ok(8) | one/new/tXwo!",
    "pass delete 7 3 | 5 | one/newwo!",
    "place | Ok(7) | one/newwo!",
    "pass insert 0 ab | 6 | abone/newwo!",
    "place | Ok(9) | abone/newwo!",
];

/// Renames don't move it either.
const ANCHORS_BEFORE_ARE_RENAMED: &[Row] = &[
    "pass insert 0 hello | 1 | hello",
    "before 3 | set | hello",
    "pass rename | 2 | hello",
    "place | Ok(3) | hello",
    "settle anchor | Ok(()) | hello",
    "place | Ok(3) | hello",
    "show | before Of { replica: 0, seq: 2 } 1 Spot { pos: 2147483647, replica: 0, seq: 2, offset: 3 } | hello",
    "give | true | hello",
    "other insert 3 q | 1 | hello",
    "other rename | 2 | hello",
    "take | true | helqlo",
    "place | Ok(4) | helqlo",
    "pass delete 4 1 | 3 | helqo",
    "place | Ok(4) | helqo",
    "pass delete 0 2 | 4 | lqo",
    "place | Ok(2) | lqo",
];

/// What names a dropped epoch says so; what was settled before is as good as ever.
const DROPPED_EPOCHS: &[Row] = &[
    "pass insert 0 hello | 1 | hello",
    "edit insert 2 XY | 2 | heXYllo",
    "set 3 | set | heXYllo",
    "pass rename | 3 | heXYllo",
    "drop | dropped | heXYllo",
    "undo | Dropped { epoch: Origin } | heXYllo",
    "settle entries | Err(Dropped { epoch: Origin }) | heXYllo",
    "place | Err(Dropped { epoch: Origin }) | heXYllo",
    "settle anchor | Err(Dropped { epoch: Origin }) | heXYllo",
    "skip | true | heXYllo",
    "edit delete 0 2 | 4 | XYllo",
    "set 1 | set | XYllo",
    "pass rename | 5 | XYllo",
    "settle entries | Ok(()) | XYllo",
    "settle anchor | Ok(()) | XYllo",
    "drop | dropped | XYllo",
    "place | Ok(1) | XYllo",
    "undo | 1 2 | heXYllo",
    "place | Ok(3) | heXYllo",
];

/// The tables, each with the size of the first member's group.
const TABLES: &[(u32, &[Row])] = &[
    (2, INSERTIONS_ARE_UNDONE),
    (2, DELETIONS_ARE_UNDONE),
    (2, UNDONE_NOT_ALL_THE_WAY),
    (2, ENTRIES_OF_ONE_BASE),
    (2, ANCHORS_STAY),
    (2, ANCHORS_ARE_RENAMED),
    (2, ANCHORS_STAY_BEFORE),
    (2, ANCHORS_BEFORE_ARE_RENAMED),
    (1, DROPPED_EPOCHS),
];

#[test]
fn moves_are_answered(rt: HostRuntime) -> Result<(), Fail> {
    all_go_within(TABLES, |(members, rows)| {
        fault::<Undoers>(rt.alloc(), *members, rows)
    })
}
