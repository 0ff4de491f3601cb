//! Undo by steps: two members, of whom the first keeps steps.

use super::pairs::{Members, Pair, Row, fault, text_of_settled};
use rls_replica::Replica;
use rls_steps::{StepError, Steps, Turn};
use std::alloc::{AllocError, Global};
use std::test::Fail;
use test_steps::rows::{all_go_within, change_of, number, word};
use test_steps::steps::{Change, edit_of};

/// The two members, and the steps of the first one.
#[derive(Drop)]
struct Steppers {
    members: Members,
    steps: Steps,
}

fn text_of_steps(alloc: Global, answer: Result<usize, StepError>) -> Result<String, AllocError> {
    match answer {
        Ok(steps) => format!(in alloc; "{steps}"),
        Err(error) => format!(in alloc; "{error:?}"),
    }
}

/// An edit in steps.
fn edit(
    alloc: Global,
    steps: &mut Steps,
    replica: &mut Replica,
    change: Change,
) -> Result<String, AllocError> {
    let edit = edit_of(alloc, change)?;
    match steps.edit(replica, &edit) {
        Ok(seq) => format!(in alloc; "{seq}"),
        Err(error) => format!(in alloc; "{error:?}"),
    }
}

/// What a member does with its steps: `edit` with an edit after it, `undo` and `redo`, and what changes no text.
pub(crate) fn step(
    alloc: Global,
    steps: &mut Steps,
    replica: &mut Replica,
    words: &'static str,
) -> Result<String, Fail> {
    let (verb, rest) = word(words);
    let mut changes = Vec::new(alloc);
    match verb {
        "edit" => Ok(edit(alloc, steps, replica, change_of(rest)?)?),
        "undo" => Ok(text_of_steps(alloc, steps.turn(replica, Turn::Back, &mut changes))?),
        "redo" => Ok(text_of_steps(alloc, steps.turn(replica, Turn::Again, &mut changes))?),
        _ => look(alloc, steps, replica, words),
    }
}

/// What changes no text: `close`; `count`, how many groups can be undone and redone; `named`, how many names are kept;
/// `forget 2 100`, by which only so many steps of so many characters are left; `keep 2 100`, the same once there are many names, of
/// which those go that aren't needed; and `settle`.
fn look(
    alloc: Global,
    steps: &mut Steps,
    replica: &Replica,
    words: &'static str,
) -> Result<String, Fail> {
    let (verb, rest) = word(words);
    match verb {
        "close" => {
            steps.close();
            Ok(String::from_str(alloc, "closed")?)
        }
        "count" => {
            let (undoable, redoable) = (steps.undoable(), steps.redoable());
            Ok(format!(in alloc; "{undoable} {redoable}")?)
        }
        "named" => Ok(format!(in alloc; "{}", steps.named())?),
        "forget" => {
            let (most, chars) = bounds_of(rest)?;
            steps.forget(most, chars);
            Ok(String::from_str(alloc, "forgotten")?)
        }
        "keep" => {
            let (most, chars) = bounds_of(rest)?;
            Ok(text_of_settled(alloc, steps.keep_within(replica, most, chars))?)
        }
        "settle" => Ok(text_of_settled(alloc, steps.settle(replica))?),
        _ => Err(Fail::new(words)),
    }
}

/// What is left of the steps and of their characters.
fn bounds_of(words: &'static str) -> Result<(usize, u64), Fail> {
    let (steps, rest) = number(words)?;
    let (chars, _) = number(rest)?;
    Ok((steps, chars))
}

impl Pair for Steppers {
    fn fresh(alloc: Global, members: u32) -> Result<Steppers, Fail> {
        Ok(Steppers {
            members: Members::fresh(alloc, members)?,
            steps: Steps::new(alloc),
        })
    }

    fn play(&mut self, alloc: Global, words: &'static str) -> Result<String, Fail> {
        match self.members.play(alloc, words)? {
            Some(answer) => Ok(answer),
            None => step(alloc, &mut self.steps, &mut self.members.first, words),
        }
    }

    fn first(&self) -> &Replica {
        &self.members.first
    }
}

/// All the way back and forth: two backspaces, three deletions forward, typing with a backspace, and what `hello`, `d 0 3` leaves.
const ALL_THE_WAY: &[Row] = &[
    "undo | Nothing | ",
    "redo | Nothing | ",
    "edit insert 0 hello | 1 | hello",
    "close | closed | hello",
    "edit delete 0 3 | 2 | lo",
    "undo | 1 | hello",
    "undo | 1 | ",
    "undo | Nothing | ",
    "redo | 1 | hello",
    "redo | 1 | lo",
    "redo | Nothing | lo",
    "undo | 1 | hello",
    "edit delete 4 1 | 8 | hell",
    "close | closed | hell",
    "edit delete 3 1 | 9 | hel",
    "count | 3 0 | hel",
    "undo | 1 | hell",
    "undo | 1 | hello",
    "undo | 1 | ",
    "count | 0 3 | ",
    "redo | 1 | hello",
    "redo | 1 | hell",
    "redo | 1 | hel",
    "undo | 1 | hell",
    "undo | 1 | hello",
    "edit delete 1 1 | 18 | hllo",
    "close | closed | hllo",
    "edit delete 1 1 | 19 | hlo",
    "close | closed | hlo",
    "edit delete 1 1 | 20 | ho",
    "undo | 1 | hlo",
    "undo | 1 | hllo",
    "undo | 1 | hello",
    "redo | 1 | hllo",
    "undo | 1 | hello",
    "edit insert 5 abc | 26 | helloabc",
    "close | closed | helloabc",
    "edit delete 7 1 | 27 | helloab",
    "undo | 1 | helloabc",
    "undo | 1 | hello",
];

/// A group goes and comes back as one.
const GROUPS: &[Row] = &[
    "edit insert 0 a | 1 | a",
    "edit insert 1 b | 2 | ab",
    "edit insert 2 c | 3 | abc",
    "edit delete 1 1 | 4 | ac",
    "count | 1 0 | ac",
    "close | closed | ac",
    "edit insert 2 de | 5 | acde",
    "edit insert 0 x | 6 | xacde",
    "count | 2 0 | xacde",
    "undo | 2 | ac",
    "undo | 4 | ",
    "count | 0 2 | ",
    "redo | 4 | ac",
    "redo | 2 | xacde",
    "undo | 2 | ac",
    "edit insert 1 - | 21 | a-c",
    "count | 2 0 | a-c",
    "redo | Nothing | a-c",
    "undo | 1 | ac",
    "undo | 4 | ",
];

/// What others wrote stays, also through renames of both, settled or not.
const BESIDE_OTHERS: &[Row] = &[
    "pass insert 0 hello | 1 | hello",
    "edit insert 2 XY | 2 | heXYllo",
    "give | true | heXYllo",
    "other insert 3 z | 1 | heXYllo",
    "take | true | heXzYllo",
    "undo | 1 | hezllo",
    "count | 0 1 | hezllo",
    "redo | 2 | heXzYllo",
    "pass rename | 7 | heXzYllo",
    "undo | 2 | hezllo",
    "redo | 2 | heXzYllo",
    "settle | Ok(()) | heXzYllo",
    "give | true | heXzYllo",
    "other rename | 2 | heXzYllo",
    "other insert 0 q | 3 | heXzYllo",
    "take | true | qheXzYllo",
    "undo | 2 | qhezllo",
];

/// A step goes and comes back many times, also with characters of others between, of which one goes meanwhile.
const AGAIN_AND_AGAIN: &[Row] = &[
    "edit insert 0 ad | 1 | ad",
    "close | closed | ad",
    "edit insert 1 bc | 2 | abcd",
    "undo | 1 | ad",
    "redo | 1 | abcd",
    "undo | 1 | ad",
    "redo | 1 | abcd",
    "undo | 1 | ad",
    "redo | 1 | abcd",
    "give | true | abcd",
    "other insert 2 x | 1 | abcd",
    "other insert 4 y | 2 | abcd",
    "take | true | abxcyd",
    "undo | 1 | axyd",
    "redo | 2 | abxcyd",
    "undo | 2 | axyd",
    "redo | 2 | abxcyd",
    "other delete 2 1 | 3 | abxcyd",
    "take | true | abcyd",
    "undo | 2 | ayd",
    "redo | 2 | abcyd",
    "undo | 2 | ayd",
    "redo | 2 | abcyd",
];

/// A dropped epoch is told; what was settled before is as good as ever.
const DROPPED: &[Row] = &[
    "edit insert 0 hello | 1 | hello",
    "pass rename | 2 | hello",
    "drop | dropped | hello",
    "undo | Dropped { epoch: Origin } | hello",
    "edit insert 0 a | Dropped { epoch: Origin } | hello",
    "settle | Err(Dropped { epoch: Origin }) | hello",
];

const SETTLED: &[Row] = &[
    "edit insert 0 hello | 1 | hello",
    "close | closed | hello",
    "edit delete 0 2 | 2 | llo",
    "pass rename | 3 | llo",
    "settle | Ok(()) | llo",
    "drop | dropped | llo",
    "undo | 1 | hello",
    "undo | 1 | ",
    "redo | 1 | hello",
    "edit rename | 7 | hello",
    "undo | 1 | ",
    "edit leave | 9 | ",
    "redo | Edit(Left) | ",
    "count | 0 2 | ",
];

/// The oldest groups are forgotten whole, by the number of steps and by that of characters; the others go as before.
const FORGOTTEN: &[Row] = &[
    "edit insert 0 ab | 1 | ab",
    "close | closed | ab",
    "edit insert 2 cd | 2 | abcd",
    "edit delete 0 1 | 3 | bcd",
    "close | closed | bcd",
    "edit insert 3 e | 4 | bcde",
    "count | 3 0 | bcde",
    "named | 5 | bcde",
    "forget 4 6 | forgotten | bcde",
    "count | 3 0 | bcde",
    "forget 2 6 | forgotten | bcde",
    "count | 1 0 | bcde",
    "undo | 1 | bcd",
    "undo | Nothing | bcd",
    "forget 0 0 | forgotten | bcd",
    "redo | 1 | bcde",
    "close | closed | bcde",
    "edit insert 0 xyz | 7 | xyzbcde",
    "close | closed | xyzbcde",
    "edit delete 5 1 | 8 | xyzbce",
    "forget 9 4 | forgotten | xyzbce",
    "count | 2 0 | xyzbce",
    "undo | 1 | xyzbcde",
    "undo | 1 | bcde",
    "undo | Nothing | bcde",
];

/// Names go that no step needs: older ones of labels that came back, and those of groups that are forgotten.
const SWEPT: &[Row] = &[
    "edit insert 0 abcd | 1 | abcd",
    "keep 9 99 | Ok(()) | abcd",
    "named | 4 | abcd",
    "undo | 1 | ",
    "redo | 1 | abcd",
    "named | 8 | abcd",
    "keep 9 99 | Ok(()) | abcd",
    "named | 8 | abcd",
    "undo | 1 | ",
    "redo | 1 | abcd",
    "named | 12 | abcd",
    "keep 9 99 | Ok(()) | abcd",
    "named | 4 | abcd",
    "undo | 1 | ",
    "redo | 1 | abcd",
    "edit insert 4 ef | 8 | abcdef",
    "named | 10 | abcdef",
    "keep 1 99 | Ok(()) | abcdef",
    "named | 2 | abcdef",
    "count | 1 0 | abcdef",
    "undo | 1 | abcd",
    "named | 3 | abcd",
    "undo | Nothing | abcd",
    "redo | 1 | abcdef",
    "pass rename | 11 | abcdef",
    "undo | 1 | abcd",
];

/// A step of which others took all leaves an empty one, so each redo matches one undo.
const EMPTIED: &[Row] = &[
    "edit insert 0 a | 1 | a",
    "close | closed | a",
    "edit insert 1 b | 2 | ab",
    "undo | 1 | a",
    "give | true | a",
    "other delete 0 1 | 1 | a",
    "take | true | ",
    "undo | 1 | ",
    "count | 0 2 | ",
    "redo | 1 | ",
    "count | 1 1 | ",
    "redo | 1 | b",
    "undo | 1 | ",
    "undo | 1 | ",
    "undo | Nothing | ",
    "count | 0 2 | ",
];

/// An open group that is too large by itself is forgotten whole, and so is what comes to it until it is closed: by steps, and by characters.
const OVERFULL: &[Row] = &[
    "edit insert 0 ab | 1 | ab",
    "close | closed | ab",
    "edit insert 2 c | 2 | abc",
    "edit insert 3 d | 3 | abcd",
    "edit insert 4 e | 4 | abcde",
    "keep 2 99 | Ok(()) | abcde",
    "count | 0 0 | abcde",
    "named | 0 | abcde",
    "edit insert 5 f | 5 | abcdef",
    "count | 1 0 | abcdef",
    "keep 2 99 | Ok(()) | abcdef",
    "count | 0 0 | abcdef",
    "named | 1 | abcdef",
    "undo | Nothing | abcdef",
    "edit insert 6 gh | 6 | abcdefgh",
    "keep 2 99 | Ok(()) | abcdefgh",
    "count | 0 0 | abcdefgh",
    "named | 0 | abcdefgh",
    "close | closed | abcdefgh",
    "edit insert 8 i | 7 | abcdefghi",
    "keep 2 99 | Ok(()) | abcdefghi",
    "count | 1 0 | abcdefghi",
    "undo | 1 | abcdefgh",
    "undo | Nothing | abcdefgh",
    "edit insert 8 jk | 9 | abcdefghjk",
    "edit delete 0 2 | 10 | cdefghjk",
    "forget 9 3 | forgotten | cdefghjk",
    "count | 0 0 | cdefghjk",
    "edit insert 0 l | 11 | lcdefghjk",
    "forget 9 9 | forgotten | lcdefghjk",
    "undo | Nothing | lcdefghjk",
];

/// A step of which others deleted all is taken back with no edit; the one before it is refused, and stays.
const REFUSED: &[Row] = &[
    "edit insert 0 ab | 1 | ab",
    "edit insert 2 c | 2 | abc",
    "give | true | abc",
    "other delete 2 1 | 1 | abc",
    "take | true | ab",
    "edit leave | 3 | ab",
    "undo | Edit(Left) | ab",
    "count | 1 1 | ab",
    "undo | Edit(Left) | ab",
    "redo | 1 | ab",
    "count | 1 0 | ab",
];

/// The tables, each with the size of the first member's group.
const TABLES: &[(u32, &[Row])] = &[
    (2, ALL_THE_WAY),
    (2, GROUPS),
    (2, BESIDE_OTHERS),
    (2, AGAIN_AND_AGAIN),
    (1, DROPPED),
    (1, SETTLED),
    (2, FORGOTTEN),
    (2, SWEPT),
    (2, EMPTIED),
    (2, OVERFULL),
    (2, REFUSED),
];

#[test]
fn steps_are_answered(rt: HostRuntime) -> Result<(), Fail> {
    all_go_within(TABLES, |(members, rows)| {
        fault::<Steppers>(rt.alloc(), *members, rows)
    })
}
