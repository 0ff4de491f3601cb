//! What changes in the text: two members who take each other's messages, of whom the first has entries of undo and steps besides.

use super::pairs::{Members, shows};
use rls_changes::{Change, push_own, take, take_bytes, undo};
use rls_ops::{Message, Ops};
use rls_replica::Replica;
use rls_steps::{Steps, Turn};
use rls_sync::message_bytes;
use rls_undo::Undo;
use std::alloc::{AllocError, Global};
use std::fmt::Debug;
use std::test::Fail;
use test_steps::rows::{all_go_within, change_of, cut, first_fault, word};
use test_steps::steps::{edit_of, letter};

/// A move, what it changes as lines with `; ` after each and its error, and the text of who did it, with ` | ` between them.
type Row = &'static str;

/// The two members, and what the first one keeps.
#[derive(Drop)]
struct Changers {
    members: Members,
    entries: Undo,
    steps: Steps,
}

/// One change as a line.
fn line_of(alloc: Global, change: &Change) -> Result<String, AllocError> {
    match change {
        Change::Insert { at, text } => {
            let text = text.to_utf8()?;
            format!(in alloc; "i {at} {text}; ")
        }
        Change::Delete { at, count } => format!(in alloc; "d {at} {count}; "),
    }
}

fn lines_of(alloc: Global, changes: &[Change]) -> Result<String, AllocError> {
    let mut lines = String::new(alloc);
    for change in changes {
        let line = line_of(alloc, change)?;
        lines.push_str(&line)?;
    }
    Ok(lines)
}

/// The lines, and the error after them if there is one.
fn lines_and<T: Drop, E: Debug + Drop>(
    alloc: Global,
    changes: &[Change],
    answer: Result<T, E>,
) -> Result<String, AllocError> {
    let mut lines = lines_of(alloc, changes)?;
    if let Err(error) = answer {
        let error = format!(in alloc; "{error:?}")?;
        lines.push_str(&error)?;
    }
    Ok(lines)
}

/// Takes the message, and answers what that changes.
fn takes(alloc: Global, replica: &mut Replica, message: Message) -> Result<String, Fail> {
    if message.from >= message.members || message.vector.len() != message.members as usize {
        return Err(Fail::new("sender or vector"));
    }
    let mut changes = Vec::new(alloc);
    take(replica, message, &mut changes)?;
    Ok(lines_of(alloc, &changes)?)
}

/// The same of a message as bytes, or why they are none.
fn takes_bytes(alloc: Global, replica: &mut Replica, bytes: &[u8]) -> Result<String, AllocError> {
    let mut changes = Vec::new(alloc);
    let answer = take_bytes(alloc, replica, bytes, &mut changes);
    lines_and(alloc, &changes, answer)
}

fn gives(alloc: Global, from: &Replica, to: &mut Replica) -> Result<String, Fail> {
    let bytes = message_bytes(alloc, from, to.me())?;
    Ok(takes_bytes(alloc, to, &bytes)?)
}

/// The message without its first operation, so that those after it wait.
fn late(alloc: Global, from: &Replica, to: &Replica) -> Result<Message, Fail> {
    let Message {
        group,
        from,
        members,
        vector,
        ops,
    } = letter(from, to)?;
    let ops = later(alloc, ops)?;
    Ok(Message {
        group,
        from,
        members,
        vector,
        ops,
    })
}

/// All but the first of them.
fn later(alloc: Global, ops: Ops) -> Result<Ops, AllocError> {
    let mut rest = ops.into_remaining();
    rest.pop_first();
    let mut later = Ops::new(alloc);
    while let Some(op) = rest.pop_first() {
        later.push(op)?;
    }
    Ok(later)
}

fn edits(
    alloc: Global,
    replica: &mut Replica,
    change: test_steps::steps::Change,
) -> Result<String, Fail> {
    let edit = edit_of(alloc, change)?;
    replica.edit(&edit)?;
    Ok(String::new(alloc))
}

/// An edit that leaves an entry, and its own change.
fn enters(
    alloc: Global,
    entries: &mut Undo,
    replica: &mut Replica,
    change: test_steps::steps::Change,
) -> Result<String, Fail> {
    let edit = edit_of(alloc, change)?;
    let mut changes = Vec::new(alloc);
    push_own(&mut changes, &edit)?;
    entries.edit(replica, &edit)?;
    Ok(lines_of(alloc, &changes)?)
}

/// An edit in steps, and its own change.
fn steps(
    alloc: Global,
    steps: &mut Steps,
    replica: &mut Replica,
    change: test_steps::steps::Change,
) -> Result<String, Fail> {
    let edit = edit_of(alloc, change)?;
    let mut changes = Vec::new(alloc);
    push_own(&mut changes, &edit)?;
    steps.edit(replica, &edit)?;
    Ok(lines_of(alloc, &changes)?)
}

/// An edit of a member: `first`, `entry` or `step` with an edit of the first one after it, of which nothing, an entry or steps are kept,
/// or `second` with one of the second.
fn edited(alloc: Global, pair: &mut Changers, words: &'static str) -> Result<String, Fail> {
    let (verb, rest) = word(words);
    let members = &mut pair.members;
    match verb {
        "first" => edits(alloc, &mut members.first, change_of(rest)?),
        "entry" => enters(
            alloc,
            &mut pair.entries,
            &mut members.first,
            change_of(rest)?,
        ),
        "step" => steps(alloc, &mut pair.steps, &mut members.first, change_of(rest)?),
        "second" => edits(alloc, &mut members.second, change_of(rest)?),
        _ => taken(alloc, pair, words),
    }
}

/// A message that is taken: `give`, that of the first, as bytes; `hold`, the same without its first operation; `nothing`, no bytes at
/// all; or `take`, by which the first takes that of the second.
fn taken(alloc: Global, pair: &mut Changers, words: &'static str) -> Result<String, Fail> {
    let Members { first, second } = &mut pair.members;
    match words {
        "give" => gives(alloc, first, second),
        "hold" => {
            let message = late(alloc, first, second)?;
            takes(alloc, second, message)
        }
        "nothing" => Ok(takes_bytes(alloc, second, &[])?),
        "take" => {
            let message = letter(second, first)?;
            takes(alloc, first, message)
        }
        _ => returned(alloc, pair, words),
    }
}

/// What the first takes back, or why it takes nothing or not all back: `undo`, its last entry, `back`, its last group of steps, or
/// `again`, by which it does that again; and `close`, by which it ends the open group.
fn returned(alloc: Global, pair: &mut Changers, words: &'static str) -> Result<String, Fail> {
    let first = &mut pair.members.first;
    let mut changes = Vec::new(alloc);
    match words {
        "undo" => {
            let answer = undo(&mut pair.entries, first, &mut changes);
            Ok(lines_and(alloc, &changes, answer)?)
        }
        "back" => {
            let answer = pair.steps.turn(first, Turn::Back, &mut changes);
            Ok(lines_and(alloc, &changes, answer)?)
        }
        "again" => {
            let answer = pair.steps.turn(first, Turn::Again, &mut changes);
            Ok(lines_and(alloc, &changes, answer)?)
        }
        "close" => {
            pair.steps.close();
            Ok(String::new(alloc))
        }
        _ => Err(Fail::new(words)),
    }
}

/// Who does this.
fn does<'a>(members: &'a Members, verb: &str) -> &'a Replica {
    match verb {
        "second" => &members.second,
        "give" => &members.second,
        "hold" => &members.second,
        "nothing" => &members.second,
        _ => &members.first,
    }
}

/// Whether the move changes this.
fn changes(
    alloc: Global,
    pair: &mut Changers,
    words: &'static str,
    expected: &str,
) -> Result<bool, Fail> {
    Ok(edited(alloc, pair, words)?.as_str() == expected)
}

/// Whether the move goes as it has to.
fn goes(alloc: Global, pair: &mut Changers, row: Row) -> Result<bool, Fail> {
    let (words, rest) = cut(row)?;
    let (expected, text) = cut(rest)?;
    if !changes(alloc, pair, words, expected)? {
        return Ok(false);
    }
    shows(does(&pair.members, word(words).0), text)
}

/// Leads two fresh members through the rows, and answers the first that goes otherwise than it has to.
fn fault(alloc: Global, rows: &[Row]) -> Result<Option<usize>, Fail> {
    let mut pair = Changers {
        members: Members::fresh(alloc, 2)?,
        entries: Undo::new(alloc),
        steps: Steps::new(alloc),
    };
    first_fault(rows, |row| goes(alloc, &mut pair, *row))
}

/// Insertions that go into several gaps, deletions of which some characters are gone, and both through a rename.
const MESSAGES_CHANGE: &[Row] = &[
    "first insert 0 hello |  | hello",
    "give | i 0 hello;  | hello",
    "first insert 5 !! |  | hello!!",
    "second insert 0 -- |  | --hello",
    "give | i 7 !!;  | --hello!!",
    "take | i 0 --;  | --hello!!",
    "second delete 3 3 |  | --ho!!",
    "first delete 2 4 |  | --o!!",
    "take |  | --o!!",
    "give | d 2 1;  | --o!!",
    "first insert 2 abc |  | --abco!!",
    "first delete 3 1 |  | --aco!!",
    "second rename |  | --o!!",
    "second insert 2 xy |  | --xyo!!",
    "give | i 2 abc; d 3 1;  | --acxyo!!",
    "take | i 4 xy;  | --acxyo!!",
    "second delete 0 4 |  | xyo!!",
    "first delete 6 3 |  | --acxy",
    "take | d 0 4;  | xy",
    "give | d 2 3;  | xy",
];

/// Each kind of operation in an epoch that isn't the greatest of who takes it.
const OLDER_EPOCHS_CHANGE: &[Row] = &[
    "first insert 0 hello |  | hello",
    "give | i 0 hello;  | hello",
    "second rename |  | hello",
    "first insert 2 ab |  | heabllo",
    "first delete 0 1 |  | eabllo",
    "first insert 6 ! |  | eabllo!",
    "first rename |  | eabllo!",
    "first delete 1 4 |  | eo!",
    "second delete 1 2 |  | hlo",
    "second insert 2 yz |  | hlyzo",
    "give | i 1 ab; d 0 1; i 6 !; d 0 3;  | yzo!",
    "take | d 0 1; i 0 yz;  | yzo!",
    "second leave |  | yzo!",
    "take |  | yzo!",
];

/// Operations that wait change nothing, and are played in order once they are released; no bytes are no message.
const RELEASES_CHANGE: &[Row] = &[
    "first insert 0 hello |  | hello",
    "first insert 5 ! |  | hello!",
    "first delete 0 1 |  | ello!",
    "second insert 0 ab |  | ab",
    "nothing | Malformed { at: 0 } | ab",
    "hold |  | ab",
    "give | i 0 hello; i 5 !; d 0 1;  | ello!ab",
    "give |  | ello!ab",
];

/// An undo takes out what is still there, range by range from the back, or puts back what was deleted; a refusal changes nothing.
const UNDOS_CHANGE: &[Row] = &[
    "undo | Nothing | ",
    "entry insert 0 hello | i 0 hello;  | hello",
    "give | i 0 hello;  | hello",
    "second insert 2 XY |  | heXYllo",
    "take | i 2 XY;  | heXYllo",
    "undo | d 4 3; d 0 2;  | XY",
    "give | d 4 3; d 0 2;  | XY",
    "undo | Nothing | XY",
    "entry insert 1 abc | i 1 abc;  | XabcY",
    "entry delete 0 3 | d 0 3;  | cY",
    "first rename |  | cY",
    "undo | i 0 Xab;  | XabcY",
    "first leave |  | XabcY",
    "undo | Edit(Left) | XabcY",
];

/// Groups of steps that are taken back and done again, beside what the other wrote.
const STEPS_CHANGE: &[Row] = &[
    "back | Nothing | ",
    "again | Nothing | ",
    "step insert 0 hello | i 0 hello;  | hello",
    "close |  | hello",
    "step delete 1 3 | d 1 3;  | ho",
    "back | i 1 ell;  | hello",
    "back | d 0 5;  | ",
    "back | Nothing | ",
    "again | i 0 hello;  | hello",
    "again | d 1 3;  | ho",
    "give | i 0 hello; d 1 3; i 1 ell; d 0 5; i 0 hello; d 1 3;  | ho",
    "second insert 1 zz |  | hzzo",
    "take | i 1 zz;  | hzzo",
    "back | i 1 ell;  | hellzzo",
    "first rename |  | hellzzo",
    "back | d 6 1; d 0 4;  | zz",
    "step insert 2 a | i 2 a;  | zza",
    "step insert 3 b | i 3 b;  | zzab",
    "step delete 1 2 | d 1 2;  | zb",
    "back | i 1 za; d 3 1; d 2 1;  | zz",
    "again | i 2 a; i 3 b; d 1 2;  | zb",
    "first leave |  | zb",
    "back | Edit(Left) | zb",
];

const TABLES: &[&[Row]] = &[
    MESSAGES_CHANGE,
    OLDER_EPOCHS_CHANGE,
    RELEASES_CHANGE,
    UNDOS_CHANGE,
    STEPS_CHANGE,
];

#[test]
fn changes_are_told(rt: HostRuntime) -> Result<(), Fail> {
    let alloc = rt.alloc();
    all_go_within(TABLES, |rows| fault(alloc, rows))
}
