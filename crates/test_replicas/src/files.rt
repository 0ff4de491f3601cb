//! Files of all forms: read, stored again, cut off, and with broken rules.

use rls_file::{FileError, decode_file, encode_file};
use rls_ident::{EpochName, Tuple};
use rls_model::Parts;
use rls_replica::Replica;
use std::alloc::{AllocError, Global};
use std::test::Fail;
use test_steps::bytes::{HELLO_FILE, bytes, front};
use test_steps::rows::{all_go, all_go_within};
use test_steps::steps::{Change, edit_of};
use test_steps::told::{Deed, Told, op_of};

/// The file of 160 bytes, of form 4, of member 0 of 2 in group 7, which inserted `hello`.
const TYPED_4: &str =
    "524c5346 04 0000000000000007 00000002 00000000 00000001 00000000 00000000 00000000 00000000 00000001 00000001 00000000 00000005 00000000 00000001 00 00000001 00000001 01 7fffffff 00000000 00000001 00000000 00000005 00000005 68656c6c6f 00000001 00000000 00000001 00000000 00000000 00 00 00000001 01 7fffffff 00000000 00000001 00000000 00000005 68656c6c6f 00000000";

/// The same in form 3, which has nobody who left, in 156 bytes.
const TYPED_3: &str =
    "524c5346 03 0000000000000007 00000002 00000000 00000001 00000000 00000000 00000000 00000001 00000001 00000000 00000005 00000000 00000001 00 00000001 00000001 01 7fffffff 00000000 00000001 00000000 00000005 00000005 68656c6c6f 00000001 00000000 00000001 00000000 00000000 00 00 00000001 01 7fffffff 00000000 00000001 00000000 00000005 68656c6c6f 00000000";

/// The same in form 2, whose stems have no low, in 152 bytes.
const TYPED_2: &str =
    "524c5346 02 0000000000000007 00000002 00000000 00000001 00000000 00000000 00000000 00000001 00000001 00000005 00000000 00000001 00 00000001 00000001 01 7fffffff 00000000 00000001 00000000 00000005 00000005 68656c6c6f 00000001 00000000 00000001 00000000 00000000 00 00 00000001 01 7fffffff 00000000 00000001 00000000 00000005 68656c6c6f 00000000";

/// The file of 66 bytes of member 0 of 2, to whom nothing has happened.
const FRESH_4: &str =
    "524c5346 04 0000000000000007 00000002 00000000 00000000 00000000 00000000 00000000 00000000 00000000 00000000 00000001 00 00000000 00000000 00000000";

/// The same in form 3, in 62 bytes.
const FRESH_3: &str =
    "524c5346 03 0000000000000007 00000002 00000000 00000000 00000000 00000000 00000000 00000000 00000000 00000001 00 00000000 00000000 00000000";

/// The same in form 2, in 62 bytes.
const FRESH_2: &str =
    "524c5346 02 0000000000000007 00000002 00000000 00000000 00000000 00000000 00000000 00000000 00000000 00000001 00 00000000 00000000 00000000";

/// The file of 50 bytes of a sole member whose numbers are spent.
const SPENT_4: &str =
    "524c5346 04 0000000000000007 00000001 00000000 ffffffff 00000000 00000000 00000001 00 00000000 00000000 00000000";

/// The same in form 3, in 46 bytes.
const SPENT_3: &str =
    "524c5346 03 0000000000000007 00000001 00000000 ffffffff 00000000 00000001 00 00000000 00000000 00000000";

/// The same in form 2, in 46 bytes.
const SPENT_2: &str =
    "524c5346 02 0000000000000007 00000001 00000000 ffffffff 00000000 00000001 00 00000000 00000000 00000000";

/// The file of 96 bytes of the sole member of group 7 after its insertion of `hello`, which is stable at once.
const ALONE_4: &str =
    "524c5346 04 0000000000000007 00000001 00000000 00000001 00000000 00000001 00000001 00000000 00000005 00000001 00 00000001 00000001 01 7fffffff 00000000 00000001 00000000 00000005 00000005 68656c6c6f 00000000 00000000";

/// The journal of member 0 of 2 in group 7: it inserted `hello`, member 1 told that it has that, and a leave of member 1 waits for an
/// operation before it.
const ACKNOWLEDGED_1: &str =
    "524c5346 01 0000000000000007 00000002 00000000 00000002 00 00000000 00000001 00000000 00000000 00 00 00000001 01 7fffffff 00000000 00000001 00000000 00000005 68656c6c6f 01 00000001 00000001 00000000 00000001 00000001 00000002 00000000 00000001 00 03";

/// The same in form 4, in 130 bytes: the insertion is stable.
const ACKNOWLEDGED_4: &str =
    "524c5346 04 0000000000000007 00000002 00000000 00000001 00000000 00000001 00000000 00000000 00000001 00000001 00000000 00000005 00000000 00000001 00 00000001 00000001 01 7fffffff 00000000 00000001 00000000 00000005 00000005 68656c6c6f 00000000 00000001 00000001 00000002 00000000 00000001 00 03";

/// The place of the fault for which the bytes are no file, if they are none.
fn damage(alloc: Global, file: &[u8]) -> Result<Option<u64>, Fail> {
    match decode_file(alloc, file) {
        Ok(_) => Ok(None),
        Err(FileError::Damaged { at }) => Ok(Some(at)),
        Err(FileError::OutOfMemory) => Err(Fail::new("memory")),
    }
}

/// Whether a replica that is read from these bytes is stored as these ones.
fn is_stored_as(alloc: Global, file: &[u8], expected: &[u8]) -> Result<bool, Fail> {
    let replica = decode_file(alloc, file)?;
    Ok(encode_file(alloc, &replica)?.as_slice() == expected)
}

/// Whether a file is stored again as the other one, of this length.
fn is_stored(alloc: Global, file: &str, expected: &str, len: usize) -> Result<bool, Fail> {
    let (file, expected) = (bytes(alloc, file)?, bytes(alloc, expected)?);
    Ok(expected.len() == len && is_stored_as(alloc, &file, &expected)?)
}

/// Files of all forms, what they are stored as, and the length of that.
const STORED: &[(&str, &str, usize)] = &[
    (TYPED_4, TYPED_4, 160),
    (TYPED_3, TYPED_4, 160),
    (TYPED_2, TYPED_4, 160),
    (FRESH_4, FRESH_4, 66),
    (FRESH_3, FRESH_4, 66),
    (FRESH_2, FRESH_4, 66),
    (SPENT_4, SPENT_4, 50),
    (SPENT_3, SPENT_4, 50),
    (SPENT_2, SPENT_4, 50),
    (ALONE_4, ALONE_4, 96),
    (HELLO_FILE, ALONE_4, 96),
    (ACKNOWLEDGED_1, ACKNOWLEDGED_4, 130),
    (ACKNOWLEDGED_4, ACKNOWLEDGED_4, 130),
    (LEFT_4, LEFT_4, 70),
];

#[test]
fn files_are_stored_again(rt: HostRuntime) -> Result<(), Fail> {
    all_go(
        STORED,
        |(file, expected, len)| is_stored(rt.alloc(), file, expected, *len),
    )
}

/// What a replica consists of: its group, the count of members, its own number, the vector, and how many rows, stems, epochs, text
/// runs, unstable operations, waiting operations and members that left there are.
fn numbers_of(alloc: Global, parts: &Parts) -> Result<String, AllocError> {
    let (group, members, me, vector) = (
        parts.group,
        parts.members,
        parts.me,
        parts.vector.counts(),
    );
    let (rows, stems, epochs) = (parts.rows.len(), parts.stems.len(), parts.epochs.len());
    let (text, log) = (parts.text.len(), parts.log.len());
    let (held, left) = (parts.held.len(), parts.left.len());
    format!(in alloc;
        "{group} {members} {me} {vector:?} {rows} {stems} {epochs} {text} {log} {held} {left}"
    )
}

/// Whether a replica consists of this much.
fn consists_of(alloc: Global, replica: &Replica, numbers: &str) -> Result<bool, Fail> {
    let parts = replica.parts()?;
    Ok(numbers_of(alloc, &parts)?.as_str() == numbers)
}

/// Whether a replica shows this text.
fn shows(replica: &Replica, text: &str) -> Result<bool, Fail> {
    Ok(replica.text()?.to_utf8()?.as_str() == text)
}

/// Whether a replica that is read from these bytes has these numbers and this text.
fn has(alloc: Global, file: &[u8], numbers: &str, text: &str) -> Result<bool, Fail> {
    let replica = decode_file(alloc, file)?;
    Ok(consists_of(alloc, &replica, numbers)? && shows(&replica, text)?)
}

/// Whether the file with these digits has them.
fn is_read(alloc: Global, digits: &str, numbers: &str, text: &str) -> Result<bool, Fail> {
    let file = bytes(alloc, digits)?;
    has(alloc, &file, numbers, text)
}

/// Files, and what the replicas in them consist of and show.
const READ: &[(&str, &str, &str)] = &[
    (TYPED_4, "7 2 0 [1, 0] 1 1 1 1 1 0 0", "hello"),
    (TYPED_2, "7 2 0 [1, 0] 1 1 1 1 1 0 0", "hello"),
    (HELLO_FILE, "7 1 0 [1] 0 1 1 1 0 0 0", "hello"),
    (ACKNOWLEDGED_1, "7 2 0 [1, 0] 1 1 1 1 0 1 0", "hello"),
    (LEFT_4, "7 2 0 [0, 1] 1 0 1 0 0 0 1", ""),
];

#[test]
fn files_are_read(rt: HostRuntime) -> Result<(), Fail> {
    all_go(
        READ,
        |(file, numbers, text)| is_read(rt.alloc(), file, numbers, text),
    )
}

/// What happens to a replica before it is stored.
#[derive(Clone, Copy)]
enum Before {
    Edit(Change),
    Receive(Told<'static>),
    /// What is stable is dropped.
    Drop,
}

fn edits(alloc: Global, replica: &mut Replica, change: Change) -> Result<(), Fail> {
    let edit = edit_of(alloc, change)?;
    let _seq = replica.edit(&edit)?;
    Ok(())
}

fn receives(alloc: Global, replica: &mut Replica, told: Told<'_>) -> Result<(), Fail> {
    let op = op_of(alloc, told)?;
    let _receipt = replica.receive(op)?;
    Ok(())
}

fn happens(alloc: Global, replica: &mut Replica, what: &Before) -> Result<(), Fail> {
    match what {
        Before::Edit(change) => edits(alloc, replica, *change),
        Before::Receive(told) => receives(alloc, replica, *told),
        Before::Drop => {
            replica.drop_stable();
            Ok(())
        }
    }
}

fn all_happen(alloc: Global, replica: &mut Replica, all: &[Before]) -> Result<(), Fail> {
    for what in all {
        happens(alloc, replica, what)?;
    }
    Ok(())
}

/// The file of member 0 of this many in group 7 after all this.
fn file_after(alloc: Global, members: u32, all: &[Before]) -> Result<Vec<u8>, Fail> {
    let mut replica = Replica::new(alloc, 7, 0, members)?;
    all_happen(alloc, &mut replica, all)?;
    Ok(encode_file(alloc, &replica)?)
}

/// The first character that member 1 inserts.
const FIRST: Tuple = Tuple::At {
    pos: 9,
    replica: 1,
    seq: 1,
    offset: 0,
};

/// Each kind of entry that a file may have: two epochs, text runs of three stems, each kind of unstable operation, an operation that
/// waits, and a member that left.
const ALL_PARTS: &[Before] = &[
    Before::Edit(Change::Insert(0, "hello")),
    Before::Edit(Change::Delete(1, 2)),
    Before::Edit(Change::Rename),
    Before::Receive((
        1,
        1,
        &[1, 0, 0],
        EpochName::Origin,
        Deed::Insert(FIRST, "ab"),
    )),
    Before::Receive((2, 1, &[0, 0, 0], EpochName::Origin, Deed::Leave)),
    Before::Edit(Change::Insert(3, "X")),
    Before::Receive((1, 3, &[1, 2, 0], EpochName::Origin, Deed::Delete(FIRST, 1))),
];

/// Whether the file of member 0 of three after all this has these numbers and this text, and is stored again as it is.
fn is_read_back(alloc: Global, all: &[Before], numbers: &str, text: &str) -> Result<bool, Fail> {
    let file = file_after(alloc, 3, all)?;
    Ok(has(alloc, &file, numbers, text)? && is_stored_as(alloc, &file, &file)?)
}

#[test]
fn all_parts_are_read_back(rt: HostRuntime) -> Result<(), Fail> {
    let numbers = "7 3 0 [4, 1, 1] 2 4 2 4 6 1 1";
    assert!(rt; is_read_back(rt.alloc(), ALL_PARTS, numbers, "abhXlo")?);
    Ok(())
}

const HELLO: Before = Before::Edit(Change::Insert(0, "hello"));

/// How many members there are, what happens to member 0, and its file afterwards.
const EDITED: &[(u32, &[Before], &str)] = &[
    (2, &[HELLO], TYPED_4),
    (2, &[HELLO, Before::Drop], TYPED_4),
    (1, &[HELLO], ALONE_4),
    (1, &[HELLO, Before::Drop], ALONE_4),
];

/// Whether member 0 of this many has this file after all this.
fn is_file_after(
    alloc: Global,
    members: u32,
    all: &[Before],
    expected: &str,
) -> Result<bool, Fail> {
    let expected = bytes(alloc, expected)?;
    Ok(file_after(alloc, members, all)? == expected)
}

#[test]
fn edits_are_stored(rt: HostRuntime) -> Result<(), Fail> {
    all_go(
        EDITED,
        |(members, all, expected)| is_file_after(rt.alloc(), *members, all, expected),
    )
}

/// The first length from this place up to the end of its field to which the file may be cut, so that another place is told.
fn fault_of_field(
    alloc: Global,
    file: &[u8],
    at: usize,
    end: usize,
) -> Result<Option<usize>, Fail> {
    for len in at..end {
        if damage(alloc, front(file, len))? != Some(at as u64) {
            return Ok(Some(len));
        }
    }
    Ok(None)
}

/// The first length to which the file may be cut, so that another place than that of the field that is cut off is told. Each word of
/// its digits is a field.
fn fault_of_fields(alloc: Global, file: &[u8], digits: &str) -> Result<Option<usize>, Fail> {
    let mut at = 0_usize;
    for word in digits.split(' ') {
        let end = at.saturating_add(word.len() / 2);
        let fault = fault_of_field(alloc, file, at, end)?;
        if fault.is_some() {
            return Ok(fault);
        }
        at = end;
    }
    Ok(None)
}

/// The same of the file with these digits.
fn fault_of_cuts(alloc: Global, digits: &str) -> Result<Option<usize>, Fail> {
    let file = bytes(alloc, digits)?;
    fault_of_fields(alloc, &file, digits)
}

/// Files whose words are fields.
const CUT: &[&str] = &[
    TYPED_4,
    TYPED_3,
    TYPED_2,
    FRESH_4,
    FRESH_2,
    SPENT_4,
    SPENT_2,
    ACKNOWLEDGED_4,
    LEFT_4,
    HELLO_FILE,
    ACKNOWLEDGED_1,
];

#[test]
fn files_are_cut_off(rt: HostRuntime) -> Result<(), Fail> {
    all_go_within(CUT, |digits| fault_of_cuts(rt.alloc(), digits))
}

/// The topmost epoch is one that member 1 is to have opened, of whom nothing was accepted.
const OTHERS_EPOCH: &str =
    "524c5346 04 0000000000000007 00000002 00000000 00000000 00000000 00000000 00000000 00000000 00000000 00000000 00000001 01 00000001 00000001 00000000 00000000 00000000";

/// Two epochs of a sole member who inserted, renamed and deleted, of which the first may be dropped.
const TWO_EPOCHS: &str =
    "524c5346 04 0000000000000007 00000001 00000000 00000003 00000000 00000002 00000001 00000000 00000005 00000002 00000000 00000005 00000002 00 01 00000000 00000002 00000000 00000001 00000001 01 7fffffff 00000000 00000001 00000000 00000005 00000000 00000000 00000000";

/// Without the unstable operation that leads to the vector.
const NO_OPERATION: &str =
    "524c5346 04 0000000000000007 00000002 00000000 00000001 00000000 00000000 00000000 00000000 00000001 00000001 00000000 00000005 00000000 00000001 00 00000001 00000001 01 7fffffff 00000000 00000001 00000000 00000005 00000005 68656c6c6f 00000000 00000000";

/// A leave of member 1 waits whose causes are there.
const READY: &str =
    "524c5346 04 0000000000000007 00000002 00000000 00000000 00000000 00000000 00000000 00000000 00000000 00000000 00000001 00 00000000 00000000 00000001 00000001 00000001 00000000 00000000 00 03";

/// Member 1 has left, which is stable at once.
const LEFT_4: &str =
    "524c5346 04 0000000000000007 00000002 00000000 00000000 00000001 00000000 00000000 00000001 00000001 00000000 00000000 00000001 00 00000000 00000000 00000000";

/// The same with its leave among the unstable operations.
const STABLE: &str =
    "524c5346 04 0000000000000007 00000002 00000000 00000000 00000001 00000000 00000000 00000001 00000001 00000000 00000000 00000001 00 00000000 00000001 00000001 00000001 00000000 00000000 00 03 00000000";

/// That leave in form 3, which has nobody who left.
const LEFT_3: &str =
    "524c5346 03 0000000000000007 00000002 00000000 00000000 00000001 00000000 00000000 00000000 00000000 00000001 00 00000000 00000001 00000001 00000001 00000000 00000000 00 03 00000000";

/// The same in form 2.
const LEFT_2: &str =
    "524c5346 02 0000000000000007 00000002 00000000 00000000 00000001 00000000 00000000 00000000 00000000 00000001 00 00000000 00000001 00000001 00000001 00000000 00000000 00 03 00000000";

/// The file of 160 bytes with one byte more.
const SURPLUS: &str =
    "524c5346 04 0000000000000007 00000002 00000000 00000001 00000000 00000000 00000000 00000000 00000001 00000001 00000000 00000005 00000000 00000001 00 00000001 00000001 01 7fffffff 00000000 00000001 00000000 00000005 00000005 68656c6c6f 00000001 00000000 00000001 00000000 00000000 00 00 00000001 01 7fffffff 00000000 00000001 00000000 00000005 68656c6c6f 00000000 00";

/// The bytes with another one at this place.
fn with_byte(mut bytes: Vec<u8>, (at, byte): (usize, u8)) -> Vec<u8> {
    if at < bytes.len() {
        bytes[at] = byte;
    }
    bytes
}

/// What is told of a file in which two bytes are others.
fn damage_with(
    alloc: Global,
    digits: &str,
    one: (usize, u8),
    other: (usize, u8),
) -> Result<Option<u64>, Fail> {
    let file = with_byte(with_byte(bytes(alloc, digits)?, one), other);
    damage(alloc, &file)
}

/// Changes nothing: the first byte of each file is 82.
const SAME: (usize, u8) = (0, 82);

/// A file, two places with the bytes that stand there instead, and the place of the fault.
type Faulty = (&'static str, (usize, u8), (usize, u8), Option<u64>);

/// Files of which each breaks a rule, or two.
const FAULTY: &[Faulty] = &[
    // Rule 1: member 1 is told to have accepted more of its own operations than there are.
    (TYPED_4, (36, 1), SAME, Some(29)),
    // Rule 2: no offset of the stem is used.
    (TYPED_4, (56, 0), SAME, Some(45)),
    (TYPED_3, (52, 0), SAME, Some(41)),
    (TYPED_2, (48, 0), SAME, Some(41)),
    // Rule 3: nobody opened the epoch.
    (OTHERS_EPOCH, SAME, SAME, Some(53)),
    // Rule 4: the last character's offset isn't used.
    (TYPED_4, (56, 4), SAME, Some(70)),
    (TYPED_3, (52, 4), SAME, Some(66)),
    (TYPED_2, (48, 4), SAME, Some(62)),
    // Rule 5: a number is left out; an operation is stable; a leave of one who hasn't left.
    (TYPED_4, (115, 2), SAME, Some(108)),
    (LEFT_4, SAME, SAME, None),
    (STABLE, SAME, SAME, Some(66)),
    (LEFT_3, SAME, SAME, Some(58)),
    (LEFT_2, SAME, SAME, Some(58)),
    // Rule 6: an operation is missing.
    (NO_OPERATION, SAME, SAME, Some(104)),
    // Rule 7: the first epoch could be dropped.
    (TWO_EPOCHS, SAME, SAME, Some(57)),
    // Rule 8: what waits is ready.
    (READY, SAME, SAME, Some(66)),
    // Two broken rules, of which the first counts.
    (TYPED_4, (36, 1), (56, 4), Some(29)),
    (TYPED_4, (56, 0), (115, 2), Some(45)),
    // A field comes before all rules, and so does a surplus byte. A member that left has to be one.
    (TYPED_4, (56, 0), (98, 6), Some(95)),
    (SURPLUS, (56, 0), SAME, Some(160)),
    (LEFT_4, (44, 2), SAME, Some(41)),
    // There is no such form.
    (TYPED_4, (4, 5), SAME, Some(4)),
    (TYPED_4, (4, 0), SAME, Some(4)),
];

/// Whether the fault of a file is told where it is.
fn is_told(alloc: Global, (digits, one, other, at): &Faulty) -> Result<bool, Fail> {
    Ok(damage_with(alloc, digits, *one, *other)? == *at)
}

#[test]
fn rules_are_broken(rt: HostRuntime) -> Result<(), Fail> {
    all_go(FAULTY, |file| is_told(rt.alloc(), file))
}
