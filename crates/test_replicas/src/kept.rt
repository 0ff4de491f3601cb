//! What a replica keeps: rows, a log, and stems.

use rls_ident::{Ident, Spot, Vector, rely};
use rls_log::Log;
use rls_ops::{Body, Op, Text};
use rls_parts::{Neighbour, StemTable};
use rls_stable::Acks;
use std::alloc::Global;
use std::test::Fail;
use test_steps::told::{Deed, ORIGIN, Told, old, op_of};

/// Counts one more operation of a member.
fn raise(acks: &mut Acks, member: u32) -> Result<(), Fail> {
    if member as usize >= acks.mine().len() || acks.mine().get(member) == u32::MAX {
        return Err(Fail::new("member"));
    }
    acks.raise(member);
    Ok(())
}

/// Whether the acknowledgement counts.
fn note(alloc: Global, acks: &mut Acks, from: u32, row: &[u32]) -> Result<bool, Fail> {
    let vector = Vector::from_counts(alloc, row)?;
    if from as usize >= acks.mine().len() || vector.len() != acks.mine().len() {
        return Err(Fail::new("member or vector"));
    }
    Ok(acks.note(from, &vector))
}

/// What members acknowledge, and whether it counts.
const NOTES: &[(u32, &[u32], bool)] = &[
    (1, &[2, 2, 0], false),
    (0, &[2, 1, 0], false),
    (1, &[2, 1, 0], true),
    (1, &[1, 1, 0], false),
];

/// Whether member 2 leaves, which had not left before.
fn leaves(acks: &mut Acks) -> bool {
    if acks.mine().len() != 3 || acks.left(2) {
        return false;
    }
    acks.leave(2);
    acks.mine().len() == 3 && acks.left(2)
}

/// Whether member 1 has these counts.
fn has_row(acks: &Acks, counts: &[u32]) -> bool {
    acks.mine().len() == 3 && acks.row(1).counts() == counts
}

/// Whether these counts are stable.
fn are_stable(acks: &Acks, counts: &[u32]) -> bool {
    acks.stable().counts() == counts
}

/// Whether member 0 has one operation of member 1 and two of its own, which it counts now.
fn counts(acks: &mut Acks) -> Result<bool, Fail> {
    for member in [0, 0, 1] {
        raise(acks, member)?;
    }
    Ok(acks.me() == 0 && acks.mine().counts() == [2, 1, 0].as_slice())
}

/// Whether each acknowledgement counts as it is said to.
fn acknowledge(alloc: Global, acks: &mut Acks) -> Result<bool, Fail> {
    for (from, row, counts) in NOTES {
        if note(alloc, acks, *from, row)? != *counts {
            return Ok(false);
        }
    }
    Ok(are_stable(acks, &[0, 0, 0]) && has_row(acks, &[2, 1, 0]))
}

#[test]
fn rows(rt: HostRuntime) -> Result<(), Fail> {
    let mut acks = Acks::new(rt.alloc(), 3, 0)?;
    assert!(rt; counts(&mut acks)? && acknowledge(rt.alloc(), &mut acks)?);
    assert!(rt; leaves(&mut acks) && are_stable(&acks, &[2, 1, 0]));
    Ok(())
}

/// Whether rows may start at two counts, of which none is stable then.
fn starts(alloc: Global) -> Result<bool, Fail> {
    let mine = Vector::from_counts(alloc, &[4, 5])?;
    let acks = Acks::starting_at(alloc, 1, mine)?;
    Ok(acks.mine().counts() == [4, 5].as_slice() && are_stable(&acks, &[0, 0]))
}

#[test]
fn rows_start(rt: HostRuntime) -> Result<(), Fail> {
    assert!(rt; starts(rt.alloc())?);
    Ok(())
}

/// Puts three operations of 18 bytes each into the log.
fn put_three(alloc: Global, log: &mut Log) -> Result<(), Fail> {
    let all: &[Told<'_>] = &[
        (0, 1, &[0, 0], ORIGIN, Deed::Leave),
        (1, 1, &[1, 0], ORIGIN, Deed::Leave),
        (0, 2, &[1, 1], ORIGIN, Deed::Leave),
    ];
    for told in all {
        log.push(&op_of(alloc, *told)?)?;
    }
    Ok(())
}

/// The log of the three.
fn log_of_three(alloc: Global) -> Result<Log, Fail> {
    let mut log = Log::new(alloc);
    put_three(alloc, &mut log)?;
    Ok(log)
}

/// Whether these are the authors and the numbers of the operations.
fn are(ops: &[Op], numbers: &[(u32, u32)]) -> bool {
    if ops.len() != numbers.len() {
        return false;
    }
    for (i, op) in ops.iter().enumerate() {
        if (op.author, op.seq) != numbers[i] {
            return false;
        }
    }
    true
}

/// Whether these are the authors and the numbers of the operations of a log.
fn are_logged(log: &Log, numbers: &[(u32, u32)]) -> bool {
    if log.len() != numbers.len() {
        return false;
    }
    for i in 0..log.len() {
        let head = log.head(i);
        if (head.author, head.seq) != numbers[i] {
            return false;
        }
    }
    true
}

/// A row, how many bytes there may be, and the authors and the numbers of the operations that the row lacks.
type Lack = (&'static [u32], u32, &'static [(u32, u32)]);

const LACKS: &[Lack] = &[
    (&[0, 0], 54, &[(0, 1), (1, 1), (0, 2)]),
    (&[0, 0], 53, &[(0, 1), (1, 1)]),
    (&[1, 0], 36, &[(1, 1), (0, 2)]),
    (&[1, 0], 17, &[]),
];

/// Whether the row lacks what it is said to.
fn lacks(alloc: Global, log: &Log, lack: &Lack) -> Result<bool, Fail> {
    let (row, limit, numbers) = lack;
    let vector = Vector::from_counts(alloc, row)?;
    let ops = log.missing_for(&vector, *limit as u64)?;
    Ok(are(ops.as_slice(), numbers))
}

/// Whether the log has three operations, of which the last has the number 2.
fn has_three(log: &Log) -> bool {
    log.len() == 3 && log.head(2).seq == 2
}

/// Whether these operations are left when the stable ones are dropped.
fn keeps(
    alloc: Global,
    log: &mut Log,
    stable: &[u32],
    numbers: &[(u32, u32)],
) -> Result<bool, Fail> {
    let vector = Vector::from_counts(alloc, stable)?;
    log.drop_at_most(&vector);
    Ok(are_logged(log, numbers))
}

#[test]
fn logs(rt: HostRuntime) -> Result<(), Fail> {
    let alloc = rt.alloc();
    let mut log = log_of_three(alloc)?;
    assert!(rt; has_three(&log));
    for lack in LACKS {
        assert!(rt; lacks(alloc, &log, lack)?, "{lack:?}");
    }
    assert!(rt; keeps(alloc, &mut log, &[1, 0], &[(1, 1), (0, 2)])?);
    Ok(())
}

/// The tuple of member 1's first operation with this offset.
fn spot(offset: i32) -> Spot {
    Spot {
        pos: 9,
        replica: 1,
        seq: 1,
        offset,
    }
}

/// The stem that an insertion of `hello` begins.
fn table(alloc: Global) -> Result<StemTable, Fail> {
    let text = Text::from_str(alloc, "hello")?;
    if text.len() > 9 {
        return Err(Fail::new("text"));
    }
    let first = Ident::from_tuples(alloc, &[spot(0).as_tuple()])?;
    let body = Body::Insert { first, text };
    let mut table = StemTable::new(alloc, 2)?;
    table.reserve(1)?;
    table.note(1, 1, &body);
    Ok(table)
}

/// Whether a fresh table has no stem, an operation may use its first identifiers, and the offset 0 is due.
fn is_fresh(alloc: Global) -> Result<bool, Fail> {
    let table = StemTable::new(alloc, 2)?;
    let none = table.get(1, 1).is_none();
    Ok(none && table.may_use(1, 1, spot(0), 5) && table.due(1, 1, spot(0)) == Some(0))
}

/// The last offset of identifiers, how many they are, and whether an operation may use them.
const USES: &[(i32, usize, bool)] = &[
    (5, 9, true),
    (4, 1, false),
    (-1, 1, true),
    (-1, 2, false),
    (-2, 2, true),
];

/// Whether an operation may use the identifiers or not, as it is said, and the offset 5 is due.
fn uses(table: &StemTable, offset: i32, count: usize, may: bool) -> bool {
    let last = spot(offset);
    table.may_use(1, 2, last, count) == may && table.due(1, 2, last) == Some(5)
}

/// Whether the table has the stem of five identifiers alone.
fn has_stem(table: &StemTable) -> Result<bool, Fail> {
    let found = table.get(1, 1).map(|stem| (stem.low, stem.next));
    let none = table.due(0, 1, spot(0)) == None;
    Ok(found == Some((0, 5)) && none && table.to_stems()?.len() == 1)
}

#[test]
fn stems(rt: HostRuntime) -> Result<(), Fail> {
    let table = table(rt.alloc())?;
    assert!(rt; has_stem(&table)?);
    for (offset, count, may) in USES {
        assert!(rt; uses(&table, *offset, *count, *may), "offset {offset}");
    }
    Ok(())
}

/// Whether the first of five identifiers between no others is in the middle.
fn is_middle(alloc: Global, table: &StemTable) -> Result<bool, Fail> {
    let first = table.first_between(alloc, 0, 1, None, None, 5)?;
    let middle = Ident::from_tuples(alloc, &[old(0)])?;
    Ok(first.compare(&middle).is_eq())
}

/// The identifier that member 1 puts right after this one.
fn after(alloc: Global, table: &StemTable, first: &Ident) -> Result<Ident, Fail> {
    rely!(let _last = first.last());
    let left = Neighbour::new(first, 0);
    Ok(table.first_between(alloc, 1, 1, Some(&left), None, 1)?)
}

/// The position of an identifier that comes after the first one.
fn later(alloc: Global, table: &StemTable) -> Result<u32, Fail> {
    let first = table.first_between(alloc, 0, 1, None, None, 5)?;
    let later = after(alloc, table, &first)?;
    Ok(later.last().pos)
}

/// Whether identifiers are made in the middle and after it.
fn makes(alloc: Global) -> Result<bool, Fail> {
    let table = StemTable::new(alloc, 2)?;
    Ok(is_middle(alloc, &table)? && later(alloc, &table)? == 3_221_225_471)
}

#[test]
fn first_identifiers(rt: HostRuntime) -> Result<(), Fail> {
    assert!(rt; is_fresh(rt.alloc())? && makes(rt.alloc())?);
    Ok(())
}
