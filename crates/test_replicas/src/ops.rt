//! Operations, and those that wait.

use rls_causal::{Held, Put};
use rls_ident::{EpochName, Vector};
use rls_ops::{Op, Ops, Shape};
use std::alloc::Global;
use std::test::Fail;
use test_steps::told::{Deed, ORIGIN, Told, at, op_of};

/// The epoch of member 0's first operation.
const OPENED: EpochName = EpochName::Of { replica: 0, seq: 1 };

/// Whether the operation has this shape among two members.
fn has_shape(alloc: Global, told: Told<'_>, shape: Result<(), Shape>) -> Result<bool, Fail> {
    Ok(op_of(alloc, told)?.check_shape(2) == shape)
}

#[test]
fn shapes(rt: HostRuntime) -> Result<(), Fail> {
    let alloc = rt.alloc();
    let (first, end) = (at(5, 1, 1, 0), at(5, 1, 1, 1_073_741_822));
    let none: &[u32] = &[0, 0];
    let cases: &[(Told<'_>, Result<(), Shape>)] = &[
        ((2, 1, none, ORIGIN, Deed::Leave), Err(Shape::Author)),
        ((1, 0, none, ORIGIN, Deed::Leave), Err(Shape::Context)),
        ((1, 2, none, ORIGIN, Deed::Leave), Err(Shape::Context)),
        ((1, 1, &[0, 0, 0], ORIGIN, Deed::Leave), Err(Shape::Context)),
        ((1, 1, none, ORIGIN, Deed::Leave), Ok(())),
        (
            (1, 1, none, ORIGIN, Deed::Insert(first, "")),
            Err(Shape::EmptyBody),
        ),
        (
            (1, 1, none, ORIGIN, Deed::Insert(end, "abc")),
            Err(Shape::OffsetEnd),
        ),
        ((1, 1, none, ORIGIN, Deed::Insert(end, "ab")), Ok(())),
        (
            (1, 1, none, ORIGIN, Deed::Delete(first, 4_194_305)),
            Err(Shape::TooLong { n: 4_194_305 }),
        ),
        ((1, 1, none, ORIGIN, Deed::Delete(first, 4_194_304)), Ok(())),
    ];
    for (i, (told, expected)) in cases.iter().enumerate() {
        assert!(rt; has_shape(alloc, *told, *expected)?, "case {i}");
    }
    Ok(())
}

/// Whether the operation has this size, and a copy is the same.
fn has_size(alloc: Global, told: Told<'_>, size: u64) -> Result<bool, Fail> {
    let op = op_of(alloc, told)?;
    Ok(op.encoded_len() == size && op.copy()?.same(&op))
}

#[test]
fn sizes(rt: HostRuntime) -> Result<(), Fail> {
    let alloc = rt.alloc();
    let first = at(5, 1, 1, 0);
    // A deletion of one run in the first epoch has 14 bytes, 4 for each member and 25 for the run.
    let cases: &[(Told<'_>, u64)] = &[
        ((0, 1, &[0], ORIGIN, Deed::Delete(first, 9)), 43),
        ((0, 1, &[0, 0], ORIGIN, Deed::Delete(first, 1)), 47),
        ((0, 1, &[0, 0, 0], ORIGIN, Deed::Rename(first, 2)), 51),
        ((0, 1, &[0, 0], ORIGIN, Deed::Insert(first, "hello")), 48),
        ((0, 1, &[0, 0], OPENED, Deed::Insert(first, "e\u{301}")), 54),
        ((0, 1, &[0, 0], ORIGIN, Deed::Leave), 18),
    ];
    for (i, (told, expected)) in cases.iter().enumerate() {
        assert!(rt; has_size(alloc, *told, *expected)?, "case {i}");
    }
    Ok(())
}

/// The place of the first operation that is the same as another, or is not the same as itself.
fn doubled(ops: &[Op]) -> Option<usize> {
    for (i, op) in ops.iter().enumerate() {
        if !is_only_at(ops, op, i) {
            return Some(i);
        }
    }
    None
}

/// Whether the operation is the same as the one at this place, and as no other.
fn is_only_at(ops: &[Op], op: &Op, place: usize) -> bool {
    for (i, other) in ops.iter().enumerate() {
        if op.same(other) != (i == place) {
            return false;
        }
    }
    true
}

/// Puts the operations into the list.
fn push_all(alloc: Global, ops: &mut Ops, all: &[Told<'_>]) -> Result<(), Fail> {
    for told in all {
        ops.push(op_of(alloc, *told)?)?;
    }
    Ok(())
}

/// Whether the list has this many operations, each of them once, of which the third has the number 2.
fn is_distinct(ops: &Ops, len: usize) -> bool {
    if ops.len() != len || len < 3 {
        return false;
    }
    ops.get(2).seq == 2 && doubled(ops.as_slice()).is_none()
}

/// Whether these operations differ in a list that was empty.
fn differ(alloc: Global, all: &[Told<'_>]) -> Result<bool, Fail> {
    let mut ops = Ops::new(alloc);
    let empty = ops.is_empty();
    push_all(alloc, &mut ops, all)?;
    let distinct = is_distinct(&ops, all.len());
    Ok(empty && distinct && ops.len() == all.len())
}

#[test]
fn operations_differ(rt: HostRuntime) -> Result<(), Fail> {
    let alloc = rt.alloc();
    let (first, next) = (at(5, 1, 1, 0), at(5, 1, 1, 1));
    let cases: &[Told<'_>] = &[
        (1, 1, &[0, 0], ORIGIN, Deed::Insert(first, "ab")),
        (0, 1, &[0, 0], ORIGIN, Deed::Insert(first, "ab")),
        (1, 2, &[0, 0], ORIGIN, Deed::Insert(first, "ab")),
        (1, 1, &[0, 1], ORIGIN, Deed::Insert(first, "ab")),
        (1, 1, &[0, 0], OPENED, Deed::Insert(first, "ab")),
        (1, 1, &[0, 0], ORIGIN, Deed::Insert(next, "ab")),
        (1, 1, &[0, 0], ORIGIN, Deed::Insert(first, "ac")),
        (1, 1, &[0, 0], ORIGIN, Deed::Insert(first, "abc")),
        (1, 1, &[0, 0], ORIGIN, Deed::Delete(first, 2)),
        (1, 1, &[0, 0], ORIGIN, Deed::Delete(first, 3)),
        (1, 1, &[0, 0], ORIGIN, Deed::Rename(first, 2)),
        (1, 1, &[0, 0], ORIGIN, Deed::Leave),
    ];
    assert!(rt; cases.len() == 12 && differ(alloc, cases)?);
    Ok(())
}

/// An author's leave with this number.
fn leave<'a>(author: u32, seq: u32) -> Told<'a> {
    (author, seq, &[0, 0], ORIGIN, Deed::Leave)
}

/// Two operations, and whether the first comes before the second.
type Order<'a> = (Told<'a>, Told<'a>, bool);

/// Whether the operations are ordered so.
fn is_ordered(alloc: Global, order: &Order<'_>) -> Result<bool, Fail> {
    let (one, other, before) = order;
    let other = op_of(alloc, *other)?;
    Ok(op_of(alloc, *one)?.precedes(&other) == *before)
}

#[test]
fn operations_come_before_others(rt: HostRuntime) -> Result<(), Fail> {
    let alloc = rt.alloc();
    let insert = Deed::Insert(at(5, 1, 1, 0), "ab");
    let text: Told<'_> = (1, 1, &[0, 1], OPENED, insert);
    let cases: &[Order<'_>] = &[
        (leave(1, 1), leave(1, 2), true),
        (leave(1, 2), leave(1, 1), false),
        (leave(1, 1), leave(1, 1), false),
        (leave(0, 2), leave(1, 1), true),
        (leave(1, 1), leave(0, 2), false),
        (leave(0, u32::MAX), leave(u32::MAX, 0), true),
        (leave(u32::MAX, 0), leave(0, u32::MAX), false),
        (leave(1, 1), text, false),
        (text, leave(1, 1), false),
    ];
    for (i, order) in cases.iter().enumerate() {
        assert!(rt; is_ordered(alloc, order)?, "case {i}");
    }
    Ok(())
}

/// Whether the operation is the same as another of its parts, once it is looked at.
fn is_same(alloc: Global, told: Told<'_>) -> Result<bool, Fail> {
    let op = op_of(alloc, told)?;
    op.fits();
    Ok(op.same(&op_of(alloc, told)?))
}

/// How many operations there are when these are put in; the list is looked at before and after.
fn count(alloc: Global, all: &[Told<'_>]) -> Result<usize, Fail> {
    let mut ops = Ops::new(alloc);
    ops.fits();
    push_all(alloc, &mut ops, all)?;
    ops.fits();
    Ok(ops.len())
}

#[test]
fn operations_are_looked_at(rt: HostRuntime) -> Result<(), Fail> {
    let alloc = rt.alloc();
    let first = at(5, 1, 1, 0);
    let cases: &[Told<'_>] = &[
        (1, 1, &[0, 0], ORIGIN, Deed::Insert(first, "ab")),
        (1, 2, &[1, 1], OPENED, Deed::Delete(first, 2)),
        (0, u32::MAX, &[u32::MAX, 0], ORIGIN, Deed::Rename(first, 2)),
        (0, 1, &[], OPENED, Deed::Leave),
    ];
    for (i, told) in cases.iter().enumerate() {
        assert!(rt; is_same(alloc, *told)?, "case {i}");
    }
    assert!(rt; count(alloc, cases)? == 4);
    Ok(())
}

/// What comes of an operation that is put among those that wait.
fn outcome(alloc: Global, put: &Put, told: Told<'_>) -> Result<&'static str, Fail> {
    let Put::Forked { held } = put else {
        return Ok(match put {
            Put::Added => "added",
            _ => "same",
        });
    };
    Ok(match held.same(&op_of(alloc, told)?) {
        true => "not forked",
        false => "forked",
    })
}

/// Whether this comes of the operation when it is put among those that wait.
fn puts(alloc: Global, held: &mut Held, told: Told<'_>, expected: &str) -> Result<bool, Fail> {
    let put = held.put(op_of(alloc, told)?)?;
    Ok(outcome(alloc, &put, told)? == expected)
}

/// The operations that are put one after another, and what comes of each.
const PUTS: &[(Told<'static>, &str)] = &[
    ((1, 2, &[0, 1], ORIGIN, Deed::Leave), "added"),
    ((0, 3, &[2, 0], ORIGIN, Deed::Leave), "added"),
    ((0, 2, &[1, 1], ORIGIN, Deed::Leave), "added"),
    ((1, 2, &[0, 1], ORIGIN, Deed::Leave), "same"),
    ((1, 2, &[1, 1], ORIGIN, Deed::Leave), "forked"),
];

/// Whether three operations wait, with these authors and numbers in this order.
fn are_waiting(held: &Held, numbers: [(u32, u32); 3]) -> bool {
    if held.len() != 3 {
        return false;
    }
    [held.op(0), held.op(1), held.op(2)].map(|op| (op.author, op.seq)) == numbers
}

/// Counts, and the author and the number of the first operation that is ready then.
const READY: &[(&[u32], Option<(u32, u32)>)] = &[
    (&[1, 0], None),
    (&[1, 1], Some((0, 2))),
    (&[2, 0], Some((0, 3))),
    (&[0, 1], Some((1, 2))),
];

/// The author and the number of the first operation that is ready.
fn ready(alloc: Global, held: &Held, counts: &[u32]) -> Result<Option<(u32, u32)>, Fail> {
    let vector = Vector::from_counts(alloc, counts)?;
    Ok(held.first_ready(&vector).map(|op| (op.author, op.seq)))
}

/// Whether operations wait under their numbers alone.
fn are_found(held: &Held) -> bool {
    let members = held.get(1, 2).map(|op| op.context.len());
    members == Some(2) && held.get(1, 1).is_none()
}

/// Whether an operation is removed once, and two are left.
fn removes(held: &mut Held) -> bool {
    let seq = held.remove(0, 3).map(|op| op.seq);
    seq == Some(3) && held.remove(0, 3).is_none() && held.len() == 2
}

#[test]
fn waiting_operations(rt: HostRuntime) -> Result<(), Fail> {
    let alloc = rt.alloc();
    let mut held = Held::new(alloc);
    for (i, (told, expected)) in PUTS.iter().enumerate() {
        assert!(rt; puts(alloc, &mut held, *told, expected)?, "operation {i}");
    }
    assert!(rt; are_waiting(&held, [(0, 2), (0, 3), (1, 2)]));
    for (counts, expected) in READY {
        assert!(rt; ready(alloc, &held, counts)? == *expected, "{counts:?}");
    }
    assert!(rt; are_found(&held) && removes(&mut held));
    Ok(())
}
