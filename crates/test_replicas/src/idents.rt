//! Tuples, identifiers, names of epochs and vectors.

use rls_ident::{EpochName, Ident, IdentError, Spot, Tuple, Vector, between};
use std::alloc::{AllocError, Global};
use std::cmp::Ordering;
use std::test::Fail;
use test_steps::told::{MIDDLE, ORIGIN, at, old};

/// A tuple of member 1's first operation.
const SPOT: Spot = Spot {
    pos: 5,
    replica: 1,
    seq: 1,
    offset: 0,
};

/// The tuple with the least offset that may stand before another one, but not last.
const LEAST: Tuple = Tuple::At {
    pos: 5,
    replica: 1,
    seq: 1,
    offset: -1_073_741_825,
};

#[test]
fn offsets_of_tuples(rt: HostRuntime) {
    let offsets = [SPOT.lowered(1).offset, SPOT.raised(4).offset];
    assert!(rt; offsets == [-1, 4]);
    assert!(rt; LEAST.is_inner() && !LEAST.is_last());
    assert!(rt; Tuple::High.is_inner() && !Tuple::High.is_last());
}

/// Four tuples, each less than the next.
fn ascending() -> [Tuple; 4] {
    let (lowered, raised) = (SPOT.lowered(1), SPOT.raised(4));
    [
        Tuple::Low,
        lowered.as_tuple(),
        raised.as_tuple(),
        Tuple::High,
    ]
}

/// Whether the tuple compares with the ascending ones as this place does with theirs.
fn is_ordered_at(place: usize, tuple: Tuple) -> bool {
    for (i, other) in ascending().iter().enumerate() {
        if tuple.compare(other) != place.cmp(&i) {
            return false;
        }
    }
    true
}

#[test]
fn tuples_are_ordered(rt: HostRuntime) {
    for (i, tuple) in ascending().iter().enumerate() {
        assert!(rt; is_ordered_at(i, *tuple), "tuple {i}");
    }
}

/// Why these tuples are no identifier, if they are none.
fn refusal(alloc: Global, tuples: &[Tuple]) -> Option<IdentError> {
    match Ident::from_tuples(alloc, tuples) {
        Ok(_) => None,
        Err(error) => Some(error),
    }
}

/// Two tuples of member 0.
fn nested() -> [Tuple; 2] {
    [old(-1), at(MIDDLE, 0, 2, 0)]
}

/// Whether an identifier of two tuples has these.
fn has_parts(alloc: Global) -> Result<bool, Fail> {
    let id = Ident::from_tuples(alloc, &nested())?;
    let ends = (id.tuple(0), id.last().as_tuple());
    Ok(id.len() == 2 && ends == (old(-1), at(MIDDLE, 0, 2, 0)))
}

#[test]
fn identifiers_have_a_shape(rt: HostRuntime) -> Result<(), Fail> {
    let alloc = rt.alloc();
    let shape = IdentError::Shape { index: 0 };
    assert!(rt; refusal(alloc, &[]) == Some(IdentError::Empty));
    assert!(rt; refusal(alloc, &[Tuple::Low]) == Some(shape));
    assert!(rt; has_parts(alloc)?);
    Ok(())
}

/// The identifier of one tuple of member 0's first operation.
pub fn first(alloc: Global, offset: i32) -> Result<Ident, Fail> {
    Ok(Ident::from_tuples(alloc, &[old(offset)])?)
}

/// Whether the first identifier is less than the second.
fn is_less(alloc: Global, one: &[Tuple], other: &[Tuple]) -> Result<bool, Fail> {
    let one = Ident::from_tuples(alloc, one)?;
    let order = one.compare(&Ident::from_tuples(alloc, other)?);
    Ok(order == Ordering::Less)
}

/// Whether a copy of an identifier equals it.
fn is_copied(alloc: Global) -> Result<bool, Fail> {
    let id = first(alloc, 0)?;
    Ok(id.copy()?.compare(&id) == Ordering::Equal)
}

/// Whether an identifier is the same when it has had a prefix.
fn is_stripped(alloc: Global) -> Result<bool, Fail> {
    let id = first(alloc, 0)?;
    let longer = id.prefixed(&[Tuple::Low])?;
    Ok(longer.stripped(1)?.compare(&id) == Ordering::Equal)
}

#[test]
fn identifiers_are_ordered(rt: HostRuntime) -> Result<(), Fail> {
    let alloc = rt.alloc();
    assert!(rt; is_less(alloc, &nested(), &[old(0)])?);
    assert!(rt; is_less(alloc, &[old(-1)], &nested())?);
    assert!(rt; is_copied(alloc)? && is_stripped(alloc)?);
    Ok(())
}

/// Whether the identifier of offset 5 follows the one of offset 2 by this much.
fn follows_by(alloc: Global, by: u32) -> Result<bool, Fail> {
    let before = first(alloc, 2)?;
    Ok(first(alloc, 5)?.follows_by(&before, by))
}

/// Whether the identifier of offset 5 follows the one of offset 4.
fn follows(alloc: Global) -> Result<bool, Fail> {
    let before = first(alloc, 4)?;
    Ok(first(alloc, 5)?.follows(&before))
}

/// Whether an identifier that is appended to another has one tuple with this position.
fn is_appended_at(alloc: Global, pos: u32) -> Result<bool, Fail> {
    let end = first(alloc, 4)?;
    let id = between(alloc, Some(&end), None, 1, 1)?;
    Ok(id.last().pos == pos && id.len() == 1)
}

/// Whether an identifier of one tuple has no other in front, and comes under that tuple and the greatest.
fn is_alone(alloc: Global) -> Result<bool, Fail> {
    let id = first(alloc, 0)?;
    Ok(id.front().is_empty() && id.under(&[old(0), Tuple::High]))
}

#[test]
fn identifiers_follow(rt: HostRuntime) -> Result<(), Fail> {
    let alloc = rt.alloc();
    assert!(rt; follows_by(alloc, 3)? && !follows_by(alloc, 2)?);
    assert!(rt; follows(alloc)? && is_alone(alloc)?);
    assert!(rt; is_appended_at(alloc, 3_221_225_471)?);
    Ok(())
}

/// The tuple of member 0's first operation with the offset 0.
const HELLO: Tuple = Tuple::At {
    pos: MIDDLE,
    replica: 0,
    seq: 1,
    offset: 0,
};

/// The last offset of the identifier that is greater by 4.
fn shifted(alloc: Global) -> Result<i32, Fail> {
    let id = Ident::from_tuples(alloc, &[HELLO])?;
    Ok(id.shifted(4)?.last().offset)
}

/// The last offset of the identifier that is less by 1.
fn lowered(alloc: Global) -> Result<i32, Fail> {
    let id = Ident::from_tuples(alloc, &[HELLO])?;
    Ok(id.lowered(1)?.last().offset)
}

#[test]
fn offsets_move(rt: HostRuntime) -> Result<(), Fail> {
    assert!(rt; shifted(rt.alloc())? == 4 && lowered(rt.alloc())? == -1);
    Ok(())
}

/// The epoch of member 0's second operation.
const SECOND: EpochName = EpochName::Of { replica: 0, seq: 2 };

#[test]
fn names(rt: HostRuntime) {
    let third = EpochName::Of { replica: 0, seq: 3 };
    assert!(rt; SECOND.same(&SECOND) && ORIGIN.same(&ORIGIN));
    assert!(rt; !SECOND.same(&third) && !SECOND.same(&ORIGIN));
}

/// Whether the vector of a list has its counts and its length.
fn is_listed(alloc: Global) -> Result<bool, Fail> {
    let vector = Vector::from_vec(vec![in alloc; 3, 0, 2]?);
    Ok(vector.counts() == [3, 0, 2].as_slice() && vector.len() == 3)
}

/// Whether a vector into which these counts are put one by one has them, and so have a copy and the vector of all of them.
fn is_put(alloc: Global, counts: &[u32]) -> Result<bool, Fail> {
    let mut vector = Vector::new(alloc);
    for count in counts {
        vector.push(*count)?;
    }
    let (copy, whole) = (vector.copy()?, Vector::from_counts(alloc, counts)?);
    Ok(vector.counts() == counts && copy.counts() == counts && whole.counts() == counts)
}

/// Whether the counts aren't at most the others, and include the first epoch alone.
fn is_behind(counts: &Vector, other: &Vector) -> bool {
    if counts.len() != 2 || counts.at_most(other) {
        return false;
    }
    ORIGIN.within(counts) && !SECOND.within(counts)
}

/// Whether the counts include the second epoch too when they are joined with the others.
fn joins(counts: &mut Vector, other: &Vector) -> bool {
    if counts.len() != 2 || other.len() != 2 {
        return false;
    }
    counts.join_in(other);
    counts.len() == 2 && SECOND.within(counts)
}

/// Whether there are two counts when they meet the others.
fn meets(counts: &mut Vector, other: &Vector) -> bool {
    if counts.len() != other.len() {
        return false;
    }
    counts.meet_in(other);
    counts.len() == 2
}

/// Whether a copy of the counts begins with this one.
fn begins(counts: &Vector, count: u32) -> Result<bool, AllocError> {
    let copy = counts.copy()?;
    Ok(copy.len() > 0 && copy.get(0) == count)
}

/// Whether the vector of member 1's first operation is joined with another, and meets it.
fn is_joined(alloc: Global) -> Result<bool, Fail> {
    let other = Vector::from_counts(alloc, &[3, 0])?;
    let mut counts = Vector::zero(alloc, 2)?;
    counts.raise(1);
    let joined = is_behind(&counts, &other) && joins(&mut counts, &other);
    Ok(joined && meets(&mut counts, &other) && begins(&counts, 3)?)
}

#[test]
fn vectors(rt: HostRuntime) -> Result<(), Fail> {
    assert!(rt; is_listed(rt.alloc())?);
    assert!(rt; is_put(rt.alloc(), &[4, 3, 2, 1])? && is_put(rt.alloc(), &[6, 5, 4, 3, 2, 1])?);
    assert!(rt; is_joined(rt.alloc())?);
    Ok(())
}
