//! Translation between epochs.

use crate::spelling::{Spelled, are, is_run, list_of, own, run_of};
use crate::trees::{FIRST, Move, SECOND, THIRD, Way, ident_moves, renaming, tree};
use rls_epoch::Epochs;
use rls_ident::EpochName;
use rls_runs::{Run, Runs};
use std::alloc::Global;
use std::cmp::Ordering;
use std::test::Fail;

/// From the origin to the first epoch, and back.
const DOWN: Way = (EpochName::Origin, FIRST);

const UP: Way = (FIRST, EpochName::Origin);

/// From the origin past the first epoch to the second one, back again, and half the way back.
const FAR_DOWN: Way = (EpochName::Origin, SECOND);

const FAR_UP: Way = (SECOND, EpochName::Origin);

const NEAR: Way = (SECOND, FIRST);

/// From the origin to the third epoch.
const DEEP: Way = (EpochName::Origin, THIRD);

/// Offsets and lengths: a former identifier, those beside it, all of them, one that isn't a former one, and both kinds.
const LISTS: [(i32, u32); 5] = [(3, 1), (0, 2), (0, 5), (7, 1), (4, 2)];

/// Whether the one run is the other.
fn run_moves(alloc: Global, epochs: &Epochs, case: Move<'_>) -> Result<bool, Fail> {
    let (way, run, expected) = case;
    if !epochs.kept(way.0) || !epochs.kept(way.1) {
        return Ok(false);
    }
    let moved = epochs.translate_run(way.0, way.1, &run_of(alloc, run)?)?;
    are(alloc, &moved, &[expected])
}

/// Whether these are the identifiers of one run, which is this.
fn is_list(alloc: Global, list: &Runs, expected: Spelled<'_>) -> Result<bool, Fail> {
    if list.run_count() != 1 {
        return Ok(false);
    }
    is_run(alloc, &list.as_slice()[0], expected)
}

/// The list in the other epoch, or `None` if the tree doesn't have both epochs.
fn moved_list(epochs: &Epochs, way: Way, ids: &Runs) -> Result<Option<Runs>, Fail> {
    if !epochs.kept(way.0) || !epochs.kept(way.1) {
        return Ok(None);
    }
    Ok(Some(epochs.translate_runs(way.0, way.1, ids)?))
}

/// Whether the list of the one run's identifiers is that of the other.
fn list_moves(alloc: Global, epochs: &Epochs, case: Move<'_>) -> Result<bool, Fail> {
    let (way, run, expected) = case;
    match moved_list(epochs, way, &list_of(alloc, run)?)? {
        Some(moved) => is_list(alloc, &moved, expected),
        None => Ok(false),
    }
}

/// All three.
fn all_move(alloc: Global, epochs: &Epochs, case: Move<'_>) -> Result<(bool, bool, bool), Fail> {
    let (id, run) = (
        ident_moves(alloc, epochs, case)?,
        run_moves(alloc, epochs, case)?,
    );
    Ok((id, run, list_moves(alloc, epochs, case)?))
}

/// The same in a new tree.
fn moves(alloc: Global, case: Move<'_>) -> Result<(bool, bool, bool), Fail> {
    let epochs = tree(alloc)?;
    all_move(alloc, &epochs, case)
}

#[test]
fn runs_are_translated(rt: HostRuntime) -> Result<(), Fail> {
    let long = 1_073_741_819;
    let cases: &[Move<'_>] = &[
        (DOWN, (&[own(1, 3)], 1), (&[own(2, 3)], 1)),
        (UP, (&[own(2, 3)], 1), (&[own(1, 3)], 1)),
        (FAR_DOWN, (&[own(1, 3)], 1), (&[own(3, 3)], 1)),
        (FAR_DOWN, (&[own(1, 0)], 5), (&[own(3, 0)], 5)),
        // A long run goes at once.
        (DOWN, (&[own(1, 5)], long), (&[own(2, 4), own(1, 5)], long)),
        (UP, (&[own(2, 4), own(1, 5)], long), (&[own(1, 5)], long)),
    ];
    for (i, case) in cases.iter().enumerate() {
        assert_eq!(rt; moves(rt.alloc(), *case)?, (true, true, true), "case {i}");
    }
    Ok(())
}

/// Whether these are the same identifiers.
fn same_lists(ids: &Runs, others: &Runs) -> bool {
    if ids.run_count() != others.run_count() {
        return false;
    }
    let mut pairs = ids.as_slice().iter().zip(others.as_slice().iter());
    pairs.all(|(run, other)| {
        run.len() == other.len() && run.first().compare(other.first()) == Ordering::Equal
    })
}

/// The same in a copy of the tree.
fn moved_in_copy(epochs: &Epochs, way: Way, ids: &Runs) -> Result<Option<Runs>, Fail> {
    let copy = epochs.copy()?;
    moved_list(&copy, way, ids)
}

/// Prepares the tree for the list, and answers whether it has both epochs.
fn prepares(epochs: &mut Epochs, way: Way, ids: &Runs) -> Result<bool, Fail> {
    if !epochs.kept(way.0) || !epochs.kept(way.1) {
        return Ok(false);
    }
    epochs.prepare(way.0, way.1, ids)?;
    Ok(true)
}

/// Whether the list moves to the other one.
fn moves_to(epochs: &Epochs, way: Way, ids: &Runs, expected: &Runs) -> Result<bool, Fail> {
    match moved_list(epochs, way, ids)? {
        Some(moved) => Ok(same_lists(expected, &moved)),
        None => Ok(false),
    }
}

/// Whether a list is the same in the other epoch before and after the tree was prepared for it.
fn moves_again(epochs: &mut Epochs, way: Way, ids: &Runs) -> Result<bool, Fail> {
    match moved_in_copy(epochs, way, ids)? {
        Some(before) => Ok(prepares(epochs, way, ids)? && moves_to(epochs, way, ids, &before)?),
        None => Ok(false),
    }
}

/// Whether a list of one operation's identifiers moves as before once the tree is prepared for it.
fn one_moves_again(
    alloc: Global,
    epochs: &mut Epochs,
    way: Way,
    seq: u32,
    list: (i32, u32),
) -> Result<bool, Fail> {
    let (offset, len) = list;
    let ids = list_of(alloc, (&[own(seq, offset)], len))?;
    moves_again(epochs, way, &ids)
}

/// Whether lists of identifiers of one operation, each from an offset on, move as before once the tree is prepared for them.
fn all_move_again(
    alloc: Global,
    epochs: &mut Epochs,
    way: Way,
    seq: u32,
    lists: &[(i32, u32)],
) -> Result<bool, Fail> {
    for list in lists {
        if !one_moves_again(alloc, epochs, way, seq, *list)? {
            return Ok(false);
        }
    }
    Ok(true)
}

/// Whether a third epoch could be opened in the second one.
fn opens_third(alloc: Global, epochs: &mut Epochs) -> Result<bool, Fail> {
    let renaming = renaming(alloc, 4)?;
    let total = renaming.total();
    if epochs.kept(THIRD) || !epochs.kept(SECOND) || epochs.former_total() > 1_000_000 {
        return Ok(false);
    }
    if total > 1_000_000 {
        return Ok(false);
    }
    epochs.reserve()?;
    epochs.add(0, 4, SECOND, renaming);
    Ok(true)
}

/// What happens to a tree.
#[derive(Clone, Copy)]
enum Event {
    /// It is prepared for lists of identifiers of one operation, which move as before: a way, the operation, and offsets and lengths.
    Prepares(Way, u32, &'static [(i32, u32)]),
    /// The third epoch is opened.
    OpensThird,
    /// A list of the first operation's identifiers, an offset and a length, has the same places in the third epoch.
    MovesDeep(i32, u32),
}

use Event::{MovesDeep, OpensThird, Prepares};

const EVENTS: &[Event] = &[
    Prepares(FAR_DOWN, 1, &LISTS),
    // Back again, to an epoch that is one step away, and back once more.
    Prepares(FAR_UP, 3, &LISTS),
    Prepares(NEAR, 3, &LISTS),
    Prepares(FAR_UP, 3, &LISTS),
    // One more epoch.
    Prepares(FAR_DOWN, 1, &[(1, 3)]),
    OpensThird,
    MovesDeep(1, 3),
    Prepares(DEEP, 1, &[(1, 3), (1, 3)]),
    MovesDeep(2, 2),
];

/// Whether it goes as it has to.
fn happens(alloc: Global, epochs: &mut Epochs, event: Event) -> Result<bool, Fail> {
    match event {
        Prepares(way, seq, lists) => all_move_again(alloc, epochs, way, seq, lists),
        OpensThird => opens_third(alloc, epochs),
        MovesDeep(offset, len) => {
            let (old, new) = (&[own(1, offset)], &[own(4, offset)]);
            list_moves(alloc, epochs, (DEEP, (old, len), (new, len)))
        }
    }
}

/// The first event that goes otherwise than it has to.
fn fault_among(alloc: Global, epochs: &mut Epochs, all: &[Event]) -> Result<Option<usize>, Fail> {
    for (i, event) in all.iter().enumerate() {
        if !happens(alloc, epochs, *event)? {
            return Ok(Some(i));
        }
    }
    Ok(None)
}

/// The same of a new tree.
fn fault(alloc: Global, all: &[Event]) -> Result<Option<usize>, Fail> {
    let mut epochs = tree(alloc)?;
    fault_among(alloc, &mut epochs, all)
}

#[test]
fn known_images_are_found(rt: HostRuntime) -> Result<(), Fail> {
    assert_eq!(rt; fault(rt.alloc(), EVENTS)?, None);
    Ok(())
}

/// Whether the run, translated to the second epoch and then renamed, is this.
fn is_renamed(
    epochs: &Epochs,
    alloc: Global,
    run: &Run,
    expected: Spelled<'_>,
) -> Result<bool, Fail> {
    if !epochs.kept(EpochName::Origin) || !epochs.kept(SECOND) {
        return Ok(false);
    }
    let next = renaming(alloc, 4)?;
    let moved = epochs.translate_run_by(EpochName::Origin, SECOND, &next, run)?;
    are(alloc, &moved, &[expected])
}

/// The same in a new tree.
fn moves_and_is_renamed(
    alloc: Global,
    run: Spelled<'_>,
    expected: Spelled<'_>,
) -> Result<bool, Fail> {
    let (epochs, run) = (tree(alloc)?, run_of(alloc, run)?);
    is_renamed(&epochs, alloc, &run, expected)
}

#[test]
fn runs_are_translated_and_renamed(rt: HostRuntime) -> Result<(), Fail> {
    assert!(rt; moves_and_is_renamed(rt.alloc(), (&[own(1, 0)], 5), (&[own(4, 0)], 5))?);
    Ok(())
}
