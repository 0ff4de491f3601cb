//! Trees of epochs: their order, what they tell, and what is kept of them.

ghost use Rattle.std.specs.Prelude.{IsTrue, length};
ghost use Rattle.rls_ident.specs.declared.epoch_name.EpochName.{EpochName};
ghost use Rattle.rls_ident.specs.declared.epoch_name.EpochName.TheVariants.{Origin};
ghost use Rattle.rls_ident.specs.EpochNames.{is_of_member};
ghost use Rattle.rls_rename.specs.Tree.{is_kept};

use crate::spelling::own;
use crate::trees::{FIRST, SECOND, Way, ident_moves, tree};
use rls_epoch::{Epochs, Retained};
use rls_ident::{EpochName, Vector};
use std::alloc::Global;
use std::cmp::Ordering;
use std::test::Fail;

/// From the first epoch to the second one.
const NEXT: Way = (FIRST, SECOND);

/// How many epochs and former identifiers there are, and the greatest epoch.
type Sizes = (u64, u64, EpochName);

fn sizes(epochs: &Epochs) -> Sizes {
    (epochs.count(), epochs.former_total(), epochs.greatest())
}

/// The sizes of a copy.
fn copied_sizes(epochs: &Epochs) -> Result<Sizes, Fail> {
    let copy = epochs.copy()?;
    Ok(sizes(&copy))
}

/// The sizes of a new tree, and of its copy.
fn sizes_twice(alloc: Global) -> Result<(Sizes, Sizes), Fail> {
    let epochs = tree(alloc)?;
    Ok((sizes(&epochs), copied_sizes(&epochs)?))
}

/// How the first epoch is to the second one, and that one to the origin.
fn orders(alloc: Global) -> Result<(Ordering, Ordering), Fail> {
    let epochs = tree(alloc)?;
    let first = epochs.compare(FIRST, SECOND);
    Ok((first, epochs.compare(SECOND, EpochName::Origin)))
}

/// Whether an epoch of this name would be the greatest, if it can be opened in the origin.
fn opens_greatest(alloc: Global, replica: u32, seq: u32) -> Result<Option<bool>, Fail> {
    let epochs = tree(alloc)?;
    if epochs.kept(EpochName::Of { replica, seq }) {
        return Ok(None);
    }
    Ok(Some(epochs.opens_greatest(replica, seq, EpochName::Origin)))
}

/// The greatest epoch within a vector.
fn greatest_in(alloc: Global, first: u32) -> Result<EpochName, Fail> {
    let epochs = tree(alloc)?;
    let vector = Vector::from_counts(alloc, &[first, 0])?;
    Ok(epochs.greatest_in(&vector))
}

#[test]
fn epochs_are_ordered(rt: HostRuntime) -> Result<(), Fail> {
    let alloc = rt.alloc();
    let expected = (3, 10, SECOND);
    assert_eq!(rt; sizes_twice(alloc)?, (expected, expected));
    assert_eq!(rt; orders(alloc)?, (Ordering::Less, Ordering::Greater));
    assert_eq!(rt; opens_greatest(alloc, 1, 1)?, Some(true));
    assert_eq!(rt; opens_greatest(alloc, 0, 1)?, Some(false));
    assert_eq!(rt; opens_greatest(alloc, 0, 2)?, None);
    assert_eq!(rt; greatest_in(alloc, 2)?, FIRST);
    assert_eq!(rt; greatest_in(alloc, 1)?, EpochName::Origin);
    Ok(())
}

/// The name of an epoch, the place of its parent, the name of that one, and the numbers of the renaming that opened it: by place and
/// by name.
type Listed = (
    EpochName,
    Option<u64>,
    Option<EpochName>,
    Option<u32>,
    Option<u32>,
);

/// What the tree tells of the epoch at a place, if there is one.
fn listed(epochs: &Epochs, place: u64) -> Option<Listed> {
    if place >= epochs.count() {
        return None;
    }
    let name = epochs.name(place);
    if !epochs.kept(name) {
        return None;
    }
    let by_place = epochs.renaming(place).map(|renaming| renaming.seq());
    let by_name = epochs.renaming_of(name).map(|renaming| renaming.seq());
    Some((
        name,
        epochs.parent(place),
        epochs.parent_of(name),
        by_place,
        by_name,
    ))
}

/// The same of a new tree.
fn listed_in_tree(alloc: Global, place: u64) -> Result<Option<Listed>, Fail> {
    let epochs = tree(alloc)?;
    Ok(listed(&epochs, place))
}

#[test]
fn epochs_are_listed(rt: HostRuntime) -> Result<(), Fail> {
    let epochs: &[Listed] = &[
        (EpochName::Origin, None, None, None, None),
        (FIRST, Some(0), Some(EpochName::Origin), Some(2), Some(2)),
        (SECOND, Some(1), Some(FIRST), Some(3), Some(3)),
    ];
    for (place, expected) in epochs.iter().enumerate() {
        let found = listed_in_tree(rt.alloc(), place as u64)?;
        assert_eq!(rt; found, Some(*expected), "place {place}");
    }
    Ok(())
}

/// What is retained, with the origin marked or not.
fn retained(epochs: &Epochs, stable: &Vector, is_marked: bool) -> Result<Retained, Fail>
    requires origin { IsTrue (is_kept epochs.now.epochs.top epochs.now.epochs.nodes Origin) }
    requires members { (e : EpochName) → IsTrue (is_kept epochs.now.epochs.top epochs.now.epochs.nodes e) → IsTrue (is_of_member (length stable.now) e) }
{
    Ok(if is_marked {
        epochs.retained(stable, &[EpochName::Origin])?
    } else {
        epochs.retained(stable, &[])?
    })
}

/// Whether a tree retains these, and this many former identifiers.
fn retains_of(
    epochs: &Epochs,
    stable: &Vector,
    is_marked: bool,
    names: &[EpochName],
    former: u64,
) -> Result<bool, Fail>
    requires origin { IsTrue (is_kept epochs.now.epochs.top epochs.now.epochs.nodes Origin) }
    requires members { (e : EpochName) → IsTrue (is_kept epochs.now.epochs.top epochs.now.epochs.nodes e) → IsTrue (is_of_member (length stable.now) e) }
{
    let part = retained(epochs, stable, is_marked)?;
    Ok(part.names.as_slice() == names && part.former == former)
}

/// The same of a new tree.
fn retains(alloc: Global, is_marked: bool, names: &[EpochName], former: u64) -> Result<bool, Fail> {
    let stable = Vector::from_counts(alloc, &[2, 0])?;
    let epochs = tree(alloc)?;
    retains_of(&epochs, &stable, is_marked, names, former)
}

#[test]
fn epochs_are_retained(rt: HostRuntime) -> Result<(), Fail> {
    let all = [EpochName::Origin, FIRST, SECOND];
    assert!(rt; retains(rt.alloc(), false, &[FIRST, SECOND], 5)?);
    assert!(rt; retains(rt.alloc(), true, &all, 10)?);
    Ok(())
}

/// Keeps what has to stay, with the origin marked or not, and this many operations of member 0 stable.
fn keep(alloc: Global, epochs: &mut Epochs, is_marked: bool, stable: u32) -> Result<(), Fail>
    requires origin { IsTrue (is_kept epochs.old.epochs.top epochs.old.epochs.nodes Origin) }
    requires members { (e : EpochName) → IsTrue (is_kept epochs.old.epochs.top epochs.old.epochs.nodes e) → IsTrue (is_of_member 2 e) }
{
    let stable = Vector::from_counts(alloc, &[stable, 0])?;
    epochs.mark(EpochName::Origin);
    if !is_marked {
        epochs.clear_marks();
    }
    epochs.keep(&stable);
    Ok(())
}

/// The sizes of a tree, its least epoch, whether the origin is in it, and whether an identifier of the first epoch moves to the
/// second one.
type Kept = (Sizes, EpochName, bool, bool);

fn told(alloc: Global, epochs: &Epochs) -> Result<Kept, Fail> {
    let has_origin = epochs.kept(EpochName::Origin);
    let moves = ident_moves(alloc, epochs, (NEXT, (&[own(2, 1)], 1), (&[own(3, 1)], 1)))?;
    Ok((sizes(epochs), epochs.name(0), has_origin, moves))
}

/// How a new tree is once that is kept.
fn kept(alloc: Global, is_marked: bool, stable: u32) -> Result<Kept, Fail> {
    let mut epochs = tree(alloc)?;
    keep(alloc, &mut epochs, is_marked, stable)?;
    told(alloc, &epochs)
}

#[test]
fn marked_epochs_are_kept(rt: HostRuntime) -> Result<(), Fail> {
    let expected = ((3, 10, SECOND), EpochName::Origin, true, true);
    assert_eq!(rt; kept(rt.alloc(), true, 3)?, expected);
    Ok(())
}

#[test]
fn other_epochs_are_dropped(rt: HostRuntime) -> Result<(), Fail> {
    let expected = ((2, 5, SECOND), FIRST, false, true);
    assert_eq!(rt; kept(rt.alloc(), false, 2)?, expected);
    Ok(())
}
