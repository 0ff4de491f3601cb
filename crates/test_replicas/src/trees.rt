//! A tree of epochs of worked values.

ghost use Rattle.std.specs.Prelude.{◌≡◌, ◌<◌, IfOk, IsTrue, length};
ghost use Rattle.rls_ident.specs.declared.epoch_name.EpochName.{EpochName};
ghost use Rattle.rls_ident.specs.declared.epoch_name.EpochName.TheVariants.{Origin, Of};
ghost use Rattle.rls_ident.specs.EpochNames.{is_of_member};
ghost use Rattle.rls_rename.specs.Tree.{is_kept};

use crate::spelling::{Spelled, is_ident, list_of, own};
use rls_epoch::Epochs;
use rls_ident::{EpochName, Ident};
use rls_rename::Renaming;
use std::alloc::Global;
use std::test::Fail;

/// The epoch of member 0's second operation.
pub const FIRST: EpochName = EpochName::Of { replica: 0, seq: 2 };

/// The epoch of member 0's third operation, which is opened in the first one.
pub const SECOND: EpochName = EpochName::Of { replica: 0, seq: 3 };

/// The epoch of member 0's fourth operation.
pub const THIRD: EpochName = EpochName::Of { replica: 0, seq: 4 };

/// The renaming of the first five identifiers of member 0's operation before it.
pub fn renaming(alloc: Global, seq: u32) -> Result<Renaming, Fail>
    requires later { 0 < seq }
    ensures replica { IfOk result (λ renaming. renaming.replica ≡ 0) }
    ensures seq { IfOk result (λ renaming. renaming.seq ≡ seq) }
{
    let former = list_of(alloc, (&[own(seq - 1, 0)], 5))?;
    Ok(Renaming::new(alloc, former, 0, seq)?)
}

/// The origin, the first epoch below it, and the second one below that.
pub fn tree(alloc: Global) -> Result<Epochs, Fail>
    ensures count { IfOk result (λ tree. length tree.epochs.nodes ≡ 2) }
    ensures origin { IfOk result (λ tree. IsTrue (is_kept tree.epochs.top tree.epochs.nodes Origin)) }
    ensures first { IfOk result (λ tree. IsTrue (is_kept tree.epochs.top tree.epochs.nodes (Of 0 2))) }
    ensures second { IfOk result (λ tree. IsTrue (is_kept tree.epochs.top tree.epochs.nodes (Of 0 3))) }
    ensures members { IfOk result (λ tree. (e : EpochName) → IsTrue (is_kept tree.epochs.top tree.epochs.nodes e) → IsTrue (is_of_member 2 e)) }
{
    let mut epochs = Epochs::starting_at(alloc, EpochName::Origin)?;
    epochs.reserve()?;
    epochs.add(0, 2, EpochName::Origin, renaming(alloc, 2)?);
    epochs.reserve()?;
    epochs.add(0, 3, FIRST, renaming(alloc, 3)?);
    Ok(epochs)
}

/// From one epoch to another.
pub type Way = (EpochName, EpochName);

/// A way, a run, and the run that it is in the other epoch.
pub type Move<'a> = (Way, Spelled<'a>, Spelled<'a>);

/// Whether the first identifier of the one run is that of the other.
pub fn ident_moves(alloc: Global, epochs: &Epochs, case: Move<'_>) -> Result<bool, Fail> {
    let (way, run, expected) = case;
    if !epochs.kept(way.0) || !epochs.kept(way.1) {
        return Ok(false);
    }
    let moved = epochs.translate(way.0, way.1, &Ident::from_tuples(alloc, run.0)?)?;
    is_ident(alloc, &moved, expected.0)
}
