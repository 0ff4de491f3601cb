//! One node of a tree of epochs.

ghost use Rattle.std.specs.Prelude.{◌≡◌, IfOk};
ghost use Rattle.rls_rename.specs.Tree.{name_of};

use rls_ident::EpochName;
use rls_rename::Renaming;
use std::alloc::AllocError;

// The epoch in which one was opened with its number, and the renaming that opened it. The number of
// the topmost epoch is 0, and any other's is one more than its place.
#[derive(Drop)]
pub(crate) struct Placed {
    pub(crate) parent: EpochName,
    pub(crate) up: usize,
    pub(crate) renaming: Renaming,
}

impl Placed {
    // The epoch's name.
    pub(crate) fn name(&self) -> EpochName
        ensures name { result ≡ name_of self.now.renaming }
    {
        EpochName::Of {
            replica: self.renaming.replica(),
            seq: self.renaming.seq(),
        }
    }

    // The same again.
    pub(crate) fn copy(&self) -> Result<Placed, AllocError>
        ensures copy { IfOk result (λ placed. placed ≡ self.now) }
    {
        Ok(Placed {
            parent: self.parent,
            up: self.up,
            renaming: self.renaming.copy()?,
        })
    }
}
