//! A renaming on the heap.

ghost use Rattle.std.specs.Prelude.{◌≡◌, IfOk};

use rls_rename::Renaming;
use std::alloc::{AllocError, Global};
use std::marker::Model;

/// A renaming on the heap, seen as the renaming. So what has none, as every operation but a rename, is handed on in two words.
#[derive(Drop)]
pub(crate) struct RenamingBox {
    renaming: Box<Renaming>,
}

impl Model for RenamingBox {
    ghost use Rattle.rls_rename.specs.Renaming.{Renaming};

    ghost Value = { Renaming };

    ghost view = { λ b. b.renaming.value };
}

impl RenamingBox {
    pub(crate) fn new(alloc: Global, renaming: Renaming) -> Result<RenamingBox, AllocError>
        ensures renaming { IfOk result (λ b. b ≡ renaming) }
    {
        Ok(RenamingBox {
            renaming: Box::new(alloc, renaming)?,
        })
    }

    pub(crate) fn renaming(&self) -> &Renaming
        ensures renaming { result.now ≡ self.now }
    {
        &self.renaming
    }

    pub(crate) fn into_renaming(self) -> Renaming
        ensures renaming { result ≡ self }
    {
        let RenamingBox { renaming } = self;
        Box::into_inner(renaming)
    }
}
