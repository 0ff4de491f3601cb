//! What becomes of the identifiers of a text where a rename opens the greatest epoch.

ghost use Rattle.std.specs.Prelude.{◌≡◌, IfOk, IsTrue};
ghost use Rattle.rls_runs.specs.Runs.{IsImage};
ghost use Rattle.rls_rename.specs.Renaming.{IsFormer};
ghost use Rattle.rls_rename.specs.Tree.{AreNodes, is_kept};
ghost use Rattle.rls_doc.specs.Documents.{KeepsOrder};
ghost use Rattle.rls_replica.specs.Changing.{renamed_from};

use rls_doc::RunMap;
use rls_epoch::Epochs;
use rls_ident::EpochName;
use rls_rename::Renaming;
use rls_runs::{Run, RunList};
use std::alloc::{AllocError, Global};

// From one kept epoch to another, and then by a renaming.
#[derive(Drop)]
pub(crate) struct RenamingText<'a> {
    epochs: &'a Epochs,
    from: EpochName,
    to: EpochName,
    renaming: &'a Renaming,
    ghost from_kept: { IsTrue (is_kept epochs.now.epochs.top epochs.now.epochs.nodes from) },
    ghost to_kept: { IsTrue (is_kept epochs.now.epochs.top epochs.now.epochs.nodes to) },
    ghost ordered: { KeepsOrder (renamed_from epochs.now.epochs.nodes from to renaming.now) },
}

impl<'a> RenamingText<'a> {
    pub(crate) fn new(
        epochs: &'a Epochs,
        from: EpochName,
        to: EpochName,
        renaming: &'a Renaming,
    ) -> RenamingText<'a>
        requires nodes { AreNodes epochs.now.epochs.nodes }
        requires former { IsFormer renaming.now.former }
        requires from { IsTrue (is_kept epochs.now.epochs.top epochs.now.epochs.nodes from) }
        requires to { IsTrue (is_kept epochs.now.epochs.top epochs.now.epochs.nodes to) }
        ensures epochs { result.epochs.now ≡ epochs.entry.now }
        ensures from { result.from ≡ from }
        ensures to { result.to ≡ to }
        ensures renaming { result.renaming.now ≡ renaming.entry.now }
    {
        RenamingText {
            epochs,
            from,
            to,
            renaming,
        }
    }
}

impl<'a> RunMap for RenamingText<'a> {
    ghost image = { λ m. renamed_from m.epochs.now.epochs.nodes m.from m.to m.renaming.now };

    fn map(&self, _alloc: Global, run: &Run) -> Result<RunList, AllocError> {
        self.epochs
            .translate_run_by(self.from, self.to, self.renaming, run)
    }

    ghost keeps_order = { λ m. m.ordered };
}
